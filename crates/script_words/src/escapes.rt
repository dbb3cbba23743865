//! Escaped bytes: `%` and two hexadecimal digits.

ghost use Rattle.std.specs.Prelude.{◌≡◌, ◌<◌, ◌≤◌, ◌⊎◌, drop, length, IfOk, IfSome, if◌then◌else◌, Some, None};
ghost use Rattle.std.specs.Char.{digit_value, is_digit};
ghost use Rattle.script_words.specs.Escapes.{hex_pair, has_bad_escape, Escapes, IsItself, Says};

use std::alloc::{AllocError, Allocator};

/// The number that a hexadecimal digit says, in either case.
fn hex_value(digit: u8) -> Option<u8>
    ensures value { result ≡ (if is_digit digit 16 then Some (digit_value digit) else None) }
    ensures bound { IfSome result (λ n. n < 16) }
{
    match char::from(digit).to_digit(16) {
        Some(value) => Some(value as u8),
        None => None,
    }
}

/// The number that two hexadecimal digits at the front of a text say.
fn hex_pair(text: &[u8]) -> Option<u8>
    ensures { result ≡ hex_pair text.now }
{
    match text {
        [high, low, ..] => match (hex_value(*high), hex_value(*low)) {
            (Some(high), Some(low)) => Some(high * 16 + low),
            _ => None,
        },
        _ => None,
    }
}

/// Whether a `%` stands in a text that two hexadecimal digits don't follow.
pub fn has_bad_escape(text: &[u8]) -> bool
    ensures { result ≡ has_bad_escape text.now }
{
    let mut rest = text;
    while !rest.is_empty() {
        if rest[0] == b'%' && hex_pair(&rest[1..]).is_none() {
            return true;
        }
        rest = &rest[1..];
    }
    false
}

/// The byte that the front of a text says, and how many bytes say it.
fn next_byte(text: &[u8]) -> (u8, usize)
    requires { 0 < length text.now }
    ensures says { Escapes text.now result.0 (drop result.1 text.now)
        ⊎ IsItself text.now result.0 (drop result.1 text.now) }
    ensures within { result.1 ≤ length text.now }
    ensures some { 0 < result.1 }
{
    if text[0] == b'%' {
        match hex_pair(&text[1..]) {
            Some(byte) => return (byte, 3),
            None => {}
        }
    }
    (text[0], 1)
}

/// How many bytes a text says, if it has no bad escape.
fn said_count(text: &[u8]) -> usize {
    let escapes = text.iter().filter(|byte| **byte == b'%').count();
    text.len().saturating_sub(escapes.saturating_mul(2))
}

/// The bytes that a text says: those of its escapes, and every other byte for itself.
///
/// # Errors
///
/// Out of memory.
pub fn unescape<A: Allocator + Copy>(alloc: A, text: &[u8]) -> Result<Vec<u8, A>, AllocError>
    ensures { IfOk result (λ bytes. Says text.now bytes.items) }
{
    let mut bytes = Vec::with_capacity(alloc, said_count(text))?;
    let mut rest = text;
    while !rest.is_empty() {
        let (byte, size) = next_byte(rest);
        bytes.push(byte)?;
        rest = &rest[size..];
    }
    Ok(bytes)
}
