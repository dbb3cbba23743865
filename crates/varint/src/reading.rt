//! Reading a varint at the front of bytes.

ghost use Rattle.std.specs.Prelude.{◌≡◌, ◌≤◌, ◌*◌, ◌+◌, ◌/◌, ◌<◌, ◌++◌, ◌↔◌, ℤ, ℕ, List, IfOk, IsErrOf, Ok, FitsSigned, drop, length};
ghost use Rattle.std.specs.Int.{w32, w64};
ghost use Rattle.varint.specs.Encoding.{encoding, zigzag};
ghost use Rattle.varint.specs.Refusals.{IsShort, IsTooLong, IsNotShortest};
ghost use Rattle.varint.specs.Reading.{Gives, IsGreatest, number_at, signed, varint_at, varlong_at};

use crate::error::VarintError;
use crate::zigzag::number_of;

/// The greatest zigzag number of a number of 32 bits.
const GREATEST_I32: u64 = 0xffff_ffff;

/// The greatest zigzag number of a number of 64 bits.
const GREATEST_I64: u64 = 0xffff_ffff_ffff_ffff;

/// The number at the front, of at most `limit`, and the bytes used.
#[inline(never)]
#[tactic(auto, using(crate::proofs::Number::number_digit, crate::proofs::Number::limit_rest), unfolding(crate::specs::Reading::number_at))]
fn read_number(bytes: &[u8], limit: u64) -> Result<(u64, usize), VarintError>
    requires { IsGreatest limit }
    ensures read { Gives bytes.now result (number_at limit bytes.now) }
    ensures below { IfOk result (λ read. read.0 ≤ limit) }
{
    let [digit, rest @ ..] = bytes else {
        return Err(VarintError::Short);
    };
    let digit = *digit as u64;
    if limit < 128 {
        return if digit <= limit {
            Ok((digit, 1))
        } else {
            Err(VarintError::TooLong)
        };
    }
    if digit < 128 {
        return Ok((digit, 1));
    }
    let (high, used) = read_number(rest, limit / 128)?;
    if high == 0 {
        return Err(VarintError::NotShortest);
    }
    Ok((digit - 128 + 128 * high, used + 1))
}

/// The signed number at the front, whose zigzag number is at most `limit`, and the bytes used.
#[inline(always)]
#[tactic(auto, using(crate::proofs::Encodings::number_last, crate::proofs::Number::number_two), unfolding(crate::specs::Reading::number_at))]
fn read_signed(bytes: &[u8], limit: u64) -> Result<(i64, usize), VarintError>
    requires large { 16384 ≤ limit }
    requires greatest { IsGreatest limit }
    ensures read { Gives bytes.now result (signed (number_at limit bytes.now)) }
    ensures below { IfOk result (λ read. zigzag read.0 ≤ limit) }
{
    let (code, used) = match bytes {
        [digit, ..] if *digit < 128 => (*digit as u64, 1),
        [low, high, ..] if 0 < *high && *high < 128 => (*low as u64 - 128 + 128 * *high as u64, 2),
        _ => read_number(bytes, limit)?,
    };
    Ok((number_of(code), used))
}

/// The number of 32 bits at the front, and the bytes used.
#[inline(always)]
#[tactic(auto, using(crate::proofs::Encodings::narrowed), unfolding(crate::specs::Reading::varint_at))]
fn number_i32(bytes: &[u8]) -> Result<(i32, usize), VarintError>
    ensures { Gives bytes.now result (varint_at bytes.now) }
{
    let (value, used) = read_signed(bytes, GREATEST_I32)?;
    Ok((value as i32, used))
}

/// The number of 64 bits at the front, and the bytes used.
#[inline(always)]
#[tactic(auto, unfolding(crate::specs::Reading::varlong_at))]
fn number_i64(bytes: &[u8]) -> Result<(i64, usize), VarintError>
    ensures { Gives bytes.now result (varlong_at bytes.now) }
{
    read_signed(bytes, GREATEST_I64)
}

/// Reads a number of 32 bits at the front, and how many bytes it takes: 1 to 5. Bytes may follow.
///
/// ```
/// read_i32(&[0xd8, 0x04, 0x07]) == Ok((300, 2))
/// ```
///
/// # Errors
///
/// - `Short` where every byte has its high bit set, and there are fewer than 5.
/// - `TooLong` where the fifth byte is reached and is above 0x0f.
/// - `NotShortest` where the number takes several bytes, and the last of these is 0.
#[inline(always)]
pub fn read_i32(bytes: &[u8]) -> Result<(i32, usize), VarintError>
    // What is read, or why nothing is.
    ensures reads_varint { Gives bytes.now result (varint_at bytes.now) }
    // What is read is encoded so.
    ensures finds_number { IfOk result (λ read. (bytes.now ≡ encoding read.0 ++ drop read.1 bytes.now)
        × (read.1 ≡ length (encoding read.0))) }
    ensures used_are_there { IfOk result (λ read. read.1 ≤ length bytes.now) }
    // What is encoded so is read, whatever follows it.
    ensures accepts_every_encoding { (v : ℤ) (rest : List ℕ) → FitsSigned w32 v
        → bytes.now ≡ encoding v ++ rest → result ≡ Ok (v, length (encoding v)) }
    ensures short { IsErrOf result VarintError.Short ↔ IsShort 5 bytes.now }
    ensures too_long { IsErrOf result VarintError.TooLong ↔ IsTooLong 5 0x0f bytes.now }
    ensures not_shortest { IsErrOf result VarintError.NotShortest ↔ IsNotShortest 5 0x0f bytes.now }
{
    number_i32(bytes)
}

/// Reads a number of 64 bits at the front, and how many bytes it takes: 1 to 10. Bytes may follow.
///
/// # Errors
///
/// - `Short` where every byte has its high bit set, and there are fewer than 10.
/// - `TooLong` where the tenth byte is reached and is above 0x01.
/// - `NotShortest` where the number takes several bytes, and the last of these is 0.
#[inline(always)]
pub fn read_i64(bytes: &[u8]) -> Result<(i64, usize), VarintError>
    // What is read, or why nothing is.
    ensures reads_varlong { Gives bytes.now result (varlong_at bytes.now) }
    // What is read is encoded so.
    ensures finds_number { IfOk result (λ read. (bytes.now ≡ encoding read.0 ++ drop read.1 bytes.now)
        × (read.1 ≡ length (encoding read.0))) }
    ensures used_are_there { IfOk result (λ read. read.1 ≤ length bytes.now) }
    // What is encoded so is read, whatever follows it.
    ensures accepts_every_encoding { (v : ℤ) (rest : List ℕ) → FitsSigned w64 v
        → bytes.now ≡ encoding v ++ rest → result ≡ Ok (v, length (encoding v)) }
    ensures short { IsErrOf result VarintError.Short ↔ IsShort 10 bytes.now }
    ensures too_long { IsErrOf result VarintError.TooLong ↔ IsTooLong 10 0x01 bytes.now }
    ensures not_shortest { IsErrOf result VarintError.NotShortest
        ↔ IsNotShortest 10 0x01 bytes.now }
{
    number_i64(bytes)
}
