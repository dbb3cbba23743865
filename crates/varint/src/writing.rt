//! Writing a varint at the end of bytes.

ghost use Rattle.std.specs.Prelude.{◌≡◌, ◌≤◌, ◌<◌, ◌++◌, length, take, OnOk, OnErr};
ghost use Rattle.varint.specs.Encoding.{encoding, digits};

use crate::zigzag::zigzag_of;
use std::alloc::{AllocError, Allocator};

/// The digits of a number in the first bytes of the ten, and how many there are.
fn digits_of(number: u64) -> ([u8; 10], usize)
    ensures len { result.1 ≤ 10 }
    ensures bytes { take result.1 result.0 ≡ digits 9 number }
{
    let mut bytes = [0u8; 10];
    let mut rest = number;
    let mut used = 0;
    while rest >= 128 {
        bytes[used] = 128 + (rest % 128) as u8;
        rest /= 128;
        used += 1;
    }
    bytes[used] = rest as u8;
    (bytes, used + 1)
}

/// How many digits a number has: 1 to 10.
fn digit_count(number: u64) -> usize
    ensures { result ≡ length (digits 9 number) }
{
    let mut rest = number;
    let mut others = 0;
    while rest >= 128 {
        rest /= 128;
        others += 1;
    }
    others + 1
}

/// Writes a number of 64 bits at the end, in 1 to 10 bytes. Without memory nothing is written.
#[tactic(auto, using(crate::proofs::Encodings::digits_last), unfolding(crate::specs::Encoding::encoding))]
pub fn put_i64<A: Allocator + Copy>(out: &mut Vec<u8, A>, value: i64) -> Result<(), AllocError>
    ensures appends_encoding { OnOk result (out.new.items ≡ out.old.items ++ encoding value) }
    ensures unchanged_on_error { OnErr result (out.new.items ≡ out.old.items) }
{
    let code = zigzag_of(value);
    if code < 128 {
        out.push(code as u8)?;
        return Ok(());
    }
    let (bytes, used) = digits_of(code);
    out.extend_from_slice(&bytes[..used])
}

/// Writes a number of 32 bits at the end, in 1 to 5 bytes. Without memory nothing is written.
///
/// ```
/// put_i32(&mut out, 300)?; // appends 0xd8, 0x04
/// ```
pub fn put_i32<A: Allocator + Copy>(out: &mut Vec<u8, A>, value: i32) -> Result<(), AllocError>
    ensures appends_encoding { OnOk result (out.new.items ≡ out.old.items ++ encoding value) }
    ensures unchanged_on_error { OnErr result (out.new.items ≡ out.old.items) }
{
    put_i64(out, i64::from(value))
}

/// How many bytes a number of 64 bits takes: 1 to 10.
#[tactic(auto, using(crate::proofs::Digits::most), unfolding(crate::specs::Encoding::encoding))]
pub fn len_i64(value: i64) -> usize
    ensures counts_encoding { result ≡ length (encoding value) }
    ensures at_most_10 { result ≤ 10 }
{
    digit_count(zigzag_of(value))
}

/// How many bytes a number of 32 bits takes: 1 to 5.
#[tactic(auto, using(crate::proofs::Digits::most_of_32_bits))]
pub fn len_i32(value: i32) -> usize
    ensures counts_encoding { result ≡ length (encoding value) }
    ensures at_most_5 { result ≤ 5 }
{
    len_i64(i64::from(value))
}
