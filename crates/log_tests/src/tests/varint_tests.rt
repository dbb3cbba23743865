//! `put_i32`, `put_i64`, `len_i32`, `len_i64`, `read_i32` and `read_i64` on numbers worked by hand.

use std::alloc::Allocator;
use varint::{VarintError, len_i32, len_i64, one_encoding, put_i32, put_i64, read_i32, read_i64};

/// Numbers, and their bytes worked by hand.
static NUMBERS: [(i64, &[u8]); 10] = [
    (0, &[0x00]),
    (-1, &[0x01]),
    (63, &[0x7e]),
    (64, &[0x80, 0x01]),
    (-65, &[0x81, 0x01]),
    (300, &[0xd8, 0x04]),
    (2147483647, &[0xfe, 0xff, 0xff, 0xff, 0x0f]),
    (-2147483648, &[0xff, 0xff, 0xff, 0xff, 0x0f]),
    (
        i64::MAX,
        &[0xfe, 0xff, 0xff, 0xff, 0xff, 0xff, 0xff, 0xff, 0xff, 0x01],
    ),
    (
        i64::MIN,
        &[0xff, 0xff, 0xff, 0xff, 0xff, 0xff, 0xff, 0xff, 0xff, 0x01],
    ),
];

/// Bytes, and their refusal as a number of 32 and of 64 bits.
static REFUSALS: [(&[u8], VarintError, VarintError); 5] = [
    (&[], VarintError::Short, VarintError::Short),
    (&[0x80], VarintError::Short, VarintError::Short),
    (
        &[0x80, 0x00],
        VarintError::NotShortest,
        VarintError::NotShortest,
    ),
    (&[0x80; 9], VarintError::TooLong, VarintError::Short),
    (&[0x80; 10], VarintError::TooLong, VarintError::TooLong),
];

/// Whether a number of 64 bits is written as these bytes, and these are read as that number.
fn is_of_64<A: Allocator + Copy>(alloc: A, value: i64, bytes: &[u8]) -> bool {
    let mut out = Vec::new(alloc);
    let is_written = put_i64(&mut out, value).is_ok() && out.as_slice() == bytes;
    is_written && len_i64(value) == bytes.len() && read_i64(bytes) == Ok((value, bytes.len()))
}

/// Whether a number of 32 bits is written as these bytes, and these are read as that number.
fn is_of_32<A: Allocator + Copy>(alloc: A, value: i32, bytes: &[u8]) -> bool {
    let mut out = Vec::new(alloc);
    let is_written = put_i32(&mut out, value).is_ok() && out.as_slice() == bytes;
    is_written && len_i32(value) == bytes.len() && read_i32(bytes) == Ok((value, bytes.len()))
}

#[test]
fn numbers_and_their_bytes(rt: HostRuntime) {
    for (value, bytes) in &NUMBERS {
        let is_right = is_of_64(rt.alloc(), *value, bytes);
        let is_right_of_32 = match i32::try_from(*value) {
            Ok(small) => is_of_32(rt.alloc(), small, bytes),
            Err(_) => true,
        };
        assert!(rt; is_right && is_right_of_32, "at {value}");
    }
}

#[test]
fn refusals(rt: HostRuntime) {
    one_encoding();
    for (bytes, of_32_bits, of_64_bits) in &REFUSALS {
        let is_refused = read_i32(bytes) == Err(*of_32_bits) && read_i64(bytes) == Err(*of_64_bits);
        assert!(rt; is_refused, "{bytes:?}");
    }
    let past_32_bits = read_i32(&[0xff, 0xff, 0xff, 0xff, 0x1f]);
    assert_eq!(rt; past_32_bits, Err(VarintError::TooLong));
}
