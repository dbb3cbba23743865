//! A Clean as `tests/rows/fields.rows` has it in bytes, and its response.

use crate::{put_clean_frame, put_clean_part_frame, read_clean_reply};
use std::test::Fail;

/// Partition 0 of `t` up to offset 6, deletions below 6 too, by the correlation id 3; behind a byte of something else.
static ASKED: [u8; 38] = [
    0x7f, 0, 0, 0, 0x21, 0x4e, 0x21, 0, 0, 0, 0, 0, 3, 0xff, 0xff, 0, 1, b't', 0, 0, 0, 0, 0, 0, 0,
    0, 0, 0, 0, 6, 0, 0, 0, 0, 0, 0, 0, 6,
];

/// The same from offset 0 to offset 4.
static PART_ASKED: [u8; 54] = [
    0x7f, 0, 0, 0, 0x31, 0x4e, 0x21, 0, 1, 0, 0, 0, 3, 0xff, 0xff, 0, 1, b't', 0, 0, 0, 0, 0, 0, 0,
    0, 0, 0, 0, 0, 0, 0, 0, 0, 0, 0, 0, 4, 0, 0, 0, 0, 0, 0, 0, 6, 0, 0, 0, 0, 0, 0, 0, 6,
];

/// No error; 4 records, a tombstone and 2 batches.
static REPLY: [u8; 34] = [
    0, 0, 0, 0x1e, 0, 0, 0, 3, 0, 0, 0, 0, 0, 0, 0, 0, 0, 4, 0, 0, 0, 0, 0, 0, 0, 1, 0, 0, 0, 0, 0,
    0, 0, 2,
];

#[test]
fn a_cleaning_is_asked_for(rt: HostRuntime) -> Result<(), Fail> {
    let mut out = b"\x7f".to_vec(rt.alloc())?;
    put_clean_frame(&mut out, 3, b"t", 0, 6, 6)?;
    assert_eq!(rt; out.as_slice(), ASKED.as_slice());
    Ok(())
}

#[test]
fn a_part_is_asked_for(rt: HostRuntime) -> Result<(), Fail> {
    let mut out = b"\x7f".to_vec(rt.alloc())?;
    put_clean_part_frame(&mut out, 3, b"t", 0, 0, 4, 6, 6)?;
    assert_eq!(rt; out.as_slice(), PART_ASKED.as_slice());
    Ok(())
}

#[test]
fn its_response_is_read(rt: HostRuntime) {
    let found = match read_clean_reply(&REPLY) {
        Some(answer) => Some((
            answer.code,
            answer.records,
            answer.tombstones,
            answer.batches,
        )),
        None => None,
    };
    assert_eq!(rt; found, Some((0, 4, 1, 2)));
}
