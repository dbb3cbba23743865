//! Each part of a response, under a failing allocation: the output stays as it was, and with memory the
//! part stands behind it. The parts' bytes are worked out from Kafka's protocol guide, and of
//! own requests from docs/FORMATS.md.

use crate::tests::one::put_one;
use crate::tests::parts::{PARTS, STORED, put_part};
use refusing_alloc::Refusing;
use request_frames::response::set_count;
use std::alloc::Allocator;
use std::test::Fail;

/// The bytes of each part.
static WANTED: [&[u8]; PARTS] = [
    b"\0\0\0\0\0\0\x01\x02",
    b"\0\x02ab\0\0\0\x02",
    b"\0\0\0\x02",
    b"\0\0\0\x01\0\0\x01\x02\x03\x04\x05\x06\x07\x08\xff\xff\xff\xff\xff\xff\xff\xff",
    b"\0\0\0\0",
    b"\0\0\0\0\0\0\0\x02",
    b"\0\0\0\0\0\0\0\0\0\0\0\0\0\x05\0\0\0\0\0\0\0\x05\xff\xff\xff\xff\0\0\0\x03",
    b"\0\0\0\0\0\0\0\0\x01\x8b\xcf\xe5\x68\0\0\0\0\0\0\0\0\x03",
    b"\0\0\0\x01\0\0\0\x01\0\x04h.eu\0\0\x23\x84\xff\xff\0\0\0\x01\0\0\0\x02",
    b"\0\0\0\x02ab\x01\0\0\0\x02",
    b"\0\0\0\0\0\0\0\0\0\x01\0\0\0\x01\0\0\0\x01\0\0\0\x01\0\0\0\x01",
    b"\0\x05\0\0\0\x01\xff\xff\xff\xff\0\0\0\0\0\0\0\0",
    b"\0\0\0\x01\0\x0c",
    b"\0\0\0\x01\0\0\0\0\0\0\x01\x02\0\x02ab\0\0",
    b"\0\0\0\x01\0\0\0\0\0\0\x01\x02\xff\xff\0\0",
    b"\0\0\x01",
    b"\0\0\0\0\0\0\0\0\0\x03\0\0\0\0\0\0\0\x02\0\0\0\0\0\0\0\x01",
    b"\0\0\0\0\x01\x02",
    b"\0\x02",
    b"\0\0\0\0\0\x02",
    b"\0\x03\xff\xff\xff\xff",
    b"\0\0\0\0\0\x02",
    b"\0\0\0\0\0\0\0\x01\0\0\0\0\0\0\x01\x02",
    b"\0\0\0\0\x01\x02",
    b"\0\0\0\0\x01\x02\0\x02",
    b"\0\0\x23\x84",
    b"\0\x23\0\0\0\x09",
    b"\0\x01\x01\x02\x03\x04",
    b"\0\0\0\0\0\0\x01\x02\x03\x04\x05\x06\x07\x08\x01\x02",
];

/// Whether the part can't be put where the next allocation fails, all stays as it was, and the part
/// can be put then, and has these bytes.
fn is_put_later<A: Allocator + Copy>(out: &mut Vec<u8, A>, part: usize, wanted: &[u8]) -> bool {
    let is_refused = put_part(out, part).is_err();
    let is_same = out.as_slice() == b"old".as_slice();
    let is_put = put_part(out, part).is_ok();
    is_refused && is_same && is_put && out.strip_prefix(b"old".as_slice()) == Some(wanted)
}

/// Whether that holds in this memory, where the first allocation is for what stands there already.
fn fails_once<A: Allocator + Copy>(alloc: A, part: usize, wanted: &[u8]) -> bool {
    match b"old".to_vec(alloc) {
        Ok(mut out) => is_put_later(&mut out, part, wanted),
        Err(_) => false,
    }
}

#[test]
fn the_allocation_of_each_part_failing(rt: HostRuntime) {
    for (part, wanted) in WANTED.iter().enumerate() {
        let heap = Refusing::new(rt.alloc(), 2);
        let is_as_told = fails_once(&heap, part, wanted);
        assert_eq!(rt; (is_as_told, heap.calls()), (true, 3), "part {part}");
        assert!(rt; heap.is_within(3 + wanted.len()), "part {part}");
    }
}

/// Sets the count of topics, where a response stands behind three bytes.
fn set_topics<A: Allocator + Copy>(out: &mut Vec<u8, A>) {
    if 15 <= out.len() {
        set_count(out, 11, 258);
    }
}

/// A Produce response of partition 1 of topic `t`, stored; correlation id 5, and 258 topics for 1.
static ONE: &[u8] =
    b"\0\0\0\x29\0\0\0\x05\0\0\x01\x02\0\x01t\0\0\0\x01\0\0\0\x01\0\0\x01\x02\x03\x04\x05\x06\x07\x08\xff\xff\xff\xff\xff\xff\xff\xff\0\0\0\0";

#[test]
fn a_whole_response_with_a_count_set_behind_it(rt: HostRuntime) -> Result<(), Fail> {
    let mut out = b"old".to_vec(rt.alloc())?;
    put_one(&mut out, 5, b"t", STORED)?;
    set_topics(&mut out);
    assert_eq!(rt; out.strip_prefix(b"old".as_slice()), Some(ONE));
    Ok(())
}
