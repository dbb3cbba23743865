//! Scripts and merges under each allocation failing in turn.
use crate::tests::served::READ_ROOM;
use refusing_alloc::Refusing;
use std::alloc::Allocator;
use std::test::Fail;
use streams::{Sink, Source};
use tcp_edge::{run_merge, run_replay};

/// More allocations than any run below asks for.
const MOST: u64 = 200;

/// A script with each kind of line.
const SCRIPT: &str =
    "copies 2\nproduce a=1\nproduce-as 1 0 0 b=2 c\nsend 0\ndeliver 1 0\nmerge 1 0\n\
clean 0 9 9\ntable 1\ncover 1\ncover 2\ntrim 1 1\ncover 1\n";

/// What is printed of it, worked by hand.
const PRINTED: &str = "base 0\nbase 1\nimage 0\nadded\nmerged\ncleaned 0 1 0\na=1\nb=2\nend\n0-2\n\
refused NoCopy\ntrimmed\n1-2\n";

/// Two images behind their sizes, encoded by tests/encoders/copies.py: one has seen offset 0, the other offset 1.
static PAIR: [u8; 232] = [
    0x00, 0x00, 0x00, 0x70, 0x4b, 0x43, 0x50, 0x59, 0x00, 0x01, 0x00, 0x00, 0x00, 0x00, 0x00, 0x00,
    0x00, 0x00, 0x00, 0x00, 0x00, 0x01, 0x00, 0x00, 0x00, 0x00, 0x00, 0x00, 0x00, 0x00, 0x00, 0x00,
    0x00, 0x00, 0x00, 0x00, 0x00, 0x00, 0x00, 0x00, 0x00, 0x01, 0x00, 0x00, 0x00, 0x00, 0x00, 0x00,
    0x00, 0x00, 0x00, 0x00, 0x00, 0x3a, 0x00, 0x00, 0x00, 0x00, 0x02, 0x32, 0xc8, 0x33, 0x8d, 0x00,
    0x00, 0x00, 0x00, 0x00, 0x00, 0x00, 0x00, 0x00, 0x00, 0x00, 0x00, 0x00, 0x00, 0x00, 0x00, 0x00,
    0x00, 0x00, 0x00, 0x00, 0x00, 0xff, 0xff, 0xff, 0xff, 0xff, 0xff, 0xff, 0xff, 0xff, 0xff, 0xff,
    0xff, 0xff, 0xff, 0x00, 0x00, 0x00, 0x01, 0x10, 0x00, 0x00, 0x00, 0x02, 0x61, 0x02, 0x31, 0x00,
    0x6e, 0x80, 0x3c, 0x98, 0x00, 0x00, 0x00, 0x70, 0x4b, 0x43, 0x50, 0x59, 0x00, 0x01, 0x00, 0x00,
    0x00, 0x00, 0x00, 0x00, 0x00, 0x00, 0x00, 0x00, 0x00, 0x01, 0x00, 0x00, 0x00, 0x00, 0x00, 0x00,
    0x00, 0x01, 0x00, 0x00, 0x00, 0x00, 0x00, 0x00, 0x00, 0x01, 0x00, 0x00, 0x00, 0x01, 0x00, 0x00,
    0x00, 0x00, 0x00, 0x00, 0x00, 0x01, 0x00, 0x00, 0x00, 0x3a, 0x00, 0x00, 0x00, 0x00, 0x02, 0x64,
    0x0d, 0x12, 0x2d, 0x00, 0x00, 0x00, 0x00, 0x00, 0x00, 0x00, 0x00, 0x00, 0x00, 0x00, 0x00, 0x00,
    0x00, 0x00, 0x00, 0x00, 0x00, 0x00, 0x00, 0x00, 0x00, 0xff, 0xff, 0xff, 0xff, 0xff, 0xff, 0xff,
    0xff, 0xff, 0xff, 0xff, 0xff, 0xff, 0xff, 0x00, 0x00, 0x00, 0x01, 0x10, 0x00, 0x00, 0x00, 0x02,
    0x62, 0x02, 0x32, 0x00, 0xc1, 0xc0, 0x8f, 0xbb,
];

/// The image of their merge, encoded likewise.
static MERGED: [u8; 182] = [
    0x4b, 0x43, 0x50, 0x59, 0x00, 0x01, 0x00, 0x00, 0x00, 0x00, 0x00, 0x00, 0x00, 0x00, 0x00, 0x00,
    0x00, 0x01, 0x00, 0x00, 0x00, 0x00, 0x00, 0x00, 0x00, 0x00, 0x00, 0x00, 0x00, 0x00, 0x00, 0x00,
    0x00, 0x01, 0x00, 0x00, 0x00, 0x02, 0x00, 0x00, 0x00, 0x00, 0x00, 0x00, 0x00, 0x00, 0x00, 0x00,
    0x00, 0x3a, 0x00, 0x00, 0x00, 0x00, 0x02, 0x32, 0xc8, 0x33, 0x8d, 0x00, 0x00, 0x00, 0x00, 0x00,
    0x00, 0x00, 0x00, 0x00, 0x00, 0x00, 0x00, 0x00, 0x00, 0x00, 0x00, 0x00, 0x00, 0x00, 0x00, 0x00,
    0x00, 0xff, 0xff, 0xff, 0xff, 0xff, 0xff, 0xff, 0xff, 0xff, 0xff, 0xff, 0xff, 0xff, 0xff, 0x00,
    0x00, 0x00, 0x01, 0x10, 0x00, 0x00, 0x00, 0x02, 0x61, 0x02, 0x31, 0x00, 0x00, 0x00, 0x00, 0x00,
    0x00, 0x00, 0x00, 0x01, 0x00, 0x00, 0x00, 0x3a, 0x00, 0x00, 0x00, 0x00, 0x02, 0x64, 0x0d, 0x12,
    0x2d, 0x00, 0x00, 0x00, 0x00, 0x00, 0x00, 0x00, 0x00, 0x00, 0x00, 0x00, 0x00, 0x00, 0x00, 0x00,
    0x00, 0x00, 0x00, 0x00, 0x00, 0x00, 0x00, 0xff, 0xff, 0xff, 0xff, 0xff, 0xff, 0xff, 0xff, 0xff,
    0xff, 0xff, 0xff, 0xff, 0xff, 0x00, 0x00, 0x00, 0x01, 0x10, 0x00, 0x00, 0x00, 0x02, 0x62, 0x02,
    0x32, 0x00, 0xc8, 0x85, 0xa1, 0x61,
];

/// Whether whole lines were printed, at least so many bytes of what is printed with memory.
fn is_front(out: &[u8], least: usize) -> bool {
    let is_cut = !out.is_empty() && !out.ends_with(b"\n");
    !is_cut && least <= out.len() && PRINTED.as_bytes().starts_with(out)
}

/// Whether a run says what came of it: that memory was wanting, behind whole lines and at least so many bytes
/// of them, or nothing where all was printed.
fn is_told(status: u8, out: &[u8], err: &[u8], least: usize) -> bool {
    match status {
        0 => err.is_empty() && out == PRINTED.as_bytes(),
        3 => err == "kbroker: out of memory\n".as_bytes() && is_front(out, least),
        _ => false,
    }
}

/// What came of a run in memory of which one allocation fails.
#[derive(Clone, Copy, Debug, PartialEq, Eq)]
enum Came {
    /// It printed all: that allocation wasn't asked for.
    AtOnce,
    /// It printed all without that allocation.
    Without,
    /// It lacked memory, and had printed so many bytes.
    Lacked(usize),
    /// Something else.
    Wrong,
}

/// What came of a run with this status that printed so many bytes, and asked for that allocation or not.
fn came_of(status: u8, len: usize, is_asked: bool) -> Came {
    match (status, is_asked) {
        (0, false) => Came::AtOnce,
        (0, true) => Came::Without,
        (3, true) => Came::Lacked(len),
        _ => Came::Wrong,
    }
}

/// Runs the script in memory of which this allocation fails.
fn replays<A: Allocator + Copy>(alloc: A, refused: u64, least: usize) -> Came {
    let heap = Refusing::new(alloc, refused);
    let mut source = Source::new(SCRIPT.as_bytes());
    let mut sink = Sink::new(Vec::new(alloc));
    let mut err = Vec::new(alloc);
    let status = run_replay(&heap, &mut source, &mut sink, &mut err);
    let out = sink.into_inner();
    if heap.largest() <= READ_ROOM && is_told(status, &out, &err, least) {
        came_of(status, out.len(), heap.calls() >= refused)
    } else {
        Came::Wrong
    }
}

/// How many allocations fail for the index of producers alone, which a copy does without: an index of one
/// producer takes four, at `produce-as`, and eight more at `merge`, which makes that of the image's copy and that
/// of the copy merged into.
const OF_THE_INDEX: u64 = 12;

/// How many allocations fail that a segment of batches does without: of its two lists of marked batches.
const OF_THE_MARKS: u64 = 2;

/// How many segments the script makes: one at the first `produce` and one at `deliver`; at `merge` one of the
/// image's batches, one of those that come in, and one of what both become; and at `clean` one of the batch that
/// comes in with a record less, and one of what the list becomes.
const SEGMENTS: u64 = 7;

/// How many allocations fail by which a segment gives back the room behind it: one at `clean`.
const OF_THE_ROOM: u64 = 1;

/// How many segments a merge makes: one of each image, one of the batches that come in, and one of what both
/// become.
const MERGED_SEGMENTS: u64 = 4;

#[test]
fn a_script_does_without_its_indices_alone(rt: HostRuntime) -> Result<(), Fail> {
    let mut came = Came::Wrong;
    let mut printed = 0;
    let mut without = 0_u64;
    for refused in 1..MOST {
        // What was printed before stays, and is no less where a later allocation fails.
        came = replays(rt.alloc(), refused, printed);
        assert!(rt; came != Came::Wrong, "allocation {refused} fails");
        match came {
            Came::Lacked(len) => printed = len,
            Came::Without => without = without.saturating_add(1),
            _ => break,
        }
    }
    // A line was printed before the last allocation that is needed.
    assert!(rt; came == Came::AtOnce && printed > 0, "{came:?}, {printed}");
    assert_eq!(rt;
        without,
        OF_THE_INDEX + SEGMENTS * OF_THE_MARKS + OF_THE_ROOM
    );
    Ok(())
}

/// Whether a merge is printed, or nothing but that memory was wanting.
fn is_merge_told(status: u8, out: &[u8], err: &[u8]) -> bool {
    match status {
        0 => out == MERGED.as_slice() && err.is_empty(),
        3 => out.is_empty() && err == "kbroker: out of memory\n".as_bytes(),
        _ => false,
    }
}

/// Merges the pair in memory of which this allocation fails.
fn merges<A: Allocator + Copy>(alloc: A, refused: u64) -> Came {
    let heap = Refusing::new(alloc, refused);
    let mut source = Source::new(PAIR.as_slice());
    let mut sink = Sink::new(Vec::new(alloc));
    let mut err = Vec::new(alloc);
    let status = run_merge(&heap, &mut source, &mut sink, &mut err);
    let out = sink.into_inner();
    let is_asked = heap.calls() >= refused;
    if heap.largest() <= READ_ROOM && is_merge_told(status, &out, &err) {
        came_of(status, out.len(), is_asked)
    } else {
        Came::Wrong
    }
}

#[test]
fn a_merge_is_printed_once_there_is_memory(rt: HostRuntime) -> Result<(), Fail> {
    let mut came = Came::Wrong;
    let mut without = 0_u64;
    for refused in 1..MOST {
        came = merges(rt.alloc(), refused);
        assert!(rt; came != Came::Wrong, "allocation {refused} fails");
        match came {
            Came::Without => without = without.saturating_add(1),
            Came::AtOnce => break,
            _ => {}
        }
    }
    assert_eq!(rt; came, Came::AtOnce);
    assert_eq!(rt; without, MERGED_SEGMENTS * OF_THE_MARKS);
    Ok(())
}
