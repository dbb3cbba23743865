//! Calls beside those of copies and clusters, each allocation failing in turn: a list of batches that is cleaned, the
//! parts of an image, and escaped bytes. What was given is as it was, and the call succeeds
//! later.

use crate::tests::copies::are_added;
use crate::tests::memory::MOST;
use crate::tests::outside::{RIGHT, SECOND_OF_TWO, TWO};
use crate::tests::parts::{batches_of, know_content};
use batch_codec::encode;
use cleaner::clean_list;
use copy_images::fields::{put_crc, put_ranges};
use partition_log::{CleanReport, PartitionLog};
use refusing_alloc::Refusing;
use script_words::unescape;
use segment::{BatchStore, SegStore, VecStore};
use std::alloc::{AllocError, Allocator};

/// What goes of two records of one key.
const ONE_WENT: CleanReport = CleanReport {
    records: 1,
    tombstones: 0,
    batches: 0,
};

/// Whether a cleaning of the batches of a copy leaves the one that the copy of `SECOND_OF_TWO` keeps.
fn cleans_batches<S: BatchStore>(
    alloc: S::Alloc,
    copy: &PartitionLog<S>,
) -> Result<bool, AllocError> {
    know_content(copy);
    let batches = batches_of(alloc, copy)?;
    let (left, report) = clean_list(alloc, &batches, copy.cover(), copy.start(), 2, 0)?;
    let mut out = Vec::new(alloc);
    for batch in &left {
        encode(batch, &mut out).map_err(|_| AllocError)?;
    }
    Ok(report == ONE_WENT && out.as_slice() == &SECOND_OF_TWO[38..108])
}

/// The batches of a copy of two records of one key are cleaned, at the first time or the second.
fn cleans_a_list<S: BatchStore>(heap: S::Alloc, ample: S::Alloc) -> bool {
    let mut copy = PartitionLog::<S>::new(ample);
    let is_filled = are_added(&mut copy, &[&TWO]);
    let is_cleaned = match cleans_batches(heap, &copy) {
        Ok(is_cleaned) => Ok(is_cleaned),
        Err(_) => cleans_batches(heap, &copy),
    };
    is_filled && is_cleaned == Ok(true)
}

/// The ranges that the copy of `RIGHT` has seen.
static SEEN: [(i64, i64); 2] = [(0, 1), (3, 3)];

/// Puts `RIGHT` down: what stands before its ranges and behind them as bytes, and the ranges and the crc by calls.
fn put_parts<A: Allocator + Copy>(out: &mut Vec<u8, A>) -> Result<(), AllocError> {
    out.extend_from_slice(&RIGHT[..18])?;
    put_ranges(out, &SEEN)?;
    out.extend_from_slice(&RIGHT[50..194])?;
    put_crc(out)
}

/// The parts of an image are put down, at the first time or the second: then a front of it stood there.
fn puts_parts<A: Allocator + Copy>(heap: A) -> bool {
    let mut out = Vec::new(heap);
    if put_parts(&mut out).is_ok() {
        return out.as_slice() == RIGHT.as_slice();
    }
    let is_front = RIGHT.starts_with(&out) && out.len() < RIGHT.len();
    out.clear();
    is_front && put_parts(&mut out).is_ok() && out.as_slice() == RIGHT.as_slice()
}

/// Escaped bytes are read, at the first time or the second.
fn reads_escapes<A: Allocator + Copy>(heap: A) -> bool {
    let read = match unescape(heap, b"a%20%3db") {
        Ok(bytes) => Ok(bytes),
        Err(_) => unescape(heap, b"a%20%3db"),
    };
    match read {
        Ok(bytes) => bytes.as_slice() == b"a =b".as_slice(),
        Err(_) => false,
    }
}

/// The calls: what each is, and how many bytes it is given.
static CALLS: [(&str, usize); 4] = [
    ("a list in memory of its own", TWO.len()),
    ("a list in segments", TWO.len()),
    ("the parts of an image", RIGHT.len()),
    ("escapes", 8),
];

/// Whether a call does what it should, again where memory lacked.
fn succeeds_later<A: Allocator + Copy>(heap: A, ample: A, call: usize) -> bool {
    match call {
        0 => cleans_a_list::<VecStore<A>>(heap, ample),
        1 => cleans_a_list::<SegStore<A>>(heap, ample),
        2 => puts_parts(heap),
        _ => reads_escapes(heap),
    }
}

/// How many allocations a call asks for, where each fails in turn; an error with the number of one at whose failure
/// something is wrong, or more is asked for at once than what was given allows.
fn asked<A: Allocator + Copy>(alloc: A, call: usize, given: usize) -> Result<u64, u64> {
    for refused in 1..MOST {
        let heap = Refusing::new(alloc, refused);
        let ample = Refusing::new(alloc, 0);
        if !succeeds_later(&heap, &ample, call) || !heap.is_within(given) {
            return Err(refused);
        }
        if heap.calls() < refused {
            return Ok(heap.calls());
        }
    }
    Err(MOST)
}

#[test]
fn each_call_succeeds_later(rt: HostRuntime) {
    for (call, (name, given)) in CALLS.iter().enumerate() {
        let asked = asked(rt.alloc(), call, *given);
        assert!(rt; asked.is_ok_and(|count| 0 < count), "{name}: {asked:?}");
    }
}
