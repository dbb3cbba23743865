//! What a copy of a partition answers without taking memory, as bytes. A test puts the answers down before a call, and
//! compares them behind one that lacked memory.
#![tactic(auto)]

use cover_ranges::Cover;
use partition_log::{OutOfRange, PartitionLog};
use producer_state::{Verdict, Window};
use segment::BatchStore;
use std::alloc::{AllocError, Allocator};
use std::ops::Range;

/// The offsets, and the times, that are asked for.
static NUMBERS: [i64; 14] = [
    i64::MIN,
    -1,
    0,
    1,
    2,
    3,
    4,
    5,
    45,
    59,
    60,
    1_000,
    4_611_686_018_427_387_903,
    i64::MAX,
];

/// The offsets from which is fetched.
static STARTS: [i64; 6] = [-1, 0, 2, 3, 45, 60];

/// How many bytes a fetch may give.
static LIMITS: [usize; 3] = [0, 139, usize::MAX];

/// The keys that are looked up: of the tests' batches, of committed offsets of `g` in partitions 0 and 1 of `t`, and
/// one that no batch has.
static KEYS: [&[u8]; 7] = [
    b"a",
    b"b",
    b"c",
    b"k",
    b"\0\x01\0\x01g\0\x01t\0\0\0\0",
    b"\0\x01\0\x01g\0\x01t\0\0\0\x01",
    b"",
];

/// The producers that are asked for.
static PRODUCERS: [i64; 6] = [-1, 0, 1, 7, 19, 20];

/// How many sequence numbers are judged, for each of two epochs.
const SEQUENCES: u8 = 7;

/// Appends a number.
fn put<B: Allocator + Copy>(out: &mut Vec<u8, B>, number: i64) -> Result<(), AllocError> {
    out.extend_from_slice(&number.to_be_bytes())
}

/// Appends a count.
fn put_count<B: Allocator + Copy>(out: &mut Vec<u8, B>, count: usize) -> Result<(), AllocError> {
    out.extend_from_slice(&count.to_be_bytes())
}

/// Appends whether something is so.
fn put_flag<B: Allocator + Copy>(out: &mut Vec<u8, B>, flag: bool) -> Result<(), AllocError> {
    out.push(u8::from(flag))?;
    Ok(())
}

/// Appends what a set of offsets answers of the two from this one on.
fn put_membership<A: Allocator + Copy, B: Allocator + Copy>(
    out: &mut Vec<u8, B>,
    cover: &Cover<A>,
    first: i64,
) -> Result<(), AllocError> {
    let last = first.saturating_add(1);
    put_flag(out, cover.contains(first))?;
    put_flag(out, cover.has_all(first, last))?;
    put_flag(out, cover.has_any(first, last))?;
    put(out, cover.first_gap(first))
}

/// Appends the ranges of a set of offsets.
fn put_ranges<A: Allocator + Copy, B: Allocator + Copy>(
    out: &mut Vec<u8, B>,
    cover: &Cover<A>,
) -> Result<(), AllocError> {
    for (first, last) in cover.ranges() {
        put(out, *first)?;
        put(out, *last)?;
    }
    Ok(())
}

/// Appends what a set of offsets answers without taking memory.
///
/// # Errors
///
/// Out of memory. What was appended until then stays.
pub fn put_cover<A: Allocator + Copy, B: Allocator + Copy>(
    out: &mut Vec<u8, B>,
    cover: &Cover<A>,
) -> Result<(), AllocError> {
    put_ranges(out, cover)?;
    put_flag(out, cover.is_subset(cover))?;
    for first in &NUMBERS {
        put_membership(out, cover, *first)?;
    }
    Ok(())
}

/// Appends the bytes of each batch, whether it is the one that is seen there, and where the stretch that it lies in
/// begins.
fn put_batches<S: BatchStore, B: Allocator + Copy>(
    out: &mut Vec<u8, B>,
    copy: &PartitionLog<S>,
) -> Result<(), AllocError> {
    for i in 0..copy.len() {
        out.extend_from_slice(copy.bytes_of(i))?;
        put_flag(out, copy.at(i).bytes() == copy.bytes_of(i))?;
        put_count(out, copy.stretch_start(i))?;
    }
    Ok(())
}

/// Appends the base offsets that a walk comes by, and whether it ends then.
fn put_walk<S: BatchStore, B: Allocator + Copy>(
    out: &mut Vec<u8, B>,
    copy: &PartitionLog<S>,
) -> Result<(), AllocError> {
    let mut walk = copy.walk(0);
    for _ in 0..copy.len() {
        put(out, walk.next().map_or(-1, |batch| batch.head().base))?;
    }
    put_flag(out, walk.next().is_none())
}

/// Appends the first piece of the batches.
fn put_piece<S: BatchStore, B: Allocator + Copy>(
    out: &mut Vec<u8, B>,
    copy: &PartitionLog<S>,
) -> Result<(), AllocError> {
    if copy.len() == 0 {
        return Ok(());
    }
    let (bytes, end) = copy.piece(0, copy.len());
    put_count(out, end)?;
    out.extend_from_slice(bytes)
}

/// Appends what a fetch gives.
fn put_run<B: Allocator + Copy>(
    out: &mut Vec<u8, B>,
    answer: Result<Range<usize>, OutOfRange>,
) -> Result<(), AllocError> {
    match answer {
        Ok(run) => {
            put_count(out, run.start)?;
            put_count(out, run.end)
        }
        Err(_) => put(out, -1),
    }
}

/// Appends what the fetches from an offset give.
fn put_fetches_from<S: BatchStore, B: Allocator + Copy>(
    out: &mut Vec<u8, B>,
    copy: &PartitionLog<S>,
    offset: i64,
) -> Result<(), AllocError> {
    for limit in &LIMITS {
        put_run(out, copy.fetch(offset, *limit, false))?;
        put_run(out, copy.fetch(offset, *limit, true))?;
    }
    Ok(())
}

/// Appends the first record from a time on.
fn put_time<S: BatchStore, B: Allocator + Copy>(
    out: &mut Vec<u8, B>,
    copy: &PartitionLog<S>,
    time: i64,
) -> Result<(), AllocError> {
    match copy.by_time(time) {
        Some((found, offset)) => {
            put(out, found)?;
            put(out, offset)
        }
        None => put_flag(out, false),
    }
}

/// Appends what the fetches give.
fn put_fetches<S: BatchStore, B: Allocator + Copy>(
    out: &mut Vec<u8, B>,
    copy: &PartitionLog<S>,
) -> Result<(), AllocError> {
    for start in &STARTS {
        put_fetches_from(out, copy, *start)?;
    }
    Ok(())
}

/// Appends the first record from each time on.
fn put_times<S: BatchStore, B: Allocator + Copy>(
    out: &mut Vec<u8, B>,
    copy: &PartitionLog<S>,
) -> Result<(), AllocError> {
    for time in &NUMBERS {
        put_time(out, copy, *time)?;
    }
    Ok(())
}

/// Appends the values of the keys.
fn put_values<S: BatchStore, B: Allocator + Copy>(
    out: &mut Vec<u8, B>,
    copy: &PartitionLog<S>,
) -> Result<(), AllocError> {
    for key in &KEYS {
        let value = copy.get(key);
        put_flag(out, value.is_some())?;
        out.extend_from_slice(value.unwrap_or(b""))?;
    }
    Ok(())
}

/// Appends a verdict.
fn put_verdict<B: Allocator + Copy>(
    out: &mut Vec<u8, B>,
    verdict: Verdict,
) -> Result<(), AllocError> {
    match verdict {
        Verdict::New => put(out, -1),
        Verdict::Repeat(base) => put(out, base),
        Verdict::OldEpoch => put(out, -2),
        Verdict::OutOfOrder => put(out, -3),
    }
}

/// Appends the verdicts on a producer's next batch.
fn put_verdicts<B: Allocator + Copy>(
    out: &mut Vec<u8, B>,
    window: &Window,
) -> Result<(), AllocError> {
    put_flag(out, window.is_empty())?;
    for sequence in 0..SEQUENCES {
        put_verdict(out, window.judge(0, i32::from(sequence), 0))?;
        put_verdict(out, window.judge(1, i32::from(sequence), 0))?;
    }
    Ok(())
}

/// Appends the verdicts on each producer's next batch.
fn put_windows<S: BatchStore, B: Allocator + Copy>(
    out: &mut Vec<u8, B>,
    copy: &PartitionLog<S>,
) -> Result<(), AllocError> {
    for producer in &PRODUCERS {
        put_verdicts(out, &copy.window(*producer))?;
    }
    Ok(())
}

/// Appends what a copy answers without taking memory.
///
/// # Errors
///
/// Out of memory. What was appended until then stays.
pub fn put_answers<S: BatchStore, B: Allocator + Copy>(
    out: &mut Vec<u8, B>,
    copy: &PartitionLog<S>,
) -> Result<(), AllocError> {
    put(out, copy.start())?;
    put(out, copy.end())?;
    put_count(out, copy.len())?;
    put_cover(out, copy.cover())?;
    put_batches(out, copy)?;
    put_walk(out, copy)?;
    put_piece(out, copy)?;
    put_fetches(out, copy)?;
    put_times(out, copy)?;
    put_values(out, copy)?;
    put_windows(out, copy)
}

/// What a copy answers without taking memory.
///
/// # Errors
///
/// Out of memory.
pub fn answers_of<S: BatchStore, B: Allocator + Copy>(
    alloc: B,
    copy: &PartitionLog<S>,
) -> Result<Vec<u8, B>, AllocError> {
    let mut out = Vec::new(alloc);
    put_answers(&mut out, copy)?;
    Ok(out)
}

/// Whether a copy answers so.
pub fn has_answers<S: BatchStore, B: Allocator + Copy>(
    alloc: B,
    copy: &PartitionLog<S>,
    answers: &[u8],
) -> bool {
    match answers_of(alloc, copy) {
        Ok(now) => now.as_slice() == answers,
        Err(_) => false,
    }
}
