//! `apply_delta`: deltas of another program, what they leave, beside the merge with their sender, each
//! refusal, and each allocation failing in turn.

use crate::tests::copies::{answers_as, has_image};
use crate::tests::memory::MOST;
use crate::tests::outside::{
    A_IS_1, ALL_FOUR, B_IS_2, BAD_SECOND, BELOW_0, CUT_RANGES, EMPTY, FIRST_THREE, FIRST_TWO,
    FOR_ANOTHER, HALF_SEEN, LAST_TWO_SENT, LAST_TWO_SENT_OF_VERSION_0, LEFT, LISTED, LISTED_ACROSS,
    LISTED_OF_VERSION_0, MARK_OF_AN_IMAGE, NONE_OF_TWO, NOT_SEEN, OF_THREE, ONE_MORE,
    RANGES_THAT_MEET, RIGHT_WITHOUT_A_GAP, SENT, TRIMMED, TRIMMED_SENT, TWO_BATCHES_LISTED_AS_ONE,
    TWO_BATCHES_LISTED_AS_ONE_OF_VERSION_0, TWO_FAULTS, VERSION_2, WRONG_CRC,
};
use crate::tests::stores::{BOTH, Kept};
use copy_deltas::{PatchError, apply_delta};
use copy_images::read_image;
use copy_merge::merge;
use partition_log::PartitionLog;
use refusing_alloc::Refusing;
use segment::{BatchStore, ProgramStore, SegStore, VecStore};
use std::alloc::Allocator;
use std::test::Fail;

/// A copy's image, a delta, the image of its sender, and that of what the delta leaves.
type Row = (
    &'static str,
    &'static [u8],
    &'static [u8],
    &'static [u8],
    &'static [u8],
);

/// Deltas that are taken.
static TAKEN: [Row; 11] = [
    ("all of it", &EMPTY, &SENT, &B_IS_2, &B_IS_2),
    ("what was there", &B_IS_2, &SENT, &B_IS_2, &B_IS_2),
    ("what is listed", &B_IS_2, &LISTED, &B_IS_2, &B_IS_2),
    (
        "of each kind",
        &LEFT,
        &OF_THREE,
        &RIGHT_WITHOUT_A_GAP,
        &NONE_OF_TWO,
    ),
    (
        "once more",
        &NONE_OF_TWO,
        &OF_THREE,
        &RIGHT_WITHOUT_A_GAP,
        &NONE_OF_TWO,
    ),
    (
        "a batch that isn't listed",
        &FIRST_TWO,
        &LISTED,
        &B_IS_2,
        &B_IS_2,
    ),
    (
        "the same, of version 0",
        &FIRST_TWO,
        &LISTED_OF_VERSION_0,
        &B_IS_2,
        &B_IS_2,
    ),
    (
        "a batch that came meanwhile",
        &FIRST_THREE,
        &LAST_TWO_SENT,
        &ALL_FOUR,
        &ALL_FOUR,
    ),
    (
        "the same meanwhile, of version 0",
        &FIRST_THREE,
        &LAST_TWO_SENT_OF_VERSION_0,
        &ALL_FOUR,
        &ALL_FOUR,
    ),
    (
        "a sender that starts later",
        &FIRST_TWO,
        &TRIMMED_SENT,
        &TRIMMED,
        &TRIMMED,
    ),
    (
        "lists below the start",
        &TRIMMED,
        &LAST_TWO_SENT,
        &ALL_FOUR,
        &TRIMMED,
    ),
];

/// Whether the copy and that of the sender's image merge to one that has this image.
fn merges<S: BatchStore>(copy: &PartitionLog<S>, sender: &[u8], image: &[u8]) -> bool {
    let Ok(sender) = read_image::<S>(copy.allocator(), sender) else {
        return false;
    };
    match merge(copy, &sender) {
        Ok(merged) => has_image(&merged, image),
        Err(_) => false,
    }
}

/// Whether the copy of a row takes its delta so, and a merge with the sender is the same.
fn is_taken<S: BatchStore>(alloc: S::Alloc, &(_, before, delta, sender, after): &Row) -> bool {
    match read_image::<S>(alloc, before) {
        Ok(mut copy) => {
            merges(&copy, sender, after)
                && apply_delta(&mut copy, delta) == Ok(())
                && has_image(&copy, after)
        }
        Err(_) => false,
    }
}

#[test]
fn deltas_are_taken(rt: HostRuntime) {
    let mut wrong = None;
    for row in &TAKEN {
        if !is_taken::<ProgramStore<_>>(rt.alloc(), row) {
            wrong = Some(row.0);
        }
    }
    assert_eq!(rt; wrong, None);
}

/// A copy's image, what it is given, and why it refuses that.
type Refused = (&'static str, &'static [u8], &'static [u8], PatchError);

/// What is refused.
static REFUSED: [Refused; 19] = [
    (
        "a mark and a version",
        &LEFT,
        b"KDLT\x00\x01",
        PatchError::Short,
    ),
    ("cut ranges", &LEFT, &CUT_RANGES, PatchError::Short),
    (
        "another mark",
        &LEFT,
        &MARK_OF_AN_IMAGE,
        PatchError::BadMark,
    ),
    ("version 2", &LEFT, &VERSION_2, PatchError::BadVersion),
    ("a wrong crc", &LEFT, &WRONG_CRC, PatchError::BadCrc),
    ("a start below 0", &LEFT, &BELOW_0, PatchError::BadCover),
    (
        "ranges that meet",
        &LEFT,
        &RANGES_THAT_MEET,
        PatchError::BadCover,
    ),
    (
        "entries that overlap",
        &LEFT,
        &BAD_SECOND,
        PatchError::BadBatch(1),
    ),
    (
        "an offset that wasn't seen",
        &LEFT,
        &NOT_SEEN,
        PatchError::Outside,
    ),
    ("a byte more", &LEFT, &ONE_MORE, PatchError::Extra),
    (
        "an offset that isn't known",
        &LEFT,
        &FOR_ANOTHER,
        PatchError::NotFor,
    ),
    (
        "a copy that has the first batch alone",
        &A_IS_1,
        &LAST_TWO_SENT,
        PatchError::NotFor,
    ),
    (
        "the same of two batches listed as one",
        &A_IS_1,
        &TWO_BATCHES_LISTED_AS_ONE,
        PatchError::NotFor,
    ),
    (
        "the same, of version 0",
        &A_IS_1,
        &TWO_BATCHES_LISTED_AS_ONE_OF_VERSION_0,
        PatchError::NotFor,
    ),
    (
        "two batches listed as one",
        &FIRST_THREE,
        &TWO_BATCHES_LISTED_AS_ONE,
        PatchError::Disagree { base: 0 },
    ),
    (
        "two batches listed as one, of version 0",
        &FIRST_THREE,
        &TWO_BATCHES_LISTED_AS_ONE_OF_VERSION_0,
        PatchError::Disagree { base: 0 },
    ),
    (
        "a list across the start",
        &TRIMMED,
        &LISTED_ACROSS,
        PatchError::Disagree { base: 1 },
    ),
    (
        "the first of two faults",
        &LEFT,
        &TWO_FAULTS,
        PatchError::Disagree { base: 2 },
    ),
    (
        "half of a batch",
        &LEFT,
        &HALF_SEEN,
        PatchError::Disagree { base: 0 },
    ),
];

/// Whether the copy of a row refuses its bytes so, and is as it was.
fn is_refused<S: BatchStore>(alloc: S::Alloc, &(_, image, bytes, why): &Refused) -> bool {
    match read_image::<S>(alloc, image) {
        Ok(mut copy) => apply_delta(&mut copy, bytes) == Err(why) && has_image(&copy, image),
        Err(_) => false,
    }
}

#[test]
fn deltas_are_refused(rt: HostRuntime) {
    let mut wrong = None;
    for row in &REFUSED {
        if !is_refused::<ProgramStore<_>>(rt.alloc(), row) {
            wrong = Some(row.0);
        }
    }
    assert_eq!(rt; wrong, None);
}

/// Reads the copy of an image, and gives it these bytes, if any.
fn reads_and_takes<S: BatchStore>(heap: S::Alloc, image: &[u8], bytes: Option<&[u8]>) {
    if let (Ok(mut copy), Some(bytes)) = (read_image::<S>(heap, image), bytes) {
        let _ = apply_delta(&mut copy, bytes);
    }
}

/// How many allocations that asks for.
fn calls<A: Allocator + Copy>(alloc: A, image: &[u8], bytes: Option<&[u8]>) -> u64 {
    let heap = Refusing::new(alloc, MOST);
    reads_and_takes::<ProgramStore<_>>(&heap, image, bytes);
    heap.calls()
}

#[test]
fn a_refusal_takes_no_memory(rt: HostRuntime) {
    let before = calls(rt.alloc(), &LEFT, None);
    assert!(rt; before > 0);
    assert!(rt; calls(rt.alloc(), &LEFT, Some(&OF_THREE)) > before);
    for (name, image, bytes, _) in &REFUSED {
        let refused = calls(rt.alloc(), image, Some(bytes));
        assert!(rt; refused == calls(rt.alloc(), image, None), "{name}");
    }
}

#[test]
fn refusals_print_their_names(rt: HostRuntime) -> Result<(), Fail> {
    let printed = format!(in rt.alloc();
        "{}, {}, {}",
        PatchError::BadBatch(1),
        PatchError::NotFor,
        PatchError::Disagree { base: 2 }
    )?;
    assert_eq!(rt; printed.as_str(), "BadBatch 1, NotFor, Disagree 2");
    Ok(())
}

/// Whether the copy has this image, written again where memory lacked.
fn shows<S: BatchStore>(copy: &PartitionLog<S>, image: &[u8]) -> bool {
    has_image(copy, image) || has_image(copy, image)
}

/// Whether `LEFT` takes `OF_THREE`, again where memory lacked: then it answers as before.
fn is_taken_later<S: BatchStore>(
    ample: S::Alloc,
    copy: &mut PartitionLog<S>,
    has_lacked: &mut bool,
) -> bool {
    let mut answer = apply_delta(copy, &OF_THREE);
    let mut is_same = true;
    if answer == Err(PatchError::OutOfMemory) {
        *has_lacked = true;
        is_same = answers_as(ample, copy, &LEFT);
        answer = apply_delta(copy, &OF_THREE);
    }
    is_same && answer == Ok(()) && shows(copy, &NONE_OF_TWO)
}

/// The same of the copy that is read from `LEFT`; nothing is said where there is no memory for that one.
fn takes_later<S: BatchStore>(heap: S::Alloc, ample: S::Alloc, has_lacked: &mut bool) -> bool {
    match read_image::<S>(heap, &LEFT) {
        Ok(mut copy) => is_taken_later(ample, &mut copy, has_lacked),
        Err(_) => true,
    }
}

/// The same of a copy that keeps its batches so.
fn takes_in<A: Allocator + Copy>(kept: Kept, heap: A, ample: A, has_lacked: &mut bool) -> bool {
    match kept {
        Kept::Apart => takes_later::<VecStore<A>>(heap, ample, has_lacked),
        Kept::EndToEnd => takes_later::<SegStore<A>>(heap, ample, has_lacked),
    }
}

/// How many allocations fail in `apply_delta` as they should, each in a run of its own; `None` where one
/// does not, or more is asked for at once than what was given allows.
fn lacking<A: Allocator + Copy>(alloc: A, kept: Kept) -> Option<u64> {
    let mut lacking: u64 = 0;
    for number in 1..MOST {
        let heap = Refusing::new(alloc, number);
        let ample = Refusing::new(alloc, 0);
        let mut has_lacked = false;
        let is_taken = takes_in(kept, &heap, &ample, &mut has_lacked);
        if !is_taken || !heap.is_within(LEFT.len() + OF_THREE.len()) {
            return None;
        }
        if heap.calls() < number {
            return Some(lacking);
        }
        if has_lacked {
            lacking = lacking.saturating_add(1);
        }
    }
    None
}

#[test]
fn deltas_are_taken_later(rt: HostRuntime) {
    for kept in BOTH {
        assert!(rt; lacking(rt.alloc(), kept) > Some(0), "{kept:?}");
    }
}
