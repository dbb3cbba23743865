//! Images, merges and copies made of parts, with each allocation failing in turn: all answers as before, and the
//! same call then succeeds. A call counts it where it lacks memory.

use crate::tests::copies::{answers_as, has_image};
use crate::tests::outside::{LEFT, NONE_OF_TWO, RIGHT};
use crate::tests::parts::rebuilt;
use crate::tests::stores::{BOTH, Kept, without};
use copy_images::{ImageError, read_image, write_image};
use copy_merge::{MergeError, merge, merge_into};
use partition_log::PartitionLog;
use refusing_alloc::Refusing;
use segment::{BatchStore, SegStore, VecStore};
use std::alloc::Allocator;
use std::test::Fail;

/// More allocations than any run below asks for.
pub(crate) const MOST: u64 = 500;

/// How many segments are begun in all.
const SEGMENTS: u64 = 10;

/// How many bytes the two images have.
const GIVEN: usize = LEFT.len() + RIGHT.len();

/// Counts one call more that lacked memory.
pub(crate) fn count(lacked: &mut u64) {
    *lacked = lacked.saturating_add(1);
}

/// The copy of an image, read again where memory lacked.
fn read<S: BatchStore>(
    heap: S::Alloc,
    image: &[u8],
    lacked: &mut u64,
) -> Result<PartitionLog<S>, ImageError> {
    match read_image::<S>(heap, image) {
        Err(ImageError::OutOfMemory) => {
            count(lacked);
            read_image::<S>(heap, image)
        }
        copy => copy,
    }
}

/// Whether this image of a copy is written, again where memory lacked.
fn is_written<S: BatchStore>(copy: &PartitionLog<S>, image: &[u8], lacked: &mut u64) -> bool {
    match write_image(copy.allocator(), copy) {
        Ok(bytes) => bytes.as_slice() == image,
        Err(_) => {
            count(lacked);
            has_image(copy, image)
        }
    }
}

/// Whether two copies are merged to `NONE_OF_TWO`, again where memory lacked.
fn is_merged<S: BatchStore>(
    left: &PartitionLog<S>,
    right: &PartitionLog<S>,
    lacked: &mut u64,
) -> bool {
    match merge(left, right) {
        Ok(merged) => is_written(&merged, &NONE_OF_TWO, lacked),
        Err(why) => {
            count(lacked);
            let again = match merge(left, right) {
                Ok(merged) => has_image(&merged, &NONE_OF_TWO),
                Err(_) => false,
            };
            why == MergeError::OutOfMemory && again
        }
    }
}

/// Whether the second copy is merged into the first, likewise. Where memory lacks, the first answers as before.
fn is_merged_into<S: BatchStore>(
    ample: S::Alloc,
    left: &mut PartitionLog<S>,
    right: &PartitionLog<S>,
    lacked: &mut u64,
) -> bool {
    let mut answer = merge_into(left, right);
    let mut is_same = true;
    if answer == Err(MergeError::OutOfMemory) {
        count(lacked);
        is_same = answers_as(ample, left, &LEFT);
        answer = merge_into(left, right);
    }
    is_same && answer == Ok(()) && is_written(left, &NONE_OF_TWO, lacked)
}

/// Whether a copy with this image is made of the parts of this one, again where memory lacked.
fn is_rebuilt<S: BatchStore>(copy: &PartitionLog<S>, image: &[u8], lacked: &mut u64) -> bool {
    match rebuilt(copy.allocator(), copy) {
        Ok(made) => is_written(&made, image, lacked),
        Err(_) => {
            count(lacked);
            match rebuilt(copy.allocator(), copy) {
                Ok(made) => has_image(&made, image),
                Err(_) => false,
            }
        }
    }
}

/// Whether all calls on two copies give what they should.
fn does_all<S: BatchStore>(
    ample: S::Alloc,
    left: &mut PartitionLog<S>,
    right: &PartitionLog<S>,
    lacked: &mut u64,
) -> bool {
    let done = [
        is_written(left, &LEFT, lacked),
        is_rebuilt(left, &LEFT, lacked),
        is_rebuilt(right, &RIGHT, lacked),
        is_merged(left, right, lacked),
        is_merged_into(ample, left, right, lacked),
    ];
    done == [true; 5]
}

/// The same of a copy and the one that is read from `RIGHT`.
fn does_with_right<S: BatchStore>(
    ample: S::Alloc,
    left: &mut PartitionLog<S>,
    lacked: &mut u64,
) -> bool {
    match read(left.allocator(), &RIGHT, lacked) {
        Ok(right) => does_all(ample, left, &right, lacked),
        Err(_) => false,
    }
}

/// The same of the copies that are read from `LEFT` and `RIGHT`.
fn does_with_both<S: BatchStore>(heap: S::Alloc, ample: S::Alloc, lacked: &mut u64) -> bool {
    match read::<S>(heap, &LEFT, lacked) {
        Ok(mut left) => does_with_right(ample, &mut left, lacked),
        Err(_) => false,
    }
}

/// The same of copies that keep their batches so.
fn does_in<A: Allocator + Copy>(kept: Kept, heap: A, ample: A, lacked: &mut u64) -> bool {
    match kept {
        Kept::Apart => does_with_both::<VecStore<A>>(heap, ample, lacked),
        Kept::EndToEnd => does_with_both::<SegStore<A>>(heap, ample, lacked),
    }
}

/// How many allocations the calls do without, where each fails in turn; an error with the number of one at whose
/// failure not all is as it should be, or more is asked for at once than the images allow, with [`MOST`] where each run
/// asks for more.
fn done_without<A: Allocator + Copy>(alloc: A, kept: Kept) -> Result<u64, u64> {
    let mut without = 0;
    for number in 1..MOST {
        let heap = Refusing::new(alloc, number);
        let ample = Refusing::new(alloc, 0);
        let mut lacked = 0;
        let done = does_in(kept, &heap, &ample, &mut lacked) && heap.is_within(GIVEN);
        let fails = number <= heap.calls();
        if !done || (lacked > 0 && !fails) {
            return Err(number);
        }
        if !fails {
            return Ok(without);
        }
        if lacked == 0 {
            count(&mut without);
        }
    }
    Err(MOST)
}

#[test]
fn calls_succeed_later(rt: HostRuntime) {
    for kept in BOTH {
        assert_eq!(rt; done_without(rt.alloc(), kept), Ok(without(kept, SEGMENTS)));
    }
}

#[test]
fn the_refusal_prints_its_name(rt: HostRuntime) -> Result<(), Fail> {
    let printed = format!(in rt.alloc(); "{}", ImageError::OutOfMemory)?;
    assert_eq!(rt; printed.as_str(), "OutOfMemory");
    Ok(())
}
