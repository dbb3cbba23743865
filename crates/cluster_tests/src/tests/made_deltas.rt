//! Deltas of a copy, byte for byte, and with each allocation failing in turn.

use crate::tests::memory::{MOST, count};
use crate::tests::outside::{B_IS_2, LISTED, SENT};
use crate::tests::stores::{BOTH, Kept, without};
use copy_deltas::write_delta;
use copy_images::read_image;
use cover_ranges::Cover;
use refusing_alloc::Refusing;
use segment::{BatchStore, SegStore, VecStore};
use std::alloc::{AllocError, Allocator};

/// The offsets 0 and 1, or none.
pub(crate) fn asked_of<A: Allocator + Copy>(alloc: A, asks: bool) -> Result<Cover<A>, AllocError> {
    let mut asked = Cover::new(alloc);
    if asks {
        asked.insert(0, 1)?;
    }
    Ok(asked)
}

/// Whether the copy of `B_IS_2` has this delta; an error where memory lacks.
fn is_made<S: BatchStore>(heap: S::Alloc, asks: bool, delta: &[u8]) -> Result<bool, AllocError> {
    let Ok(copy) = read_image::<S>(heap, &B_IS_2) else {
        return Err(AllocError);
    };
    let asked = asked_of(heap, asks)?;
    let made = write_delta(heap, &copy, &asked)?;
    Ok(made.as_slice() == delta)
}

/// The same of a copy that keeps its batches so.
fn is_made_in<A: Allocator + Copy>(
    kept: Kept,
    heap: A,
    asks: bool,
    delta: &[u8],
) -> Result<bool, AllocError> {
    match kept {
        Kept::Apart => is_made::<VecStore<A>>(heap, asks, delta),
        Kept::EndToEnd => is_made::<SegStore<A>>(heap, asks, delta),
    }
}

/// Whether the delta is made at the second time, where memory lacked at the first.
fn is_made_later<A: Allocator + Copy>(kept: Kept, heap: A, asks: bool, delta: &[u8]) -> bool {
    is_made_in(kept, heap, asks, delta) == Ok(true)
}

/// How many allocations the making of a delta does without, where each fails in turn; an error with the number of one
/// at whose failure it is wrong, or isn't made later, or asks for more at once than the copy allows, with [`MOST`] where
/// each run asks for more.
fn done_without<A: Allocator + Copy>(
    alloc: A,
    kept: Kept,
    asks: bool,
    delta: &[u8],
) -> Result<u64, u64> {
    let mut without = 0;
    for number in 1..MOST {
        let heap = Refusing::new(alloc, number);
        let made = is_made_in(kept, &heap, asks, delta);
        let fails = number <= heap.calls();
        let is_later = made.is_ok() || (fails && is_made_later(kept, &heap, asks, delta));
        if made == Ok(false) || !is_later || !heap.is_within(B_IS_2.len()) {
            return Err(number);
        }
        if !fails {
            return Ok(without);
        }
        if made.is_ok() {
            count(&mut without);
        }
    }
    Err(MOST)
}

#[test]
fn deltas_are_made(rt: HostRuntime) {
    for kept in BOTH {
        let wanted = Ok(without(kept, 1));
        assert_eq!(rt; done_without(rt.alloc(), kept, true, &LISTED), wanted);
        assert_eq!(rt; done_without(rt.alloc(), kept, false, &SENT), wanted);
    }
}
