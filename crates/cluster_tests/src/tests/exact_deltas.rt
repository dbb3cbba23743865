//! `write_delta`: the bytes of a delta, in one allocation of that size.

use crate::tests::made_deltas::asked_of;
use crate::tests::memory::MOST;
use crate::tests::outside::{ALL_FOUR, B_IS_2, LAST_TWO_SENT, LISTED, SENT, TRIMMED, TRIMMED_SENT};
use copy_deltas::write_delta;
use copy_images::read_image;
use partition_log::PartitionLog;
use refusing_alloc::Refusing;
use segment::{BatchStore, ProgramStore};
use std::alloc::{AllocError, Allocator};

/// The image of a copy, whether offsets 0 and 1 were asked of it, and its delta.
type Row = (&'static str, &'static [u8], bool, &'static [u8]);

/// Deltas that are made.
static MADE: [Row; 4] = [
    ("a list", &B_IS_2, true, &LISTED),
    ("a batch", &B_IS_2, false, &SENT),
    ("two of each", &ALL_FOUR, true, &LAST_TWO_SENT),
    ("of a later start", &TRIMMED, true, &TRIMMED_SENT),
];

/// The copy of an image; an error where it is none.
fn copy_of<S: BatchStore>(heap: S::Alloc, image: &[u8]) -> Result<PartitionLog<S>, AllocError> {
    match read_image::<S>(heap, image) {
        Ok(copy) => Ok(copy),
        Err(_) => Err(AllocError),
    }
}

/// Whether the copy of a row, in this heap, has its delta, and how many allocations that asked for, and how many bytes
/// have room in it.
fn made_in<S: BatchStore, A: Allocator>(
    heap: S::Alloc,
    counted: &Refusing<A>,
    &(_, image, asks, delta): &Row,
) -> Result<(bool, u64, usize), AllocError> {
    let copy = copy_of::<S>(heap, image)?;
    let asked = asked_of(heap, asks)?;
    let before = counted.calls();
    let made = write_delta(heap, &copy, &asked)?;
    let calls = counted.calls().saturating_sub(before);
    Ok((made.as_slice() == delta, calls, made.capacity()))
}

/// The same in a heap of its own.
fn made<A: Allocator + Copy>(alloc: A, row: &Row) -> Result<(bool, u64, usize), AllocError> {
    let heap = Refusing::new(alloc, MOST);
    made_in::<ProgramStore<_>, A>(&heap, &heap, row)
}

#[test]
fn deltas_are_exact(rt: HostRuntime) {
    for row in &MADE {
        let (name, wanted) = (row.0, (true, 1, row.3.len()));
        assert_eq!(rt; made(rt.alloc(), row), Ok(wanted), "{name}");
    }
}
