//! The allocator that the tests of failing allocations rest on: one allocation fails, and no other, and the largest is
//! remembered.
use refusing_alloc::{MOST_FOR_A_BYTE, Refusing};
use std::alloc::Allocator;
use std::test::Fail;

/// The number that fails, and which of four boxes could be made.
static ROWS: [(u64, [bool; 4]); 4] = [
    (0, [true, true, true, true]),
    (1, [false, true, true, true]),
    (3, [true, true, false, true]),
    (5, [true, true, true, true]),
];

/// Whether a box is made.
fn is_made<A: Allocator + Copy>(alloc: A) -> bool {
    Box::new(alloc, 7_u64).is_ok()
}

/// Which of four boxes are made in this memory.
fn are_made<A: Allocator + Copy>(alloc: A) -> [bool; 4] {
    [
        is_made(alloc),
        is_made(alloc),
        is_made(alloc),
        is_made(alloc),
    ]
}

/// Which of four boxes are made where this allocation fails, how many allocations were asked for, and how many bytes
/// the largest of them has.
fn made_without<A: Allocator + Copy>(inner: A, refused: u64) -> ([bool; 4], u64, usize) {
    let heap = Refusing::new(inner, refused);
    let made = are_made(&heap);
    (made, heap.calls(), heap.largest())
}

#[test]
fn one_allocation_fails(rt: HostRuntime) -> Result<(), Fail> {
    for (refused, wanted) in ROWS {
        let (made, calls, largest) = made_without(rt.alloc(), refused);
        assert!(rt;
            made == wanted && calls == 4 && largest == 8,
            "allocation {refused} fails"
        );
    }
    Ok(())
}

/// How many bytes are asked for at once, of which number the allocation fails, and those of the largest then.
static SIZES: [([usize; 3], u64, usize); 4] = [
    ([1, 4_000, 2], 0, 4_000),
    ([4_000, 1, 2], 2, 4_000),
    ([1, 2, 4_000], 3, 4_000),
    ([1, 2, 3], 1, 3),
];

/// Asks for so many bytes each, this allocation failing, and gives those of the largest, and whether it is within an
/// eighth of them, and within a byte less.
fn largest_of<A: Allocator + Copy>(
    inner: A,
    sizes: &[usize; 3],
    refused: u64,
) -> (usize, bool, bool) {
    let heap = Refusing::new(inner, refused);
    for size in sizes {
        let _ = Vec::<u8, _>::with_capacity(&heap, *size);
    }
    let eighth = heap.largest() / MOST_FOR_A_BYTE;
    let is_less_enough = eighth > 0 && heap.is_within(eighth.saturating_sub(1));
    (heap.largest(), heap.is_within(eighth), is_less_enough)
}

#[test]
fn the_largest_is_remembered(rt: HostRuntime) {
    for (sizes, refused, largest) in &SIZES {
        let found = largest_of(rt.alloc(), sizes, *refused);
        assert_eq!(rt; found, (*largest, true, false));
    }
}
