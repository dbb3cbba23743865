//! A sparse index of five entries: what it finds, also once each of its allocations failed.

ghost use Rattle.std.specs.Prelude.{◌≡◌, pos, [], ◌∷◌, IfOk};

use offset_index::SparseIndex;
use refusing_alloc::Refusing;
use std::alloc::{AllocError, Allocator};

/// An offset, and the entry that is found from it.
type Found = (i64, Option<(i64, usize)>);

/// What four entries find.
static FOUND_OF_FOUR: [Found; 7] = [
    (i64::MIN, None),
    (-1, None),
    (0, Some((0, 0))),
    (9, Some((0, 0))),
    (10, Some((10, 4_100))),
    (39, Some((30, 12_300))),
    (i64::MAX, Some((30, 12_300))),
];

/// What five entries find.
static FOUND: [Found; 7] = [
    (-1, None),
    (0, Some((0, 0))),
    (10, Some((10, 4_100))),
    (29, Some((20, 8_200))),
    (39, Some((30, 12_300))),
    (40, Some((40, 16_400))),
    (i64::MAX, Some((40, 16_400))),
];

/// Whether the index finds these.
fn finds<A: Allocator + Copy>(index: &SparseIndex<A>, wanted: &[Found]) -> bool {
    let mut all = true;
    for (offset, found) in wanted {
        all = all && index.floor(*offset) == *found;
    }
    all
}

/// An index of one entry, which is added again where memory lacked; and whether it lacked, and the index had no entry
/// then.
fn begun<A: Allocator + Copy>(alloc: A) -> Result<(SparseIndex<A>, bool), AllocError>
    ensures { IfOk result (λ begun. begun.0.entries ≡ (pos 0, 0) ∷ []) }
{
    let mut index = SparseIndex::new(alloc);
    match index.push(0, 0) {
        Ok(()) => Ok((index, false)),
        Err(_) => {
            let has_lacked = index.floor(0).is_none();
            index.push(0, 0)?;
            Ok((index, has_lacked))
        }
    }
}

/// An index of four entries, likewise.
fn with_four<A: Allocator + Copy>(alloc: A) -> Result<(SparseIndex<A>, bool), AllocError>
    ensures { IfOk result (λ made. made.0.entries
        ≡ (pos 0, 0) ∷ (pos 10, 4100) ∷ (pos 20, 8200) ∷ (pos 30, 12300) ∷ []) }
{
    let (mut index, has_lacked) = begun(alloc)?;
    index.push(10, 4_100)?;
    index.push(20, 8_200)?;
    index.push(30, 12_300)?;
    Ok((index, has_lacked))
}

/// Adds a fifth entry, again where memory lacked, and tells whether it did; `None` where the index finds something else
/// then.
fn takes_fifth<A: Allocator + Copy>(index: &mut SparseIndex<A>) -> Option<bool>
    requires { index.old.entries
        ≡ (pos 0, 0) ∷ (pos 10, 4100) ∷ (pos 20, 8200) ∷ (pos 30, 12300) ∷ [] }
{
    match index.push(40, 16_400) {
        Ok(()) => Some(false),
        Err(_) => {
            let is_same = finds(index, &FOUND_OF_FOUR);
            index.push(40, 16_400).ok()?;
            if is_same { Some(true) } else { None }
        }
    }
}

/// Whether memory lacked for the first entry of five, and for the last, each added again then; `None` where the index
/// finds something else.
fn lacking<A: Allocator + Copy>(alloc: A) -> Option<(bool, bool)> {
    let (mut index, has_first_lacked) = with_four(alloc).ok()?;
    let has_last_lacked = takes_fifth(&mut index)?;
    if finds(&index, &FOUND) {
        Some((has_first_lacked, has_last_lacked))
    } else {
        None
    }
}

/// Which allocation fails, and whether memory lacks for the first and for the last entry then.
static ROWS: [(u64, (bool, bool)); 4] = [
    (0, (false, false)),
    (1, (true, false)),
    (2, (false, true)),
    (3, (false, false)),
];

#[test]
fn the_last_entry_at_or_below(rt: HostRuntime) {
    for (refused, wanted) in &ROWS {
        let heap = Refusing::new(rt.alloc(), *refused);
        assert_eq!(rt; lacking(&heap), Some(*wanted), "allocation {refused} fails");
        // five entries, of 16 bytes each
        assert!(rt; heap.is_within(5 * 16));
    }
}
