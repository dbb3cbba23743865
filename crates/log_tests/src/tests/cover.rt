//! `cover_ranges`: sets of offsets worked by hand, the refusals of `from_ranges`, and each
//! allocation failing in turn.
ghost use Rattle.std.specs.Prelude.{◌<◌, pos, ◌≤ℤ◌};

use copy_answers::put_cover;
use cover_ranges::{Cover, CoverError, OFFSETS_END};
use refusing_alloc::Refusing;
use std::alloc::{AllocError, Allocator};
use std::test::Fail;

const GREATEST: i64 = OFFSETS_END - 1;

/// More allocations than any run below asks for.
const MANY_ALLOCATIONS: u64 = 100;

/// How many bytes 40 ranges have; the sets that are united have no more.
const GIVEN: usize = 40 * 16;

/// Ranges as offsets, each its first and its last one.
type Ranges = &'static [(i64, i64)];

/// What a row is of, the ranges that are inserted, and those of the set then.
static INSERTIONS: [(&str, Ranges, Ranges); 5] = [
    ("nothing", &[], &[]),
    (
        "apart",
        &[(10, 12), (20, 25), (0, 4)],
        &[(0, 4), (10, 12), (20, 25)],
    ),
    (
        "over several",
        &[(0, 1), (4, 5), (8, 9), (12, 13), (3, 8)],
        &[(0, 1), (3, 9), (12, 13)],
    ),
    ("inside one", &[(0, 25), (3, 7)], &[(0, 25)]),
    (
        "to the greatest offset",
        &[(0, 25), (27, GREATEST)],
        &[(0, 25), (27, GREATEST)],
    ),
];

/// Whether a set has these ranges after those were inserted; not where one of them can't be.
fn inserts_to<A: Allocator + Copy>(
    alloc: A,
    ranges: &[(i64, i64)],
    wanted: &[(i64, i64)],
) -> Result<bool, AllocError> {
    let mut cover = Cover::new(alloc);
    for &(first, last) in ranges {
        if first < 0 || last < first || last >= OFFSETS_END {
            return Ok(false);
        }
        cover.insert(first, last)?;
    }
    Ok(cover.ranges() == wanted)
}

#[test]
fn insertions(rt: HostRuntime) -> Result<(), Fail> {
    for (name, ranges, wanted) in INSERTIONS {
        assert!(rt; inserts_to(rt.alloc(), ranges, wanted)?, "{name}");
    }
    Ok(())
}

/// Ranges, and the text of the refusal to make a set of them where there is no memory.
static REFUSALS: [(Ranges, &str); 10] = [
    (&[(0, 4), (6, GREATEST)], "OutOfMemory"),
    (&[(0, 4), (6, 5), (6, 6)], "EmptyRange"),
    (&[(-1, -2)], "EmptyRange"),
    (&[(0, 4), (5, 9)], "NotRising"),
    (&[(0, 4), (2, 3), (1, 0)], "NotRising"),
    (&[(0, 4), (-3, -3)], "NotRising"),
    (&[(-1, 3)], "OutOfBounds"),
    (&[(0, 1), (3, OFFSETS_END)], "OutOfBounds"),
    (&[(i64::MIN, i64::MAX), (1, 0)], "OutOfBounds"),
    (&[(0, 4), (6, OFFSETS_END), (5, 1)], "OutOfBounds"),
];

/// Whether a set of these ranges in this memory is refused with this text.
fn is_refused<A: Allocator + Copy, B: Allocator + Copy>(
    heap: A,
    alloc: B,
    ranges: &[(i64, i64)],
    wanted: &str,
) -> Result<bool, AllocError> {
    match Cover::from_ranges(heap, ranges) {
        Ok(_) => Ok(false),
        Err(error) => Ok(format!(in alloc; "{error}")?.as_str() == wanted),
    }
}

/// The same where there is no memory, which is asked for only if no range is at fault.
fn is_refused_without_memory<A: Allocator + Copy>(
    alloc: A,
    ranges: &[(i64, i64)],
    wanted: &str,
) -> Result<bool, AllocError> {
    let heap = Refusing::new(alloc, 1);
    let is_right = is_refused(&heap, alloc, ranges, wanted)?;
    Ok(is_right && (heap.calls() == 1) == (wanted == "OutOfMemory"))
}

#[test]
fn the_first_range_at_fault_decides(rt: HostRuntime) -> Result<(), Fail> {
    for (ranges, wanted) in REFUSALS {
        let is_right = is_refused_without_memory(rt.alloc(), ranges, wanted)?;
        assert!(rt; is_right, "{wanted}: {ranges:?}");
    }
    Ok(())
}

/// Whether all and whether some offsets from the first to the last are in the set, and its first gap.
type Answers = (bool, bool, i64);

/// The first and the last offset that are asked for, and the answers.
static QUESTIONS: [(i64, i64, Answers); 11] = [
    (0, 0, (true, true, 5)),
    (1, 4, (true, true, 5)),
    (1, 5, (false, true, 5)),
    (4, 10, (false, true, 5)),
    (5, 9, (false, false, 5)),
    (7, 6, (true, false, 7)),
    (8, 15, (false, true, 8)),
    (10, 12, (true, true, 13)),
    (25, GREATEST, (true, true, OFFSETS_END)),
    (i64::MIN, i64::MAX, (false, true, i64::MIN)),
    (i64::MAX, i64::MAX, (false, false, i64::MAX)),
];

/// The first offset of the first question that a set answers otherwise, also whether it has that offset.
fn answered_otherwise<A: Allocator + Copy>(cover: &Cover<A>) -> Option<i64> {
    for &(first, last, wanted) in &QUESTIONS {
        let all = cover.has_all(first, last);
        let any = cover.has_any(first, last);
        let has_first = cover.contains(first) == (wanted.2 != first);
        if !has_first || (all, any, cover.first_gap(first)) != wanted {
            return Some(first);
        }
    }
    None
}

#[test]
fn questions_take_any_numbers(rt: HostRuntime) -> Result<(), Fail> {
    let cover = Cover::from_ranges(rt.alloc(), &[(0, 4), (10, 12), (20, GREATEST)])?;
    assert_eq!(rt; answered_otherwise(&cover), None);
    Ok(())
}

/// Where the range of this number starts: every other one goes in front of all that are there.
fn start_of(n: u8) -> i64
    requires { n < 40 }
    ensures at_least { pos 600 ≤ℤ result }
    ensures at_most { result ≤ℤ pos 1400 }
{
    let step = 10 * i64::from(n);
    if n % 2 == 0 { 1000 + step } else { 1000 - step }
}

/// What a set answers without taking memory.
fn answers_of<A: Allocator + Copy, B: Allocator + Copy>(
    alloc: B,
    cover: &Cover<A>,
) -> Result<Vec<u8, B>, AllocError> {
    let mut out = Vec::new(alloc);
    put_cover(&mut out, cover)?;
    Ok(out)
}

/// Whether two sets answer the same.
fn are_alike<A: Allocator + Copy, B: Allocator + Copy>(
    alloc: B,
    cover: &Cover<A>,
    other: &Cover<B>,
) -> Result<bool, AllocError> {
    Ok(answers_of(alloc, cover)? == answers_of(alloc, other)?)
}

/// Reserves room, again where memory lacked, and tells whether the set answered as the other one then.
fn reserves_later<A: Allocator + Copy, B: Allocator + Copy>(
    alloc: B,
    cover: &mut Cover<A>,
    other: &Cover<B>,
) -> Result<bool, AllocError> {
    if cover.reserve_one().is_ok() {
        return Ok(true);
    }
    let is_same = are_alike(alloc, cover, other)?;
    cover.reserve_one()?;
    Ok(is_same)
}

/// Inserts the five offsets from this one on into both sets, again where memory lacked, and tells whether the
/// first set answered as the other one then, and does so now.
fn inserts_later<A: Allocator + Copy, B: Allocator + Copy>(
    alloc: B,
    cover: &mut Cover<A>,
    other: &mut Cover<B>,
    first: i64,
) -> Result<bool, AllocError>
    requires at_least { pos 0 ≤ℤ first }
    requires at_most { first ≤ℤ pos 1400 }
{
    if cover.insert(first, first + 4).is_err() {
        if !are_alike(alloc, cover, other)? {
            return Ok(false);
        }
        cover.insert(first, first + 4)?;
    }
    other.insert(first, first + 4)?;
    are_alike(alloc, cover, other)
}

/// Inserts 40 ranges, which touch none, into both sets, and tells whether all was right, and none was asked for
/// memory where there was room.
fn insert_forty<A: Allocator + Copy, B: Allocator + Copy>(
    inner: B,
    heap: &Refusing<B>,
    cover: &mut Cover<A>,
    other: &mut Cover<B>,
    reserving: bool,
) -> Result<bool, AllocError> {
    for n in 0..40u8 {
        if reserving && !reserves_later(inner, cover, other)? {
            return Ok(false);
        }
        let calls = heap.calls();
        let is_right = inserts_later(inner, cover, other, start_of(n))?;
        if !is_right || (reserving && heap.calls() != calls) {
            return Ok(false);
        }
    }
    Ok(cover.ranges().len() == 40)
}

/// Inserts 40 ranges into a set of this memory.
fn inserts_forty<B: Allocator + Copy>(
    inner: B,
    heap: &Refusing<B>,
    reserving: bool,
) -> Result<bool, AllocError> {
    let mut cover = Cover::new(heap);
    insert_forty(inner, heap, &mut cover, &mut Cover::new(inner), reserving)
}

/// Two sets, and their union.
static MINE: [(i64, i64); 6] = [(0, 4), (20, 24), (40, 44), (60, 64), (80, 84), (100, 104)];

static THEIRS: [(i64, i64); 6] = [(3, 9), (30, 34), (45, 59), (70, 74), (90, 94), (105, 109)];

static BOTH: [(i64, i64); 8] = [
    (0, 9),
    (20, 24),
    (30, 34),
    (40, 64),
    (70, 74),
    (80, 84),
    (90, 94),
    (100, 109),
];

/// Makes a set, again where memory lacked.
fn made_later<A: Allocator + Copy>(heap: A, ranges: &[(i64, i64)]) -> Result<Cover<A>, CoverError> {
    match Cover::from_ranges(heap, ranges) {
        Err(CoverError::OutOfMemory) => Cover::from_ranges(heap, ranges),
        made => made,
    }
}

/// Unites two sets, again where memory lacked.
fn united_later<A: Allocator + Copy>(
    mine: &Cover<A>,
    theirs: &Cover<A>,
) -> Result<Cover<A>, AllocError> {
    match mine.union(theirs) {
        Ok(both) => Ok(both),
        Err(_) => mine.union(theirs),
    }
}

/// Whether a copy of a set, made again where memory lacked, has these ranges.
fn is_copied_later<A: Allocator + Copy>(
    cover: &Cover<A>,
    wanted: &[(i64, i64)],
) -> Result<bool, AllocError> {
    let copy = match cover.try_clone() {
        Ok(copy) => copy,
        Err(_) => cover.try_clone()?,
    };
    Ok(copy.ranges() == wanted && cover.ranges() == wanted)
}

/// Whether two sets are as they were, each within their union, and neither the union nor the other within the first.
fn are_within<A: Allocator + Copy>(mine: &Cover<A>, theirs: &Cover<A>, both: &Cover<A>) -> bool {
    let are_same = mine.ranges() == MINE.as_slice() && theirs.ranges() == THEIRS.as_slice();
    let is_within = mine.is_subset(both) && theirs.is_subset(both);
    are_same && is_within && !both.is_subset(mine) && !theirs.is_subset(mine)
}

/// Unites two sets and copies the union, again where memory lacked.
fn unites_later<A: Allocator + Copy>(
    mine: &Cover<A>,
    theirs: &Cover<A>,
) -> Result<bool, AllocError> {
    let both = united_later(mine, theirs)?;
    Ok(are_within(mine, theirs, &both) && is_copied_later(&both, BOTH.as_slice())?)
}

/// Makes two sets of this memory and their union.
fn sets_come_later<A: Allocator + Copy>(heap: A) -> Result<bool, Fail> {
    let mine = made_later(heap, &MINE)?;
    let theirs = made_later(heap, &THEIRS)?;
    Ok(unites_later(&mine, &theirs)?)
}

/// What takes memory.
#[derive(Clone, Copy)]
enum Run {
    Insertions,
    InsertionsWithRoom,
    Union,
}

/// The runs, and their names.
static RUNS: [(&str, Run); 3] = [
    ("insertions", Run::Insertions),
    ("insertions with room", Run::InsertionsWithRoom),
    ("sets and their union", Run::Union),
];

/// Makes the calls of a run.
fn succeeds_later<B: Allocator + Copy>(
    inner: B,
    heap: &Refusing<B>,
    run: Run,
) -> Result<bool, Fail> {
    match run {
        Run::Insertions => Ok(inserts_forty(inner, heap, false)?),
        Run::InsertionsWithRoom => Ok(inserts_forty(inner, heap, true)?),
        Run::Union => sets_come_later(heap),
    }
}

/// Makes the calls of a run, each allocation failing in turn, until one doesn't ask for the one that would fail,
/// and tells whether all was right, and no more was asked for at once than the ranges allow.
fn each_succeeds_later(rt: &HostRuntime, run: Run) -> Result<bool, Fail> {
    for failing in 1..MANY_ALLOCATIONS {
        let heap = Refusing::new(rt.alloc(), failing);
        if !succeeds_later(rt.alloc(), &heap, run)? || !heap.is_within(GIVEN) {
            return Ok(false);
        }
        if heap.calls() < failing {
            return Ok(failing > 1);
        }
    }
    Ok(false)
}

#[test]
fn each_allocation_fails(rt: HostRuntime) -> Result<(), Fail> {
    for (name, run) in RUNS {
        assert!(rt; each_succeeds_later(&rt, run)?, "{name}");
    }
    Ok(())
}
