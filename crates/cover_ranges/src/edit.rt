//! One range in place of those that it meets.
ghost use Rattle.std.specs.Prelude.{◌≡◌, ◌<◌, ◌≤◌, ◌+◌, ◌-◌, ◌^◌, ◌++◌, ◌∷◌, length, take, drop, ℤ, pos, ◌<ℤ◌, ◌≤ℤ◌, is_ok, IsOk, if◌then◌else◌, slice_index_or};
ghost use Rattle.std.specs.Int.{int_min, int_max};
ghost use Rattle.std.specs.Vec.{vec_len, vec_capacity};
ghost use Rattle.cover_ranges.specs.Runs.{IsCanonical, cut_below};
ghost use Rattle.cover_ranges.specs.Insertion.{Reaches};

use crate::OFFSETS_END;
use crate::search::{count_started, index_of};
use std::alloc::{AllocError, Allocator};

/// What an insertion does: `range` replaces the ranges from `start` to before `end`.
#[derive(Drop)]
pub(crate) struct Splice {
    pub(crate) start: usize,
    pub(crate) end: usize,
    pub(crate) range: (i64, i64),
}

/// The range that reaches from `first` to `last`, and over the ranges from `start` to before `end`.
fn joined_range(
    ranges: &[(i64, i64)],
    start: usize,
    end: usize,
    first: i64,
    last: i64,
) -> (i64, i64)
    requires canonical { IsCanonical ranges.now }
    requires within { end ≤ length ranges.now }
    ensures alone { end ≤ start → result ≡ (first, last) }
    ensures first { start < end
        → result.0 ≡ int_min first (slice_index_or ranges.now start (pos 0, pos 0)).0 }
    ensures last { start < end
        → result.1 ≡ int_max last (slice_index_or ranges.now (end - 1) (pos 0, pos 0)).1 }
{
    if end <= start {
        return (first, last);
    }
    (first.min(ranges[start].0), last.max(ranges[end - 1].1))
}

/// Finds the ranges that those from `first` to `last` overlap or touch, and the range that joins
/// them all.
pub(crate) fn splice_of(ranges: &[(i64, i64)], first: i64, last: i64) -> Splice
    requires canonical { IsCanonical ranges.now }
    requires not_negative { pos 0 ≤ℤ first }
    requires not_empty { first ≤ℤ last }
    requires in_bounds { last <ℤ OFFSETS_END }
    ensures { Reaches ranges.now result.start result.end first last result.range }
{
    let start = index_of(ranges, first - 1);
    let end = count_started(ranges, last + 1);
    let range = joined_range(ranges, start, end, first, last);
    Splice { start, end, range }
}

/// Removes the ranges from `start` to before `end`. A range that grows takes none away, and one that
/// closes a gap takes one away.
fn remove_between<A: Allocator + Copy>(ranges: &mut Vec<(i64, i64), A>, start: usize, end: usize)
    requires ordered { start ≤ end }
    requires within { end ≤ vec_len ranges.old }
    ensures items { ranges.new.items ≡ take start ranges.old.items ++ drop end ranges.old.items }
    ensures fewer { vec_len ranges.new ≤ vec_len ranges.old }
    ensures keeps_memory { vec_capacity ranges.new ≡ vec_capacity ranges.old }
{
    if start == end {
        return;
    }
    if start + 1 == end {
        ranges.remove(start);
        return;
    }
    ranges.copy_within(end.., start);
    ranges.truncate(ranges.len() - (end - start));
}

/// Puts `range` in place of those from `start` to before `end`, with one move of what stands behind
/// them. It takes memory only where there is none to replace and no room.
pub(crate) fn replace<A: Allocator + Copy>(
    ranges: &mut Vec<(i64, i64), A>,
    start: usize,
    end: usize,
    range: (i64, i64),
) -> Result<(), AllocError>
    requires ordered { start ≤ end }
    requires within { end ≤ vec_len ranges.old }
    ensures items { ranges.new.items ≡ (if is_ok result
        then take start ranges.old.items ++ range ∷ drop end ranges.old.items
        else ranges.old.items) }
    ensures room_suffices { vec_len ranges.old < vec_capacity ranges.old → IsOk result }
    ensures one_more_at_most { vec_len ranges.new ≤ vec_len ranges.old + 1 }
    ensures keeps_memory { vec_capacity ranges.old ≤ vec_capacity ranges.new }
{
    if start == end {
        ranges.insert(start, range)?;
        return Ok(());
    }
    ranges[start] = range;
    remove_between(ranges, start + 1, end);
    Ok(())
}

/// Leaves of the ranges what lies at `start` or later: those that end below it go, and the first one
/// that is left begins there if it began earlier. It takes no memory.
pub(crate) fn cut_below<A: Allocator + Copy>(ranges: &mut Vec<(i64, i64), A>, start: i64)
    requires { IsCanonical ranges.old.items }
    ensures items { ranges.new.items ≡ cut_below start ranges.old.items }
    ensures fewer { vec_len ranges.new ≤ vec_len ranges.old }
    ensures keeps_memory { vec_capacity ranges.new ≡ vec_capacity ranges.old }
{
    let at = index_of(ranges, start);
    remove_between(ranges, 0, at);
    if !ranges.is_empty() {
        ranges[0].0 = start.max(ranges[0].0);
    }
}
