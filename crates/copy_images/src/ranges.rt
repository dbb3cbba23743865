//! The ranges of an image, judged where they stand in its bytes.

ghost use Rattle.std.specs.Prelude.{◌≡◌, ◌≤ℤ◌, pos, IfOk, MatchBool};
ghost use Rattle.cover_ranges.specs.Runs.{IsCanonical};
ghost use Rattle.copy_images.specs.Refusals.{IsCoverFrom};
ghost use Rattle.copy_images.specs.Judging.{range_at, ranges_of, ending_from, first_holds};

use crate::layout::RANGE_SIZE;
use batch_codec::numbers::be_i64_at;
use cover_ranges::{Cover, OFFSETS_END};
use std::alloc::{AllocError, Allocator};

/// A range as it stands in an image.
pub type RangeBytes = [u8; RANGE_SIZE];

/// The first and the last offset of a range.
#[tactic(auto, unfolding(crate::specs::Judging::range_at))]
pub fn range_at(bytes: &RangeBytes) -> (i64, i64)
    ensures { result ≡ range_at bytes.now }
{
    (be_i64_at(bytes, 0), be_i64_at(bytes, 8))
}

/// Whether these are the maximal ranges of a set of offsets from `start` on.
pub fn is_cover(ranges: &[RangeBytes], start: i64) -> bool
    requires { pos 0 ≤ℤ start }
    ensures { MatchBool result
        (IsCoverFrom start (ranges_of ranges.now))
        (¬ IsCoverFrom start (ranges_of ranges.now)) }
{
    // The least offset that the next range may begin at.
    let mut least = start;
    for bytes in ranges {
        let (first, last) = range_at(bytes);
        if first < least || last < first || last >= OFFSETS_END {
            return false;
        }
        least = last + 2;
    }
    true
}

/// The ranges from the first on that ends at `offset` or later.
pub fn ending_from(ranges: &[RangeBytes], offset: i64) -> &[RangeBytes]
    ensures { ranges_of result.now ≡ ending_from offset (ranges_of ranges.now) }
{
    for at in 0..ranges.len() {
        let (_, last) = range_at(&ranges[at]);
        if offset <= last {
            return &ranges[at..];
        }
    }
    &[]
}

/// Whether the first of the ranges holds all offsets from `first` to `last`.
#[tactic(auto, unfolding(crate::specs::Judging::first_holds))]
pub fn first_holds(ranges: &[RangeBytes], first: i64, last: i64) -> bool
    ensures { result ≡ first_holds first last (ranges_of ranges.now) }
{
    match ranges.first() {
        Some(bytes) => {
            let (start, end) = range_at(bytes);
            start <= first && last <= end
        }
        None => false,
    }
}

/// The set of these ranges.
///
/// # Errors
///
/// Out of memory.
pub fn build_cover<A: Allocator + Copy>(
    alloc: A,
    ranges: &[RangeBytes],
) -> Result<Cover<A>, AllocError>
    requires { IsCanonical (ranges_of ranges.now) }
    ensures { IfOk result (λ cover. cover.runs ≡ ranges_of ranges.now) }
{
    let mut cover = Cover::new(alloc);
    for bytes in ranges {
        let (first, last) = range_at(bytes);
        cover.insert(first, last)?;
    }
    Ok(cover)
}
