//! Whether a delta's ranges, where they stand in its bytes, hold offsets and spans.

ghost use Rattle.std.specs.Prelude.{◌≡◌, ℤ, ◌≤ℤ◌, ◌↔◌, IsTrue};
ghost use Rattle.batch_codec.specs.Offsets.{first_offset, last_offset};
ghost use Rattle.content.specs.Content.{IsInRange};
ghost use Rattle.cover_ranges.specs.Runs.{covers, IsCanonical, CoversAll, CoversAny};
ghost use Rattle.copy_images.specs.Judging.{ranges_of};
ghost use Rattle.deltas.specs.Entries.{OffsetsRise, AreCovered};
ghost use Rattle.delta_bytes.specs.Judging.{offsets_of, first_starts_by};

use crate::lists::{ListBytes, OffsetBytes, offset_at};
use batch_codec::BatchView;
use copy_images::ranges::{RangeBytes, ending_from, first_holds, range_at};

/// Whether one of the ranges holds an offset.
fn covers_offset(ranges: &[RangeBytes], offset: i64) -> bool
    requires { IsCanonical (ranges_of ranges.now) }
    ensures { result ≡ covers (ranges_of ranges.now) offset }
{
    first_holds(ending_from(ranges, offset), offset, offset)
}

/// Whether the ranges hold each of the offsets, which rise.
fn covers_each(ranges: &[RangeBytes], offsets: &[OffsetBytes]) -> bool
    requires canonical { IsCanonical (ranges_of ranges.now) }
    requires rising { (low : ℤ) × OffsetsRise low (offsets_of offsets.now) }
    ensures { IsTrue result ↔ AreCovered (ranges_of ranges.now) (offsets_of offsets.now) }
{
    // The ranges that end at the last offset or later.
    let mut left = ranges;
    for bytes in offsets {
        let offset = offset_at(bytes);
        left = ending_from(left, offset);
        if !first_holds(left, offset, offset) {
            return false;
        }
    }
    true
}

/// Whether the ranges hold all that a list tells of.
pub(crate) fn is_seen(ranges: &[RangeBytes], list: &ListBytes<'_>) -> bool
    requires canonical { IsCanonical (ranges_of ranges.now) }
    requires rising { OffsetsRise list.now.base (offsets_of list.now.offsets.now) }
    ensures { IsTrue result ↔ (IsTrue (covers (ranges_of ranges.now) list.now.base)
        × AreCovered (ranges_of ranges.now) (offsets_of list.now.offsets.now)) }
{
    covers_offset(ranges, list.base) && covers_each(ranges, list.offsets)
}

/// Whether the ranges hold all offsets from `first` to `last`.
pub fn covers_all(ranges: &[RangeBytes], first: i64, last: i64) -> bool
    requires canonical { IsCanonical (ranges_of ranges.now) }
    requires some { first ≤ℤ last }
    ensures { IsTrue result ↔ CoversAll (ranges_of ranges.now) first last }
{
    first_holds(ending_from(ranges, first), first, last)
}

/// Whether there is a range, and the first one starts at `last` or before.
#[tactic(auto, unfolding(crate::specs::Judging::first_starts_by))]
fn first_starts_by(ranges: &[RangeBytes], last: i64) -> bool
    ensures { result ≡ first_starts_by last (ranges_of ranges.now) }
{
    match ranges.first() {
        Some(bytes) => range_at(bytes).0 <= last,
        None => false,
    }
}

/// Whether the ranges hold some offset from `first` to `last`.
pub fn covers_any(ranges: &[RangeBytes], first: i64, last: i64) -> bool
    requires canonical { IsCanonical (ranges_of ranges.now) }
    requires some { first ≤ℤ last }
    ensures { IsTrue result ↔ CoversAny (ranges_of ranges.now) first last }
{
    first_starts_by(ending_from(ranges, first), last)
}

/// Whether the sender has seen all of a batch's span, and no offset of it was asked for.
pub(crate) fn is_span_within(
    ranges: &[RangeBytes],
    asked: &[RangeBytes],
    batch: &BatchView<'_>,
) -> bool
    requires ranges { IsCanonical (ranges_of ranges.now) }
    requires asked { IsCanonical (ranges_of asked.now) }
    requires some { first_offset batch.now ≤ℤ last_offset batch.now }
    requires in_range { IsInRange batch.now }
    ensures { IsTrue result
        ↔ (CoversAll (ranges_of ranges.now) (first_offset batch.now) (last_offset batch.now)
        × ¬ CoversAny (ranges_of asked.now) (first_offset batch.now) (last_offset batch.now)) }
{
    let (first, last) = (batch.base(), batch.last_offset());
    covers_all(ranges, first, last) && !covers_any(asked, first, last)
}
