//! What a delta tells, where it stands in its bytes.

ghost use Rattle.std.specs.Prelude.{◌≡◌, ◌↔◌, IsTrue};
ghost use Rattle.cover_ranges.specs.Runs.{IsCanonical};
ghost use Rattle.copy_images.specs.Judging.{ranges_of};
ghost use Rattle.deltas.specs.Deltas.{Delta};
ghost use Rattle.delta_bytes.specs.EntryViews.{AreEncoded};
ghost use Rattle.side_by_side.specs.Agreement.{CoversAllOrNone};
ghost use Rattle.side_by_side.specs.Steps.{HasSpan};
ghost use Rattle.copy_deltas.specs.DeltaParts.{AreParts};

use batch_codec::BatchView;
use copy_images::layout::COUNT_SIZE;
use copy_images::ranges::{RangeBytes, ending_from};
use delta_bytes::DeltaBytes;
use delta_bytes::entries::{EntryView, split_entry};
use delta_bytes::seen::{covers_all, covers_any};
use side_by_side::{Seen, Telling};

/// The entries of a delta that was judged, from one of them on.
#[derive(Drop)]
pub(crate) struct EntryBytes<'a> {
    /// The bytes in which they stand.
    pub bytes: &'a [u8],
}

/// The entries of a delta.
pub(crate) fn entries_of<'a>(delta: &DeltaBytes<'a>) -> EntryBytes<'a>
    requires { (e : Delta) × AreParts delta.now e }
    ensures { (e : Delta) → AreParts delta.now e → AreEncoded e.entries result.bytes.now }
{
    EntryBytes {
        bytes: &delta.entries[COUNT_SIZE..],
    }
}

impl<'a> Telling for EntryBytes<'a> {
    ghost use Rattle.std.specs.Prelude.{length};
    ghost use Rattle.delta_bytes.specs.EntryViews.{AreEncoded};

    ghost tells = { λ told entries. AreEncoded entries told.bytes.now };

    ghost left = { λ told. length told.bytes.now };

    fn has_entry(&self) -> bool {
        !self.bytes.is_empty()
    }

    fn first(&self) -> Option<EntryView<'_>> {
        match split_entry(self.bytes) {
            Some((entry, _)) => Some(entry),
            None => None,
        }
    }

    fn pass(&mut self) {
        match split_entry(self.bytes) {
            Some((_, rest)) => self.bytes = rest,
            None => {}
        }
    }
}

/// Whether the ranges hold all of a batch's span, or none of it.
fn cover_all_or_none(ranges: &[RangeBytes], batch: &BatchView<'_>) -> bool
    requires canonical { IsCanonical (ranges_of ranges.now) }
    requires span { HasSpan batch.now }
    ensures { IsTrue result ↔ CoversAllOrNone (ranges_of ranges.now) batch.now }
{
    let (first, last) = (batch.base(), batch.last_offset());
    covers_all(ranges, first, last) || !covers_any(ranges, first, last)
}

/// What the sender of a delta has seen: its ranges, from one of them on.
#[derive(Drop)]
pub(crate) struct RangesLeft<'a> {
    /// The ranges, in order.
    pub ranges: &'a [RangeBytes],
}

impl<'a> Seen for RangesLeft<'a> {
    ghost use Rattle.copy_images.specs.Judging.{ranges_of};
    ghost use Rattle.copy_deltas.specs.DeltaParts.{AreFrom};

    ghost has_seen = { λ seen low runs. AreFrom low runs (ranges_of seen.ranges.now) };

    fn pass_below(&mut self, offset: i64) {
        self.ranges = ending_from(self.ranges, offset);
    }

    fn has_all_or_none(&self, batch: &BatchView<'_>) -> bool {
        cover_all_or_none(self.ranges, batch)
    }
}
