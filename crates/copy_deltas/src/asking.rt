//! What decides how a delta tells of a batch: whether one of its offsets was asked, and how many records
//! it has.

ghost use Rattle.std.specs.Prelude.{◌≡◌, ◌≤ℤ◌, min, length};
ghost use Rattle.batch_codec.specs.Offsets.{first_offset, last_offset};
ghost use Rattle.cover_ranges.specs.Runs.{IsCanonical};
ghost use Rattle.content.specs.Content.{IsInRange};
ghost use Rattle.deltas.specs.Deltas.{is_asked};

use batch_codec::BatchView;
use cover_ranges::Cover;
use std::alloc::Allocator;

/// Whether some offset of a batch's span was asked.
pub(crate) fn is_asked<B: Allocator + Copy>(asked: &Cover<B>, batch: &BatchView<'_>) -> bool
    requires canonical { IsCanonical asked.now.runs }
    requires in_range { IsInRange batch.now }
    requires some { first_offset batch.now ≤ℤ last_offset batch.now }
    ensures { result ≡ is_asked asked.now.runs batch.now }
{
    asked.has_any(batch.base(), batch.last_offset())
}

/// How many records a batch has; where that is no `usize`, the greatest one.
pub(crate) fn record_count(batch: &BatchView<'_>) -> usize
    ensures { result ≡ min (length batch.now.recs) 18446744073709551615 }
{
    let mut count: usize = 0;
    for _ in batch.recs() {
        count = count.saturating_add(1);
    }
    count
}
