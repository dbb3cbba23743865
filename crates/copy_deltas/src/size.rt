//! How many bytes a delta has.

ghost use Rattle.std.specs.Prelude.{◌≡◌, ◌↔◌, ◌≤◌, ◌≤ℤ◌, ◌+◌, ◌*◌, min, length, IsTrue};
ghost use Rattle.batch_codec.specs.Offsets.{first_offset, last_offset};
ghost use Rattle.cover_ranges.specs.Runs.{IsCanonical};
ghost use Rattle.content.specs.Content.{IsInRange};
ghost use Rattle.deltas.specs.Deltas.{entry_for, delta_of};
ghost use Rattle.delta_bytes.specs.EntryBytes.{entry_bytes};
ghost use Rattle.delta_bytes.specs.Deltas.{delta_encoding};

use crate::asking::{is_asked, record_count};
use crate::layout::{EMPTY_LIST_SIZE, EMPTY_SIZE};
use batch_codec::BatchView;
use copy_images::layout::RANGE_SIZE;
use cover_ranges::Cover;
use delta_bytes::layout::{KIND_SIZE, OFFSET_SIZE};
use partition_log::PartitionLog;
use segment::BatchStore;
use std::alloc::Allocator;

/// How many bytes a delta has beside its entries; where that is no `usize`, the greatest one.
fn fixed_size(ranges: usize, asked: usize) -> usize
    ensures { result ≡ min (30 + 16 * ranges + 16 * asked) 18446744073709551615 }
{
    EMPTY_SIZE
        .saturating_add(ranges.saturating_mul(RANGE_SIZE))
        .saturating_add(asked.saturating_mul(RANGE_SIZE))
}

/// How many bytes an entry has that lists so many offsets; where that is no `usize`, the greatest one.
fn list_size(offsets: usize) -> usize
    ensures { result ≡ min (13 + 8 * offsets) 18446744073709551615 }
{
    EMPTY_LIST_SIZE.saturating_add(offsets.saturating_mul(OFFSET_SIZE))
}

/// How many bytes the entry for a batch has; where that is no `usize`, the greatest one.
fn entry_size<B: Allocator + Copy>(asked: &Cover<B>, batch: &BatchView<'_>) -> usize
    requires canonical { IsCanonical asked.now.runs }
    requires in_range { IsInRange batch.now }
    requires some { first_offset batch.now ≤ℤ last_offset batch.now }
    ensures { result ≡ min (length (entry_bytes (entry_for asked.now.runs batch.now)))
        18446744073709551615 }
{
    if is_asked(asked, batch) {
        list_size(record_count(batch))
    } else {
        KIND_SIZE.saturating_add(batch.bytes().len())
    }
}

/// How many bytes the entries have, and that many before them; where that is no `usize`, the greatest
/// one.
fn size_with<B: Allocator + Copy, S: BatchStore>(
    fixed: usize,
    copy: &PartitionLog<S>,
    asked: &Cover<B>,
) -> usize
    requires canonical { IsCanonical asked.now.runs }
    requires fixed { fixed
        ≡ min (30 + 16 * length copy.now.cover + 16 * length asked.now.runs) 18446744073709551615 }
    ensures { result ≡ min (length (delta_encoding (delta_of copy.now asked.now.runs)))
        18446744073709551615 }
{
    let mut size = fixed;
    let mut walk = copy.walk(0);
    while let Some(batch) = walk.next() {
        size = size.saturating_add(entry_size(asked, &batch));
    }
    size
}

/// How many bytes the delta has; where that is no `usize`, the greatest one.
pub(crate) fn size_of<B: Allocator + Copy, S: BatchStore>(
    copy: &PartitionLog<S>,
    asked: &Cover<B>,
) -> usize
    ensures { result ≡ min (length (delta_encoding (delta_of copy.now asked.now.runs)))
        18446744073709551615 }
{
    let fixed = fixed_size(copy.cover().ranges().len(), asked.ranges().len());
    size_with(fixed, copy, asked)
}

/// Whether the delta of a copy for what was asked has at most this many bytes. Takes no memory.
pub fn has_delta_within<B: Allocator + Copy, S: BatchStore>(
    copy: &PartitionLog<S>,
    asked: &Cover<B>,
    limit: u32,
) -> bool
    ensures { IsTrue result ↔ (length (delta_encoding (delta_of copy.now asked.now.runs)) ≤ limit) }
{
    size_of(copy, asked) <= limit as usize
}
