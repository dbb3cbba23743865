//! The entries of a delta, judged one after the other where they stand in its bytes.

ghost use Rattle.std.specs.Prelude.{◌≤◌, List, length, OnOk, IfErr};
ghost use Rattle.cover_ranges.specs.Runs.{IsCanonical};
ghost use Rattle.copy_images.specs.Judging.{ranges_of};
ghost use Rattle.copy_images.specs.declared.layout.TheConstants.{COUNT_SIZE};
ghost use Rattle.deltas.specs.Entries.{Entry};
ghost use Rattle.delta_bytes.specs.Faults.{AreAllItems, ItemsFault};
ghost use Rattle.delta_bytes.specs.EntryLists.{HoldsEntries, EntriesFault};

use crate::entry::{EntryError, judge_entry};
use crate::error::EntriesError;
use batch_codec::numbers::be_i32_at;
use copy_images::layout::COUNT_SIZE;
use copy_images::ranges::{RangeBytes, ending_from};
use deltas::LEAST_BASE;

/// Judges that many entries, and that nothing follows them. Each is judged whole before it is asked whether
/// it lies in the ranges.
fn judge_entries(
    ranges: &[RangeBytes],
    asked: &[RangeBytes],
    count: u32,
    bytes: &[u8],
) -> Result<(), EntriesError>
    requires ranges { IsCanonical (ranges_of ranges.now) }
    requires asked { IsCanonical (ranges_of asked.now) }
    ensures accepts { OnOk result
        (HoldsEntries (ranges_of ranges.now) (ranges_of asked.now) count bytes.now) }
    ensures refuses { IfErr result
        (EntriesFault (ranges_of ranges.now) (ranges_of asked.now) count bytes.now) }
{
    // The offset after the last entry, and what of both lists of ranges ends there or later.
    let mut low = LEAST_BASE;
    let mut ranges_left = ranges;
    let mut asked_left = asked;
    let mut rest = bytes;
    for index in 0..count {
        let entry = match judge_entry(rest, low, ranges_left, asked_left) {
            Ok(entry) => entry,
            Err(EntryError::Bad) => return Err(EntriesError::BadBatch(index)),
            Err(EntryError::Unseen) => return Err(EntriesError::Outside),
        };
        low = entry.last + 1;
        ranges_left = ending_from(ranges_left, low);
        asked_left = ending_from(asked_left, low);
        rest = &rest[entry.size..];
    }
    if !rest.is_empty() {
        return Err(EntriesError::Extra);
    }
    Ok(())
}

/// Judges the entries behind their count, and that nothing follows them.
pub(crate) fn judge_counted(
    ranges: &[RangeBytes],
    asked: &[RangeBytes],
    bytes: &[u8],
) -> Result<(), EntriesError>
    requires ranges { IsCanonical (ranges_of ranges.now) }
    requires asked { IsCanonical (ranges_of asked.now) }
    requires counted { COUNT_SIZE ≤ length bytes.now }
    ensures accepts { OnOk result ((entries : List Entry)
        × AreAllItems (ranges_of ranges.now) (ranges_of asked.now) bytes.now entries) }
    ensures refuses { IfErr result
        (ItemsFault (ranges_of ranges.now) (ranges_of asked.now) bytes.now) }
{
    let Ok(count) = u32::try_from(be_i32_at(bytes, 0)) else {
        return Err(EntriesError::BadBatch(0));
    };
    judge_entries(ranges, asked, count, &bytes[COUNT_SIZE..])
}
