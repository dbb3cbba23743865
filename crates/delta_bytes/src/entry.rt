//! The next of a delta's entries, judged where it stands in its bytes.

ghost use Rattle.std.specs.Prelude.{◌∷◌, IfOk, IfErr};
ghost use Rattle.cover_ranges.specs.Runs.{Runs, IsCanonical};
ghost use Rattle.copy_images.specs.Judging.{ranges_of};
ghost use Rattle.delta_bytes.specs.declared.layout.TheConstants.{LISTED, SENT};
ghost use Rattle.delta_bytes.specs.Judging.{IsEntryAt, RefusesEntry};

use crate::layout::{KIND_SIZE, LISTED, OFFSET_SIZE, OFFSETS_AT, SENT};
use crate::lists::next_list;
use crate::seen::{is_seen, is_span_within};
use copy_images::batches::next_batch;
use copy_images::ranges::RangeBytes;

/// An entry that was accepted.
#[derive(Drop)]
pub struct JudgedEntry {
    /// The last offset that it tells of.
    pub last: i64,
    /// How many bytes it takes.
    pub size: usize,
}

/// Why the next entry is refused.
#[derive(Clone, Copy, Drop)]
pub enum EntryError {
    /// No valid entry stands there, or none that may follow those before it.
    Bad,
    /// A valid one does, which tells of what the sender has not seen, or sends what was asked for.
    Unseen,
}

/// Judges a list, from behind its kind on.
fn judge_listed(bytes: &[u8], low: i64, ranges: &[RangeBytes]) -> Result<JudgedEntry, EntryError>
    requires { IsCanonical (ranges_of ranges.now) }
    ensures accepts { IfOk result (λ entry. (asked : Runs)
        → IsEntryAt (ranges_of ranges.now) asked low (LISTED ∷ bytes.now) entry.last entry.size) }
    ensures refuses { IfErr result (λ fault. (asked : Runs)
        → RefusesEntry (ranges_of ranges.now) asked low (LISTED ∷ bytes.now) fault) }
{
    let Some((list, last)) = next_list(bytes, low) else {
        return Err(EntryError::Bad);
    };
    if !is_seen(ranges, &list) {
        return Err(EntryError::Unseen);
    }
    let size = KIND_SIZE + OFFSETS_AT + OFFSET_SIZE * list.offsets.len();
    Ok(JudgedEntry { last, size })
}

/// Judges a batch that is sent, from behind its kind on.
fn judge_sent(
    bytes: &[u8],
    low: i64,
    ranges: &[RangeBytes],
    asked: &[RangeBytes],
) -> Result<JudgedEntry, EntryError>
    requires ranges { IsCanonical (ranges_of ranges.now) }
    requires asked { IsCanonical (ranges_of asked.now) }
    ensures accepts { IfOk result (λ entry. IsEntryAt (ranges_of ranges.now) (ranges_of asked.now)
        low (SENT ∷ bytes.now) entry.last entry.size) }
    ensures refuses { IfErr result
        (RefusesEntry (ranges_of ranges.now) (ranges_of asked.now) low (SENT ∷ bytes.now)) }
{
    let Some(batch) = next_batch(bytes, low) else {
        return Err(EntryError::Bad);
    };
    if !is_span_within(ranges, asked, &batch) {
        return Err(EntryError::Unseen);
    }
    let size = KIND_SIZE + batch.bytes().len();
    Ok(JudgedEntry {
        last: batch.last_offset(),
        size,
    })
}

/// Judges the entry at the front, which should follow entries that end before `low`.
pub(crate) fn judge_entry(
    bytes: &[u8],
    low: i64,
    ranges: &[RangeBytes],
    asked: &[RangeBytes],
) -> Result<JudgedEntry, EntryError>
    requires ranges { IsCanonical (ranges_of ranges.now) }
    requires asked { IsCanonical (ranges_of asked.now) }
    ensures accepts { IfOk result (λ entry. IsEntryAt (ranges_of ranges.now) (ranges_of asked.now)
        low bytes.now entry.last entry.size) }
    ensures refuses { IfErr result
        (RefusesEntry (ranges_of ranges.now) (ranges_of asked.now) low bytes.now) }
{
    let Some((kind, behind)) = bytes.split_first() else {
        return Err(EntryError::Bad);
    };
    match *kind {
        LISTED => judge_listed(behind, low, ranges),
        SENT => judge_sent(behind, low, ranges, asked),
        _ => Err(EntryError::Bad),
    }
}
