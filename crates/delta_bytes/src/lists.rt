//! The lists of offsets among a delta's entries, judged where they stand in its bytes.

ghost use Rattle.std.specs.Prelude.{◌≡◌, ℤ, pos, ◌+ℤ◌, List, MatchOption};
ghost use Rattle.deltas.specs.Entries.{OffsetsRise, last_listed};
ghost use Rattle.delta_bytes.specs.Judging.{offset_at, offsets_of, IsListAt, IsNextList};

use crate::layout::{COUNT_AT, OFFSET_SIZE, OFFSETS_AT};
use batch_codec::numbers::{be_i32_at, be_i64_at};

/// An offset as it stands in a list.
pub type OffsetBytes = [u8; OFFSET_SIZE];

/// A list of offsets, borrowed from the bytes of an entry.
#[derive(Drop)]
pub struct ListBytes<'a> {
    /// The base offset of the batch.
    pub base: i64,
    /// The offsets of its records, in order.
    pub offsets: &'a [OffsetBytes],
}

/// The offset that eight bytes say.
pub fn offset_at(bytes: &OffsetBytes) -> i64
    ensures { result ≡ offset_at bytes.now }
{
    i64::from_be_bytes(*bytes)
}

impl<'a> ListBytes<'a> {
    /// The last of the offsets, or the base where there are none.
    pub(crate) fn last(&self) -> i64
        ensures { result ≡ last_listed self.now.base (offsets_of self.now.offsets.now) }
    {
        match self.offsets.last() {
            Some(bytes) => offset_at(bytes),
            None => self.base,
        }
    }
}

/// The list behind the kind, if it is all there.
fn list_at(bytes: &[u8]) -> Option<ListBytes<'_>>
    ensures { MatchOption result
        ((base : ℤ) → (offsets : List ℤ) → IsListAt base offsets bytes.now → ⊥)
        (λ list. IsListAt list.base (offsets_of list.offsets.now) bytes.now) }
{
    if bytes.len() < OFFSETS_AT {
        return None;
    }
    let Ok(count) = usize::try_from(be_i32_at(bytes, COUNT_AT)) else {
        return None;
    };
    let end = OFFSETS_AT + OFFSET_SIZE * count;
    if bytes.len() < end {
        return None;
    }
    let (offsets, _) = bytes[OFFSETS_AT..end].as_chunks::<OFFSET_SIZE>();
    Some(ListBytes {
        base: be_i64_at(bytes, 0),
        offsets,
    })
}

/// The last of the offsets, if each is above the one before it and the first above `before`.
fn last_rising(before: i64, offsets: &[OffsetBytes]) -> Option<i64>
    ensures { MatchOption result
        (OffsetsRise (before +ℤ pos 1) (offsets_of offsets.now) → ⊥)
        (λ last. OffsetsRise (before +ℤ pos 1) (offsets_of offsets.now)
        × (last ≡ last_listed before (offsets_of offsets.now))) }
{
    let mut last = before;
    for bytes in offsets {
        let offset = offset_at(bytes);
        if offset <= last {
            return None;
        }
        last = offset;
    }
    Some(last)
}

/// The last of the offsets, or the base where there are none, if they rise from the base on.
fn last_from(base: i64, offsets: &[OffsetBytes]) -> Option<i64>
    ensures { MatchOption result
        (OffsetsRise base (offsets_of offsets.now) → ⊥)
        (λ last. OffsetsRise base (offsets_of offsets.now)
        × (last ≡ last_listed base (offsets_of offsets.now))) }
{
    let Some((first, later)) = offsets.split_first() else {
        return Some(base);
    };
    let first = offset_at(first);
    if first < base {
        return None;
    }
    last_rising(first, later)
}

/// The list behind the kind, if it may follow entries that end before `low`, and its last offset.
pub(crate) fn next_list(bytes: &[u8], low: i64) -> Option<(ListBytes<'_>, i64)>
    ensures { MatchOption result
        ((base : ℤ) → (offsets : List ℤ) → IsNextList low base offsets bytes.now → ⊥)
        (λ found. IsNextList low found.0.base (offsets_of found.0.offsets.now) bytes.now
        × (found.1 ≡ last_listed found.0.base (offsets_of found.0.offsets.now))) }
{
    let Some(list) = list_at(bytes) else {
        return None;
    };
    if list.base < low {
        return None;
    }
    let Some(last) = last_from(list.base, list.offsets) else {
        return None;
    };
    Some((list, last))
}
