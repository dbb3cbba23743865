//! The entries of a delta that was judged, taken one after the other where they stand in its bytes.

ghost use Rattle.std.specs.Prelude.{◌≡◌, ℤ, List, [], MatchOption};
ghost use Rattle.deltas.specs.Entries.{Entry, entry_base, entry_last};
ghost use Rattle.delta_bytes.specs.Judging.{offsets_of, IsListAt};
ghost use Rattle.delta_bytes.specs.EntryViews.{IsValidEntry, AreEncoded, IsFirst, entry_of};

use crate::layout::{COUNT_AT, LISTED, OFFSET_SIZE, OFFSETS_AT};
use crate::lists::ListBytes;
use batch_codec::BatchView;
use batch_codec::numbers::{be_i32_at, be_i64_at};
use copy_images::batches::split_batch;

/// What an entry tells of one batch that the sender keeps, borrowed from the bytes of a delta; or from the
/// sender, where a copy is told of all its batches as they are.
#[derive(Drop)]
pub enum EntryView<'a> {
    /// The offsets of its records.
    Listed(ListBytes<'a>),
    /// All of it.
    Sent(BatchView<'a>),
}

impl<'a> EntryView<'a> {
    /// The base offset of the batch.
    pub fn base(&self) -> i64
        ensures { result ≡ entry_base (entry_of self.now) }
    {
        match self {
            EntryView::Listed(list) => list.base,
            EntryView::Sent(batch) => batch.base(),
        }
    }

    /// The last offset that the entry tells of.
    pub fn last(&self) -> i64
        requires { IsValidEntry (entry_of self.now) }
        ensures { result ≡ entry_last (entry_of self.now) }
    {
        match self {
            EntryView::Listed(list) => list.last(),
            EntryView::Sent(batch) => batch.last_offset(),
        }
    }
}

/// The list at the front, which is known to stand there, and the bytes after it.
fn split_list(bytes: &[u8]) -> (ListBytes<'_>, &[u8])
    requires { (base : ℤ) × (offsets : List ℤ) × IsListAt base offsets bytes.now }
    ensures { (base : ℤ) → (offsets : List ℤ) → (at : IsListAt base offsets bytes.now)
        → (result.0.base ≡ base) × (offsets_of result.0.offsets.now ≡ offsets)
        × (result.1.now ≡ at.rest) }
{
    let count = be_i32_at(bytes, COUNT_AT).unsigned_abs() as usize;
    let end = OFFSETS_AT + OFFSET_SIZE * count;
    let (offsets, _) = bytes[OFFSETS_AT..end].as_chunks::<OFFSET_SIZE>();
    let base = be_i64_at(bytes, 0);
    (ListBytes { base, offsets }, &bytes[end..])
}

/// The entry at the front of bytes in which valid entries are known to stand, one after another to their
/// end, and the bytes after it. At the end there is none.
///
/// ```
/// let (entry, after) = split_entry(rest)?;
/// ```
pub fn split_entry(bytes: &[u8]) -> Option<(EntryView<'_>, &[u8])>
    requires { (entries : List Entry) × AreEncoded entries bytes.now }
    ensures { (entries : List Entry) → AreEncoded entries bytes.now → MatchOption result
        (entries ≡ [])
        (λ found. IsFirst entries (entry_of found.0) found.1.now) }
{
    let Some((kind, behind)) = bytes.split_first() else {
        return None;
    };
    if *kind == LISTED {
        let (list, rest) = split_list(behind);
        return Some((EntryView::Listed(list), rest));
    }
    let (batch, rest) = split_batch(behind);
    Some((EntryView::Sent(batch), rest))
}
