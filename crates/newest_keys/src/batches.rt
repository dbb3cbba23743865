//! The records of batches come into a map.

ghost use Rattle.std.specs.Prelude.{◌≡◌, ◌+ℤ◌, ◌∷◌, [], ℕ, List, OnOk, FitsSigned};
ghost use Rattle.std.specs.Int.{w64};
ghost use Rattle.batch_codec.specs.Views.{record_value};
ghost use Rattle.content.specs.Content.{IsInRange};
ghost use Rattle.newest_keys.specs.Newest.{with_records, records_of};
ghost use Rattle.newest_keys.specs.Shards.{newest_in};

use crate::keys::NewestKeys;
use batch_codec::{BatchView, RecordView};
use std::alloc::{AllocError, Allocator};

/// A key takes so many bytes besides its own, about: its entry, its places in the map's tables, and what an allocator
/// keeps.
const KEY_BYTES: usize = 96;

/// How many bytes a key takes, about, if it is new.
fn bytes_of(key: &[u8], is_new: bool) -> usize {
    if is_new {
        key.len().saturating_add(KEY_BYTES)
    } else {
        0
    }
}

/// Takes in a record of a batch with this base offset. How many bytes that takes, about.
fn put_record<A: Allocator + Copy>(
    keys: &mut NewestKeys<A>,
    base: i64,
    rec: &RecordView<'_>,
) -> Result<usize, AllocError>
    requires { FitsSigned w64 (base +ℤ rec.now.delta) }
    ensures { OnOk result ((k : List ℕ) → newest_in keys.new k
        ≡ with_records (newest_in keys.old) ((base +ℤ rec.now.delta, record_value rec.now) ∷ []) k) }
{
    match rec.key {
        Some(key) => {
            let is_new = keys.put(key, base + i64::from(rec.delta))?;
            Ok(bytes_of(key, is_new))
        }
        None => Ok(0),
    }
}

impl<A: Allocator + Copy> NewestKeys<A> {
    /// Takes in the records of a batch: each raises its key's offset to its own. How many bytes that takes, about.
    ///
    /// # Errors
    ///
    /// Out of memory: some of the records may be taken in.
    pub fn put_batch(&mut self, batch: &BatchView<'_>) -> Result<usize, AllocError>
        requires { IsInRange batch.now }
        ensures puts { OnOk result ((k : List ℕ) → newest_in self.new k
            ≡ with_records (newest_in self.old) (records_of batch.now) k) }
    {
        let base = batch.head().base;
        let mut bytes = 0_usize;
        for rec in batch.recs() {
            bytes = bytes.saturating_add(put_record(self, base, &rec)?);
        }
        Ok(bytes)
    }
}
