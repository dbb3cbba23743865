//! The records of a group, in the order of their offsets.

ghost use Rattle.std.specs.Prelude.{◌≡◌, ◌++◌, ◌∷◌, [], map, IfOk, OnOk};
ghost use Rattle.std.specs.Option.{option_map};
ghost use Rattle.batch_codec.specs.Views.{record_value};
ghost use Rattle.content.specs.Records.{log_records};
ghost use Rattle.group_offsets.specs.Keys.{group_key_at};
ghost use Rattle.group_offsets.specs.Groups.{is_of_group};
ghost use Rattle.group_offsets.specs.Walks.{entry_value, entry_of, entries_of, log_entries};

use crate::keys::read_key;
use batch_codec::{BatchView, RecordView};
use partition_log::PartitionLog;
use segment::BatchStore;
use std::alloc::{AllocError, Allocator};

/// A record whose key is one of the group.
#[derive(Clone, Copy)]
pub(crate) struct Entry<'a> {
    /// The key.
    pub(crate) key: &'a [u8],
    /// Whether the value isn't null.
    pub(crate) has_value: bool,
}

/// Whether bytes are a key of the group.
fn is_of_group(key: &[u8], group: &[u8]) -> bool
    ensures { result ≡ is_of_group group.now (group_key_at key.now) }
{
    match read_key(key) {
        Some(found) => found.group == group,
        None => false,
    }
}

/// The entry of a record, where its key is one of the group.
fn entry_of<'a>(rec: &RecordView<'a>, group: &[u8]) -> Option<Entry<'a>>
    ensures { option_map entry_value result ≡ entry_of group.now (record_value rec.now) }
{
    let key = rec.key?;
    if !is_of_group(key, group) {
        return None;
    }
    let has_value = rec.value.is_some();
    Some(Entry { key, has_value })
}

/// Appends the entry of a record, where its key is one of the group.
fn put<'a, A: Allocator + Copy>(
    entries: &mut Vec<Entry<'a>, A>,
    rec: &RecordView<'a>,
    group: &[u8],
) -> Result<(), AllocError>
    ensures { OnOk result (map entry_value entries.new.items
        ≡ map entry_value entries.old.items ++ entries_of group.now (record_value rec.now ∷ [])) }
{
    if let Some(entry) = entry_of(rec, group) {
        entries.push(entry)?;
    }
    Ok(())
}

/// Appends the entries of a batch's records.
fn put_batch<'a, A: Allocator + Copy>(
    entries: &mut Vec<Entry<'a>, A>,
    batch: &BatchView<'a>,
    group: &[u8],
) -> Result<(), AllocError>
    ensures { OnOk result (map entry_value entries.new.items
        ≡ map entry_value entries.old.items ++ entries_of group.now batch.now.recs) }
{
    for rec in batch.recs() {
        put(entries, &rec, group)?;
    }
    Ok(())
}

/// The entries of all records that a copy holds.
pub(crate) fn entries_of<'a, S: BatchStore>(
    log: &'a PartitionLog<S>,
    group: &[u8],
) -> Result<Vec<Entry<'a>, S::Alloc>, AllocError>
    ensures { IfOk result (λ entries.
        map entry_value entries.items ≡ log_entries group.now (log_records log.now.kept)) }
{
    let mut entries = Vec::new(log.allocator());
    let mut walk = log.walk(0);
    while let Some(batch) = walk.next() {
        put_batch(&mut entries, &batch, group)?;
    }
    Ok(entries)
}
