//! The keys of a group that a copy shows.

ghost use Rattle.std.specs.Prelude.{◌≡◌, ◌∷◌, List, map, IfOk, OnOk};
ghost use Rattle.group_offsets.specs.Groups.{group_keys};
ghost use Rattle.group_offsets.specs.Walks.{EntryValue, entry_value, shown_keys, HasShown};

use crate::entries::{Entry, entries_of};
use indexmap::IndexSet;
use partition_log::PartitionLog;
use segment::BatchStore;
use std::alloc::{AllocError, Allocator};
use std::hash::{BuildHasherDefault, FoldHasher};

/// Keys that were seen.
type Seen<'a, A> = IndexSet<&'a [u8], BuildHasherDefault<FoldHasher>, A>;

/// Looks at the next older entry: its key goes to the end of `keys`, where it has a value and no later
/// entry has its key.
fn show<'a, A: Allocator + Copy>(
    entry: Entry<'a>,
    seen: &mut Seen<'a, A>,
    keys: &mut Vec<&'a [u8], A>,
) -> Result<(), AllocError>
    ensures { OnOk result ((later : List EntryValue) → HasShown seen.old keys.old.items later
        → HasShown seen.new keys.new.items (entry_value entry.entry ∷ later)) }
{
    let is_new = seen.insert(entry.key)?;
    if is_new && entry.has_value {
        keys.push(entry.key)?;
    }
    Ok(())
}

/// The keys of the entries with a value after which none has their key. The last entry is looked at
/// first.
fn shown_keys<'a, A: Allocator + Copy>(
    alloc: A,
    entries: &[Entry<'a>],
) -> Result<Vec<&'a [u8], A>, AllocError>
    ensures { IfOk result (λ keys.
        map (λ key. key.now) keys.items ≡ shown_keys (map entry_value entries.now)) }
{
    let mut seen: Seen<'a, A> = IndexSet::new(alloc);
    let mut keys = Vec::new(alloc);
    for i in (0..entries.len()).rev() {
        show(entries[i], &mut seen, &mut keys)?;
    }
    keys.reverse();
    Ok(keys)
}

/// The keys of the group whose latest record held has a value, whatever that is, in the order of these
/// records. The keys are borrowed from the copy, whose records are walked once.
///
/// # Errors
///
/// Out of memory.
pub fn group_keys<'a, S: BatchStore>(
    log: &'a PartitionLog<S>,
    group: &[u8],
) -> Result<Vec<&'a [u8], S::Alloc>, AllocError>
    ensures { IfOk result (λ keys.
        map (λ key. key.now) keys.items ≡ group_keys log.now group.now) }
{
    let entries = entries_of(log, group)?;
    shown_keys(log.allocator(), &entries)
}
