//! Look-ups of committed offsets.

ghost use Rattle.content.specs.Content.{shown_table};
ghost use Rattle.group_offsets.specs.Lookups.{LooksUp};

use crate::error::GroupError;
use crate::keys::put_key;
use crate::values::{Committed, read_value};
use partition_log::PartitionLog;
use segment::BatchStore;

/// The offset that a group committed last in a partition, as the copy shows it; `None` where it shows
/// none. The value is borrowed from the copy.
///
/// # Errors
///
/// - `NameTooLong` where a name has more than `MAX_NAME_BYTES` bytes.
/// - `BadValue` where the key has a value that is not that of a committed offset.
/// - `OutOfMemory` where there is no memory for the key.
#[tactic(auto, unfolding(crate::specs::Lookups::lookup_in))]
pub fn lookup<'a, S: BatchStore>(
    log: &'a PartitionLog<S>,
    group: &[u8],
    topic: &[u8],
    partition: i32,
) -> Result<Option<Committed<'a>>, GroupError>
    ensures { LooksUp (shown_table log.now)
        (record { group = group.now; topic = topic.now; partition = partition }) result }
{
    let key = put_key(log.allocator(), group, topic, partition)?;
    match log.get(&key) {
        Some(value) => Ok(Some(read_value(value)?)),
        None => Ok(None),
    }
}
