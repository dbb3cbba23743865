//! The keys of committed offsets as bytes.

ghost use Rattle.std.specs.Prelude.{◌≡◌, IfOk, OnOk, IfErr};
ghost use Rattle.std.specs.Option.{option_map};
ghost use Rattle.frame_fields.specs.Reading.{Gives, read_fields, nothing};
ghost use Rattle.group_offsets.specs.Keys.{group_key_fields, group_key_bytes, group_key_at, key_value};
ghost use Rattle.group_offsets.specs.Refusals.{AreNames, RefusesTexts};

use crate::error::GroupError;
use crate::layout::{KEY_BYTES, KEY_VERSION};
use crate::texts::{are_names, put_text};
use frame_fields::FieldFault;
use frame_fields::fields::{int16, int32, string};
use std::alloc::{AllocError, Allocator};

/// The key of a committed offset, borrowed from its bytes.
#[derive(Clone, Copy)]
pub struct GroupKey<'a> {
    /// The group that consumes; bytes that need not be text.
    pub group: &'a [u8],
    /// The topic's name.
    pub topic: &'a [u8],
    /// The partition's index. It may be any number.
    pub partition: i32,
}

/// A key as bytes, in one allocation.
pub(crate) fn key_bytes<A: Allocator + Copy>(
    alloc: A,
    group: &[u8],
    topic: &[u8],
    partition: i32,
) -> Result<Vec<u8, A>, AllocError>
    requires { AreNames group.now topic.now }
    ensures { IfOk result (λ key. key.items ≡ group_key_bytes
        (record { group = group.now; topic = topic.now; partition = partition })) }
{
    let mut key = Vec::with_capacity(alloc, KEY_BYTES + group.len() + topic.len())?;
    key.extend_from_slice(&KEY_VERSION.to_be_bytes())?;
    put_text(&mut key, group)?;
    put_text(&mut key, topic)?;
    key.extend_from_slice(&partition.to_be_bytes())?;
    Ok(key)
}

/// The key of a group's offset in a partition, as bytes.
///
/// # Errors
///
/// - `NameTooLong` where a name has more than `MAX_NAME_BYTES` bytes.
/// - `OutOfMemory` where only the allocation fails.
pub fn put_key<A: Allocator + Copy>(
    alloc: A,
    group: &[u8],
    topic: &[u8],
    partition: i32,
) -> Result<Vec<u8, A>, GroupError>
    ensures encodes { IfOk result (λ key. key.items ≡ group_key_bytes
        (record { group = group.now; topic = topic.now; partition = partition })) }
    ensures names_fit { OnOk result (AreNames group.now topic.now) }
    ensures refuses { IfErr result (RefusesTexts (AreNames group.now topic.now)) }
{
    if !are_names(group, topic) {
        return Err(GroupError::NameTooLong);
    }
    match key_bytes(alloc, group, topic, partition) {
        Ok(key) => Ok(key),
        Err(_) => Err(GroupError::OutOfMemory),
    }
}

/// The fields of a key at the front of the bytes, whatever their version, and the bytes after them.
#[tactic(auto, unfolding(frame_fields::specs::Reading::read_fields))]
fn key_fields(bytes: &[u8]) -> Result<((i16, GroupKey<'_>), &[u8]), FieldFault>
    ensures { Gives (λ x. (
      (x.0.0, (x.0.1.group.now, (x.0.1.topic.now, (x.0.1.partition, nothing)))),
      x.1.now,
    )) result (read_fields group_key_fields bytes.now) }
{
    let (version, rest) = int16(bytes)?;
    let (group, rest) = string(rest)?;
    let (topic, rest) = string(rest)?;
    let (partition, rest) = int32(rest)?;
    Ok((
        (
            version,
            GroupKey {
                group,
                topic,
                partition,
            },
        ),
        rest,
    ))
}

/// The key that the bytes are, all of them; `None` where they are none. Takes no memory.
#[tactic(auto, unfolding(crate::specs::Keys::group_key_at))]
pub fn read_key(bytes: &[u8]) -> Option<GroupKey<'_>>
    ensures { option_map key_value result ≡ group_key_at bytes.now }
{
    let Ok(((version, key), rest)) = key_fields(bytes) else {
        return None;
    };
    if version == KEY_VERSION && rest.is_empty() {
        Some(key)
    } else {
        None
    }
}
