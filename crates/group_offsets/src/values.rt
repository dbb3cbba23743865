//! The values of committed offsets as bytes.

ghost use Rattle.std.specs.Prelude.{◌≡◌, ◌≤◌, ◌++◌, IfOk, OnOk, IfErr};
ghost use Rattle.frame_fields.specs.Fields.{field};
ghost use Rattle.frame_fields.specs.Types.{nullable_string};
ghost use Rattle.frame_fields.specs.Reading.{Gives, read_fields, nothing};
ghost use Rattle.group_offsets.specs.CommittedValues.{text_of, IsMetadata, committed_fields, committed_bytes, committed_at};
ghost use Rattle.group_offsets.specs.Refusals.{RefusesTexts, ReadsAs};

use crate::error::GroupError;
use crate::layout::{MAX_NAME_BYTES, VALUE_BYTES, VALUE_VERSION};
use crate::texts::{is_metadata, put_text};
use frame_fields::FieldFault;
use frame_fields::fields::{int16, int64, nullable_string};
use std::alloc::{AllocError, Allocator};

/// A committed offset, borrowed from its value's bytes.
#[derive(Clone, Copy)]
pub struct Committed<'a> {
    /// The offset that the group consumes next, as it was committed. It may be any number.
    pub offset: i64,
    /// What the consumer added, bytes that need not be text, or `None` where it is null.
    pub metadata: Option<&'a [u8]>,
}

/// Appends metadata behind its length, or null.
fn put_metadata<A: Allocator + Copy>(
    out: &mut Vec<u8, A>,
    metadata: Option<&[u8]>,
) -> Result<(), AllocError>
    requires { IsMetadata (text_of metadata) }
    ensures { OnOk result (out.new.items ≡ out.old.items
        ++ field nullable_string (text_of metadata.entry)) }
{
    match metadata {
        Some(text) => put_text(out, text),
        None => out.extend_from_slice(&(-1_i16).to_be_bytes()),
    }
}

/// How many bytes metadata has; null has none.
fn metadata_len(metadata: Option<&[u8]>) -> usize
    requires { IsMetadata (text_of metadata) }
    ensures { result ≤ MAX_NAME_BYTES }
{
    match metadata {
        Some(text) => text.len(),
        None => 0,
    }
}

/// A value as bytes, in one allocation.
pub(crate) fn value_bytes<A: Allocator + Copy>(
    alloc: A,
    offset: i64,
    metadata: Option<&[u8]>,
) -> Result<Vec<u8, A>, AllocError>
    requires { IsMetadata (text_of metadata) }
    ensures { IfOk result (λ value. value.items ≡ committed_bytes
        (record { offset = offset; metadata = text_of metadata.entry })) }
{
    let mut value = Vec::with_capacity(alloc, VALUE_BYTES + metadata_len(metadata))?;
    value.extend_from_slice(&VALUE_VERSION.to_be_bytes())?;
    value.extend_from_slice(&offset.to_be_bytes())?;
    put_metadata(&mut value, metadata)?;
    Ok(value)
}

/// The value of a committed offset, as bytes.
///
/// # Errors
///
/// - `NameTooLong` where the metadata has more than `MAX_NAME_BYTES` bytes.
/// - `OutOfMemory` where only the allocation fails.
pub fn put_value<A: Allocator + Copy>(
    alloc: A,
    offset: i64,
    metadata: Option<&[u8]>,
) -> Result<Vec<u8, A>, GroupError>
    ensures encodes { IfOk result (λ value. value.items ≡ committed_bytes
        (record { offset = offset; metadata = text_of metadata.entry })) }
    ensures metadata_fits { OnOk result (IsMetadata (text_of metadata.entry)) }
    ensures refuses { IfErr result
        (RefusesTexts (IsMetadata (text_of metadata.entry))) }
{
    if !is_metadata(metadata) {
        return Err(GroupError::NameTooLong);
    }
    match value_bytes(alloc, offset, metadata) {
        Ok(value) => Ok(value),
        Err(_) => Err(GroupError::OutOfMemory),
    }
}

/// The fields of a value at the front of the bytes, whatever their version, and the bytes after them.
#[tactic(auto, unfolding(frame_fields::specs::Reading::read_fields))]
fn value_fields(bytes: &[u8]) -> Result<((i16, Committed<'_>), &[u8]), FieldFault>
    ensures { Gives (λ x. (
      (
        x.0.0,
        (
          x.0.1.offset,
          (text_of x.0.1.metadata, nothing),
        ),
      ),
      x.1.now,
    )) result
        (read_fields committed_fields bytes.now) }
{
    let (version, rest) = int16(bytes)?;
    let (offset, rest) = int64(rest)?;
    let (metadata, rest) = nullable_string(rest)?;
    Ok(((version, Committed { offset, metadata }), rest))
}

/// The committed offset that a value's bytes are, all of them. Takes no memory.
///
/// # Errors
///
/// `BadValue` where they are none.
#[tactic(auto, unfolding(crate::specs::CommittedValues::committed_at))]
pub fn read_value(bytes: &[u8]) -> Result<Committed<'_>, GroupError>
    ensures { ReadsAs result (committed_at bytes.now) }
{
    let Ok(((version, value), rest)) = value_fields(bytes) else {
        return Err(GroupError::BadValue);
    };
    if version == VALUE_VERSION && rest.is_empty() {
        Ok(value)
    } else {
        Err(GroupError::BadValue)
    }
}
