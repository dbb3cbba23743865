//! The texts of keys and values: their limit, and their bytes.

ghost use Rattle.std.specs.Prelude.{◌≡◌, ◌++◌, ◌↔◌, IsTrue, OnOk};
ghost use Rattle.frame_fields.specs.Fields.{field};
ghost use Rattle.frame_fields.specs.Types.{string};
ghost use Rattle.group_offsets.specs.Keys.{IsName};
ghost use Rattle.group_offsets.specs.CommittedValues.{text_of, IsMetadata};
ghost use Rattle.group_offsets.specs.Refusals.{AreNames, AreTexts};

use crate::layout::MAX_NAME_BYTES;
use std::alloc::{AllocError, Allocator};

/// Whether the names of a group and of a topic are short enough.
pub(crate) fn are_names(group: &[u8], topic: &[u8]) -> bool
    ensures { IsTrue result ↔ AreNames group.now topic.now }
{
    group.len() <= MAX_NAME_BYTES && topic.len() <= MAX_NAME_BYTES
}

/// Whether metadata is short enough, where there is some.
pub(crate) fn is_metadata(metadata: Option<&[u8]>) -> bool
    ensures { IsTrue result ↔ IsMetadata (text_of metadata.entry) }
{
    match metadata {
        Some(text) => text.len() <= MAX_NAME_BYTES,
        None => true,
    }
}

/// Whether the texts of a commit are short enough.
pub(crate) fn are_texts(group: &[u8], topic: &[u8], metadata: Option<&[u8]>) -> bool
    ensures { IsTrue result ↔ AreTexts group.now topic.now (text_of metadata.entry) }
{
    are_names(group, topic) && is_metadata(metadata)
}

/// Appends a text behind its length.
pub(crate) fn put_text<A: Allocator + Copy>(
    out: &mut Vec<u8, A>,
    text: &[u8],
) -> Result<(), AllocError>
    requires { IsName text.now }
    ensures { OnOk result (out.new.items ≡ out.old.items ++ field string text.now) }
{
    out.extend_from_slice(&(text.len() as i16).to_be_bytes())?;
    out.extend_from_slice(text)
}
