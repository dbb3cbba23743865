//! A topic of a Metadata response, before its partitions.

ghost use Rattle.std.specs.Prelude.{◌≡◌, ◌≤◌, ◌+◌, ◌++◌, length, IsOk, OnOk, OnErr};
ghost use Rattle.std.specs.Vec.{vec_len, vec_capacity};
ghost use Rattle.responses.specs.Metadata.{metadata_topic_head};

use crate::parts::append_around;
use byteorder::{BigEndian, ByteOrder};
use std::alloc::{AllocError, Allocator};

/// The number of bytes before a topic's partitions, but for its name.
pub const METADATA_TOPIC_HEAD_BYTES: usize = 9;

/// The answer for a topic, without its partitions.
#[derive(Clone, Copy)]
pub struct MetadataTopic<'a> {
    /// The error code, 0 for none.
    pub code: i16,
    /// The name that was asked for.
    pub name: &'a [u8],
    /// Whether the broker keeps its own records there.
    pub is_internal: bool,
}

/// Begins a topic: its error code, its name, whether it is internal, and the count of its
/// partitions.
///
/// # Errors
///
/// `AllocError` where the allocation fails; then the output is as before.
#[tactic(auto, unfolding(frame_fields::specs::Fields::encoded))]
pub fn begin_metadata_topic<A: Allocator + Copy>(
    out: &mut Vec<u8, A>,
    topic: MetadataTopic<'_>,
    partition_count: u32,
) -> Result<(), AllocError>
    ensures appends { OnOk result (out.new.items ≡ out.old.items ++ metadata_topic_head
        topic.entry.code topic.entry.name.now topic.entry.is_internal partition_count) }
    ensures unchanged_on_error { OnErr result (out.new.items ≡ out.old.items) }
    ensures len { OnOk result
        (vec_len out.new ≡ vec_len out.old + (METADATA_TOPIC_HEAD_BYTES + length topic.entry.name.now)) }
    ensures succeeds { vec_len out.old + (METADATA_TOPIC_HEAD_BYTES + length topic.entry.name.now)
        ≤ vec_capacity out.old → IsOk result }
    ensures keeps_capacity { vec_capacity out.old ≤ vec_capacity out.new }
{
    let code = topic.code.to_be_bytes();
    let length = topic.name.len().to_be_bytes();
    let before = [code[0], code[1], length[6], length[7]];
    let mut after = [0; 5];
    after[0] = u8::from(topic.is_internal);
    BigEndian::write_u32(&mut after[1..5], partition_count);
    append_around(out, &before, topic.name, &after)
}
