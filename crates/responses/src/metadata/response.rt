//! What stands before the topics of a Metadata response: the broker and the controller.

ghost use Rattle.std.specs.Prelude.{◌≡◌, ◌≤◌, ◌+◌, ◌++◌, pos, negsuc, length, IsOk, OnOk, OnErr};
ghost use Rattle.std.specs.Vec.{vec_len, vec_capacity};
ghost use Rattle.frame_fields.specs.Fields.{size16, size32, be};
ghost use Rattle.responses.specs.Metadata.{metadata_head};

use crate::parts::append_around;
use byteorder::{BigEndian, ByteOrder};
use std::alloc::{AllocError, Allocator};

/// The number of bytes before the topics, but for the broker's host.
pub const METADATA_HEAD_BYTES: usize = 24;

/// The broker that answers.
#[derive(Clone, Copy)]
pub struct MetadataBroker<'a> {
    /// Its node id.
    pub node_id: i32,
    /// Where it is reached: a name or an address.
    pub host: &'a [u8],
    /// The port of that host.
    pub port: u16,
}

/// What stands before the host: the count of the brokers, which is 1, the broker's node id, and the
/// number of the host's bytes.
fn before_host(node_id: i32, host: &[u8]) -> [u8; 10]
    ensures { result ≡ be size32 (pos 1) ++ (be size32 node_id
        ++ be size16 (pos (length host.now))) }
{
    let mut bytes = [0; 10];
    BigEndian::write_i32(&mut bytes[0..4], 1);
    BigEndian::write_i32(&mut bytes[4..8], node_id);
    bytes[8..10].copy_from_slice(&host.len().to_be_bytes()[6..8]);
    bytes
}

/// What stands after the host: the port, no rack, the controller's node id, and the count of the
/// topics.
fn after_host(port: u16, controller: i32, topic_count: u32) -> [u8; 14]
    ensures { result ≡ be size32 (pos port) ++ (be size16 (negsuc 0) ++ (be size32 controller
        ++ be size32 (pos topic_count))) }
{
    let mut bytes = [0; 14];
    BigEndian::write_u32(&mut bytes[0..4], u32::from(port));
    BigEndian::write_i16(&mut bytes[4..6], -1);
    BigEndian::write_i32(&mut bytes[6..10], controller);
    BigEndian::write_u32(&mut bytes[10..14], topic_count);
    bytes
}

/// Appends the one broker, the controller's node id, -1 for none, and the count of the topics.
///
/// # Errors
///
/// `AllocError` where the allocation fails; then the output is as before.
pub fn begin_metadata<A: Allocator + Copy>(
    out: &mut Vec<u8, A>,
    broker: MetadataBroker<'_>,
    controller: i32,
    topic_count: u32,
) -> Result<(), AllocError>
    ensures appends { OnOk result (out.new.items ≡ out.old.items ++ metadata_head
        broker.entry.node_id broker.entry.host.now broker.entry.port controller topic_count) }
    ensures unchanged_on_error { OnErr result (out.new.items ≡ out.old.items) }
    ensures len { OnOk result
        (vec_len out.new ≡ vec_len out.old + (METADATA_HEAD_BYTES + length broker.entry.host.now)) }
    ensures succeeds { vec_len out.old + (METADATA_HEAD_BYTES + length broker.entry.host.now)
        ≤ vec_capacity out.old → IsOk result }
    ensures keeps_capacity { vec_capacity out.old ≤ vec_capacity out.new }
{
    let before = before_host(broker.node_id, broker.host);
    let after = after_host(broker.port, controller, topic_count);
    append_around(out, &before, broker.host, &after)
}
