//! A partition of a Metadata response.

ghost use Rattle.std.specs.Prelude.{◌≡◌, ◌≤◌, ◌+◌, ◌++◌, IsOk, OnOk, OnErr};
ghost use Rattle.std.specs.Vec.{vec_len, vec_capacity};
ghost use Rattle.responses.specs.Metadata.{metadata_partition_bytes};

use crate::parts::append_fixed;
use byteorder::{BigEndian, ByteOrder};
use std::alloc::{AllocError, Allocator};

/// The number of bytes of a partition with a leader, the most that one has.
pub const METADATA_PARTITION_BYTES: usize = 26;

/// The number of bytes of a partition without a leader.
const LEADERLESS_BYTES: usize = 18;

/// The answer for a partition.
#[derive(Clone, Copy)]
pub struct MetadataPartition {
    /// The error code, 0 for none.
    pub code: i16,
    /// The partition's index.
    pub index: i32,
    /// The node id of its leader, which is its one replica, or none.
    pub leader: Option<i32>,
}

#[tactic(auto, unfolding(frame_fields::specs::Fields::encoded))]
fn with_leader(code: i16, index: i32, leader: i32) -> [u8; METADATA_PARTITION_BYTES]
    ensures { result
        ≡ metadata_partition_bytes (record { code = code; index = index; leader = Some leader }) }
{
    let mut bytes = [0; METADATA_PARTITION_BYTES];
    BigEndian::write_i16(&mut bytes[0..2], code);
    BigEndian::write_i32(&mut bytes[2..6], index);
    BigEndian::write_i32(&mut bytes[6..10], leader);
    BigEndian::write_i32(&mut bytes[10..14], 1);
    BigEndian::write_i32(&mut bytes[14..18], leader);
    BigEndian::write_i32(&mut bytes[18..22], 1);
    BigEndian::write_i32(&mut bytes[22..26], leader);
    bytes
}

#[tactic(auto, unfolding(frame_fields::specs::Fields::encoded))]
fn without_leader(code: i16, index: i32) -> [u8; LEADERLESS_BYTES]
    ensures { result
        ≡ metadata_partition_bytes (record { code = code; index = index; leader = None }) }
{
    let mut bytes = [0; LEADERLESS_BYTES];
    BigEndian::write_i16(&mut bytes[0..2], code);
    BigEndian::write_i32(&mut bytes[2..6], index);
    BigEndian::write_i32(&mut bytes[6..10], -1);
    bytes
}

/// Appends the answer for a partition.
///
/// # Errors
///
/// `AllocError` where the allocation fails; then the output is as before.
pub fn put_metadata_partition<A: Allocator + Copy>(
    out: &mut Vec<u8, A>,
    partition: MetadataPartition,
) -> Result<(), AllocError>
    ensures appends { OnOk result
        (out.new.items ≡ out.old.items ++ metadata_partition_bytes partition) }
    ensures unchanged_on_error { OnErr result (out.new.items ≡ out.old.items) }
    ensures len { OnOk result ((vec_len out.old ≤ vec_len out.new)
        × (vec_len out.new ≤ vec_len out.old + METADATA_PARTITION_BYTES)) }
    ensures succeeds { vec_len out.old + METADATA_PARTITION_BYTES ≤ vec_capacity out.old
        → IsOk result }
    ensures keeps_capacity { vec_capacity out.old ≤ vec_capacity out.new }
{
    match partition.leader {
        Some(leader) => { append_fixed(out, &with_leader(partition.code, partition.index, leader)) }
        None => append_fixed(out, &without_leader(partition.code, partition.index)),
    }
}
