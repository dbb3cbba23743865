//! A partition of an OffsetCommit response.

ghost use Rattle.std.specs.Prelude.{◌≡◌};
ghost use Rattle.responses.specs.OffsetCommit.{committed_partition_bytes};

use byteorder::{BigEndian, ByteOrder};

/// The number of bytes of a partition.
pub const OFFSET_COMMIT_PARTITION_BYTES: usize = 6;

/// The answer for a partition.
#[derive(Clone, Copy)]
pub struct CommittedPartition {
    /// The partition's index.
    pub index: i32,
    /// The error code, 0 for none.
    pub code: i16,
}

/// The bytes of a partition.
#[tactic(auto, unfolding(frame_fields::specs::Fields::encoded))]
pub fn committed_partition_bytes(
    partition: CommittedPartition,
) -> [u8; OFFSET_COMMIT_PARTITION_BYTES]
    ensures { result ≡ committed_partition_bytes partition }
{
    let mut bytes = [0; OFFSET_COMMIT_PARTITION_BYTES];
    BigEndian::write_i32(&mut bytes[0..4], partition.index);
    BigEndian::write_i16(&mut bytes[4..6], partition.code);
    bytes
}
