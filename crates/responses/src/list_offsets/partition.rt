//! A partition of a ListOffsets response.

ghost use Rattle.std.specs.Prelude.{◌≡◌};
ghost use Rattle.responses.specs.ListOffsets.{list_offsets_answer_bytes};

use byteorder::{BigEndian, ByteOrder};

/// The number of bytes of a partition.
pub const LISTED_PARTITION_BYTES: usize = 22;

/// The answer for a partition.
#[derive(Clone, Copy)]
pub struct ListedPartition {
    /// The partition's index.
    pub index: i32,
    /// The error code, 0 for none.
    pub code: i16,
    /// The record's time in milliseconds, -1 where there is none.
    pub time: i64,
    /// The offset that was asked for, -1 where there is none.
    pub offset: i64,
}

/// The bytes of a partition.
#[tactic(auto, unfolding(frame_fields::specs::Fields::encoded))]
pub fn list_offsets_answer_bytes(partition: ListedPartition) -> [u8; LISTED_PARTITION_BYTES]
    ensures { result ≡ list_offsets_answer_bytes partition }
{
    let mut bytes = [0; LISTED_PARTITION_BYTES];
    BigEndian::write_i32(&mut bytes[0..4], partition.index);
    BigEndian::write_i16(&mut bytes[4..6], partition.code);
    BigEndian::write_i64(&mut bytes[6..14], partition.time);
    BigEndian::write_i64(&mut bytes[14..22], partition.offset);
    bytes
}
