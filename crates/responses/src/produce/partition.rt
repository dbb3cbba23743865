//! A partition of a Produce response.

ghost use Rattle.std.specs.Prelude.{◌≡◌};
ghost use Rattle.responses.specs.Produce.{produced_bytes};

use byteorder::{BigEndian, ByteOrder};

/// The number of bytes of a partition.
pub const PRODUCED_PARTITION_BYTES: usize = 22;

/// The answer for a partition.
#[derive(Clone, Copy)]
pub struct ProducedPartition {
    /// The partition's index.
    pub index: i32,
    /// The error code, 0 for none.
    pub code: i16,
    /// The offset of the batch's first record, -1 where there is an error.
    pub base: i64,
}

/// The bytes of a partition. There is no log append time.
#[tactic(auto, unfolding(frame_fields::specs::Fields::encoded))]
pub fn produced_bytes(partition: ProducedPartition) -> [u8; PRODUCED_PARTITION_BYTES]
    ensures { result ≡ produced_bytes partition }
{
    let mut bytes = [0; PRODUCED_PARTITION_BYTES];
    BigEndian::write_i32(&mut bytes[0..4], partition.index);
    BigEndian::write_i16(&mut bytes[4..6], partition.code);
    BigEndian::write_i64(&mut bytes[6..14], partition.base);
    BigEndian::write_i64(&mut bytes[14..22], -1);
    bytes
}
