//! A partition of a Fetch response, before its records.

ghost use Rattle.std.specs.Prelude.{◌≡◌};
ghost use Rattle.responses.specs.Fetch.{fetched_head};

use byteorder::{BigEndian, ByteOrder};

/// The number of bytes before a partition's records.
pub const FETCHED_HEAD_BYTES: usize = 30;

/// The answer for a partition, without its records.
#[derive(Clone, Copy)]
pub struct FetchedPartition {
    /// The partition's index.
    pub index: i32,
    /// The error code, 0 for none.
    pub code: i16,
    /// The partition's end, which is its high watermark and its last stable offset; -1 where there
    /// is an error.
    pub end: i64,
}

/// What stands before a partition's records: the answer, and the number of the records' bytes.
#[tactic(auto, unfolding(frame_fields::specs::Fields::encoded))]
pub fn fetched_head(partition: FetchedPartition, size: u32) -> [u8; FETCHED_HEAD_BYTES]
    ensures { result ≡ fetched_head partition size }
{
    let mut bytes = [0; FETCHED_HEAD_BYTES];
    BigEndian::write_i32(&mut bytes[0..4], partition.index);
    BigEndian::write_i16(&mut bytes[4..6], partition.code);
    BigEndian::write_i64(&mut bytes[6..14], partition.end);
    BigEndian::write_i64(&mut bytes[14..22], partition.end);
    BigEndian::write_i32(&mut bytes[22..26], -1);
    BigEndian::write_u32(&mut bytes[26..30], size);
    bytes
}
