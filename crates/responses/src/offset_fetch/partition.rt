//! A partition of an OffsetFetch response.

ghost use Rattle.std.specs.Prelude.{◌≡◌, ◌≤◌, ◌+◌, ◌++◌, length, IsOk, OnOk, OnErr};
ghost use Rattle.std.specs.Option.{option_map};
ghost use Rattle.std.specs.Vec.{vec_len, vec_capacity};
ghost use Rattle.frame_fields.specs.Fields.{size16, size32, size64, be};
ghost use Rattle.frame_fields.specs.Types.{or_empty};
ghost use Rattle.responses.specs.Responses.{length_or_null};
ghost use Rattle.responses.specs.OffsetFetch.{fetched_offset_bytes};

use crate::parts::append_around;
use byteorder::{BigEndian, ByteOrder};
use std::alloc::{AllocError, Allocator};

/// The number of bytes of a partition, but for its metadata.
pub const OFFSET_FETCH_PARTITION_BYTES: usize = 16;

/// What stands before the metadata: the partition's index, the offset, and the number of the
/// metadata's bytes.
fn before_metadata(index: i32, offset: i64, metadata: Option<&[u8]>) -> [u8; 14]
    ensures { result ≡ be size32 index ++ (be size64 offset ++ be size16
        (length_or_null (option_map (λ text. text.now) metadata.entry))) }
{
    let mut bytes = [0; 14];
    BigEndian::write_i32(&mut bytes[0..4], index);
    BigEndian::write_i64(&mut bytes[4..12], offset);
    bytes[12..14].copy_from_slice(&metadata_length(metadata));
    bytes
}

/// The number of the metadata's bytes, -1 for null.
fn metadata_length(metadata: Option<&[u8]>) -> [u8; 2]
    ensures { result ≡ be size16 (length_or_null (option_map (λ text. text.now) metadata.entry)) }
{
    match metadata {
        Some(text) => {
            let length = text.len().to_be_bytes();
            [length[6], length[7]]
        }
        None => (-1_i16).to_be_bytes(),
    }
}

/// Appends the answer for a partition: its index, the offset that was committed, -1 where there is
/// none, what was committed with it, and the error code, 0 for none.
///
/// # Errors
///
/// `AllocError` where the allocation fails; then the output is as before.
pub fn put_fetched_offset<A: Allocator + Copy>(
    out: &mut Vec<u8, A>,
    index: i32,
    offset: i64,
    metadata: Option<&[u8]>,
    code: i16,
) -> Result<(), AllocError>
    ensures appends { OnOk result (out.new.items ≡ out.old.items ++ fetched_offset_bytes (record {
      partition = index;
      offset = offset;
      metadata = option_map (λ text. text.now) metadata.entry;
      code = code;
    })) }
    ensures unchanged_on_error { OnErr result (out.new.items ≡ out.old.items) }
    ensures len { OnOk result (vec_len out.new ≡ vec_len out.old + (OFFSET_FETCH_PARTITION_BYTES
        + length (or_empty (option_map (λ text. text.now) metadata.entry)))) }
    ensures succeeds { vec_len out.old + (OFFSET_FETCH_PARTITION_BYTES
        + length (or_empty (option_map (λ text. text.now) metadata.entry)))
        ≤ vec_capacity out.old → IsOk result }
    ensures keeps_capacity { vec_capacity out.old ≤ vec_capacity out.new }
{
    let before = before_metadata(index, offset, metadata);
    append_around(out, &before, metadata.unwrap_or(&[]), &code.to_be_bytes())
}
