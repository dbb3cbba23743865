//! The frame that asks for the cleaning of a part.

ghost use Rattle.std.specs.Prelude.{◌≡◌, ◌≤◌, ◌++◌, pos, length, OnOk, OnErr};
ghost use Rattle.frame_fields.specs.Fields.{encoded, end};
ghost use Rattle.frame_fields.specs.Frames.{framed, IsWithinLimit};
ghost use Rattle.frame_fields.specs.Types.{int32, int64, ◌⨾◌};
ghost use Rattle.request_frames.specs.Requests.{IsRequest};
ghost use Rattle.request_frames.specs.Requests.BodyValue.{clean_part};
ghost use Rattle.responses.specs.declared.parts.TheConstants.{MAX_STRING_BYTES};
ghost use Rattle.cleaning_frames.specs.Cleaning.{clean_part_frame, part_cleaning};

use crate::asking::{PART_TAIL_BYTES, TAIL_BYTES, append_around, head_bytes, tail_bytes};
use byteorder::{BigEndian, ByteOrder};
use request_frames::Api;
use std::alloc::{AllocError, Allocator};

/// The number of bytes of two offsets.
const OFFSET_BYTES: usize = 16;

/// The number of bytes of a frame, but for the topic's name and its size.
const PART_FIXED_BYTES: u32 = 48;

/// Two offsets.
#[tactic(auto, unfolding(frame_fields::specs::Fields::encoded))]
fn offset_bytes(first: i64, second: i64) -> [u8; OFFSET_BYTES]
    ensures { result ≡ encoded (int64 ⨾ int64 ⨾ end) (first, (second, tt)) }
{
    let mut bytes = [0; OFFSET_BYTES];
    BigEndian::write_i64(&mut bytes[0..8], first);
    BigEndian::write_i64(&mut bytes[8..16], second);
    bytes
}

/// What stands behind the topic's name, where a part is asked for.
#[tactic(auto, unfolding(frame_fields::specs::Fields::encoded))]
fn part_tail_bytes(
    partition: i32,
    from: i64,
    to: i64,
    upto: i64,
    tomb_before: i64,
) -> [u8; PART_TAIL_BYTES]
    ensures { result ≡ encoded (int32 ⨾ int64 ⨾ int64 ⨾ int64 ⨾ int64 ⨾ end)
        (partition, (from, (to, (upto, (tomb_before, tt))))) }
{
    let mut bytes = [0; PART_TAIL_BYTES];
    bytes[..TAIL_BYTES].copy_from_slice(&tail_bytes(partition, from, to));
    bytes[TAIL_BYTES..].copy_from_slice(&offset_bytes(upto, tomb_before));
    bytes
}

/// Appends the frame that asks for the cleaning of a part of a partition, behind its size: of the batches that lie wholly
/// between two offsets. It has no client id.
///
/// # Errors
///
/// `AllocError` where the allocation fails; then the output is as before.
pub fn put_clean_part_frame<A: Allocator + Copy>(
    out: &mut Vec<u8, A>,
    correlation: i32,
    topic: &[u8],
    partition: i32,
    from: i64,
    to: i64,
    upto: i64,
    tomb_before: i64,
) -> Result<(), AllocError>
    requires name { length topic.now ≤ MAX_STRING_BYTES }
    ensures appends { OnOk result (out.new.items ≡ out.old.items
        ++ framed (clean_part_frame correlation (part_cleaning topic.now partition from to upto tomb_before))) }
    // The frame is a request, and no other than that.
    ensures is_request { IsRequest
        (clean_part_frame correlation (part_cleaning topic.now partition from to upto tomb_before))
        (record {
          correlation = correlation;
          body = clean_part (part_cleaning topic.now partition from to upto tomb_before);
        }) }
    ensures within { IsWithinLimit (pos (length
        (clean_part_frame correlation (part_cleaning topic.now partition from to upto tomb_before)))) }
    ensures unchanged_on_error { OnErr result (out.new.items ≡ out.old.items) }
{
    let name = topic.len() as u16;
    let head = head_bytes(Api::CleanPart, PART_FIXED_BYTES, correlation, name);
    let tail = part_tail_bytes(partition, from, to, upto, tomb_before);
    append_around(out, &head, topic, &tail)
}
