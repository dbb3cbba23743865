//! The frame that asks for a cleaning, and what the one for a part shares with it.

ghost use Rattle.std.specs.Prelude.{◌≡◌, ◌≤◌, ◌+◌, ◌++◌, pos, negsuc, length, OnOk, OnErr};
ghost use Rattle.frame_fields.specs.Fields.{size32, be, encoded, end};
ghost use Rattle.frame_fields.specs.Frames.{framed, IsWithinLimit};
ghost use Rattle.frame_fields.specs.Types.{int16, int32, int64, ◌⨾◌};
ghost use Rattle.request_frames.specs.Apis.{api_key, api_version};
ghost use Rattle.request_frames.specs.Requests.{IsRequest};
ghost use Rattle.request_frames.specs.Requests.BodyValue.{clean};
ghost use Rattle.responses.specs.declared.parts.TheConstants.{MAX_STRING_BYTES};
ghost use Rattle.cleaning_frames.specs.declared.asking.TheConstants.{PART_TAIL_BYTES};
ghost use Rattle.cleaning_frames.specs.Cleaning.{clean_frame, cleaning};

use byteorder::{BigEndian, ByteOrder};
use request_frames::Api;
use std::alloc::{AllocError, Allocator};

/// The number of bytes before the topic's name: size, api key, version, correlation id, no client id, and the length of
/// the name.
pub(crate) const HEAD_BYTES: usize = 16;

/// The number of bytes behind the topic's name.
pub(crate) const TAIL_BYTES: usize = 20;

/// The number of bytes behind the topic's name where a part is asked for.
pub(crate) const PART_TAIL_BYTES: usize = 36;

/// The number of bytes of a frame, but for the topic's name and its size.
const FIXED_BYTES: u32 = 32;

/// What stands before the name of a topic that has so many bytes, in a frame that has so many others.
#[tactic(auto, unfolding(frame_fields::specs::Fields::encoded))]
pub(crate) fn head_bytes(api: Api, fixed: u32, correlation: i32, name: u16) -> [u8; HEAD_BYTES]
    requires few { fixed ≤ 48 }
    ensures { result ≡ be size32 (pos (fixed + name))
        ++ encoded (int16 ⨾ int16 ⨾ int32 ⨾ int16 ⨾ int16 ⨾ end)
        (api_key api, (api_version api, (correlation, (negsuc 0, (pos name, tt))))) }
{
    let mut bytes = [0; HEAD_BYTES];
    BigEndian::write_u32(&mut bytes[0..4], fixed + u32::from(name));
    BigEndian::write_i16(&mut bytes[4..6], api.key());
    BigEndian::write_i16(&mut bytes[6..8], api.version());
    BigEndian::write_i32(&mut bytes[8..12], correlation);
    BigEndian::write_i16(&mut bytes[12..14], -1);
    BigEndian::write_u16(&mut bytes[14..16], name);
    bytes
}

/// What stands behind the topic's name: its partition and two offsets.
#[tactic(auto, unfolding(frame_fields::specs::Fields::encoded))]
pub(crate) fn tail_bytes(partition: i32, first: i64, second: i64) -> [u8; TAIL_BYTES]
    ensures { result ≡ encoded (int32 ⨾ int64 ⨾ int64 ⨾ end) (partition, (first, (second, tt))) }
{
    let mut bytes = [0; TAIL_BYTES];
    BigEndian::write_i32(&mut bytes[0..4], partition);
    BigEndian::write_i64(&mut bytes[4..12], first);
    BigEndian::write_i64(&mut bytes[12..20], second);
    bytes
}

/// Appends what stands before a name, the name, and what stands behind it, all or nothing.
pub(crate) fn append_around<A: Allocator + Copy>(
    out: &mut Vec<u8, A>,
    before: &[u8; HEAD_BYTES],
    name: &[u8],
    after: &[u8],
) -> Result<(), AllocError>
    requires name { length name.now ≤ MAX_STRING_BYTES }
    requires after { length after.now ≤ PART_TAIL_BYTES }
    ensures appends { OnOk result
        (out.new.items ≡ out.old.items ++ (before.now ++ (name.now ++ after.now))) }
    ensures unchanged_on_error { OnErr result (out.new.items ≡ out.old.items) }
{
    out.reserve(HEAD_BYTES + name.len() + after.len())?;
    out.extend_from_slice(before)?;
    out.extend_from_slice(name)?;
    out.extend_from_slice(after)
}

/// Appends the frame that asks for the cleaning of a partition, behind its size. It has no client id.
///
/// # Errors
///
/// `AllocError` where the allocation fails; then the output is as before.
pub fn put_clean_frame<A: Allocator + Copy>(
    out: &mut Vec<u8, A>,
    correlation: i32,
    topic: &[u8],
    partition: i32,
    upto: i64,
    tomb_before: i64,
) -> Result<(), AllocError>
    requires name { length topic.now ≤ MAX_STRING_BYTES }
    ensures appends { OnOk result (out.new.items ≡ out.old.items
        ++ framed (clean_frame correlation (cleaning topic.now partition upto tomb_before))) }
    // The frame is a request, and no other than that.
    ensures is_request { IsRequest
        (clean_frame correlation (cleaning topic.now partition upto tomb_before))
        (record {
          correlation = correlation;
          body = clean (cleaning topic.now partition upto tomb_before);
        }) }
    ensures within { IsWithinLimit (pos (length
        (clean_frame correlation (cleaning topic.now partition upto tomb_before)))) }
    ensures unchanged_on_error { OnErr result (out.new.items ≡ out.old.items) }
{
    let head = head_bytes(Api::Clean, FIXED_BYTES, correlation, topic.len() as u16);
    let tail = tail_bytes(partition, upto, tomb_before);
    append_around(out, &head, topic, &tail)
}
