//! The response to SyncGroup.

ghost use Rattle.std.specs.Prelude.{◌≡◌, ◌≤◌, ◌+◌, ◌++◌, length, IsOk, OnOk, OnErr};
ghost use Rattle.std.specs.Vec.{vec_len, vec_capacity};
ghost use Rattle.member_frames.specs.MemberReplies.{member_response, sync_group_response, sync_group_value, given_head_bytes};

use crate::api::MemberApi;
use crate::replies::throttle_time;
use answering::respond_once;
use byteorder::{BigEndian, ByteOrder};
use std::alloc::{AllocError, Allocator};

/// The most bytes of a response to a SyncGroup, but for the part: size, correlation id, throttle
/// time, code and the part's length.
pub const SYNC_REPLY_BYTES: usize = 18;

/// The number of bytes of a code and of a part's length.
const GIVEN_HEAD_BYTES: usize = 6;

/// What stands before the part: the error code, and the number of the part's bytes.
#[tactic(auto, unfolding(frame_fields::specs::Fields::encoded))]
fn given_head(code: i16, part: &[u8]) -> [u8; GIVEN_HEAD_BYTES]
    ensures { result ≡ given_head_bytes code (length part.now) }
{
    let mut bytes = [0; GIVEN_HEAD_BYTES];
    BigEndian::write_i16(&mut bytes[0..2], code);
    bytes[2..6].copy_from_slice(&part.len().to_be_bytes()[4..8]);
    bytes
}

/// Appends the response to a SyncGroup: the error code, 0 for none, and the member's part, empty
/// where there is an error. Of a part of more than `MAX_REPLY_BYTES` bytes it may not be read
/// again.
///
/// # Errors
///
/// `AllocError` where there is no memory for the response; the output is then as before.
pub fn reply_to_sync<A: Allocator + Copy>(
    api: MemberApi,
    correlation: i32,
    code: i16,
    part: &[u8],
    out: &mut Vec<u8, A>,
) -> Result<(), AllocError>
    ensures replies { OnOk result (out.new.items
        ≡ out.old.items ++ member_response api correlation sync_group_response
        (sync_group_value (record { code = code; part = part.now }))) }
    ensures unchanged_on_error { OnErr result (out.new.items ≡ out.old.items) }
    ensures succeeds { vec_len out.old + (SYNC_REPLY_BYTES + length part.now) ≤ vec_capacity out.old
        → IsOk result }
{
    let before = throttle_time(api.is_throttled());
    respond_once(correlation, before, &given_head(code, part), part, out)
}
