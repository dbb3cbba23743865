//! The responses to Heartbeat and LeaveGroup.

ghost use Rattle.std.specs.Prelude.{◌≡◌, ◌≤◌, ◌+◌, ◌++◌, IsOk, OnOk, OnErr};
ghost use Rattle.std.specs.Vec.{vec_len, vec_capacity};
ghost use Rattle.member_frames.specs.MemberReplies.{member_response, code_response, code_value};

use crate::api::MemberApi;
use crate::replies::throttle_time;
use answering::respond_once;
use std::alloc::{AllocError, Allocator};

/// The most bytes of a response to a Heartbeat or a LeaveGroup: size, correlation id, throttle time
/// and code.
pub const CODE_REPLY_BYTES: usize = 14;

/// Appends the response to a Heartbeat or a LeaveGroup: the error code, 0 for none.
///
/// # Errors
///
/// `AllocError` where there is no memory for the response; the output is then as before.
pub fn reply_with_code<A: Allocator + Copy>(
    api: MemberApi,
    correlation: i32,
    code: i16,
    out: &mut Vec<u8, A>,
) -> Result<(), AllocError>
    ensures replies { OnOk result (out.new.items
        ≡ out.old.items ++ member_response api correlation code_response (code_value code)) }
    ensures unchanged_on_error { OnErr result (out.new.items ≡ out.old.items) }
    ensures succeeds { vec_len out.old + CODE_REPLY_BYTES ≤ vec_capacity out.old → IsOk result }
{
    let before = throttle_time(api.is_throttled());
    respond_once(correlation, before, &code.to_be_bytes(), &[], out)
}
