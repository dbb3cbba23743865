//! A frame read as a request of a member.

ghost use Rattle.std.specs.Prelude.{◌≡◌, ◌<◌, ◌≤◌, length, IfOk, IfErr, IfSome, IfNone};
ghost use Rattle.std.specs.Option.{option_map};
ghost use Rattle.frame_fields.specs.Reading.{Gives};
ghost use Rattle.frame_fields.specs.Types.{or_empty};
ghost use Rattle.request_frames.specs.Requests.{correlation_of};
ghost use Rattle.member_frames.specs.MemberBodies.{read_member_body, read_member_request};
ghost use Rattle.member_frames.specs.MemberRequests.{IsOfMember, IsMemberRequest, IsMemberRefused};
ghost use Rattle.member_frames.specs.MemberViews.{member_body, member_request_value, IsMemberHeader};

use crate::api::MemberApi;
use crate::heartbeat::{HeartbeatRequest, heartbeat_at};
use crate::join_group::{JoinGroupRequest, join_group_0_at, join_group_at};
use crate::leave_group::{LeaveGroupRequest, leave_group_at};
use crate::sync_group::{SyncGroupRequest, sync_group_at};
use frame_fields::fields::nullable_string;
use frame_fields::{FieldFault, FrameError};

/// A request of a member, borrowed from its frame.
#[derive(Drop)]
pub struct MemberRequest<'a> {
    /// Which request it is, and in which version.
    pub api: MemberApi,
    /// The number that the response repeats.
    pub correlation: i32,
    /// The client id, empty where it is null.
    pub client: &'a [u8],
    /// What is asked.
    pub body: MemberBody<'a>,
}

/// What a request of a member asks.
#[derive(Drop)]
pub enum MemberBody<'a> {
    /// A consumer wants to be a member.
    JoinGroup(JoinGroupRequest<'a>),
    /// A member wants its part.
    SyncGroup(SyncGroupRequest<'a>),
    /// A member is alive.
    Heartbeat(HeartbeatRequest<'a>),
    /// A member leaves.
    LeaveGroup(LeaveGroupRequest<'a>),
}

/// The fixed fields that each request begins with.
#[derive(Clone, Copy)]
struct MemberHeader {
    key: i16,
    version: i16,
    correlation: i32,
}

fn header_at(frame: &[u8]) -> Option<MemberHeader>
    ensures found { IfSome result (λ h. (8 ≤ length frame.now) × IsMemberHeader frame.now h) }
    ensures none { IfNone result (length frame.now < 8) }
{
    let (first, _body) = frame.split_first_chunk::<8>()?;
    Some(MemberHeader {
        key: i16::from_be_bytes([first[0], first[1]]),
        version: i16::from_be_bytes([first[2], first[3]]),
        correlation: i32::from_be_bytes([first[4], first[5], first[6], first[7]]),
    })
}

/// A text, empty where it is null.
fn or_empty(text: Option<&[u8]>) -> &[u8]
    ensures { result.now ≡ or_empty (option_map (λ bytes. bytes.now) text.entry) }
{
    match text {
        Some(bytes) => bytes,
        None => &[],
    }
}

/// What a request asks, and the bytes after its fields.
fn body_at(api: MemberApi, bytes: &[u8]) -> Result<(MemberBody<'_>, &[u8]), FieldFault>
    ensures { Gives (λ x. (member_body x.0, x.1.now)) result (read_member_body api bytes.now) }
{
    match api {
        MemberApi::JoinGroup0 => join_group_0_at(bytes),
        MemberApi::JoinGroup1 => join_group_at(bytes),
        MemberApi::JoinGroup2 => join_group_at(bytes),
        MemberApi::SyncGroup0 => sync_group_at(bytes),
        MemberApi::SyncGroup1 => sync_group_at(bytes),
        MemberApi::Heartbeat0 => heartbeat_at(bytes),
        MemberApi::Heartbeat1 => heartbeat_at(bytes),
        MemberApi::LeaveGroup0 => leave_group_at(bytes),
        MemberApi::LeaveGroup1 => leave_group_at(bytes),
    }
}

/// The client id, what a request asks behind it, and the bytes after its fields.
#[tactic(auto, unfolding(crate::specs::MemberBodies::read_member_request))]
fn client_and_body_at(
    api: MemberApi,
    bytes: &[u8],
) -> Result<((&[u8], MemberBody<'_>), &[u8]), FieldFault>
    ensures { Gives (λ x. (record { client = x.0.0.now; body = member_body x.0.1 }, x.1.now)) result
        (read_member_request api bytes.now) }
{
    let (client, rest) = nullable_string(bytes)?;
    let (body, rest) = body_at(api, rest)?;
    Ok(((or_empty(client), body), rest))
}

/// The request behind a frame's header.
fn request_after<'a>(
    api: MemberApi,
    correlation: i32,
    frame: &'a [u8],
) -> Result<MemberRequest<'a>, FrameError>
    requires is_of_api { IsOfMember api frame.now }
    requires correlates { correlation ≡ correlation_of frame.now }
    ensures reads { IfOk result (λ q. IsMemberRequest frame.now (member_request_value q)) }
    ensures refuses { IfErr result (λ e. IsMemberRefused e frame.now) }
{
    let (_header, behind) = frame.split_at(8);
    let ((client, body), rest) = match client_and_body_at(api, behind) {
        Ok(found) => found,
        Err(FieldFault::ShortBody) => return Err(FrameError::ShortBody),
        Err(FieldFault::Malformed) => return Err(FrameError::Malformed),
    };
    if rest.is_empty() {
        Ok(MemberRequest {
            api,
            correlation,
            client,
            body,
        })
    } else {
        Err(FrameError::TrailingBytes)
    }
}

/// The request of a member that the whole of a frame's bytes encode; the frame stands without its
/// size field.
///
/// It takes no memory: names, ids, metadata and arrays are borrowed from the frame.
///
/// # Errors
///
/// In this order: `ShortHeader` under 8 bytes; `UnknownApi` for another api key than those of
/// JoinGroup, SyncGroup, Heartbeat and LeaveGroup; `BadVersion` for another version of it than 0
/// and 1, and of JoinGroup than 0 to 2; then from the left, whichever comes first, `ShortBody`
/// where the frame ends inside a field and `Malformed` where a length or a count is below what its
/// type allows; `TrailingBytes` where bytes are left after the last field. No other.
pub fn parse_member(frame: &[u8]) -> Result<MemberRequest<'_>, FrameError>
    ensures reads { IfOk result (λ q. IsMemberRequest frame.now (member_request_value q)) }
    ensures refuses { IfErr result (λ e. IsMemberRefused e frame.now) }
{
    let Some(header) = header_at(frame) else {
        return Err(FrameError::ShortHeader);
    };
    let api = MemberApi::find(header.key, header.version)?;
    request_after(api, header.correlation, frame)
}
