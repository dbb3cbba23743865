//! Heartbeat, versions 0 and 1: a member is alive, and asks whether its generation still stands.

ghost use Rattle.frame_fields.specs.Reading.{Gives};
ghost use Rattle.member_frames.specs.MemberBodies.{read_heartbeat};
ghost use Rattle.member_frames.specs.MemberViews.{member_body};

use crate::parsing::MemberBody;
use frame_fields::FieldFault;
use frame_fields::fields::{int32, string};

/// A Heartbeat request.
#[derive(Clone, Copy)]
pub struct HeartbeatRequest<'a> {
    /// The group, as sent.
    pub group: &'a [u8],
    /// The generation that the member is one of. Any number may have been sent.
    pub generation: i32,
    /// The member's id.
    pub member: &'a [u8],
}

#[tactic(auto, unfolding(frame_fields::specs::Reading::read_fields))]
pub(crate) fn heartbeat_at(bytes: &[u8]) -> Result<(MemberBody<'_>, &[u8]), FieldFault>
    ensures { Gives (λ x. (member_body x.0, x.1.now)) result (read_heartbeat bytes.now) }
{
    let (group, rest) = string(bytes)?;
    let (generation, rest) = int32(rest)?;
    let (member, rest) = string(rest)?;
    let request = HeartbeatRequest {
        group,
        generation,
        member,
    };
    Ok((MemberBody::Heartbeat(request), rest))
}
