//! What a JoinGroup request says.

ghost use Rattle.frame_fields.specs.Reading.{Gives};
ghost use Rattle.member_frames.specs.MemberBodies.{read_join_0, read_join};
ghost use Rattle.member_frames.specs.MemberViews.{member_body};

use crate::join_group::Protocol;
use crate::parsing::MemberBody;
use frame_fields::fields::{int32, string};
use frame_fields::{Array, FieldFault, array_at};

/// A JoinGroup request.
#[derive(Drop)]
pub struct JoinGroupRequest<'a> {
    /// The group, as sent.
    pub group: &'a [u8],
    /// The session timeout in milliseconds: a member that isn't heard of for so long is none any
    /// more. Any number may have been sent.
    pub session: i32,
    /// The rebalance timeout in milliseconds: so long the others wait for the member to join anew.
    /// Any number may have been sent; in version 0 it is the session timeout.
    pub rebalance: i32,
    /// The member's id, empty where it has none yet.
    pub member: &'a [u8],
    /// The kind of the group, as `consumer`.
    pub kind: &'a [u8],
    /// The member's protocols, the one that it likes best first.
    pub protocols: Array<'a, Protocol<'a>>,
}

/// A JoinGroup request of version 0.
#[tactic(auto, unfolding(frame_fields::specs::Reading::read_fields))]
pub(crate) fn join_group_0_at(bytes: &[u8]) -> Result<(MemberBody<'_>, &[u8]), FieldFault>
    ensures { Gives (λ x. (member_body x.0, x.1.now)) result (read_join_0 bytes.now) }
{
    let (group, rest) = string(bytes)?;
    let (session, rest) = int32(rest)?;
    let (member, rest) = string(rest)?;
    let (kind, rest) = string(rest)?;
    let (protocols, rest) = array_at(rest)?;
    let request = JoinGroupRequest {
        group,
        session,
        rebalance: session,
        member,
        kind,
        protocols,
    };
    Ok((MemberBody::JoinGroup(request), rest))
}

/// A JoinGroup request of version 1 or 2.
#[tactic(auto, unfolding(frame_fields::specs::Reading::read_fields))]
pub(crate) fn join_group_at(bytes: &[u8]) -> Result<(MemberBody<'_>, &[u8]), FieldFault>
    ensures { Gives (λ x. (member_body x.0, x.1.now)) result (read_join bytes.now) }
{
    let (group, rest) = string(bytes)?;
    let (session, rest) = int32(rest)?;
    let (rebalance, rest) = int32(rest)?;
    let (member, rest) = string(rest)?;
    let (kind, rest) = string(rest)?;
    let (protocols, rest) = array_at(rest)?;
    let request = JoinGroupRequest {
        group,
        session,
        rebalance,
        member,
        kind,
        protocols,
    };
    Ok((MemberBody::JoinGroup(request), rest))
}
