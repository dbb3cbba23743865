//! LeaveGroup, versions 0 and 1: a member leaves its group.

ghost use Rattle.frame_fields.specs.Reading.{Gives};
ghost use Rattle.member_frames.specs.MemberBodies.{read_leave};
ghost use Rattle.member_frames.specs.MemberViews.{member_body};

use crate::parsing::MemberBody;
use frame_fields::FieldFault;
use frame_fields::fields::string;

/// A LeaveGroup request.
#[derive(Clone, Copy)]
pub struct LeaveGroupRequest<'a> {
    /// The group, as sent.
    pub group: &'a [u8],
    /// The member's id.
    pub member: &'a [u8],
}

#[tactic(auto, unfolding(frame_fields::specs::Reading::read_fields))]
pub(crate) fn leave_group_at(bytes: &[u8]) -> Result<(MemberBody<'_>, &[u8]), FieldFault>
    ensures { Gives (λ x. (member_body x.0, x.1.now)) result (read_leave bytes.now) }
{
    let (group, rest) = string(bytes)?;
    let (member, rest) = string(rest)?;
    let request = LeaveGroupRequest { group, member };
    Ok((MemberBody::LeaveGroup(request), rest))
}
