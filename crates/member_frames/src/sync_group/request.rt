//! What a SyncGroup request says.

ghost use Rattle.frame_fields.specs.Reading.{Gives};
ghost use Rattle.member_frames.specs.MemberBodies.{read_sync};
ghost use Rattle.member_frames.specs.MemberViews.{member_body};

use crate::parsing::MemberBody;
use crate::sync_group::Part;
use frame_fields::fields::{int32, string};
use frame_fields::{Array, FieldFault, array_at};

/// A SyncGroup request.
#[derive(Drop)]
pub struct SyncGroupRequest<'a> {
    /// The group, as sent.
    pub group: &'a [u8],
    /// The generation that the member is one of. Any number may have been sent.
    pub generation: i32,
    /// The member's id.
    pub member: &'a [u8],
    /// What the leader gives each member; of another member it is empty.
    pub parts: Array<'a, Part<'a>>,
}

#[tactic(auto, unfolding(frame_fields::specs::Reading::read_fields))]
pub(crate) fn sync_group_at(bytes: &[u8]) -> Result<(MemberBody<'_>, &[u8]), FieldFault>
    ensures { Gives (λ x. (member_body x.0, x.1.now)) result (read_sync bytes.now) }
{
    let (group, rest) = string(bytes)?;
    let (generation, rest) = int32(rest)?;
    let (member, rest) = string(rest)?;
    let (parts, rest) = array_at(rest)?;
    let request = SyncGroupRequest {
        group,
        generation,
        member,
        parts,
    };
    Ok((MemberBody::SyncGroup(request), rest))
}
