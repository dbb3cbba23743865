//! ForgetGroup, version 0: the offsets that a group has committed to be forgotten.

ghost use Rattle.frame_fields.specs.Reading.{Gives};
ghost use Rattle.request_frames.specs.declared.api.Api.{Api};
ghost use Rattle.request_frames.specs.Bodies.{read_body};
ghost use Rattle.request_frames.specs.Views.{request_body};

use crate::parsing::RequestBody;
use frame_fields::FieldFault;
use frame_fields::fields::string;

/// A ForgetGroup request.
#[derive(Clone, Copy)]
pub struct ForgetGroupRequest<'a> {
    /// The group whose committed offsets are to be forgotten.
    pub group: &'a [u8],
}

#[tactic(auto, unfolding(frame_fields::specs::Reading::read_fields))]
pub(crate) fn forget_group_at(bytes: &[u8]) -> Result<(RequestBody<'_>, &[u8]), FieldFault>
    ensures { Gives (λ x. (request_body x.0, x.1.now)) result
        (read_body Api.ForgetGroup bytes.now) }
{
    let (group, rest) = string(bytes)?;
    let request = ForgetGroupRequest { group };
    Ok((RequestBody::ForgetGroup(request), rest))
}
