//! FindCoordinator, version 0: the broker that keeps a group's offsets.

ghost use Rattle.frame_fields.specs.Reading.{Gives};
ghost use Rattle.request_frames.specs.declared.api.Api.{Api};
ghost use Rattle.request_frames.specs.Bodies.{read_body};
ghost use Rattle.request_frames.specs.Views.{request_body};

use crate::parsing::RequestBody;
use frame_fields::FieldFault;
use frame_fields::fields::string;

/// A FindCoordinator request.
#[derive(Clone, Copy)]
pub struct FindCoordinatorRequest<'a> {
    /// The group whose coordinator is wanted.
    pub group: &'a [u8],
}

#[tactic(auto, unfolding(frame_fields::specs::Reading::read_fields))]
pub(crate) fn find_coordinator_at(bytes: &[u8]) -> Result<(RequestBody<'_>, &[u8]), FieldFault>
    ensures { Gives (λ x. (request_body x.0, x.1.now)) result
        (read_body Api.FindCoordinator bytes.now) }
{
    let (group, rest) = string(bytes)?;
    let request = FindCoordinatorRequest { group };
    Ok((RequestBody::FindCoordinator(request), rest))
}
