//! What a Metadata request says.

ghost use Rattle.frame_fields.specs.Reading.{Gives};
ghost use Rattle.request_frames.specs.declared.api.Api.{Api};
ghost use Rattle.request_frames.specs.Bodies.{read_body};
ghost use Rattle.request_frames.specs.Views.{request_body};

use crate::parsing::RequestBody;
use frame_fields::{Array, FieldFault, Name, nullable_array_at};

/// A Metadata request.
#[derive(Drop)]
pub struct MetadataRequest<'a> {
    /// The names of the topics that are asked for, or `None` for all topics.
    pub names: Option<Array<'a, Name<'a>>>,
}

#[tactic(auto, unfolding(frame_fields::specs::Reading::read_fields))]
pub(crate) fn metadata_at(bytes: &[u8]) -> Result<(RequestBody<'_>, &[u8]), FieldFault>
    ensures { Gives (λ x. (request_body x.0, x.1.now)) result (read_body Api.Metadata bytes.now) }
{
    let (names, rest) = nullable_array_at(bytes)?;
    Ok((RequestBody::Metadata(MetadataRequest { names }), rest))
}
