//! Cover, version 0: the offsets that a copy of a partition has seen are wanted.

ghost use Rattle.frame_fields.specs.Reading.{Gives};
ghost use Rattle.request_frames.specs.declared.api.Api.{Api};
ghost use Rattle.request_frames.specs.Bodies.{read_body};
ghost use Rattle.request_frames.specs.Views.{request_body};

use crate::parsing::RequestBody;
use frame_fields::FieldFault;
use frame_fields::fields::{int32, string};

/// A Cover request.
#[derive(Clone, Copy)]
pub struct CoverRequest<'a> {
    /// The name of the topic, as sent. It need not be the name of a topic.
    pub topic: &'a [u8],
    /// The partition's index, as sent.
    pub partition: i32,
}

#[tactic(auto, unfolding(frame_fields::specs::Reading::read_fields))]
pub(crate) fn cover_at(bytes: &[u8]) -> Result<(RequestBody<'_>, &[u8]), FieldFault>
    ensures { Gives (λ x. (request_body x.0, x.1.now)) result (read_body Api.Cover bytes.now) }
{
    let (topic, rest) = string(bytes)?;
    let (partition, rest) = int32(rest)?;
    let request = CoverRequest { topic, partition };
    Ok((RequestBody::Cover(request), rest))
}
