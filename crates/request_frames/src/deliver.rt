//! Deliver, version 0: a record batch to be put into a copy of a partition.

ghost use Rattle.frame_fields.specs.Reading.{Gives};
ghost use Rattle.request_frames.specs.declared.api.Api.{Api};
ghost use Rattle.request_frames.specs.Bodies.{read_body};
ghost use Rattle.request_frames.specs.Views.{request_body};

use crate::parsing::RequestBody;
use frame_fields::FieldFault;
use frame_fields::fields::{int32, long_bytes, string};

/// A Deliver request.
#[derive(Clone, Copy)]
pub struct DeliverRequest<'a> {
    /// The name of the topic, as sent. It need not be the name of a topic.
    pub topic: &'a [u8],
    /// The partition's index, as sent.
    pub partition: i32,
    /// A record batch, as sent. It keeps its offsets.
    pub batch: &'a [u8],
}

#[tactic(auto, unfolding(frame_fields::specs::Reading::read_fields))]
pub(crate) fn deliver_at(bytes: &[u8]) -> Result<(RequestBody<'_>, &[u8]), FieldFault>
    ensures { Gives (λ x. (request_body x.0, x.1.now)) result (read_body Api.Deliver bytes.now) }
{
    let (topic, rest) = string(bytes)?;
    let (partition, rest) = int32(rest)?;
    let (batch, rest) = long_bytes(rest)?;
    let request = DeliverRequest {
        topic,
        partition,
        batch,
    };
    Ok((RequestBody::Deliver(request), rest))
}
