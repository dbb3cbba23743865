//! Trim, version 0: the start of a copy of a partition to be moved.

ghost use Rattle.frame_fields.specs.Reading.{Gives};
ghost use Rattle.request_frames.specs.declared.api.Api.{Api};
ghost use Rattle.request_frames.specs.Bodies.{read_body};
ghost use Rattle.request_frames.specs.Views.{request_body};

use crate::parsing::RequestBody;
use frame_fields::FieldFault;
use frame_fields::fields::{int32, int64, string};

/// A Trim request.
#[derive(Clone, Copy)]
pub struct TrimRequest<'a> {
    /// The name of the topic, as sent. It need not be the name of a topic.
    pub topic: &'a [u8],
    /// The partition's index, as sent.
    pub partition: i32,
    /// The offset that the copy is to start at. Any number may have been sent.
    pub start: i64,
}

#[tactic(auto, unfolding(frame_fields::specs::Reading::read_fields))]
pub(crate) fn trim_at(bytes: &[u8]) -> Result<(RequestBody<'_>, &[u8]), FieldFault>
    ensures { Gives (λ x. (request_body x.0, x.1.now)) result (read_body Api.Trim bytes.now) }
{
    let (topic, rest) = string(bytes)?;
    let (partition, rest) = int32(rest)?;
    let (start, rest) = int64(rest)?;
    let request = TrimRequest {
        topic,
        partition,
        start,
    };
    Ok((RequestBody::Trim(request), rest))
}
