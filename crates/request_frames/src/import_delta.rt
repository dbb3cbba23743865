//! Import, version 1: a delta to be taken into a copy of a partition.

ghost use Rattle.frame_fields.specs.Reading.{Gives};
ghost use Rattle.request_frames.specs.declared.api.Api.{Api};
ghost use Rattle.request_frames.specs.Bodies.{read_body};
ghost use Rattle.request_frames.specs.Views.{request_body};

use crate::parsing::RequestBody;
use frame_fields::FieldFault;
use frame_fields::fields::{int32, long_bytes, string};

/// An Import request of version 1.
#[derive(Clone, Copy)]
pub struct ImportDeltaRequest<'a> {
    /// The name of the topic, as sent. It need not be the name of a topic.
    pub topic: &'a [u8],
    /// The partition's index, as sent.
    pub partition: i32,
    /// The delta of a copy, as sent.
    pub delta: &'a [u8],
}

#[tactic(auto, unfolding(frame_fields::specs::Reading::read_fields))]
pub(crate) fn import_delta_at(bytes: &[u8]) -> Result<(RequestBody<'_>, &[u8]), FieldFault>
    ensures { Gives (λ x. (request_body x.0, x.1.now)) result
        (read_body Api.ImportDelta bytes.now) }
{
    let (topic, rest) = string(bytes)?;
    let (partition, rest) = int32(rest)?;
    let (delta, rest) = long_bytes(rest)?;
    let request = ImportDeltaRequest {
        topic,
        partition,
        delta,
    };
    Ok((RequestBody::ImportDelta(request), rest))
}
