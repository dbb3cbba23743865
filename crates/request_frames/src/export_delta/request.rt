//! What an Export request of version 1 says.

ghost use Rattle.frame_fields.specs.Reading.{Gives};
ghost use Rattle.request_frames.specs.declared.api.Api.{Api};
ghost use Rattle.request_frames.specs.Bodies.{read_body};
ghost use Rattle.request_frames.specs.Views.{request_body};

use crate::export_delta::AskedRange;
use crate::parsing::RequestBody;
use frame_fields::fields::{int32, string};
use frame_fields::{Array, FieldFault, array_at};

/// An Export request of version 1.
#[derive(Drop)]
pub struct ExportDeltaRequest<'a> {
    /// The name of the topic, as sent. It need not be the name of a topic.
    pub topic: &'a [u8],
    /// The partition's index, as sent.
    pub partition: i32,
    /// The ranges of the offsets that are asked for, as sent. They need be no ranges of a set of
    /// offsets.
    pub asked: Array<'a, AskedRange>,
}

#[tactic(auto, unfolding(frame_fields::specs::Reading::read_fields))]
pub(crate) fn export_delta_at(bytes: &[u8]) -> Result<(RequestBody<'_>, &[u8]), FieldFault>
    ensures { Gives (λ x. (request_body x.0, x.1.now)) result
        (read_body Api.ExportDelta bytes.now) }
{
    let (topic, rest) = string(bytes)?;
    let (partition, rest) = int32(rest)?;
    let (asked, rest) = array_at(rest)?;
    let request = ExportDeltaRequest {
        topic,
        partition,
        asked,
    };
    Ok((RequestBody::ExportDelta(request), rest))
}
