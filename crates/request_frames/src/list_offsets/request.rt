//! What a ListOffsets request says.

ghost use Rattle.frame_fields.specs.Reading.{Gives};
ghost use Rattle.request_frames.specs.declared.api.Api.{Api};
ghost use Rattle.request_frames.specs.Bodies.{read_body};
ghost use Rattle.request_frames.specs.Views.{request_body};

use crate::list_offsets::ListOffsetsPartition;
use crate::parsing::RequestBody;
use frame_fields::fields::int32;
use frame_fields::{Array, FieldFault, Topic, array_at};

/// A ListOffsets request.
#[derive(Drop)]
pub struct ListOffsetsRequest<'a> {
    /// What is asked, by topic and partition.
    pub topics: Array<'a, Topic<'a, ListOffsetsPartition>>,
}

#[tactic(auto, unfolding(frame_fields::specs::Reading::read_fields))]
pub(crate) fn list_offsets_at(bytes: &[u8]) -> Result<(RequestBody<'_>, &[u8]), FieldFault>
    ensures { Gives (λ x. (request_body x.0, x.1.now)) result (read_body Api.ListOffsets bytes.now) }
{
    let (_replica_id, rest) = int32(bytes)?;
    let (topics, rest) = array_at(rest)?;
    Ok((
        RequestBody::ListOffsets(ListOffsetsRequest { topics }),
        rest,
    ))
}
