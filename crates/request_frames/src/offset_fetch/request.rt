//! What an OffsetFetch request says.

ghost use Rattle.frame_fields.specs.Reading.{Gives};
ghost use Rattle.request_frames.specs.declared.api.Api.{Api};
ghost use Rattle.request_frames.specs.Bodies.{read_body};
ghost use Rattle.request_frames.specs.Views.{request_body};

use crate::offset_fetch::OffsetFetchPartition;
use crate::parsing::RequestBody;
use frame_fields::fields::string;
use frame_fields::{Array, FieldFault, Topic, array_at};

/// An OffsetFetch request.
#[derive(Drop)]
pub struct OffsetFetchRequest<'a> {
    /// The group that has committed the offsets.
    pub group: &'a [u8],
    /// The partitions that are asked for, by topic.
    pub topics: Array<'a, Topic<'a, OffsetFetchPartition>>,
}

#[tactic(auto, unfolding(frame_fields::specs::Reading::read_fields))]
pub(crate) fn offset_fetch_at(bytes: &[u8]) -> Result<(RequestBody<'_>, &[u8]), FieldFault>
    ensures { Gives (λ x. (request_body x.0, x.1.now)) result
        (read_body Api.OffsetFetch bytes.now) }
{
    let (group, rest) = string(bytes)?;
    let (topics, rest) = array_at(rest)?;
    Ok((
        RequestBody::OffsetFetch(OffsetFetchRequest { group, topics }),
        rest,
    ))
}
