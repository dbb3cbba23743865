//! What an OffsetCommit request says.

ghost use Rattle.frame_fields.specs.Reading.{Gives};
ghost use Rattle.request_frames.specs.declared.api.Api.{Api};
ghost use Rattle.request_frames.specs.Bodies.{read_body};
ghost use Rattle.request_frames.specs.Views.{request_body};

use crate::offset_commit::OffsetCommitPartition;
use crate::parsing::RequestBody;
use frame_fields::fields::{int32, int64, string};
use frame_fields::{Array, FieldFault, Topic, array_at};

/// An OffsetCommit request.
#[derive(Drop)]
pub struct OffsetCommitRequest<'a> {
    /// The group that has reached the offsets.
    pub group: &'a [u8],
    /// The group's generation: -1 for one that its consumers don't manage by the broker. Any number
    /// may have been sent.
    pub generation: i32,
    /// The member that commits, empty for a consumer that is none. No response looks at it.
    pub member: &'a [u8],
    /// The offsets, by topic and partition.
    pub topics: Array<'a, Topic<'a, OffsetCommitPartition<'a>>>,
}

#[tactic(auto, unfolding(frame_fields::specs::Reading::read_fields))]
pub(crate) fn offset_commit_at(bytes: &[u8]) -> Result<(RequestBody<'_>, &[u8]), FieldFault>
    ensures { Gives (λ x. (request_body x.0, x.1.now)) result
        (read_body Api.OffsetCommit bytes.now) }
{
    let (group, rest) = string(bytes)?;
    let (generation, rest) = int32(rest)?;
    let (member, rest) = string(rest)?;
    let (_retention_time, rest) = int64(rest)?;
    let (topics, rest) = array_at(rest)?;
    let request = OffsetCommitRequest {
        group,
        generation,
        member,
        topics,
    };
    Ok((RequestBody::OffsetCommit(request), rest))
}
