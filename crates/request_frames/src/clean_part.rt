//! Clean, version 1: a part of a copy of a partition to be compacted.

ghost use Rattle.frame_fields.specs.Reading.{Gives};
ghost use Rattle.request_frames.specs.declared.api.Api.{Api};
ghost use Rattle.request_frames.specs.Bodies.{read_body};
ghost use Rattle.request_frames.specs.Views.{request_body};

use crate::parsing::RequestBody;
use frame_fields::FieldFault;
use frame_fields::fields::{int32, int64, string};

/// A Clean request of version 1.
#[derive(Clone, Copy)]
pub struct CleanPartRequest<'a> {
    /// The name of the topic, as sent. It need not be the name of a topic.
    pub topic: &'a [u8],
    /// The partition's index, as sent.
    pub partition: i32,
    /// Only batches whose base offset is not below it are compacted. Any number may have been sent.
    pub from: i64,
    /// Only batches whose last offset is below it are compacted. Any number may have been sent.
    pub to: i64,
    /// Nor is any batch compacted whose last offset is not below it. Any number may have been sent.
    pub upto: i64,
    /// Only tombstones whose offset is below it are removed. Any number may have been sent.
    pub tomb_before: i64,
}

#[tactic(auto, unfolding(frame_fields::specs::Reading::read_fields))]
pub(crate) fn clean_part_at(bytes: &[u8]) -> Result<(RequestBody<'_>, &[u8]), FieldFault>
    ensures { Gives (λ x. (request_body x.0, x.1.now)) result (read_body Api.CleanPart bytes.now) }
{
    let (topic, rest) = string(bytes)?;
    let (partition, rest) = int32(rest)?;
    let (from, rest) = int64(rest)?;
    let (to, rest) = int64(rest)?;
    let (upto, rest) = int64(rest)?;
    let (tomb_before, rest) = int64(rest)?;
    let request = CleanPartRequest {
        topic,
        partition,
        from,
        to,
        upto,
        tomb_before,
    };
    Ok((RequestBody::CleanPart(request), rest))
}
