//! What a Fetch request says.

ghost use Rattle.frame_fields.specs.Reading.{Gives};
ghost use Rattle.request_frames.specs.declared.api.Api.{Api};
ghost use Rattle.request_frames.specs.Bodies.{read_body};
ghost use Rattle.request_frames.specs.Views.{request_body};

use crate::fetch::FetchPartition;
use crate::parsing::RequestBody;
use frame_fields::{Array, FieldFault, Topic, array_at};

/// A Fetch request.
#[derive(Drop)]
pub struct FetchRequest<'a> {
    /// How long the request may wait for records, in milliseconds. A negative number counts as 0.
    pub max_wait_ms: i32,
    /// For how many bytes of records it may wait. A negative number counts as 0.
    pub min_bytes: i32,
    /// The most bytes of records that are wanted in all. A negative number counts as 0.
    pub max_bytes: i32,
    /// What is wanted, by topic and partition.
    pub topics: Array<'a, Topic<'a, FetchPartition>>,
}

/// How many bytes the numbers before the topics of a Fetch request take. The first one and the last one
/// are not used.
const FETCH_FIXED_BYTES: usize = 17;

pub(crate) fn fetch_at(bytes: &[u8]) -> Result<(RequestBody<'_>, &[u8]), FieldFault>
    ensures { Gives (λ x. (request_body x.0, x.1.now)) result (read_body Api.Fetch bytes.now) }
{
    let Some((fixed, rest)) = bytes.split_first_chunk::<FETCH_FIXED_BYTES>() else {
        return Err(FieldFault::ShortBody);
    };
    let max_wait_ms = i32::from_be_bytes([fixed[4], fixed[5], fixed[6], fixed[7]]);
    let min_bytes = i32::from_be_bytes([fixed[8], fixed[9], fixed[10], fixed[11]]);
    let max_bytes = i32::from_be_bytes([fixed[12], fixed[13], fixed[14], fixed[15]]);
    let (topics, rest) = array_at(rest)?;
    let request = FetchRequest {
        max_wait_ms,
        min_bytes,
        max_bytes,
        topics,
    };
    Ok((RequestBody::Fetch(request), rest))
}
