//! What a Produce request says.

ghost use Rattle.frame_fields.specs.Reading.{Gives};
ghost use Rattle.request_frames.specs.declared.api.Api.{Api};
ghost use Rattle.request_frames.specs.Bodies.{read_body};
ghost use Rattle.request_frames.specs.Views.{request_body};

use crate::parsing::RequestBody;
use crate::produce::ProducePartition;
use frame_fields::fields::{int16, int32, nullable_string};
use frame_fields::{Array, FieldFault, Topic, array_at};

/// A Produce request.
#[derive(Drop)]
pub struct ProduceRequest<'a> {
    /// The id of a transaction, or `None` where it is null.
    pub transactional_id: Option<&'a [u8]>,
    /// How many copies have to acknowledge: 0, 1, or -1 for all. Any number may have been sent.
    pub acks: i16,
    /// The batches, by topic and partition.
    pub topics: Array<'a, Topic<'a, ProducePartition<'a>>>,
}

#[tactic(auto, unfolding(frame_fields::specs::Reading::read_fields))]
pub(crate) fn produce_at(bytes: &[u8]) -> Result<(RequestBody<'_>, &[u8]), FieldFault>
    ensures { Gives (λ x. (request_body x.0, x.1.now)) result (read_body Api.Produce bytes.now) }
{
    let (transactional_id, rest) = nullable_string(bytes)?;
    let (acks, rest) = int16(rest)?;
    let (_timeout, rest) = int32(rest)?;
    let (topics, rest) = array_at(rest)?;
    let request = ProduceRequest {
        transactional_id,
        acks,
        topics,
    };
    Ok((RequestBody::Produce(request), rest))
}
