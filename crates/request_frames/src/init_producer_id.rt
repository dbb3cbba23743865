//! InitProducerId, version 0: an id of a producer's own.

ghost use Rattle.frame_fields.specs.Reading.{Gives};
ghost use Rattle.request_frames.specs.declared.api.Api.{Api};
ghost use Rattle.request_frames.specs.Bodies.{read_body};
ghost use Rattle.request_frames.specs.Views.{request_body};

use crate::parsing::RequestBody;
use frame_fields::FieldFault;
use frame_fields::fields::{int32, nullable_string};

/// An InitProducerId request.
#[derive(Clone, Copy)]
pub struct InitProducerIdRequest<'a> {
    /// The producer's transactional id; `None` where it makes no transactions.
    pub transactional_id: Option<&'a [u8]>,
}

#[tactic(auto, unfolding(frame_fields::specs::Reading::read_fields))]
pub(crate) fn init_producer_id_at(bytes: &[u8]) -> Result<(RequestBody<'_>, &[u8]), FieldFault>
    ensures { Gives (λ x. (request_body x.0, x.1.now)) result
        (read_body Api.InitProducerId bytes.now) }
{
    let (transactional_id, rest) = nullable_string(bytes)?;
    let (_timeout, rest) = int32(rest)?;
    let request = InitProducerIdRequest { transactional_id };
    Ok((RequestBody::InitProducerId(request), rest))
}
