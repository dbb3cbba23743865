//! InitProducerId: a producer gets an id of its own.

ghost use Rattle.std.specs.Prelude.{◌≡◌, IfOk, OnErr};
ghost use Rattle.std.specs.Option.{option_map};
ghost use Rattle.request_frames.specs.InitProducerId.{init_producer_id_view};
ghost use Rattle.answering.specs.Telling.{AnswersTold, WritesTold};
ghost use Rattle.answering.specs.Doing.{DoesTold};
ghost use Rattle.setup_requests.specs.InitProducerId.{id_answer, init_producer_id_work, init_producer_id_sent};

use answering::{ErrorCode, Memory, Refused, respond_once};
use broker_state::{BrokerState, Role};
use request_frames::InitProducerIdRequest;
use responses::RESPONSE_HEAD_BYTES;
use responses::init_producer_id::{
    INIT_PRODUCER_ID_ANSWER_BYTES, InitProducerIdAnswer, init_producer_id_answer_bytes,
};
use segment::BatchStore;
use std::alloc::{AllocError, Allocator};

/// Gives out a producer id, or finds the first fault.
fn try_give<S: BatchStore>(
    state: &mut BrokerState<S>,
    transactional_id: Option<&[u8]>,
) -> Result<i64, Refused>
    ensures { DoesTold (init_producer_id_work state.old
        (option_map (λ bytes. bytes.now) transactional_id.entry))
        id_answer result state.old state.new }
{
    match (transactional_id, state.role()) {
        (Some(_), _) => Err(Refused::Check(ErrorCode::InvalidTransactionState)),
        (None, Role::Follower) => Err(Refused::Check(ErrorCode::NotLeader)),
        (None, Role::Leader) => match state.give_producer_id() {
            Some(id) => Ok(id),
            None => Err(Refused::Check(ErrorCode::UnknownServerError)),
        },
    }
}

/// What is answered to a producer that wants an id, which is then given out, or not; and whether memory
/// sufficed.
fn give_entry<S: BatchStore>(
    state: &mut BrokerState<S>,
    request: &InitProducerIdRequest<'_>,
) -> (InitProducerIdAnswer, Memory)
    ensures { AnswersTold result.1 (init_producer_id_work state.old (init_producer_id_view request.now))
        state.old result.0 state.new }
{
    match try_give(state, request.transactional_id) {
        Ok(producer_id) => {
            let answer = InitProducerIdAnswer {
                code: 0,
                producer_id,
                epoch: 0,
            };
            (answer, Memory::Sufficed)
        }
        Err(refused) => {
            let answer = InitProducerIdAnswer {
                code: refused.code().number(),
                producer_id: -1,
                epoch: -1,
            };
            (answer, refused.memory())
        }
    }
}

/// Gives a producer an id, and appends the response to the output. Its room is taken before the id is
/// given out. No memory is taken then, so it always suffices.
///
/// # Errors
///
/// `AllocError` where there is no memory for the response; then no id was given out, and the output is as
/// before.
pub fn reply_to_init_producer_id<S: BatchStore, A: Allocator + Copy>(
    state: &mut BrokerState<S>,
    correlation: i32,
    request: &InitProducerIdRequest<'_>,
    out: &mut Vec<u8, A>,
) -> Result<Memory, AllocError>
    ensures responds { IfOk result (λ memory. WritesTold (init_producer_id_sent correlation)
        (init_producer_id_work state.old (init_producer_id_view request.now)) state.old
        out.old.items out.new.items memory state.new) }
    ensures unchanged_on_error { OnErr result
        ((state.new ≡ state.old) × (out.new.items ≡ out.old.items)) }
{
    out.reserve(RESPONSE_HEAD_BYTES + INIT_PRODUCER_ID_ANSWER_BYTES)?;
    let (answer, memory) = give_entry(state, request);
    let bytes = init_producer_id_answer_bytes(answer);
    let Ok(()) = respond_once(correlation, &[], &[], &bytes, out) else {
        unreachable!()
    };
    Ok(memory)
}
