//! Trim: a partition whose start moves up.

ghost use Rattle.std.specs.Prelude.{◌≡◌, IfOk, OnErr};
ghost use Rattle.request_frames.specs.Trim.{trim_view};
ghost use Rattle.answering.specs.Telling.{AnswersTold, WritesTold};
ghost use Rattle.answering.specs.Doing.{DoesTold};
ghost use Rattle.copy_requests.specs.Trim.{trimmed_answer, trim_work, trim_sent};
ghost use Rattle.copy_requests.specs.Outcomes.{Trims};

use crate::codes::trim_code;
use answering::{ErrorCode, Memory, Refused, respond_once};
use broker_state::{BrokerState, Change};
use partition_log::{LeaderLog, PartitionLog};
use request_frames::TrimRequest;
use responses::RESPONSE_HEAD_BYTES;
use responses::trim::{TRIM_ANSWER_BYTES, TrimAnswer, trim_answer_bytes};
use segment::BatchStore;
use std::alloc::{AllocError, Allocator};

/// The offset that a copy is to start at.
#[derive(Clone, Copy)]
struct Trimming {
    start: i64,
}

/// Moves the start of a log that is led.
fn trim_log<S: BatchStore>(log: &mut LeaderLog<S>, start: i64) -> Result<(), ErrorCode>
    ensures { Trims start result log.old log.new }
{
    match log.trim(start) {
        Ok(()) => Ok(()),
        Err(fault) => Err(trim_code(fault)),
    }
}

/// Moves the start of a copy that follows.
fn trim_copy<S: BatchStore>(copy: &mut PartitionLog<S>, start: i64) -> Result<(), ErrorCode>
    ensures { Trims start result copy.old copy.new }
{
    match copy.trim(start) {
        Ok(()) => Ok(()),
        Err(fault) => Err(trim_code(fault)),
    }
}

impl<S: BatchStore> Change<S, Result<(), ErrorCode>> for Trimming {
    ghost use Rattle.copy_requests.specs.Outcomes.{Trims};

    ghost changes = { λ trimming role result c after. Trims trimming.start result c after };

    fn make_in_log(self, log: &mut LeaderLog<S>) -> Result<(), ErrorCode> {
        trim_log(log, self.start)
    }

    fn make_in_copy(self, copy: &mut PartitionLog<S>) -> Result<(), ErrorCode> {
        trim_copy(copy, self.start)
    }
}

/// Does what a Trim request asks for, or finds its first fault.
fn try_trim<S: BatchStore>(
    state: &mut BrokerState<S>,
    topic: &[u8],
    partition: i32,
    trimming: Trimming,
) -> Result<(), Refused>
    ensures { DoesTold (trim_work state.old
        (record { topic = topic.now; partition = partition; start = trimming.start }))
        trimmed_answer result state.old state.new }
{
    let Some(place) = state.place_of(topic, partition) else {
        return Err(Refused::Check(ErrorCode::UnknownTopicOrPartition));
    };
    match state.change_at(place, trimming) {
        Ok(()) => Ok(()),
        Err(fault) => Err(Refused::Check(fault)),
    }
}

/// What is answered to a Trim request, whose partition's start is then moved, or not; and whether memory
/// sufficed.
fn trim_entry<S: BatchStore>(
    state: &mut BrokerState<S>,
    request: &TrimRequest<'_>,
) -> (TrimAnswer, Memory)
    ensures { AnswersTold result.1 (trim_work state.old (trim_view request.now))
        state.old result.0 state.new }
{
    let trimming = Trimming {
        start: request.start,
    };
    match try_trim(state, request.topic, request.partition, trimming) {
        Ok(()) => (TrimAnswer { code: 0 }, Memory::Sufficed),
        Err(refused) => {
            let code = refused.code().number();
            (TrimAnswer { code }, refused.memory())
        }
    }
}

/// Moves the start of the partition of a Trim request, and appends the response to the output. Its room
/// is taken before anything changes; the trim itself needs no memory, so it always suffices.
///
/// # Errors
///
/// `AllocError` where there is no memory for the response; then nothing was trimmed, and the output is
/// as before.
pub fn reply_to_trim<S: BatchStore, A: Allocator + Copy>(
    state: &mut BrokerState<S>,
    correlation: i32,
    request: &TrimRequest<'_>,
    out: &mut Vec<u8, A>,
) -> Result<Memory, AllocError>
    ensures responds { IfOk result (λ memory. WritesTold (trim_sent correlation)
        (trim_work state.old (trim_view request.now)) state.old
        out.old.items out.new.items memory state.new) }
    ensures unchanged_on_error { OnErr result
        ((state.new ≡ state.old) × (out.new.items ≡ out.old.items)) }
{
    out.reserve(RESPONSE_HEAD_BYTES + TRIM_ANSWER_BYTES)?;
    let (answer, memory) = trim_entry(state, request);
    let bytes = trim_answer_bytes(answer);
    let Ok(()) = respond_once(correlation, &[], &[], &bytes, out) else {
        unreachable!()
    };
    Ok(memory)
}
