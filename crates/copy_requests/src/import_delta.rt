//! Import, version 1: a delta that a copy takes.

ghost use Rattle.std.specs.Prelude.{◌≡◌, IfOk, OnErr};
ghost use Rattle.request_frames.specs.ImportDelta.{import_delta_view};
ghost use Rattle.answering.specs.Telling.{AnswersTold, WritesTold};
ghost use Rattle.answering.specs.Doing.{DoesTold};
ghost use Rattle.copy_requests.specs.Import.{imported_answer, import_sent};
ghost use Rattle.copy_requests.specs.ImportDelta.{import_delta_work};
ghost use Rattle.copy_requests.specs.Outcomes.{Patches};

use crate::codes::patch_refused;
use crate::deliver::place_to_deliver;
use answering::{Memory, Refused, respond_once};
use broker_state::{BrokerState, Change};
use copy_deltas::apply_delta;
use partition_log::{LeaderLog, PartitionLog};
use request_frames::ImportDeltaRequest;
use responses::RESPONSE_HEAD_BYTES;
use responses::import::{IMPORT_ANSWER_BYTES, ImportAnswer, import_answer_bytes};
use segment::BatchStore;
use std::alloc::{AllocError, Allocator};

/// A delta that a copy is to take.
#[derive(Drop)]
struct Patching<'d> {
    delta: &'d [u8],
}

/// Takes a delta into a copy that follows.
fn patch_copy<S: BatchStore>(copy: &mut PartitionLog<S>, delta: &[u8]) -> Result<(), Refused>
    ensures { Patches delta.now result copy.old copy.new }
{
    // Called for its clause alone: the copy is a content.
    let _ = copy.end();
    match apply_delta(copy, delta) {
        Ok(()) => Ok(()),
        Err(fault) => Err(patch_refused(fault)),
    }
}

impl<'d, S: BatchStore> Change<S, Result<(), Refused>> for Patching<'d> {
    ghost use Rattle.std.specs.Prelude.{◌≡◌};
    ghost use Rattle.broker_state.specs.declared.config.Role.TheVariants.{Follower};
    ghost use Rattle.copy_requests.specs.Outcomes.{Patches};

    ghost changes = { λ patching role result here after. role ≡ Follower
        → Patches patching.delta.now result here after };

    fn make_in_log(self, _log: &mut LeaderLog<S>) -> Result<(), Refused> {
        // Only a follower's copy takes deltas, so what is answered here is never seen.
        Err(Refused::OutOfMemory)
    }

    fn make_in_copy(self, copy: &mut PartitionLog<S>) -> Result<(), Refused> {
        patch_copy(copy, self.delta)
    }
}

/// Does what an Import request of version 1 asks for, or finds its first fault.
fn try_import_delta<S: BatchStore>(
    state: &mut BrokerState<S>,
    topic: &[u8],
    partition: i32,
    delta: &[u8],
) -> Result<(), Refused>
    ensures { DoesTold (import_delta_work state.old
        (record { topic = topic.now; partition = partition; delta = delta.now }))
        imported_answer result state.old state.new }
{
    match place_to_deliver(state, topic, partition) {
        Ok(place) => state.change_at(place, Patching { delta }),
        Err(fault) => Err(Refused::Check(fault)),
    }
}

/// What is answered to an Import request of version 1, whose delta is then taken or refused; and whether
/// memory sufficed.
fn import_delta_entry<S: BatchStore>(
    state: &mut BrokerState<S>,
    request: &ImportDeltaRequest<'_>,
) -> (ImportAnswer, Memory)
    ensures { AnswersTold result.1 (import_delta_work state.old (import_delta_view request.now))
        state.old result.0 state.new }
{
    match try_import_delta(state, request.topic, request.partition, request.delta) {
        Ok(()) => (ImportAnswer { code: 0 }, Memory::Sufficed),
        Err(refused) => {
            let code = refused.code().number();
            (ImportAnswer { code }, refused.memory())
        }
    }
}

/// Takes the delta of an Import request of version 1 into the copy that follows, and appends the response
/// to the output. Its room is taken before anything changes.
///
/// Where there is no memory for the delta the partition is as it was, the answer is the error code of a
/// storage error, and it is told that memory lacked.
///
/// # Errors
///
/// `AllocError` where there is no memory for the response; then nothing was imported, and the output is
/// as before.
pub fn reply_to_import_delta<S: BatchStore, A: Allocator + Copy>(
    state: &mut BrokerState<S>,
    correlation: i32,
    request: &ImportDeltaRequest<'_>,
    out: &mut Vec<u8, A>,
) -> Result<Memory, AllocError>
    ensures responds { IfOk result (λ memory. WritesTold (import_sent correlation)
        (import_delta_work state.old (import_delta_view request.now)) state.old
        out.old.items out.new.items memory state.new) }
    ensures unchanged_on_error { OnErr result
        ((state.new ≡ state.old) × (out.new.items ≡ out.old.items)) }
{
    out.reserve(RESPONSE_HEAD_BYTES + IMPORT_ANSWER_BYTES)?;
    let (answer, memory) = import_delta_entry(state, request);
    let bytes = import_answer_bytes(answer);
    let Ok(()) = respond_once(correlation, &[], &[], &bytes, out) else {
        unreachable!()
    };
    Ok(memory)
}
