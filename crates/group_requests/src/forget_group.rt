//! ForgetGroup: a group whose committed offsets are forgotten.

ghost use Rattle.std.specs.Prelude.{◌≡◌, ◌≤◌, pos, [], ◌∷◌, length, map, IfNone, IfOk, OnErr};
ghost use Rattle.request_frames.specs.ForgetGroup.{forget_group_view};
ghost use Rattle.batch_codec.specs.Grammar.{Writable};
ghost use Rattle.group_offsets.specs.declared.forget.TheConstants.{MAX_FORGOTTEN};
ghost use Rattle.group_offsets.specs.Groups.{group_keys};
ghost use Rattle.answering.specs.Lists.{first_some};
ghost use Rattle.answering.specs.Telling.{AnswersTold, WritesTold};
ghost use Rattle.answering.specs.Doing.{DoesTold};
ghost use Rattle.broker_state.specs.declared.config.Role.TheVariants.{Leader};
ghost use Rattle.broker_state.specs.Checks.{no_group, not_leader};
ghost use Rattle.group_requests.specs.GroupPartition.{group_content};
ghost use Rattle.group_requests.specs.ForgetGroup.{forget_group_work, forget_group_sent};
ghost use Rattle.group_requests.specs.ForgetGroup.Entries.{IsBatchOf, AppendsCounted, ForgetsKeys, forgotten_answer};

use crate::group_partition::{append_to_groups, group_copy};
use answering::{ErrorCode, Memory, Refused, respond_once};
use batch_codec::Batch;
use broker_state::{BrokerState, Role};
use group_offsets::{fits_a_batch, forget_batch, group_keys};
use request_frames::ForgetGroupRequest;
use responses::RESPONSE_HEAD_BYTES;
use responses::forget_group::{
    FORGET_GROUP_ANSWER_BYTES, ForgetGroupAnswer, forget_group_answer_bytes,
};
use segment::BatchStore;
use std::alloc::{AllocError, Allocator};

/// The first fault that is found before the group's keys are looked up.
fn forget_fault<S: BatchStore>(state: &BrokerState<S>, group: &[u8]) -> Option<ErrorCode>
    ensures faults { result ≡ first_some (no_group group.now ∷ not_leader state.now ∷ []) }
    ensures leads { IfNone result (state.now.config.role ≡ Leader) }
{
    if group.is_empty() {
        return Some(ErrorCode::InvalidGroupId);
    }
    match state.role() {
        Role::Leader => None,
        Role::Follower => Some(ErrorCode::NotLeader),
    }
}

/// The batch that forgets keys; none where there is no key.
fn batch_of<A: Allocator + Copy>(alloc: A, keys: &[&[u8]]) -> Result<Option<Batch<A>>, Refused>
    ensures { IsBatchOf (map (λ key. key.now) keys.now) result }
{
    if keys.is_empty() {
        return Ok(None);
    }
    if !fits_a_batch(keys) {
        return Err(Refused::Check(ErrorCode::MessageTooLarge));
    }
    match forget_batch(alloc, keys) {
        Ok(batch) => Ok(Some(batch)),
        Err(_) => Err(Refused::OutOfMemory),
    }
}

/// The batch that forgets the keys of a group.
fn batch_to_forget<S: BatchStore>(
    state: &BrokerState<S>,
    group: &[u8],
) -> Result<Option<Batch<S::Alloc>>, Refused>
    ensures { IsBatchOf (group_keys (group_content state.now) group.now) result }
{
    let copy = group_copy(state);
    match group_keys(copy, group) {
        Ok(keys) => batch_of(copy.allocator(), &keys),
        Err(_) => Err(Refused::OutOfMemory),
    }
}

/// How many records a batch has.
fn record_count<A: Allocator + Copy>(batch: &Batch<A>) -> i32
    requires { length batch.now.recs ≤ MAX_FORGOTTEN }
    ensures { result ≡ pos (length batch.now.recs) }
{
    batch.recs.len() as i32
}

/// Appends the batch that forgets keys, and says how many.
fn append_counted<S: BatchStore>(
    state: &mut BrokerState<S>,
    batch: &Batch<S::Alloc>,
) -> Result<i32, Refused>
    requires leads { state.old.config.role ≡ Leader }
    requires writable { Writable batch.now }
    requires few { length batch.now.recs ≤ MAX_FORGOTTEN }
    ensures { AppendsCounted state.old batch.now result state.new }
{
    match append_to_groups(state, batch) {
        Ok(()) => Ok(record_count(batch)),
        Err(fault) => Err(fault),
    }
}

/// Forgets the keys of a group, and says how many.
fn forget_keys<S: BatchStore>(state: &mut BrokerState<S>, group: &[u8]) -> Result<i32, Refused>
    requires { state.old.config.role ≡ Leader }
    ensures { ForgetsKeys state.old group.now result state.new }
{
    match batch_to_forget(state, group) {
        Ok(Some(batch)) => append_counted(state, &batch),
        Ok(None) => Ok(0),
        Err(fault) => Err(fault),
    }
}

/// Does what a ForgetGroup request asks for, or finds its first fault.
fn try_forget<S: BatchStore>(state: &mut BrokerState<S>, group: &[u8]) -> Result<i32, Refused>
    ensures { DoesTold (forget_group_work state.old group.now) forgotten_answer
        result state.old state.new }
{
    match forget_fault(state, group) {
        Some(fault) => Err(Refused::Check(fault)),
        None => forget_keys(state, group),
    }
}

/// What is answered to a ForgetGroup request, whose group is then forgotten, and whether memory sufficed.
fn forget_entry<S: BatchStore>(
    state: &mut BrokerState<S>,
    request: &ForgetGroupRequest<'_>,
) -> (ForgetGroupAnswer, Memory)
    ensures { AnswersTold result.1 (forget_group_work state.old (forget_group_view request.now))
        state.old result.0 state.new }
{
    match try_forget(state, request.group) {
        Ok(count) => (ForgetGroupAnswer { code: 0, count }, Memory::Sufficed),
        Err(refused) => {
            let code = refused.code().number();
            (ForgetGroupAnswer { code, count: 0 }, refused.memory())
        }
    }
}

/// Forgets what the group of a ForgetGroup request has committed, by one batch that is appended to the
/// partition in which groups keep their offsets, and appends the response to the output. Its room is
/// taken before anything changes. Where the group has committed nothing, nothing is appended.
///
/// Where there is no memory for the group's keys or their batch the partition is as it was, the answer is
/// the error code of a storage error, and it is told that memory lacked.
///
/// # Errors
///
/// `AllocError` where there is no memory for the response; then nothing was forgotten, and the output
/// is as before.
pub fn reply_to_forget_group<S: BatchStore, A: Allocator + Copy>(
    state: &mut BrokerState<S>,
    correlation: i32,
    request: &ForgetGroupRequest<'_>,
    out: &mut Vec<u8, A>,
) -> Result<Memory, AllocError>
    ensures responds { IfOk result (λ memory. WritesTold (forget_group_sent correlation)
        (forget_group_work state.old (forget_group_view request.now)) state.old
        out.old.items out.new.items memory state.new) }
    ensures unchanged_on_error { OnErr result
        ((state.new ≡ state.old) × (out.new.items ≡ out.old.items)) }
{
    out.reserve(RESPONSE_HEAD_BYTES + FORGET_GROUP_ANSWER_BYTES)?;
    let (answer, memory) = forget_entry(state, request);
    let bytes = forget_group_answer_bytes(answer);
    let Ok(()) = respond_once(correlation, &[], &[], &bytes, out) else {
        unreachable!()
    };
    Ok(memory)
}
