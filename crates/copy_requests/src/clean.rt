//! Clean, in both versions: a partition, or a part of it, that is cleaned.

ghost use Rattle.std.specs.Prelude.{◌≡◌, IfOk, OnErr};
ghost use Rattle.request_frames.specs.Clean.{clean_view};
ghost use Rattle.request_frames.specs.CleanPart.{clean_part_view};
ghost use Rattle.answering.specs.Telling.{AnswersTold, WritesTold};
ghost use Rattle.answering.specs.Doing.{DoesTold};
ghost use Rattle.copy_requests.specs.Clean.{clean_result, cleaning_work, clean_work, clean_part_work, clean_sent};
ghost use Rattle.copy_requests.specs.Outcomes.{Cleans, CountsFit};

use answering::{ErrorCode, Memory, Refused, respond_once};
use broker_state::{BrokerState, Change};
use content::CleaningPart;
use partition_log::{CleanReport, LeaderLog, PartitionLog};
use request_frames::{CleanPartRequest, CleanRequest};
use responses::RESPONSE_HEAD_BYTES;
use responses::clean::{CLEAN_ANSWER_BYTES, CleanAnswer, clean_answer_bytes};
use segment::BatchStore;
use std::alloc::{AllocError, Allocator};

/// A cleaning that a Clean request of either version asks for. The definitions of what it leaves are over it.
#[derive(Clone, Copy)]
pub enum Cleaning {
    /// Of all batches whose last offset is below the first bound; of their tombstones only those below
    /// the second bound are removed.
    Whole(i64, i64),
    /// Of a part.
    Part(CleaningPart),
}

/// Cleans a log that is led.
fn clean_log<S: BatchStore>(
    log: &mut LeaderLog<S>,
    cleaning: Cleaning,
) -> Result<CleanReport, AllocError>
    ensures { Cleans cleaning result log.old log.new }
{
    // Called for its clause alone: the log is a content.
    let _ = log.copy().end();
    match cleaning {
        Cleaning::Whole(upto, tomb_before) => log.clean(upto, tomb_before),
        Cleaning::Part(part) => log.clean_part(part),
    }
}

/// Cleans a copy that follows.
fn clean_copy<S: BatchStore>(
    copy: &mut PartitionLog<S>,
    cleaning: Cleaning,
) -> Result<CleanReport, AllocError>
    ensures { Cleans cleaning result copy.old copy.new }
{
    // Called for its clause alone: the copy is a content.
    let _ = copy.end();
    match cleaning {
        Cleaning::Whole(upto, tomb_before) => copy.clean(upto, tomb_before),
        Cleaning::Part(part) => copy.clean_part(part),
    }
}

impl<S: BatchStore> Change<S, Result<CleanReport, AllocError>> for Cleaning {
    ghost use Rattle.copy_requests.specs.Outcomes.{Cleans};

    ghost changes = { λ cleaning role result c after. Cleans cleaning result c after };

    fn make_in_log(self, log: &mut LeaderLog<S>) -> Result<CleanReport, AllocError> {
        clean_log(log, self)
    }

    fn make_in_copy(self, copy: &mut PartitionLog<S>) -> Result<CleanReport, AllocError> {
        clean_copy(copy, self)
    }
}

/// Cleans a partition, or finds the first fault.
fn try_clean<S: BatchStore>(
    state: &mut BrokerState<S>,
    topic: &[u8],
    partition: i32,
    cleaning: Cleaning,
) -> Result<CleanReport, Refused>
    ensures does { DoesTold (cleaning_work state.old topic.now partition cleaning)
        clean_result result state.old state.new }
    ensures fits { IfOk result CountsFit }
{
    let Some(place) = state.place_of(topic, partition) else {
        return Err(Refused::Check(ErrorCode::UnknownTopicOrPartition));
    };
    match state.change_at(place, cleaning) {
        Ok(report) => Ok(report),
        Err(_) => Err(Refused::OutOfMemory),
    }
}

/// What is answered where a cleaning is asked for of a partition, which is then cleaned, and whether
/// memory sufficed.
fn clean_entry<S: BatchStore>(
    state: &mut BrokerState<S>,
    topic: &[u8],
    partition: i32,
    cleaning: Cleaning,
) -> (CleanAnswer, Memory)
    ensures { AnswersTold result.1 (cleaning_work state.old topic.now partition cleaning)
        state.old result.0 state.new }
{
    match try_clean(state, topic, partition, cleaning) {
        Ok(report) => {
            let answer = CleanAnswer {
                code: 0,
                records: report.records as i64,
                tombstones: report.tombstones as i64,
                batches: report.batches as i64,
            };
            (answer, Memory::Sufficed)
        }
        Err(refused) => {
            let answer = CleanAnswer {
                code: refused.code().number(),
                records: 0,
                tombstones: 0,
                batches: 0,
            };
            (answer, refused.memory())
        }
    }
}

/// Cleans a partition, and appends the response to the output. Its room is taken before anything changes.
fn reply_to_cleaning<S: BatchStore, A: Allocator + Copy>(
    state: &mut BrokerState<S>,
    correlation: i32,
    topic: &[u8],
    partition: i32,
    cleaning: Cleaning,
    out: &mut Vec<u8, A>,
) -> Result<Memory, AllocError>
    ensures responds { IfOk result (λ memory. WritesTold (clean_sent correlation)
        (cleaning_work state.old topic.now partition cleaning) state.old
        out.old.items out.new.items memory state.new) }
    ensures unchanged_on_error { OnErr result
        ((state.new ≡ state.old) × (out.new.items ≡ out.old.items)) }
{
    out.reserve(RESPONSE_HEAD_BYTES + CLEAN_ANSWER_BYTES)?;
    let (answer, memory) = clean_entry(state, topic, partition, cleaning);
    let bytes = clean_answer_bytes(answer);
    let Ok(()) = respond_once(correlation, &[], &[], &bytes, out) else {
        unreachable!()
    };
    Ok(memory)
}

/// Cleans the partition of a Clean request, and appends the response to the output. Its room is taken
/// before anything changes.
///
/// Where the partition has no memory for its cleaning it is as it was, the answer is the error code of a
/// storage error, and it is told that memory lacked.
///
/// # Errors
///
/// `AllocError` where there is no memory for the response; then nothing was cleaned, and the output is
/// as before.
pub fn reply_to_clean<S: BatchStore, A: Allocator + Copy>(
    state: &mut BrokerState<S>,
    correlation: i32,
    request: &CleanRequest<'_>,
    out: &mut Vec<u8, A>,
) -> Result<Memory, AllocError>
    ensures responds { IfOk result (λ memory. WritesTold (clean_sent correlation)
        (clean_work state.old (clean_view request.now)) state.old
        out.old.items out.new.items memory state.new) }
    ensures unchanged_on_error { OnErr result
        ((state.new ≡ state.old) × (out.new.items ≡ out.old.items)) }
{
    let cleaning = Cleaning::Whole(request.upto, request.tomb_before);
    reply_to_cleaning(
        state,
        correlation,
        request.topic,
        request.partition,
        cleaning,
        out,
    )
}

/// Cleans a part of the partition of a Clean request of version 1, and appends the response to the output,
/// as [`reply_to_clean`] does for all of it.
///
/// # Errors
///
/// As those of [`reply_to_clean`].
pub fn reply_to_clean_part<S: BatchStore, A: Allocator + Copy>(
    state: &mut BrokerState<S>,
    correlation: i32,
    request: &CleanPartRequest<'_>,
    out: &mut Vec<u8, A>,
) -> Result<Memory, AllocError>
    ensures responds { IfOk result (λ memory. WritesTold (clean_sent correlation)
        (clean_part_work state.old (clean_part_view request.now)) state.old
        out.old.items out.new.items memory state.new) }
    ensures unchanged_on_error { OnErr result
        ((state.new ≡ state.old) × (out.new.items ≡ out.old.items)) }
{
    let cleaning = Cleaning::Part(CleaningPart {
        from: request.from,
        to: request.to,
        upto: request.upto,
        tomb_before: request.tomb_before,
    });
    reply_to_cleaning(
        state,
        correlation,
        request.topic,
        request.partition,
        cleaning,
        out,
    )
}
