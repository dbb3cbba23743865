//! Import: a copy that comes as an image.

ghost use Rattle.std.specs.Prelude.{◌≡◌, IfOk, OnErr};
ghost use Rattle.request_frames.specs.Import.{import_view};
ghost use Rattle.answering.specs.Telling.{AnswersTold, WritesTold};
ghost use Rattle.answering.specs.Doing.{DoesTold};
ghost use Rattle.broker_state.specs.declared.config.Role.TheVariants.{Leader, Follower};
ghost use Rattle.copy_requests.specs.Import.{has_begun, imported_answer, import_work, import_sent};
ghost use Rattle.copy_requests.specs.Import.Images.{IsReadAs, IsPlaceToImport};
ghost use Rattle.copy_requests.specs.Outcomes.{Imports};

use crate::codes::image_refused;
use answering::{ErrorCode, Memory, Refused, respond_once};
use broker_state::{BrokerState, Change, Place, Role};
use copy_deltas::{MergeError, merge_into};
use copy_images::read_image;
use partition_log::{Gapped, LeaderLog, PartitionLog};
use request_frames::ImportRequest;
use responses::RESPONSE_HEAD_BYTES;
use responses::import::{IMPORT_ANSWER_BYTES, ImportAnswer, import_answer_bytes};
use segment::BatchStore;
use std::alloc::{AllocError, Allocator};

/// A copy that comes.
#[derive(Drop)]
struct Importing<S: BatchStore> {
    copy: PartitionLog<S>,
}

/// Makes a copy the log that is led.
fn lead<S: BatchStore>(log: &mut LeaderLog<S>, copy: PartitionLog<S>) -> Result<(), Refused>
    ensures { Imports Leader copy result log.old log.new }
{
    // Called for its clause alone: the copy is a content.
    let _ = copy.end();
    match LeaderLog::from_copy(copy) {
        Ok(led) => {
            *log = led;
            Ok(())
        }
        Err(Gapped { .. }) => Err(Refused::Check(ErrorCode::InvalidRequest)),
    }
}

/// Merges a copy into the one that follows.
fn merge_copy<S: BatchStore>(
    here: &mut PartitionLog<S>,
    copy: &PartitionLog<S>,
) -> Result<(), Refused>
    ensures { Imports Follower copy.now result here.old here.new }
{
    // Called for their clauses alone: both copies are contents.
    let _ = (here.end(), copy.end());
    match merge_into(here, copy) {
        Ok(()) => Ok(()),
        Err(MergeError::Disagree { .. }) => Err(Refused::Check(ErrorCode::InvalidRequest)),
        Err(MergeError::OutOfMemory) => Err(Refused::OutOfMemory),
    }
}

impl<S: BatchStore> Change<S, Result<(), Refused>> for Importing<S> {
    ghost use Rattle.copy_requests.specs.Outcomes.{Imports};

    ghost changes = { λ importing role result here after.
        Imports role importing.copy result here after };

    fn make_in_log(self, log: &mut LeaderLog<S>) -> Result<(), Refused> {
        lead(log, self.copy)
    }

    fn make_in_copy(self, copy: &mut PartitionLog<S>) -> Result<(), Refused> {
        merge_copy(copy, &self.copy)
    }
}

/// Whether offsets of a log were given out already.
fn has_begun<S: BatchStore>(copy: &PartitionLog<S>) -> bool
    ensures { result ≡ has_begun copy.now }
{
    !copy.cover().ranges().is_empty() || copy.start() != 0
}

/// The copy that bytes are the image of.
fn read_copy<S: BatchStore>(alloc: S::Alloc, image: &[u8]) -> Result<PartitionLog<S>, Refused>
    ensures { IsReadAs image.now result }
{
    match read_image(alloc, image) {
        Ok(copy) => Ok(copy),
        Err(fault) => Err(image_refused(fault)),
    }
}

/// The place of a partition that takes a copy.
fn place_to_import<S: BatchStore>(
    state: &BrokerState<S>,
    topic: &[u8],
    partition: i32,
) -> Result<Place, ErrorCode>
    ensures { IsPlaceToImport state.now topic.now partition result }
{
    let Some(place) = state.place_of(topic, partition) else {
        return Err(ErrorCode::UnknownTopicOrPartition);
    };
    match state.role() {
        Role::Leader if has_begun(state.copy_at(place)) => Err(ErrorCode::InvalidRequest),
        _ => Ok(place),
    }
}

/// Does what an Import request asks for, or finds its first fault.
fn try_import<S: BatchStore>(
    state: &mut BrokerState<S>,
    topic: &[u8],
    partition: i32,
    image: &[u8],
) -> Result<(), Refused>
    ensures { DoesTold (import_work state.old
        (record { topic = topic.now; partition = partition; image = image.now }))
        imported_answer result state.old state.new }
{
    let place = match place_to_import(state, topic, partition) {
        Ok(place) => place,
        Err(fault) => return Err(Refused::Check(fault)),
    };
    let alloc = state.copy_at(place).allocator();
    match read_copy(alloc, image) {
        Ok(copy) => state.change_at(place, Importing { copy }),
        Err(fault) => Err(fault),
    }
}

/// What is answered to an Import request, whose copy is then taken or refused; and whether memory
/// sufficed.
fn import_entry<S: BatchStore>(
    state: &mut BrokerState<S>,
    request: &ImportRequest<'_>,
) -> (ImportAnswer, Memory)
    ensures { AnswersTold result.1 (import_work state.old (import_view request.now))
        state.old result.0 state.new }
{
    match try_import(state, request.topic, request.partition, request.image) {
        Ok(()) => (ImportAnswer { code: 0 }, Memory::Sufficed),
        Err(refused) => {
            let code = refused.code().number();
            (ImportAnswer { code }, refused.memory())
        }
    }
}

/// Takes the copy of an Import request into a partition, and appends the response to the output. Its
/// room is taken before anything changes.
///
/// Where there is no memory for the copy the partition is as it was, the answer is the error code of a
/// storage error, and it is told that memory lacked.
///
/// # Errors
///
/// `AllocError` where there is no memory for the response; then nothing was imported, and the output is
/// as before.
pub fn reply_to_import<S: BatchStore, A: Allocator + Copy>(
    state: &mut BrokerState<S>,
    correlation: i32,
    request: &ImportRequest<'_>,
    out: &mut Vec<u8, A>,
) -> Result<Memory, AllocError>
    ensures responds { IfOk result (λ memory. WritesTold (import_sent correlation)
        (import_work state.old (import_view request.now)) state.old
        out.old.items out.new.items memory state.new) }
    ensures unchanged_on_error { OnErr result
        ((state.new ≡ state.old) × (out.new.items ≡ out.old.items)) }
{
    out.reserve(RESPONSE_HEAD_BYTES + IMPORT_ANSWER_BYTES)?;
    let (answer, memory) = import_entry(state, request);
    let bytes = import_answer_bytes(answer);
    let Ok(()) = respond_once(correlation, &[], &[], &bytes, out) else {
        unreachable!()
    };
    Ok(memory)
}
