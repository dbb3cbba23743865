//! An entry of an OffsetCommit request: an offset that a group commits in a partition.

ghost use Rattle.std.specs.Prelude.{◌≡◌, nat_lt, length, IfNone};
ghost use Rattle.std.specs.Option.{option_map};
ghost use Rattle.frame_fields.specs.Types.{or_empty};
ghost use Rattle.frame_fields.specs.Reading.{nothing};
ghost use Rattle.request_frames.specs.OffsetCommit.{offset_commit_view, offset_commit_partition_value};
ghost use Rattle.group_offsets.specs.CommittedValues.{text_of};
ghost use Rattle.answering.specs.Lists.{first_some};
ghost use Rattle.answering.specs.Codes.{no_error};
ghost use Rattle.answering.specs.Telling.{AnswersTold};
ghost use Rattle.answering.specs.Doing.{DoesTold};
ghost use Rattle.broker_state.specs.declared.config.Role.TheVariants.{Leader};
ghost use Rattle.group_requests.specs.Appending.{AppendsToGroups};
ghost use Rattle.group_requests.specs.OffsetCommit.{offset_commit_batch, offset_commit_result, offset_commit_work};
ghost use Rattle.group_requests.specs.OffsetCommit.Entries.{request_checks, entry_checks};

use crate::group_partition::{append_to_groups, group_copy};
use crate::offset_commit::MAX_METADATA_BYTES;
use answering::{ErrorCode, Memory, Refused};
use broker_state::BrokerState;
use group_offsets::commit_batch;
use request_frames::{OffsetCommitPartition, OffsetCommitRequest};
use responses::offset_commit::CommittedPartition;
use segment::BatchStore;

/// The generation that no member of a group is in.
const NO_GENERATION: i32 = -1;

/// The fault that a request has for all of its entries.
fn request_fault(request: &OffsetCommitRequest<'_>) -> Option<ErrorCode>
    ensures { result ≡ first_some (request_checks (offset_commit_view request.now)) }
{
    if request.group.is_empty() {
        return Some(ErrorCode::InvalidGroupId);
    }
    if request.generation != NO_GENERATION {
        return Some(ErrorCode::IllegalGeneration);
    }
    None
}

/// Whether metadata is over the limit.
fn is_too_large(metadata: Option<&[u8]>) -> bool
    ensures { result ≡ nat_lt MAX_METADATA_BYTES (length (or_empty (text_of metadata.entry))) }
{
    match metadata {
        Some(text) => text.len() > MAX_METADATA_BYTES,
        None => false,
    }
}

/// The fault of an entry, but for its request's.
fn entry_fault<S: BatchStore>(
    state: &BrokerState<S>,
    topic: &[u8],
    partition: i32,
    offset: i64,
    metadata: Option<&[u8]>,
) -> Option<ErrorCode>
    ensures { result ≡ first_some (entry_checks state.now topic.now
        (record { partition = partition; offset = offset; metadata = text_of metadata.entry })) }
{
    match state.led_copy(topic, partition) {
        Err(fault) => Some(fault),
        Ok(_) if is_too_large(metadata) => Some(ErrorCode::OffsetMetadataTooLarge),
        Ok(_) if offset < 0 => Some(ErrorCode::InvalidRequest),
        Ok(_) => None,
    }
}

/// The first fault of an entry that is found before its offset is committed.
fn commit_fault<S: BatchStore>(
    state: &BrokerState<S>,
    request: &OffsetCommitRequest<'_>,
    topic: &[u8],
    partition: i32,
    offset: i64,
    metadata: Option<&[u8]>,
) -> Option<ErrorCode>
    ensures faults { result ≡ first_some (offset_commit_work state.now (offset_commit_view request.now)
        topic.now (record {
          partition = partition;
          offset = offset;
          metadata = text_of metadata.entry;
        })).early }
    ensures leads { IfNone result (state.now.config.role ≡ Leader) }
{
    match request_fault(request) {
        Some(fault) => Some(fault),
        None => entry_fault(state, topic, partition, offset, metadata),
    }
}

/// Commits an offset whose entry passes the checks.
fn commit<S: BatchStore>(
    state: &mut BrokerState<S>,
    group: &[u8],
    topic: &[u8],
    partition: i32,
    offset: i64,
    metadata: Option<&[u8]>,
) -> Result<(), Refused>
    requires { state.old.config.role ≡ Leader }
    ensures { AppendsToGroups state.old (offset_commit_batch group.now topic.now
        (record { partition = partition; offset = offset; metadata = text_of metadata.entry }))
        result state.new }
{
    let alloc = group_copy(state).allocator();
    match commit_batch(alloc, group, topic, partition, offset, metadata) {
        Ok(batch) => append_to_groups(state, &batch),
        // Only lack of memory comes here: the names of a request that was read are STRINGs, which are
        // never too long.
        Err(_) => Err(Refused::OutOfMemory),
    }
}

/// Does what an entry asks for, or finds its first fault.
fn try_commit<S: BatchStore>(
    state: &mut BrokerState<S>,
    request: &OffsetCommitRequest<'_>,
    topic: &[u8],
    partition: i32,
    offset: i64,
    metadata: Option<&[u8]>,
) -> Result<(), Refused>
    ensures { DoesTold (offset_commit_work state.old (offset_commit_view request.now) topic.now
        (record { partition = partition; offset = offset; metadata = text_of metadata.entry }))
        (λ done. offset_commit_result partition no_error) result state.old state.new }
{
    match commit_fault(state, request, topic, partition, offset, metadata) {
        Some(fault) => Err(Refused::Check(fault)),
        None => commit(state, request.group, topic, partition, offset, metadata),
    }
}

/// The number of an entry's partition.
fn number_of(entry: &OffsetCommitPartition<'_>) -> i32
    ensures { result ≡ entry.now.partition }
{
    entry.partition
}

/// The offset of an entry.
fn offset_of(entry: &OffsetCommitPartition<'_>) -> i64
    ensures { result ≡ entry.now.offset }
{
    entry.offset
}

/// What is answered to an entry of an OffsetCommit request, whose offset is then committed or refused; and
/// whether memory sufficed.
pub(crate) fn commit_entry<S: BatchStore>(
    state: &mut BrokerState<S>,
    request: &OffsetCommitRequest<'_>,
    topic: &[u8],
    entry: &OffsetCommitPartition<'_>,
) -> (CommittedPartition, Memory)
    ensures { AnswersTold result.1 (offset_commit_work state.old (offset_commit_view request.now) topic.now
        (offset_commit_partition_value (
          entry.now.partition,
          (
            entry.now.offset,
            (option_map (λ bytes. bytes.now) entry.now.metadata, nothing),
          ),
        ))) state.old result.0 state.new }
{
    let (index, offset) = (number_of(entry), offset_of(entry));
    match try_commit(state, request, topic, index, offset, entry.metadata) {
        Ok(()) => (CommittedPartition { index, code: 0 }, Memory::Sufficed),
        Err(refused) => {
            let code = refused.code().number();
            (CommittedPartition { index, code }, refused.memory())
        }
    }
}
