//! OffsetCommit: offsets that a group commits.

ghost use Rattle.std.specs.Prelude.{◌≡◌, IfOk, OnErr};
ghost use Rattle.request_frames.specs.OffsetCommit.{offset_commit_view};
ghost use Rattle.answering.specs.Telling.{RespondsTold};
ghost use Rattle.group_requests.specs.OffsetCommit.{offset_commit_plan};

mod entry;

use crate::offset_commit::entry::commit_entry;
use answering::{Answers, Memory, respond, response_room};
use broker_state::BrokerState;
use request_frames::{OffsetCommitPartition, OffsetCommitRequest};
use responses::append_fixed;
use responses::offset_commit::{OFFSET_COMMIT_PARTITION_BYTES, committed_partition_bytes};
use segment::BatchStore;
use std::alloc::{AllocError, Allocator};

/// The most bytes of metadata that are committed with an offset.
pub const MAX_METADATA_BYTES: usize = 4_096;

/// An OffsetCommit request, whose entries commit offsets in what a broker holds.
#[derive(Drop)]
struct Committing<'q, 'r> {
    request: &'q OffsetCommitRequest<'r>,
}

impl<'a, 'q, 'r, S: BatchStore> Answers<OffsetCommitPartition<'a>, BrokerState<S>>
    for Committing<'q, 'r> {
    ghost use Rattle.std.specs.Prelude.{Some};
    ghost use Rattle.std.specs.Option.{option_map};
    ghost use Rattle.frame_fields.specs.Reading.{nothing};
    ghost use Rattle.request_frames.specs.OffsetCommit.{offset_commit_partition_value, offset_commit_view};
    ghost use Rattle.responses.specs.declared.offset_commit.partition.TheConstants.{OFFSET_COMMIT_PARTITION_BYTES};
    ghost use Rattle.responses.specs.declared.offset_commit.partition.CommittedPartition.{CommittedPartition};
    ghost use Rattle.responses.specs.OffsetCommit.{committed_partition_bytes};
    ghost use Rattle.answering.specs.Telling.{TellsNext};
    ghost use Rattle.group_requests.specs.OffsetCommit.{offset_commit_work};

    ghost Answered = { CommittedPartition };

    ghost bytes = { committed_partition_bytes };

    ghost answers = { λ asked before name e r after. TellsNext (offset_commit_work before.0
        (offset_commit_view asked.request.now) name (offset_commit_partition_value
        (e.partition, (e.offset, (option_map (λ bytes. bytes.now) e.metadata, nothing)))))
        before r after };

    ghost size = { Some OFFSET_COMMIT_PARTITION_BYTES };

    #[tactic(auto, using(answering::proofs::Told::told_next))]
    fn put<A: Allocator + Copy>(
        &self,
        state: &mut BrokerState<S>,
        memory: &mut Option<Memory>,
        topic: &[u8],
        entry: OffsetCommitPartition<'a>,
        out: &mut Vec<u8, A>,
    ) -> Result<(), AllocError> {
        let (answer, told) = commit_entry(state, self.request, topic, &entry);
        Memory::note(memory, told);
        append_fixed(out, &committed_partition_bytes(answer))
    }
}

/// Commits the offsets of an OffsetCommit request, each by a batch that is appended to the partition in
/// which groups keep them, and appends the response to the output. Its room is taken before anything
/// changes.
///
/// Where there is no memory for an offset's batch the partition is as it was, the offset's own answer is
/// the error code of a storage error, and the request's other offsets are committed. It is told whether
/// memory sufficed for all.
///
/// # Errors
///
/// `AllocError` where there is no memory for the response; then nothing was committed, and the output
/// is as before.
pub fn reply_to_offset_commit<S: BatchStore, A: Allocator + Copy>(
    state: &mut BrokerState<S>,
    correlation: i32,
    request: &OffsetCommitRequest<'_>,
    out: &mut Vec<u8, A>,
) -> Result<Memory, AllocError>
    ensures responds { IfOk result (λ memory. RespondsTold
        (offset_commit_plan state.old correlation (offset_commit_view request.now))
        out.old.items out.new.items memory state.new) }
    ensures unchanged_on_error { OnErr result
        ((state.new ≡ state.old) × (out.new.items ≡ out.old.items)) }
{
    let topics = &request.topics;
    let Some(room) = response_room(OFFSET_COMMIT_PARTITION_BYTES, 0, topics) else {
        return Err(AllocError);
    };
    out.reserve(room)?;
    let asked = Committing { request };
    let mut noted = None;
    let Ok(()) = respond(
        &asked,
        state,
        &mut noted,
        correlation,
        &[],
        topics,
        &[],
        out,
    ) else {
        unreachable!()
    };
    Ok(Memory::of_all(noted))
}
