//! Produce: batches that are stored in partitions.

ghost use Rattle.std.specs.Prelude.{◌≡◌, IfOk, OnErr};
ghost use Rattle.request_frames.specs.Produce.{produce_view};
ghost use Rattle.answering.specs.Telling.{RespondsTold};
ghost use Rattle.log_requests.specs.Produce.{produce_plan};

mod entry;

use crate::produce::entry::produce_entry;
use answering::{Answers, Memory, respond, response_room};
use broker_state::BrokerState;
use request_frames::{ProducePartition, ProduceRequest};
use responses::append_fixed;
use responses::produce::{
    PRODUCE_TAIL_BYTES, PRODUCED_PARTITION_BYTES, produce_tail, produced_bytes,
};
use segment::BatchStore;
use std::alloc::{AllocError, Allocator};

/// A Produce request, whose entries store batches in what a broker holds.
#[derive(Drop)]
struct Storing<'q, 'r> {
    request: &'q ProduceRequest<'r>,
}

impl<'a, 'q, 'r, S: BatchStore> Answers<ProducePartition<'a>, BrokerState<S>> for Storing<'q, 'r> {
    ghost use Rattle.std.specs.Prelude.{Some};
    ghost use Rattle.std.specs.Option.{option_map};
    ghost use Rattle.responses.specs.declared.produce.partition.TheConstants.{PRODUCED_PARTITION_BYTES};
    ghost use Rattle.responses.specs.declared.produce.partition.ProducedPartition.{ProducedPartition};
    ghost use Rattle.frame_fields.specs.Reading.{nothing};
    ghost use Rattle.request_frames.specs.Produce.{produce_partition_value, produce_view};
    ghost use Rattle.responses.specs.Produce.{produced_bytes};
    ghost use Rattle.answering.specs.Telling.{TellsNext};
    ghost use Rattle.log_requests.specs.Produce.{produce_work};

    ghost Answered = { ProducedPartition };

    ghost bytes = { produced_bytes };

    ghost answers = { λ asked before name e r after. TellsNext (produce_work before.0 (produce_view asked.request.now) name
        (produce_partition_value (e.index, (option_map (λ bytes. bytes.now) e.records, nothing)))) before r after };

    ghost size = { Some PRODUCED_PARTITION_BYTES };

    #[tactic(auto, using(answering::proofs::Told::told_next))]
    fn put<A: Allocator + Copy>(
        &self,
        state: &mut BrokerState<S>,
        memory: &mut Option<Memory>,
        topic: &[u8],
        entry: ProducePartition<'a>,
        out: &mut Vec<u8, A>,
    ) -> Result<(), AllocError> {
        let (answer, told) = produce_entry(state, self.request, topic, &entry);
        Memory::note(memory, told);
        append_fixed(out, &produced_bytes(answer))
    }
}

/// Stores the batches of a Produce request in their partitions, and appends the response to the output,
/// unless the request asks for none. Its room is taken before anything changes.
///
/// A partition's log that has no memory for a batch is as it was, the batch's own answer is the error
/// code of a storage error, and the request's other batches are stored. It is told whether memory sufficed
/// for all, also where the request asks for no response.
///
/// # Errors
///
/// `AllocError` where there is no memory for the response; then no batch was stored, and the output is
/// as before.
pub fn reply_to_produce<S: BatchStore, A: Allocator + Copy>(
    state: &mut BrokerState<S>,
    correlation: i32,
    request: &ProduceRequest<'_>,
    out: &mut Vec<u8, A>,
) -> Result<Memory, AllocError>
    ensures responds { IfOk result (λ memory. RespondsTold
        (produce_plan state.old correlation (produce_view request.now))
        out.old.items out.new.items memory state.new) }
    ensures unchanged_on_error { OnErr result
        ((state.new ≡ state.old) × (out.new.items ≡ out.old.items)) }
{
    let topics = &request.topics;
    let Some(room) = response_room(PRODUCED_PARTITION_BYTES, PRODUCE_TAIL_BYTES, topics) else {
        return Err(AllocError);
    };
    let start = out.len();
    out.reserve(room)?;
    let asked = Storing { request };
    let tail = produce_tail();
    let mut noted = None;
    let Ok(()) = respond(
        &asked,
        state,
        &mut noted,
        correlation,
        &[],
        topics,
        &tail,
        out,
    ) else {
        unreachable!()
    };
    let memory = Memory::of_all(noted);
    if request.acks == 0 {
        out.truncate(start);
    }
    Ok(memory)
}
