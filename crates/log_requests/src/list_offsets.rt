//! ListOffsets: the offsets of partitions, by time.

ghost use Rattle.std.specs.Prelude.{◌≡◌, OnOk, OnErr};
ghost use Rattle.request_frames.specs.ListOffsets.{list_offsets_view};
ghost use Rattle.answering.specs.Responding.{RespondsBy};
ghost use Rattle.log_requests.specs.ListOffsets.{list_offsets_plan};

mod entry;
mod indexing;

use crate::list_offsets::entry::list_offsets_entry;
pub use crate::list_offsets::indexing::index_asked_times;
use crate::reading::Reading;
use answering::{Answers, Memory, respond};
use broker_state::BrokerState;
use request_frames::{ListOffsetsPartition, ListOffsetsRequest};
use responses::append_fixed;
use responses::list_offsets::list_offsets_answer_bytes;
use segment::BatchStore;
use std::alloc::{AllocError, Allocator};

impl<'n, S: BatchStore> Answers<ListOffsetsPartition, ()> for Reading<'n, S> {
    ghost use Rattle.std.specs.Prelude.{None};
    ghost use Rattle.responses.specs.declared.list_offsets.partition.ListedPartition.{ListedPartition};
    ghost use Rattle.responses.specs.ListOffsets.{list_offsets_answer_bytes};
    ghost use Rattle.answering.specs.Work.{IsAnswer};
    ghost use Rattle.log_requests.specs.ListOffsets.{list_offsets_work};

    ghost Answered = { ListedPartition };

    ghost bytes = { list_offsets_answer_bytes };

    ghost answers = { λ asked before name e r after. IsAnswer (list_offsets_work asked.state.now name
        (record { partition = e.partition; time = e.time })) asked.state.now r asked.state.now };

    ghost size = { None };

    fn put<A: Allocator + Copy>(
        &self,
        _shared: &mut (),
        _memory: &mut Option<Memory>,
        topic: &[u8],
        entry: ListOffsetsPartition,
        out: &mut Vec<u8, A>,
    ) -> Result<(), AllocError> {
        let answer = list_offsets_entry(self.state, topic, entry);
        append_fixed(out, &list_offsets_answer_bytes(answer))
    }
}

/// Appends the response to a ListOffsets request. It changes nothing else.
///
/// # Errors
///
/// `AllocError` where there is no memory for the response; the output is then as before.
pub fn reply_to_list_offsets<S: BatchStore, A: Allocator + Copy>(
    state: &BrokerState<S>,
    correlation: i32,
    request: &ListOffsetsRequest<'_>,
    out: &mut Vec<u8, A>,
) -> Result<(), AllocError>
    ensures responds { OnOk result (RespondsBy
        (list_offsets_plan state.now correlation (list_offsets_view request.now))
        out.old.items out.new.items state.now) }
    ensures unchanged_on_error { OnErr result (out.new.items ≡ out.old.items) }
{
    let asked = Reading { state };
    respond(
        &asked,
        &mut (),
        &mut None,
        correlation,
        &[],
        &request.topics,
        &[],
        out,
    )
}
