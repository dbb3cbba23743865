//! Fetch: batches of partitions, from an offset on.

ghost use Rattle.std.specs.Prelude.{◌≡◌, OnOk, OnErr};
ghost use Rattle.request_frames.specs.Fetch.{fetch_view};
ghost use Rattle.answering.specs.Responding.{RespondsBy};
ghost use Rattle.log_requests.specs.Fetch.{fetch_plan};

mod entry;
pub(crate) mod room;

use crate::fetch::entry::put_entry;
use crate::fetch::room::FetchRoom;
use crate::reading::Reading;
use answering::{Answers, Memory, respond};
use broker_state::BrokerState;
use request_frames::{FetchPartition, FetchRequest};
use segment::BatchStore;
use std::alloc::{AllocError, Allocator};

impl<'n, S: BatchStore> Answers<FetchPartition, FetchRoom> for Reading<'n, S> {
    ghost use Rattle.std.specs.Prelude.{◌≡◌, None};
    ghost use Rattle.responses.specs.Fetch.{Fetched, fetched_bytes};
    ghost use Rattle.log_requests.specs.Fetch.Entries.{fetch_entry_value, fetch_answer};

    ghost Answered = { Fetched };

    ghost bytes = { fetched_bytes };

    ghost answers = { λ asked before name e r after. (r, after.0) ≡ fetch_answer asked.state.now name before.0 (fetch_entry_value e) };

    ghost size = { None };

    fn put<A: Allocator + Copy>(
        &self,
        room: &mut FetchRoom,
        _memory: &mut Option<Memory>,
        topic: &[u8],
        entry: FetchPartition,
        out: &mut Vec<u8, A>,
    ) -> Result<(), AllocError> {
        put_entry(self.state, topic, entry, room, out)
    }
}

/// How many bytes the throttle time has, which stands before the topics and is 0.
const THROTTLE_BYTES: usize = 4;

/// Appends the response to a Fetch request. It changes nothing else.
///
/// # Errors
///
/// `AllocError` where there is no memory for the response; the output is then as before.
pub fn reply_to_fetch<S: BatchStore, A: Allocator + Copy>(
    state: &BrokerState<S>,
    correlation: i32,
    request: &FetchRequest<'_>,
    out: &mut Vec<u8, A>,
) -> Result<(), AllocError>
    ensures responds { OnOk result (RespondsBy (fetch_plan state.now correlation (fetch_view request.now))
        out.old.items out.new.items state.now) }
    ensures unchanged_on_error { OnErr result (out.new.items ≡ out.old.items) }
{
    let asked = Reading { state };
    let mut room = FetchRoom::new(request.max_bytes);
    respond(
        &asked,
        &mut room,
        &mut None,
        correlation,
        &[0; THROTTLE_BYTES],
        &request.topics,
        &[],
        out,
    )
}
