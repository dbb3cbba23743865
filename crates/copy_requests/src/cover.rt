//! Cover: the offsets that a partition has seen.

ghost use Rattle.std.specs.Prelude.{◌≡◌, ◌++◌, OnOk, OnErr};
ghost use Rattle.std.specs.List.{flat_map};
ghost use Rattle.request_frames.specs.Cover.{cover_view};
ghost use Rattle.responses.specs.Cover.{cover_run_bytes};
ghost use Rattle.answering.specs.Codes.{no_error};
ghost use Rattle.answering.specs.Doing.{DoesWork};
ghost use Rattle.answering.specs.Once.{WritesOnce};
ghost use Rattle.answering.specs.Writing.{Begins};
ghost use Rattle.copy_requests.specs.Cover.{cover_work, cover_sent};

use answering::{Body, ErrorCode, respond_with};
use broker_state::BrokerState;
use request_frames::CoverRequest;
use responses::append_fixed;
use responses::cover::{cover_head, cover_parts, cover_run_bytes};
use segment::BatchStore;
use std::alloc::{AllocError, Allocator};

/// The most runs that are sent.
pub const MAX_COVER_RUNS: usize = 500_000;

/// The answer to a Cover request.
#[derive(Drop)]
struct Covered<'c> {
    code: i16,
    runs: &'c [(i64, i64)],
}

/// Appends runs.
fn put_runs<A: Allocator + Copy>(
    runs: &[(i64, i64)],
    out: &mut Vec<u8, A>,
) -> Result<(), AllocError>
    ensures appends { OnOk result
        (out.new.items ≡ out.old.items ++ flat_map cover_run_bytes runs.now) }
    ensures begins { OnErr result (Begins out.old.items out.new.items) }
{
    for run in runs {
        append_fixed(out, &cover_run_bytes(*run))?;
    }
    Ok(())
}

impl<'c> Body for Covered<'c> {
    ghost use Rattle.std.specs.Prelude.{◌++◌, length, None};
    ghost use Rattle.std.specs.List.{flat_map};
    ghost use Rattle.responses.specs.Cover.{cover_head_bytes, cover_run_bytes};

    ghost bytes = { λ covered. cover_head_bytes covered.code (length covered.runs.now)
        ++ flat_map cover_run_bytes covered.runs.now };

    ghost size = { λ covered. None };

    fn put<A: Allocator + Copy>(&self, out: &mut Vec<u8, A>) -> Result<(), AllocError> {
        let count = u32::try_from(self.runs.len()).map_err(|_| AllocError)?;
        append_fixed(out, &cover_head(self.code, count))?;
        put_runs(self.runs, out)
    }
}

/// The runs of a partition.
fn cover_of<'n, S: BatchStore>(
    state: &'n BrokerState<S>,
    topic: &[u8],
    partition: i32,
) -> Result<&'n [(i64, i64)], ErrorCode>
    ensures { DoesWork (cover_work state.now
        (record { topic = topic.now; partition = partition }))
        (λ runs. record { code = no_error; runs = runs.now }) result state.now state.now }
{
    let Some(copy) = state.log(topic, partition) else {
        return Err(ErrorCode::UnknownTopicOrPartition);
    };
    let runs = copy.cover().ranges();
    if runs.len() <= MAX_COVER_RUNS {
        Ok(runs)
    } else {
        Err(ErrorCode::MessageTooLarge)
    }
}

/// Appends the response of a code and runs.
fn put_answer<A: Allocator + Copy>(
    correlation: i32,
    code: i16,
    runs: &[(i64, i64)],
    out: &mut Vec<u8, A>,
) -> Result<(), AllocError>
    ensures appends { OnOk result (out.new.items ≡ out.old.items ++ cover_sent correlation
        (record { code = code; runs = runs.now })) }
    ensures unchanged_on_error { OnErr result (out.new.items ≡ out.old.items) }
{
    // A law for the proof: the parts are the whole.
    cover_parts();
    respond_with(correlation, &Covered { code, runs }, out)
}

/// Appends the response to a Cover request. It changes nothing else.
///
/// # Errors
///
/// `AllocError` where there is no memory for the response; the output is then as before.
pub fn reply_to_cover<S: BatchStore, A: Allocator + Copy>(
    state: &BrokerState<S>,
    correlation: i32,
    request: &CoverRequest<'_>,
    out: &mut Vec<u8, A>,
) -> Result<(), AllocError>
    ensures responds { OnOk result (WritesOnce (cover_sent correlation)
        (cover_work state.now (cover_view request.now)) state.now
        out.old.items out.new.items state.now) }
    ensures unchanged_on_error { OnErr result (out.new.items ≡ out.old.items) }
{
    match cover_of(state, request.topic, request.partition) {
        Ok(runs) => put_answer(correlation, 0, runs, out),
        Err(fault) => put_answer(correlation, fault.number(), &[], out),
    }
}
