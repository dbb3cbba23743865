//! Export, version 1: the delta of a partition.

ghost use Rattle.std.specs.Prelude.{◌≡◌, ◌&&◌, int_le, int_lt, pos, true, IfOk, OnOk, OnErr};
ghost use Rattle.request_frames.specs.ExportDelta.{export_delta_view};
ghost use Rattle.copy_images.specs.Reading.{are_runs};
ghost use Rattle.answering.specs.Codes.{no_error};
ghost use Rattle.answering.specs.Doing.{DoesWork};
ghost use Rattle.answering.specs.Once.{WritesOnce};
ghost use Rattle.copy_requests.specs.Export.{export_sent};
ghost use Rattle.cover_ranges.specs.declared.TheConstants.{OFFSETS_END};
ghost use Rattle.copy_requests.specs.ExportDelta.{export_delta_work};
ghost use Rattle.copy_requests.specs.ExportDelta.Sending.{IsDeltaFor};

use crate::export::{MAX_EXPORT_BYTES, put_answer};
use answering::ErrorCode;
use broker_state::BrokerState;
use copy_deltas::{has_delta_within, write_delta};
use cover_ranges::{Cover, OFFSETS_END};
use partition_log::PartitionLog;
use request_frames::{AskedRange, ExportDeltaRequest};
use segment::BatchStore;
use std::alloc::{AllocError, Allocator};

/// Whether a range holds offsets alone, and begins at `least` or later.
fn is_run_from(range: &AskedRange, least: i64) -> bool
    ensures { result ≡ (int_le least range.now.first
        && int_le range.now.first range.now.last && int_lt range.now.last OFFSETS_END) }
{
    least <= range.first && range.first <= range.last && range.last < OFFSETS_END
}

/// Whether the asked ranges are the maximal ranges of a set of offsets.
fn are_runs(request: &ExportDeltaRequest<'_>) -> bool
    ensures { result ≡ are_runs (pos 0) (export_delta_view request.now).asked }
{
    // The least offset that the next range may begin at.
    let mut least = 0;
    for range in request.asked.duplicate() {
        if !is_run_from(&range, least) {
            return false;
        }
        least = range.last + 2;
    }
    true
}

/// The set of the asked offsets.
fn cover_of<A: Allocator + Copy>(
    alloc: A,
    request: &ExportDeltaRequest<'_>,
) -> Result<Cover<A>, AllocError>
    requires { are_runs (pos 0) (export_delta_view request.now).asked ≡ true }
    ensures { IfOk result (λ cover. cover.runs ≡ (export_delta_view request.now).asked) }
{
    let mut cover = Cover::new(alloc);
    for range in request.asked.duplicate() {
        cover.insert(range.first, range.last)?;
    }
    Ok(cover)
}

/// The delta of a copy for what was asked.
fn delta_for<S: BatchStore, A: Allocator + Copy>(
    alloc: A,
    copy: &PartitionLog<S>,
    asked: &Cover<A>,
) -> Result<Vec<u8, A>, ErrorCode>
    ensures { IsDeltaFor copy.now asked.now.runs result }
{
    if !has_delta_within(copy, asked, MAX_EXPORT_BYTES) {
        return Err(ErrorCode::MessageTooLarge);
    }
    match write_delta(alloc, copy, asked) {
        Ok(delta) => Ok(delta),
        Err(_) => Err(ErrorCode::StorageError),
    }
}

/// The delta of a partition for what was asked.
fn delta_of_partition<S: BatchStore, A: Allocator + Copy>(
    state: &BrokerState<S>,
    request: &ExportDeltaRequest<'_>,
    alloc: A,
) -> Result<Vec<u8, A>, ErrorCode>
    ensures { DoesWork (export_delta_work state.now (export_delta_view request.now))
        (λ delta. record { code = no_error; sent = delta.items }) result state.now state.now }
{
    let Some(copy) = state.log(request.topic, request.partition) else {
        return Err(ErrorCode::UnknownTopicOrPartition);
    };
    if !are_runs(request) {
        return Err(ErrorCode::InvalidRequest);
    }
    match cover_of(alloc, request) {
        Ok(asked) => delta_for(alloc, copy, &asked),
        Err(_) => Err(ErrorCode::StorageError),
    }
}

/// Appends the response to an Export request of version 1. It changes nothing else.
///
/// Where there is no memory for the set of the asked offsets or for the delta, the answer is the error
/// code of a storage error.
///
/// # Errors
///
/// `AllocError` where there is no memory for the response; the output is then as before.
pub fn reply_to_export_delta<S: BatchStore, A: Allocator + Copy>(
    state: &BrokerState<S>,
    correlation: i32,
    request: &ExportDeltaRequest<'_>,
    out: &mut Vec<u8, A>,
) -> Result<(), AllocError>
    ensures responds { OnOk result (WritesOnce (export_sent correlation)
        (export_delta_work state.now (export_delta_view request.now)) state.now
        out.old.items out.new.items state.now) }
    ensures unchanged_on_error { OnErr result (out.new.items ≡ out.old.items) }
{
    let alloc = *out.allocator();
    match delta_of_partition(state, request, alloc) {
        Ok(delta) => put_answer(correlation, 0, &delta, out),
        Err(fault) => put_answer(correlation, fault.number(), &[], out),
    }
}
