//! Export: the image of a partition.

ghost use Rattle.std.specs.Prelude.{◌≡◌, ◌++◌, OnOk, OnErr};
ghost use Rattle.request_frames.specs.Export.{export_view};
ghost use Rattle.answering.specs.Codes.{no_error};
ghost use Rattle.answering.specs.Doing.{DoesWork};
ghost use Rattle.answering.specs.Once.{WritesOnce};
ghost use Rattle.copy_requests.specs.Export.{export_work, export_sent};

use answering::{ErrorCode, respond_once};
use broker_state::BrokerState;
use copy_images::{has_image_within, write_image};
use request_frames::ExportRequest;
use responses::export::{export_head, export_parts};
use segment::BatchStore;
use std::alloc::{AllocError, Allocator};

/// The most bytes of an image or of a delta that is sent.
pub const MAX_EXPORT_BYTES: u32 = 8_300_000;

/// The image of a partition.
fn image_of_partition<S: BatchStore, A: Allocator + Copy>(
    state: &BrokerState<S>,
    topic: &[u8],
    partition: i32,
    alloc: A,
) -> Result<Vec<u8, A>, ErrorCode>
    ensures { DoesWork (export_work state.now
        (record { topic = topic.now; partition = partition }))
        (λ image. record { code = no_error; sent = image.items }) result state.now state.now }
{
    let Some(copy) = state.log(topic, partition) else {
        return Err(ErrorCode::UnknownTopicOrPartition);
    };
    if !has_image_within(copy, MAX_EXPORT_BYTES) {
        return Err(ErrorCode::MessageTooLarge);
    }
    match write_image(alloc, copy) {
        Ok(image) => Ok(image),
        Err(_) => Err(ErrorCode::StorageError),
    }
}

/// Appends the response of a code and the bytes of an image or of a delta.
pub(crate) fn put_answer<A: Allocator + Copy>(
    correlation: i32,
    code: i16,
    sent: &[u8],
    out: &mut Vec<u8, A>,
) -> Result<(), AllocError>
    ensures appends { OnOk result (out.new.items ≡ out.old.items ++ export_sent correlation
        (record { code = code; sent = sent.now })) }
    ensures unchanged_on_error { OnErr result (out.new.items ≡ out.old.items) }
{
    // A law for the proof: the parts are the whole.
    export_parts();
    let head = export_head(code, sent.len());
    respond_once(correlation, &[], &head, sent, out)
}

/// Appends the response to an Export request. It changes nothing else.
///
/// Where there is no memory for the image, the answer is the error code of a storage error.
///
/// # Errors
///
/// `AllocError` where there is no memory for the response; the output is then as before.
pub fn reply_to_export<S: BatchStore, A: Allocator + Copy>(
    state: &BrokerState<S>,
    correlation: i32,
    request: &ExportRequest<'_>,
    out: &mut Vec<u8, A>,
) -> Result<(), AllocError>
    ensures responds { OnOk result (WritesOnce (export_sent correlation)
        (export_work state.now (export_view request.now)) state.now
        out.old.items out.new.items state.now) }
    ensures unchanged_on_error { OnErr result (out.new.items ≡ out.old.items) }
{
    let alloc = *out.allocator();
    match image_of_partition(state, request.topic, request.partition, alloc) {
        Ok(image) => put_answer(correlation, 0, &image, out),
        Err(fault) => put_answer(correlation, fault.number(), &[], out),
    }
}
