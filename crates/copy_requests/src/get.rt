//! Get: the value of a key.

ghost use Rattle.std.specs.Prelude.{◌≡◌, ◌++◌, OnOk, OnErr};
ghost use Rattle.std.specs.Option.{option_map};
ghost use Rattle.request_frames.specs.Get.{get_view};
ghost use Rattle.answering.specs.Doing.{DoesWork};
ghost use Rattle.answering.specs.Once.{WritesOnce};
ghost use Rattle.answering.specs.Codes.{no_error};
ghost use Rattle.copy_requests.specs.Get.{get_work, get_sent};

use answering::{ErrorCode, respond_once};
use broker_state::BrokerState;
use request_frames::GetRequest;
use responses::get::{get_head, get_parts};
use segment::BatchStore;
use std::alloc::{AllocError, Allocator};

/// Completes the index by key of the partition that a Get request asks for. Nothing that is seen of the
/// broker changes.
pub fn index_asked_key<S: BatchStore>(state: &mut BrokerState<S>, request: &GetRequest<'_>)
    ensures unchanged { state.new ≡ state.old }
{
    match state.place_of(request.topic, request.partition) {
        Some(place) => state.index_keys(place),
        None => {}
    }
}

/// The value that a partition shows of a key.
fn value_of<'n, S: BatchStore>(
    state: &'n BrokerState<S>,
    topic: &[u8],
    partition: i32,
    key: &[u8],
) -> Result<Option<&'n [u8]>, ErrorCode>
    ensures { DoesWork (get_work state.now
        (record { topic = topic.now; partition = partition; key = key.now }))
        (λ value. record { code = no_error; value = option_map (λ bytes. bytes.now) value })
        result state.now state.now }
{
    match state.log(topic, partition) {
        Some(copy) => Ok(copy.get(key)),
        None => Err(ErrorCode::UnknownTopicOrPartition),
    }
}

/// Appends the response of a code and a value.
fn put_answer<A: Allocator + Copy>(
    correlation: i32,
    code: i16,
    value: Option<&[u8]>,
    out: &mut Vec<u8, A>,
) -> Result<(), AllocError>
    ensures appends { OnOk result (out.new.items ≡ out.old.items ++ get_sent correlation
        (record { code = code; value = option_map (λ bytes. bytes.now) value.entry })) }
    ensures unchanged_on_error { OnErr result (out.new.items ≡ out.old.items) }
{
    // A law for the proof: the parts are the whole.
    get_parts();
    let head = get_head(code, value);
    respond_once(correlation, &[], &head, value.unwrap_or(&[]), out)
}

/// Appends the response to a Get request. It changes nothing else.
///
/// # Errors
///
/// `AllocError` where there is no memory for the response; the output is then as before.
pub fn reply_to_get<S: BatchStore, A: Allocator + Copy>(
    state: &BrokerState<S>,
    correlation: i32,
    request: &GetRequest<'_>,
    out: &mut Vec<u8, A>,
) -> Result<(), AllocError>
    ensures responds { OnOk result (WritesOnce (get_sent correlation)
        (get_work state.now (get_view request.now)) state.now
        out.old.items out.new.items state.now) }
    ensures unchanged_on_error { OnErr result (out.new.items ≡ out.old.items) }
{
    match value_of(state, request.topic, request.partition, request.key) {
        Ok(value) => put_answer(correlation, 0, value, out),
        Err(fault) => put_answer(correlation, fault.number(), None, out),
    }
}
