//! A caller of the parts: a whole response, in room that is taken first.

ghost use Rattle.std.specs.Prelude.{◌≡◌, ◌≤◌, ◌++◌, [], ◌∷◌, length, OnOk, OnErr};
ghost use Rattle.responses.specs.Responses.{response};
ghost use Rattle.responses.specs.Produce.{produce_response, produce_value};

use request_frames::response::produce::{
    PRODUCE_TAIL_BYTES, PRODUCED_PARTITION_BYTES, ProducedPartition, produce_tail, produced_bytes,
};
use request_frames::response::{
    COUNT_BYTES, RESPONSE_HEAD_BYTES, TOPIC_HEAD_BYTES, append_fixed, begin_response, begin_topic,
    count_bytes, finish_response,
};
use request_frames::response_laws::produce_parts;
use std::alloc::{AllocError, Allocator};

/// The number of bytes of a Produce response of one partition, but for the topic's name.
const ONE_BYTES: usize = RESPONSE_HEAD_BYTES
    + COUNT_BYTES
    + TOPIC_HEAD_BYTES
    + PRODUCED_PARTITION_BYTES
    + PRODUCE_TAIL_BYTES;

/// Appends a Produce response of one partition.
///
/// # Errors
///
/// `AllocError` where the one allocation fails; then the output is as before.
pub fn put_one<A: Allocator + Copy>(
    out: &mut Vec<u8, A>,
    correlation: i32,
    name: &[u8],
    partition: ProducedPartition,
) -> Result<(), AllocError>
    ensures appends_response { OnOk result (out.new.items ≡ out.old.items ++ response correlation
        produce_response (produce_value (record { name = name.now; entries = partition ∷ [] } ∷ []))) }
    ensures unchanged_on_error { OnErr result (out.new.items ≡ out.old.items) }
{
    // A law for the proof: the parts are the whole.
    produce_parts();
    let start = out.len();
    out.reserve(ONE_BYTES + name.len())?;
    let Ok(()) = begin_response(out, correlation) else {
        unreachable!()
    };
    let Ok(()) = append_fixed(out, &count_bytes(1)) else {
        unreachable!()
    };
    let Ok(()) = begin_topic(out, name, 1) else {
        unreachable!()
    };
    let Ok(()) = append_fixed(out, &produced_bytes(partition)) else {
        unreachable!()
    };
    let Ok(()) = append_fixed(out, &produce_tail()) else {
        unreachable!()
    };
    finish_response(out, start);
    Ok(())
}
