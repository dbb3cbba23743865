//! The response to a request that is answered entry by entry.

ghost use Rattle.std.specs.Prelude.{◌≡◌, ◌≤◌, ◌+◌, ◌++◌, ℕ, pos, length, IsOk, OnOk, OnErr};
ghost use Rattle.std.specs.Vec.{vec_len, vec_capacity};
ghost use Rattle.frame_fields.specs.Fields.{size32, be};
ghost use Rattle.frame_fields.specs.Arrays.{values};
ghost use Rattle.responses.specs.Responses.{response_head};
ghost use Rattle.answering.specs.Writing.{Begins, Said, topics_said, Responds, topic_room, topics_room, response_room};
ghost use Rattle.answering.specs.WritingParts.{WritesTopic, WritesTopics, WritesResponse};

use crate::entries::Answers;
use crate::memory::Memory;
use frame_fields::{Array, Element, Topic, Topics};
use responses::{
    COUNT_BYTES, RESPONSE_HEAD_BYTES, append_fixed, begin_response, begin_topic, count_bytes,
    finish_response,
};
use std::alloc::{AllocError, Allocator};

/// Appends what is answered of a topic.
fn put_topic<'a, E: Element<'a> + Drop, S, Q: Answers<E, S>, A: Allocator + Copy>(
    asked: &Q,
    state: &mut S,
    memory: &mut Option<Memory>,
    topic: Topic<'a, E>,
    out: &mut Vec<u8, A>,
) -> Result<(), AllocError>
    ensures writes { OnOk result (WritesTopic (Said E.value (Q.answers asked.now)) Q.bytes (state.old, memory.old)
        (record { name = topic.entry.name.now; entries = values E.fields topic.entry.partitions })
        out.old.items out.new.items (state.new, memory.new)) }
    ensures begins { OnErr result (Begins out.old.items out.new.items) }
    ensures len { (n : ℕ) → Q.size ≡ Some n → OnOk result (vec_len out.new ≡ vec_len out.old
        + topic_room n topic.entry.name.now (length (values E.fields topic.entry.partitions))) }
    ensures succeeds { (n : ℕ) → Q.size ≡ Some n → vec_len out.old
        + topic_room n topic.entry.name.now (length (values E.fields topic.entry.partitions))
        ≤ vec_capacity out.old → IsOk result }
    ensures keeps_capacity { (n : ℕ) → Q.size ≡ Some n → vec_capacity out.old ≤ vec_capacity out.new }
{
    begin_topic(out, topic.name, topic.partitions.len())?;
    for entry in topic.partitions {
        asked.put(state, memory, topic.name, entry, out)?;
    }
    Ok(())
}

/// Appends what is answered of topics.
fn put_topics<'a, E: Element<'a> + Drop, S, Q: Answers<E, S>, A: Allocator + Copy>(
    asked: &Q,
    state: &mut S,
    memory: &mut Option<Memory>,
    topics: Topics<'a, E>,
    out: &mut Vec<u8, A>,
) -> Result<(), AllocError>
    ensures writes { OnOk result (WritesTopics (Said E.value (Q.answers asked.now)) Q.bytes (state.old, memory.old)
        (topics_said E.fields topics.entry) out.old.items out.new.items (state.new, memory.new)) }
    ensures begins { OnErr result (Begins out.old.items out.new.items) }
    ensures len { (n : ℕ) → Q.size ≡ Some n → OnOk result (vec_len out.new
        ≡ vec_len out.old + topics_room n (topics_said E.fields topics.entry)) }
    ensures succeeds { (n : ℕ) → Q.size ≡ Some n → vec_len out.old
        + topics_room n (topics_said E.fields topics.entry)
        ≤ vec_capacity out.old → IsOk result }
    ensures keeps_capacity { (n : ℕ) → Q.size ≡ Some n → vec_capacity out.old ≤ vec_capacity out.new }
{
    for topic in topics {
        put_topic(asked, state, memory, topic, out)?;
    }
    Ok(())
}

/// Appends what comes before the topics: a response's head, the fields before, and their count.
#[tactic(auto, unfolding(frame_fields::specs::Fields::encoded))]
fn put_head<A: Allocator + Copy>(
    correlation: i32,
    before: &[u8],
    topic_count: u32,
    out: &mut Vec<u8, A>,
) -> Result<(), AllocError>
    ensures appends { OnOk result (out.new.items ≡ out.old.items ++ response_head correlation
        ++ before.now ++ be size32 (pos topic_count)) }
    ensures begins { OnErr result (Begins out.old.items out.new.items) }
    ensures len { OnOk result (vec_len out.new
        ≡ vec_len out.old + (RESPONSE_HEAD_BYTES + length before.now + COUNT_BYTES)) }
    ensures succeeds { vec_len out.old + (RESPONSE_HEAD_BYTES + length before.now + COUNT_BYTES)
        ≤ vec_capacity out.old → IsOk result }
    ensures keeps_capacity { vec_capacity out.old ≤ vec_capacity out.new }
{
    begin_response(out, correlation)?;
    out.extend_from_slice(before)?;
    append_fixed(out, &count_bytes(topic_count))
}

/// Appends the whole response behind its size, which is not set yet.
fn put_response<'a, E: Element<'a> + Drop, S, Q: Answers<E, S>, A: Allocator + Copy>(
    asked: &Q,
    state: &mut S,
    memory: &mut Option<Memory>,
    correlation: i32,
    before: &[u8],
    topics: Topics<'a, E>,
    after: &[u8],
    out: &mut Vec<u8, A>,
) -> Result<(), AllocError>
    ensures writes { OnOk result (WritesResponse (Said E.value (Q.answers asked.now)) Q.bytes
        correlation before.now (state.old, memory.old) (topics_said E.fields topics.entry) after.now
        out.old.items out.new.items (state.new, memory.new)) }
    ensures begins { OnErr result (Begins out.old.items out.new.items) }
    ensures succeeds { (n : ℕ) → Q.size ≡ Some n → vec_len out.old
        + response_room n (length before.now + length after.now)
        (topics_said E.fields topics.entry) ≤ vec_capacity out.old → IsOk result }
{
    put_head(correlation, before, topics.len(), out)?;
    put_topics(asked, state, memory, topics, out)?;
    out.extend_from_slice(after)
}

/// Answers the entries of a request one after the other, and appends the response: `before`, the
/// topics with their answers, and `after`, behind the size and the correlation id. All or nothing.
///
/// What is told of memory is noted; a request whose entries change nothing passes it by. Where answers
/// have a size and there is room for the response, it is `Ok`; `response_room` says how much that is.
///
/// # Errors
///
/// `AllocError` where there is no memory for the response. The output is then as before; of the
/// entries some may have been answered.
pub fn respond<'a, E: Element<'a> + Drop, S, Q: Answers<E, S>, A: Allocator + Copy>(
    asked: &Q,
    state: &mut S,
    memory: &mut Option<Memory>,
    correlation: i32,
    before: &[u8],
    topics: &Array<'a, Topic<'a, E>>,
    after: &[u8],
    out: &mut Vec<u8, A>,
) -> Result<(), AllocError>
    ensures responds { OnOk result (Responds (Said E.value (Q.answers asked.now)) Q.bytes correlation
        before.now (state.old, memory.old) (topics_said E.fields topics.now) after.now
        out.old.items out.new.items (state.new, memory.new)) }
    ensures unchanged_on_error { OnErr result (out.new.items ≡ out.old.items) }
    ensures succeeds { (n : ℕ) → Q.size ≡ Some n → vec_len out.old
        + response_room n (length before.now + length after.now)
        (topics_said E.fields topics.now) ≤ vec_capacity out.old → IsOk result }
{
    let start = out.len();
    match put_response(
        asked,
        state,
        memory,
        correlation,
        before,
        Topics::of(topics),
        after,
        out,
    ) {
        Ok(()) => {
            finish_response(out, start);
            Ok(())
        }
        Err(refused) => {
            out.truncate(start);
            Err(refused)
        }
    }
}
