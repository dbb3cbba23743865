//! How many bytes a response has whose answers all have as many.

ghost use Rattle.std.specs.Prelude.{◌≡◌, ◌≤◌, ◌+◌, ◌^◌, length, IfSome, IfNone};
ghost use Rattle.frame_fields.specs.Arrays.{values};
ghost use Rattle.answering.specs.Writing.{topics_said, topic_room, response_room};

use frame_fields::{Array, Element, Topic, Topics};
use responses::{COUNT_BYTES, RESPONSE_HEAD_BYTES, TOPIC_HEAD_BYTES};

/// How many bytes the answer for a topic has; `None` of more than there are addresses.
fn topic_room<'a, E: Element<'a> + Drop>(size: usize, topic: &Topic<'a, E>) -> Option<usize>
    ensures room { IfSome result (λ room. room
        ≡ topic_room size topic.now.name.now (length (values E.fields topic.now.partitions))) }
    ensures too_large { IfNone result (2 ^ 64
        ≤ topic_room size topic.now.name.now (length (values E.fields topic.now.partitions))) }
{
    let entries = size.checked_mul(topic.partitions.len() as usize)?;
    entries.checked_add(TOPIC_HEAD_BYTES + topic.name.len())
}

/// How many bytes the response to a request has, where each answer has `size` bytes and `around`
/// bytes stand before and after the topics; `None` of more than there are addresses.
pub fn response_room<'a, E: Element<'a> + Drop>(
    size: usize,
    around: usize,
    topics: &Array<'a, Topic<'a, E>>,
) -> Option<usize>
    ensures room { IfSome result (λ room. room
        ≡ response_room size around (topics_said E.fields topics.now)) }
    ensures too_large { IfNone result
        (2 ^ 64 ≤ response_room size around (topics_said E.fields topics.now)) }
{
    let mut room = around.checked_add(RESPONSE_HEAD_BYTES + COUNT_BYTES)?;
    for topic in Topics::of(topics) {
        room = room.checked_add(topic_room(size, &topic)?)?;
    }
    Some(room)
}
