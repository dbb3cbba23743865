//! The indexes by time of the partitions that a ListOffsets request asks for.

ghost use Rattle.std.specs.Prelude.{◌≡◌};

use broker_state::{BrokerState, Role};
use frame_fields::{Topic, Topics};
use request_frames::{ListOffsetsPartition, ListOffsetsRequest};
use segment::BatchStore;

/// Completes the index of the partition that an entry looks up a time in, if it does.
fn index_entry<S: BatchStore>(state: &mut BrokerState<S>, topic: &[u8], entry: ListOffsetsPartition)
    ensures { state.new ≡ state.old }
{
    if entry.time < 0 {
        return;
    }
    match state.place_of(topic, entry.partition) {
        Some(place) => state.index_times(place),
        None => {}
    }
}

/// Completes the indexes of a topic's partitions.
fn index_topic<S: BatchStore>(state: &mut BrokerState<S>, topic: Topic<'_, ListOffsetsPartition>)
    ensures { state.new ≡ state.old }
{
    for entry in topic.partitions {
        index_entry(state, topic.name, entry);
    }
}

/// Completes the indexes by time of the partitions that a ListOffsets request looks up a time in, where the
/// broker leads. Nothing that is seen of the broker changes.
pub fn index_asked_times<S: BatchStore>(
    state: &mut BrokerState<S>,
    request: &ListOffsetsRequest<'_>,
)
    ensures unchanged { state.new ≡ state.old }
{
    if state.role() == Role::Follower {
        return;
    }
    for topic in Topics::of(&request.topics) {
        index_topic(state, topic);
    }
}
