//! The head of a broker's snapshot.

ghost use Rattle.std.specs.Prelude.{◌≡◌, map, IfOk, OnOk};
ghost use Rattle.std.specs.List.{AllByRecursion};
ghost use Rattle.broker_state.specs.Parts.{topic_contents};
ghost use Rattle.snapshots.specs.Writing.{topic_value};
ghost use Rattle.state_snapshots.specs.Snapshots.{role_number, image_sizes, topic_said, state_head, SizesFit, IsReadable};

use broker_state::{BrokerState, Role, TopicLogs};
use copy_images::image_size;
use segment::BatchStore;
use snapshots::{SnapshotId, SnapshotNumbers, SnapshotTopic, put_head};
use std::alloc::{AllocError, Allocator};

/// What a role is in a snapshot.
pub fn role_number(role: Role) -> i16
    ensures { result ≡ role_number role }
{
    match role {
        Role::Leader => 0,
        Role::Follower => 1,
    }
}

/// The sizes of the images of a topic's partitions.
fn sizes_of<S: BatchStore, A: Allocator + Copy>(
    alloc: A,
    topic: &TopicLogs<S>,
) -> Result<Vec<i64, A>, AllocError>
    ensures sizes { IfOk result (λ sizes. sizes.items ≡ image_sizes (topic_contents topic.now)) }
    ensures fit { OnOk result (SizesFit (topic_contents topic.now)) }
{
    let mut sizes = Vec::new(alloc);
    for index in 0..topic.partition_count() {
        sizes.push(image_size(topic.partition_copy(index))?)?;
    }
    Ok(sizes)
}

/// Those of each topic.
fn sizes_of_all<S: BatchStore, A: Allocator + Copy>(
    alloc: A,
    topics: &[TopicLogs<S>],
) -> Result<Vec<Vec<i64, A>, A>, AllocError>
    ensures sizes { IfOk result (λ all. map (λ sizes. sizes.items) all.items
        ≡ map (λ t. image_sizes (topic_contents t)) topics.now) }
    ensures fit { OnOk result (AllByRecursion SizesFit (map topic_contents topics.now)) }
{
    let mut all = Vec::new(alloc);
    for topic in topics {
        all.push(sizes_of(alloc, topic)?)?;
    }
    Ok(all)
}

/// The topics as a head has them.
fn rows_of<'a, S: BatchStore, A: Allocator + Copy>(
    alloc: A,
    topics: &'a [TopicLogs<S>],
    sizes: &'a [Vec<i64, A>],
) -> Result<Vec<SnapshotTopic<'a>, A>, AllocError>
    requires { map (λ z. z.items) sizes.now
        ≡ map (λ t. image_sizes (topic_contents t)) topics.now }
    ensures { IfOk result (λ rows. map topic_value rows.items
        ≡ map (λ t. topic_said (topic_contents t)) topics.now) }
{
    let mut rows = Vec::new(alloc);
    for index in 0..topics.len() {
        rows.push(SnapshotTopic {
            name: topics[index].name(),
            sizes: &sizes[index],
        })?;
    }
    Ok(rows)
}

/// What the head says beside the topics.
fn numbers_of<S: BatchStore>(id: SnapshotId, state: &BrokerState<S>) -> SnapshotNumbers
    ensures id { result.id ≡ id }
    ensures role { result.role ≡ role_number state.now.config.role }
    ensures first { result.first_producer ≡ state.now.config.first_producer }
    ensures next { result.next_producer ≡ state.now.next_producer }
{
    SnapshotNumbers {
        id,
        role: role_number(state.role()),
        first_producer: state.first_producer(),
        next_producer: state.next_producer(),
    }
}

/// The head of the snapshot of what a broker holds.
///
/// # Errors
///
/// Out of memory.
pub fn head_of<S: BatchStore, A: Allocator + Copy>(
    alloc: A,
    id: SnapshotId,
    state: &BrokerState<S>,
) -> Result<Vec<u8, A>, AllocError>
    ensures bytes { IfOk result (λ head. head.items ≡ state_head id state.now) }
    ensures readable { OnOk result (IsReadable id state.now) }
{
    // Called for its contract alone: names, topics and partitions are few enough for their fields.
    state.know_sound();
    let topics = state.topics();
    let sizes = sizes_of_all(alloc, topics)?;
    let rows = rows_of(alloc, topics, &sizes)?;
    let mut head = Vec::new(alloc);
    put_head(alloc, numbers_of(id, state), &rows, &mut head)?;
    Ok(head)
}
