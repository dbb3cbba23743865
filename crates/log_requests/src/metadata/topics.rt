//! What a broker says of its topics.

ghost use Rattle.std.specs.Prelude.{◌≡◌, ◌≤◌, ◌++◌, map, length, OnOk, OnErr};
ghost use Rattle.std.specs.List.{flat_map, range_with_len};
ghost use Rattle.answering.specs.Writing.{Begins};
ghost use Rattle.responses.specs.Metadata.{metadata_leader_id, metadata_head, metadata_topic_bytes, metadata_partition_bytes};
ghost use Rattle.log_requests.specs.Metadata.{metadata_leader, metadata_of_partition, metadata_of_topic, metadata_of_failed, metadata_at};
ghost use Rattle.broker_state.specs.Parts.{topic_contents};

use answering::ErrorCode;
use broker_state::{BrokerState, GROUP_TOPIC, MAX_PARTITIONS, Role, TopicLogs};
use frame_fields::is_topic_name;
use responses::metadata::{
    MetadataBroker, MetadataPartition, MetadataTopic, begin_metadata, begin_metadata_topic,
    put_metadata_partition,
};
use segment::BatchStore;
use std::alloc::{AllocError, Allocator};

/// Appends the broker, the controller, and how many topics follow.
pub(crate) fn put_broker<S: BatchStore, A: Allocator + Copy>(
    state: &BrokerState<S>,
    topic_count: u32,
    out: &mut Vec<u8, A>,
) -> Result<(), AllocError>
    ensures appends { OnOk result (out.new.items ≡ out.old.items ++ metadata_head
        state.now.config.node_id state.now.config.host state.now.config.port
        (metadata_leader_id (metadata_leader state.now.config)) topic_count) }
    ensures begins { OnErr result (Begins out.old.items out.new.items) }
{
    let broker = MetadataBroker {
        node_id: state.node_id(),
        host: state.host(),
        port: state.port(),
    };
    let controller = match state.role() {
        Role::Leader => state.node_id(),
        Role::Follower => -1,
    };
    begin_metadata(out, broker, controller, topic_count)
}

/// What is said of a topic's partition.
fn metadata_of_partition<S: BatchStore>(state: &BrokerState<S>, index: usize) -> MetadataPartition
    requires { index ≤ MAX_PARTITIONS }
    ensures { result ≡ metadata_of_partition state.now.config index }
{
    match state.role() {
        Role::Leader => MetadataPartition {
            code: 0,
            index: index as i32,
            leader: Some(state.node_id()),
        },
        Role::Follower => MetadataPartition {
            code: ErrorCode::LeaderNotAvailable.number(),
            index: index as i32,
            leader: None,
        },
    }
}

/// Appends what is said of a topic's partitions.
fn put_partitions<S: BatchStore, A: Allocator + Copy>(
    state: &BrokerState<S>,
    count: usize,
    out: &mut Vec<u8, A>,
) -> Result<(), AllocError>
    requires { count ≤ MAX_PARTITIONS }
    ensures appends { OnOk result (out.new.items ≡ out.old.items ++ flat_map metadata_partition_bytes
        (map (metadata_of_partition state.now.config) (range_with_len 0 count))) }
    ensures begins { OnErr result (Begins out.old.items out.new.items) }
{
    for index in 0..count {
        put_metadata_partition(out, metadata_of_partition(state, index))?;
    }
    Ok(())
}

/// Appends what is said of a topic that the broker has.
pub(crate) fn put_topic<S: BatchStore, A: Allocator + Copy>(
    state: &BrokerState<S>,
    topic: &TopicLogs<S>,
    out: &mut Vec<u8, A>,
) -> Result<(), AllocError>
    requires { length topic.now.partitions ≤ MAX_PARTITIONS }
    ensures appends { OnOk result (out.new.items ≡ out.old.items
        ++ metadata_topic_bytes (metadata_of_topic state.now.config (topic_contents topic.now))) }
    ensures begins { OnErr result (Begins out.old.items out.new.items) }
{
    let name = topic.name();
    let count = topic.partition_count();
    let head = MetadataTopic {
        code: 0,
        name,
        is_internal: name == GROUP_TOPIC,
    };
    begin_metadata_topic(out, head, count as u32)?;
    put_partitions(state, count, out)
}

/// Appends what is said of a topic that the broker does not have.
fn put_failed<A: Allocator + Copy>(
    code: ErrorCode,
    name: &[u8],
    out: &mut Vec<u8, A>,
) -> Result<(), AllocError>
    ensures appends { OnOk result
        (out.new.items ≡ out.old.items ++ metadata_topic_bytes (metadata_of_failed code name.now)) }
    ensures begins { OnErr result (Begins out.old.items out.new.items) }
{
    let head = MetadataTopic {
        code: code.number(),
        name,
        is_internal: false,
    };
    begin_metadata_topic(out, head, 0)
}

/// Appends what is said of a name.
#[tactic(auto, using(crate::proofs::MetadataTopics::of_known, crate::proofs::MetadataTopics::of_unknown))]
pub(crate) fn put_name<S: BatchStore, A: Allocator + Copy>(
    state: &BrokerState<S>,
    name: &[u8],
    out: &mut Vec<u8, A>,
) -> Result<(), AllocError>
    ensures appends { OnOk result
        (out.new.items ≡ out.old.items ++ metadata_topic_bytes (metadata_at state.now name.now)) }
    ensures begins { OnErr result (Begins out.old.items out.new.items) }
{
    if !is_topic_name(name) {
        return put_failed(ErrorCode::InvalidTopic, name, out);
    }
    match state.topic(name) {
        Some(topic) => put_topic(state, topic, out),
        None => put_failed(ErrorCode::UnknownTopicOrPartition, name, out),
    }
}
