//! Brokers of topics of one name with two partitions, and `u` with nine; and what their partitions answer.

use broker_node::{Config, ConfigError, GROUP_TOPIC, Node, Role, TopicConfig};
use copy_answers::put_answers;
use segment::BatchStore;
use std::alloc::{AllocError, Allocator};
use std::string::String;

/// How many bytes a broker is made of at least: 12 partitions, each held in more than 128.
pub const CONFIGURED: usize = 12 * 128;

/// A host of so many bytes.
pub(crate) fn host_of<A: Allocator + Copy>(alloc: A, bytes: u32) -> Result<String<A>, AllocError> {
    let mut host = String::new(alloc);
    for _ in 0..bytes {
        host.push('h')?;
    }
    Ok(host)
}

/// Adds a topic.
pub(crate) fn add_topic<A: Allocator + Copy>(
    alloc: A,
    topics: &mut Vec<TopicConfig<A>, A>,
    name: &str,
    partitions: u32,
) -> Result<(), AllocError> {
    let name = String::from_str(alloc, name)?;
    topics.push(TopicConfig { name, partitions })?;
    Ok(())
}

/// So many topics of this name, and `u`.
fn topics_of<A: Allocator + Copy>(
    alloc: A,
    name: &str,
    count: u32,
) -> Result<Vec<TopicConfig<A>, A>, AllocError> {
    let mut topics = Vec::new(alloc);
    for _ in 0..count {
        add_topic(alloc, &mut topics, name, 2)?;
    }
    add_topic(alloc, &mut topics, "u", 9)?;
    Ok(topics)
}

/// A configuration of a host of so many bytes and so many topics of this name.
///
/// # Errors
///
/// Out of memory.
pub fn configured<A: Allocator + Copy>(
    alloc: A,
    role: Role,
    bytes: u32,
    name: &str,
    count: u32,
) -> Result<Config<A>, AllocError> {
    let host = host_of(alloc, bytes)?;
    let topics = topics_of(alloc, name, count)?;
    Ok(Config {
        role,
        node_id: 1,
        host,
        port: 9092,
        topics,
        first_producer: 0,
    })
}

/// A new broker.
///
/// # Errors
///
/// Why its configuration is refused; `None` where there is no memory for the configuration.
pub fn new_node<S: BatchStore>(
    alloc: S::Alloc,
    role: Role,
    bytes: u32,
    name: &str,
    count: u32,
) -> Result<Node<S>, Option<ConfigError>> {
    match configured(alloc, role, bytes, name, count) {
        Ok(config) => Node::new(alloc, config).map_err(Some),
        Err(_) => Err(None),
    }
}

/// A leader at the host `hhh` with the topics `t` and `u`.
pub fn leader<S: BatchStore>(alloc: S::Alloc) -> Result<Node<S>, Option<ConfigError>> {
    new_node(alloc, Role::Leader, 3, "t", 1)
}

/// The end of partition 0 of `t`.
pub fn end_of<S: BatchStore>(node: &Node<S>) -> i64 {
    node.log(b"t", 0).map_or(-1, |log| log.end())
}

/// Whether the last partition of `u` has a log, which is empty, and there is no other behind it.
pub fn has_logs<S: BatchStore>(node: &Node<S>) -> bool {
    match (node.log(b"u", 8), node.log(b"u", 9)) {
        (Some(log), None) => log.len() == 0 && log.end() == 0,
        _ => false,
    }
}

/// Whether a refusal is printed so.
pub fn prints<A: Allocator + Copy>(alloc: A, why: ConfigError, wanted: &str) -> bool {
    match format!(in alloc; "{why}") {
        Ok(text) => text.as_str() == wanted,
        Err(_) => false,
    }
}

/// Appends what a partition answers without taking memory, where there is such a partition.
fn put_partition<S: BatchStore, B: Allocator + Copy>(
    out: &mut Vec<u8, B>,
    node: &Node<S>,
    topic: &[u8],
    partition: i32,
) -> Result<(), AllocError> {
    match node.log(topic, partition) {
        Some(log) => put_answers(out, log),
        None => Ok(()),
    }
}

/// What a partition answers without taking memory; empty where there is no such partition.
pub fn partition_answers<S: BatchStore, B: Allocator + Copy>(
    alloc: B,
    node: &Node<S>,
    topic: &[u8],
    partition: i32,
) -> Result<Vec<u8, B>, AllocError> {
    let mut out = Vec::new(alloc);
    put_partition(&mut out, node, topic, partition)?;
    Ok(out)
}

/// What the partitions that the requests name answer without taking memory.
pub fn answers_of<S: BatchStore, B: Allocator + Copy>(
    alloc: B,
    node: &Node<S>,
) -> Result<Vec<u8, B>, AllocError> {
    let mut out = Vec::new(alloc);
    put_partition(&mut out, node, b"t", 0)?;
    put_partition(&mut out, node, b"t", 1)?;
    put_partition(&mut out, node, b"u", 0)?;
    put_partition(&mut out, node, GROUP_TOPIC, 0)?;
    Ok(out)
}

/// Whether they answer so.
pub fn has_answers<S: BatchStore, B: Allocator + Copy>(
    alloc: B,
    node: &Node<S>,
    answers: &[u8],
) -> bool {
    match answers_of(alloc, node) {
        Ok(now) => now.as_slice() == answers,
        Err(_) => false,
    }
}
