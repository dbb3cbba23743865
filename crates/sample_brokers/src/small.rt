//! Brokers of the topics `t` and `u`, each of two partitions, and the requests that they are sent.

use crate::brokers::{add_topic, host_of};
use broker_node::{Config, Node, Role};
use request_frames::{Request, parse};
use segment::BatchStore;
use std::alloc::{AllocError, Allocator};

/// A configuration with the topics `t` and `u`, at the host `hhh`.
///
/// # Errors
///
/// Out of memory.
pub fn configured<A: Allocator + Copy>(alloc: A, role: Role) -> Result<Config<A>, AllocError> {
    let mut topics = Vec::new(alloc);
    add_topic(alloc, &mut topics, "t", 2)?;
    add_topic(alloc, &mut topics, "u", 2)?;
    let host = host_of(alloc, 3)?;
    Ok(Config {
        role,
        node_id: 1,
        host,
        port: 9092,
        topics,
        first_producer: 0,
    })
}

/// A new broker; none where there is no memory for it.
pub fn new_node<S: BatchStore>(alloc: S::Alloc, role: Role) -> Option<Node<S>> {
    let config = configured(alloc, role).ok()?;
    Node::new(alloc, config).ok()
}

/// The request in a frame behind its size.
pub fn request_in(frame: &'static [u8]) -> Option<Request<'static>> {
    parse(frame.get(4..).unwrap_or(b"")).ok()
}
