//! How a broker is configured.

use std::alloc::Allocator;
use std::string::String;

/// What a broker is to its partitions.
#[derive(Clone, Copy, PartialEq, Eq)]
pub enum Role {
    /// It gives out their offsets.
    Leader,
    /// It holds copies of them.
    Follower,
}

/// A topic that a broker is to keep.
#[derive(Drop)]
pub struct TopicConfig<A: Allocator> {
    /// Its name: 1 to 249 letters, digits, `.`, `_` and `-` of ASCII, but not `.` and `..`.
    pub name: String<A>,
    /// The number of its partitions, 1 to 64.
    pub partitions: u32,
}

/// How a broker is configured.
#[derive(Drop)]
pub struct Config<A: Allocator> {
    /// What the broker is to its partitions.
    pub role: Role,
    /// The broker's number.
    pub node_id: i32,
    /// The host at which clients reach it, at most 255 bytes.
    pub host: String<A>,
    /// The port at which clients reach it.
    pub port: u16,
    /// The topics that it keeps, at most 64, beside the one for groups.
    pub topics: Vec<TopicConfig<A>, A>,
    /// The producer id that it gives out first, at least 0. Each further one is the next number; the
    /// greatest `i64` is not given out.
    pub first_producer: i64,
}
