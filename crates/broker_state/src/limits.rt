//! Limits of a broker. They are this project's own.

/// The most topics that a broker can be configured with; the group topic does not count.
pub const MAX_TOPICS: usize = 64;

/// The most partitions that a topic can have; the fewest are 1.
pub const MAX_PARTITIONS: usize = 64;

/// The most bytes that a broker's host can have.
pub const MAX_HOST_BYTES: usize = 255;

/// The topic in which groups keep their offsets. Each broker has it, with one partition.
pub const GROUP_TOPIC: &[u8] = b"__consumer_offsets";
