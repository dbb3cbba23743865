//! Why a configuration is refused.

use thiserror::Error;

/// Why a configuration is refused: the first of these that applies. The host, the number of topics and the
/// first producer id are judged first; then each topic in turn, by the three checks of a topic.
#[derive(Clone, Copy, Debug, PartialEq, Eq, Error)]
pub enum ConfigError {
    /// The host has more than `MAX_HOST_BYTES` bytes.
    #[error("BadHost")]
    BadHost,
    /// There are more than `MAX_TOPICS` topics.
    #[error("TooManyTopics")]
    TooManyTopics,
    /// The first producer id is negative.
    #[error("BadFirstProducer")]
    BadFirstProducer,
    /// A name isn't 1 to 249 letters, digits, `.`, `_` and `-` of ASCII, or is `.` or `..`.
    #[error("BadTopic")]
    BadTopic,
    /// A topic has no partition, or more than `MAX_PARTITIONS`.
    #[error("BadPartitions")]
    BadPartitions,
    /// An earlier topic has this name, or it is the group topic's.
    #[error("TopicTwice")]
    TopicTwice,
    /// There is no memory for the topics.
    #[error("OutOfMemory")]
    OutOfMemory,
}
