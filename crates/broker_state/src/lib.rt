//! What a broker holds: its configuration, a copy of each partition of its topics, and the next producer id.
//! Here are the checks of a configuration and of a batch that is sent to a partition, what a broker is asked
//! about itself, and each change of a partition. Read `specs/` in the order of `specs/Lib.antt`.
#![tactic(auto)]

mod append;
mod batches;
mod change;
mod codes;
mod config;
mod error;
mod indexing;
mod judging;
mod limits;
mod new_topics;
mod partition;
mod place;
mod restoring;
mod state;
mod topic;

pub use append::Append;
pub use batches::one_batch;
pub use change::Change;
pub use codes::append_refused;
pub use config::{Config, Role, TopicConfig};
pub use error::ConfigError;
pub use limits::{GROUP_TOPIC, MAX_HOST_BYTES, MAX_PARTITIONS, MAX_TOPICS};
pub use place::Place;
pub use restoring::{EarlyProducer, RestoreError};
pub use state::BrokerState;
pub use topic::TopicLogs;
