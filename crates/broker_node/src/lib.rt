//! The broker: what it replies to each request, what it writes for a stream of them, and `Node`, which
//! handles one request. Read `specs/` in the order of `specs/Lib.antt`; what a broker holds is defined in
//! `broker_state`, and each request in a crate of its kind:
//! `log_requests`, `group_requests`, `setup_requests` and `copy_requests`.
//!
//! A reply is a function of the state and the request: the bytes of one response or none, and the state
//! after. Where memory runs out within one partition, that partition is answered with a storage error
//! and is as it was. [`Node::handle_exactly`] tells whether that happened.
//!
//! Where it didn't, the reply and the state after are those that the state and the request make
//! (`specs/Exactly`), so requests that were told so can be handled again to the same state.
#![tactic(auto)]

mod changes;
mod handling;
mod node;

pub use answering::{ErrorCode, Memory};
pub use broker_state::{
    Config, ConfigError, GROUP_TOPIC, MAX_HOST_BYTES, MAX_PARTITIONS, MAX_TOPICS, Role, TopicConfig,
};
pub use changes::{MayChange, is_dear, may_change, only_grows, what_may_change};
pub use copy_requests::{MAX_COVER_RUNS, MAX_EXPORT_BYTES};
pub use group_requests::{MAX_FETCHED_OFFSETS, MAX_METADATA_BYTES};
pub use handling::Answer;
pub use log_requests::MAX_FETCH_BYTES;
pub use node::Node;
