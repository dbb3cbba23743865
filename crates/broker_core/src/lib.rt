//! A broker as its users call it: [`Node`], which answers one request, and [`serve`], which answers a
//! stream of them.
//!
//! [`Node`] stands in a crate of its own and is handed on; the laws of its replies, and `examples`, which
//! works replies out, byte for byte, stand in `broker_laws`. So are [`Cluster`], one partition with all
//! its copies, and [`Source`] and [`Sink`], which [`serve`] reads and writes. What a session writes is
//! defined by `Streams` of `broker_node`; read it before `specs/Sessions.antt`.
#![tactic(auto)]

mod receiving;
mod replying;
mod session;

pub use cluster::{Cluster, ClusterError, Event, EventError, MAX_COPIES, Outcome};
pub use session::{Ended, SessionError, serve};
pub use sessions::{
    Answer, Config, ConfigError, ErrorCode, GROUP_TOPIC, MAX_FETCH_BYTES, MAX_HOST_BYTES,
    MAX_PARTITIONS, MAX_TOPICS, Node, Role, TopicConfig,
};
pub use streams::{Failed, Sink, Source};
