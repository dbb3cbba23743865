//! One partition with a leader's copy and its followers' copies.
#![tactic(auto)]

mod archived;
mod cleaning;
mod cluster;
mod delivering;
mod event;
mod imaging;
mod running;
mod sending;
mod trimming;

pub use cluster::Cluster;
pub use event::{ClusterError, Event, EventError, Outcome};

/// The most copies in a cluster.
pub const MAX_COPIES: usize = 8;
