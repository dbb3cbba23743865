//! The head of a snapshot: how a broker was set up, its next producer id, and how long the image of each
//! partition is. The images follow it, one after the other, up to the end of the file.
//!
//! A head is written by [`put_head`], and judged where it stands by [`judge_head`], which takes
//! no memory.
#![tactic(auto)]

mod error;
mod head;
pub mod layout;
mod partition;
mod writing;

pub use error::SnapshotError;
pub use head::{SnapshotHead, judge_head};
pub use partition::SnapshotPartition;
pub use writing::{SnapshotId, SnapshotNumbers, SnapshotTopic, put_head};
