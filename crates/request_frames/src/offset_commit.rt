//! OffsetCommit, version 2: offsets that a group of consumers has reached, to be kept.

mod partition;
mod request;

pub use partition::OffsetCommitPartition;
pub use request::OffsetCommitRequest;
pub(crate) use request::offset_commit_at;
