//! The response to OffsetCommit, version 2: `count_bytes` of the topics; for each topic `begin_topic` and
//! its partitions, each `committed_partition_bytes`.

mod law;
mod partition;

pub use law::offset_commit_parts;
pub use partition::{CommittedPartition, OFFSET_COMMIT_PARTITION_BYTES, committed_partition_bytes};
