//! The response to ListOffsets, version 1: `count_bytes` of the topics; for each topic `begin_topic` and
//! its partitions, each `list_offsets_answer_bytes`.

mod law;
mod partition;

pub use law::list_offsets_parts;
pub use partition::{LISTED_PARTITION_BYTES, ListedPartition, list_offsets_answer_bytes};
