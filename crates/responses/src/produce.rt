//! The response to Produce, version 3: `count_bytes` of the topics; for each topic `begin_topic` and its
//! partitions, each `produced_bytes`; `produce_tail`.

mod law;
mod partition;
mod response;

pub use law::produce_parts;
pub use partition::{PRODUCED_PARTITION_BYTES, ProducedPartition, produced_bytes};
pub use response::{PRODUCE_TAIL_BYTES, produce_tail};
