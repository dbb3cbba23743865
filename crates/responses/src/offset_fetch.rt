//! The response to OffsetFetch, version 1: `count_bytes` of the topics; for each topic `begin_topic` and
//! its partitions, each by `put_fetched_offset`.

mod law;
mod partition;

pub use law::offset_fetch_parts;
pub use partition::{OFFSET_FETCH_PARTITION_BYTES, put_fetched_offset};
