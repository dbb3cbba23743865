//! The response to Metadata, version 1: `begin_metadata`; for each topic `begin_metadata_topic` and
//! its partitions, each by `put_metadata_partition`.

mod law;
mod partition;
mod response;
mod topic;

pub use law::metadata_parts;
pub use partition::{METADATA_PARTITION_BYTES, MetadataPartition, put_metadata_partition};
pub use response::{METADATA_HEAD_BYTES, MetadataBroker, begin_metadata};
pub use topic::{METADATA_TOPIC_HEAD_BYTES, MetadataTopic, begin_metadata_topic};
