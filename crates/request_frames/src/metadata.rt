//! Metadata, version 1: the topics and their partitions to be listed.

mod request;

pub use request::MetadataRequest;
pub(crate) use request::metadata_at;
