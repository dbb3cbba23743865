//! ListOffsets, version 1: offsets to be looked up by time.

mod partition;
mod request;

pub use partition::ListOffsetsPartition;
pub use request::ListOffsetsRequest;
pub(crate) use request::list_offsets_at;
