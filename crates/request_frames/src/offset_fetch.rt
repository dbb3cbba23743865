//! OffsetFetch, version 1: the offsets that a group of consumers has committed are wanted.

mod partition;
mod request;

pub use partition::OffsetFetchPartition;
pub use request::OffsetFetchRequest;
pub(crate) use request::offset_fetch_at;
