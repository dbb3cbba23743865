//! Fetch, version 4: record batches that are wanted.

mod partition;
mod request;

pub use partition::FetchPartition;
pub use request::FetchRequest;
pub(crate) use request::fetch_at;
