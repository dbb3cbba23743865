//! Produce, version 3: record batches to be appended.

mod partition;
mod request;

pub use partition::ProducePartition;
pub use request::ProduceRequest;
pub(crate) use request::produce_at;
