//! Export, version 1: the delta of a copy of a partition is wanted, for offsets that are there already.

mod range;
mod request;

pub use range::AskedRange;
pub use request::ExportDeltaRequest;
pub(crate) use request::export_delta_at;
