//! Requests about partitions and their logs: Produce, Fetch, ListOffsets and Metadata, answered from what
//! a broker holds. Each request has a module, with its entries in `entry`; what an entry's work is, and
//! what is replied to a request, is defined in the file of `specs/` that bears the request's name.
//!
//! A reply is appended to an output that may hold others. Where there is no memory for it, the output is
//! as before, and nothing was done.
#![tactic(auto)]

mod fetch;
mod list_offsets;
mod metadata;
mod produce;
mod reading;

pub use fetch::reply_to_fetch;
pub use fetch::room::{FetchRoom, MAX_FETCH_BYTES};
pub use list_offsets::{index_asked_times, reply_to_list_offsets};
pub use metadata::reply_to_metadata;
pub use produce::reply_to_produce;
