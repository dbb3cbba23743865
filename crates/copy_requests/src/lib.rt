//! Requests about copies, this project's own: Deliver, Clean, Export and Import in two versions each, Get,
//! Cover and Trim, answered from what a broker holds. Each is a request of one entry: what its work is, and
//! what is replied to it, is defined in the file of `specs/` that bears the request's name.
//!
//! A reply is appended to an output that may hold others. Where there is no memory for it, the output is
//! as before, and nothing was done.
#![tactic(auto)]

mod clean;
mod codes;
mod cover;
mod deliver;
mod export;
mod export_delta;
mod get;
mod import;
mod import_delta;
mod laws;
mod trim;

pub use clean::{Cleaning, reply_to_clean, reply_to_clean_part};
pub use cover::{MAX_COVER_RUNS, reply_to_cover};
pub use deliver::reply_to_deliver;
pub use export::{MAX_EXPORT_BYTES, reply_to_export};
pub use export_delta::reply_to_export_delta;
pub use get::{index_asked_key, reply_to_get};
pub use import::reply_to_import;
pub use import_delta::reply_to_import_delta;
pub use laws::{
    asked_ranges_are_decided, deliver_faults, delta_faults, gaps_are_decided, trim_faults,
};
pub use trim::reply_to_trim;
