//! Which Fetches wait for records: [`fetch_waits`], as `specs/Waiting` defines it; and how much is there for their
//! entries: [`count_entry`], [`count_behind`]. [`laws`] says what ends no wait.
#![tactic(auto)]

mod counts;
pub mod laws;
mod waiting;

pub use counts::{Behind, Counted, count_behind, count_entry};
pub use waiting::{MOST_ENTRIES, awaited_bytes, fetch_waits};
