//! Deltas in bytes: what one copy of a partition sends another that says which offsets it has.
//!
//! [`judge_delta`] judges bytes as a delta where they stand. It takes no memory, whatever they say, and
//! gives the parts of what it accepts. Bytes that are no delta are refused for the first fault that stands
//! in them. [`split_entry`](entries::split_entry) takes the entries of what was accepted one after the
//! other.
//!
//! `specs/` says what the bytes of a delta are and what each fault is: read it in the order of
//! `specs/Lib.antt`. What a delta says, and which ones are valid, stands in the crate `deltas`.
#![tactic(auto)]

mod body;
mod counted;
mod delta;
pub mod entries;
mod entry;
mod error;
mod front;
pub mod laws;
pub mod layout;
pub mod lists;
mod ranges;
pub mod seen;

pub use copy_images::{KeptWalk, PartitionLog};
pub use delta::{DeltaBytes, judge_delta};
pub use error::{BodyError, DeltaError, EntriesError, FrontError, RangesError};
