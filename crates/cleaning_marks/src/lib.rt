//! The file in which a broker keeps the marks of its own cleanings over restarts: how far each partition was cleaned, and
//! when, so that deletions go in time though the broker is started again and again.
//!
//! It is written by [`put_marks`], and judged where it stands by [`judge_marks`], which takes no memory. Its marks hold behind a
//! border of a journal ([`JournalPlace`]): [`believe`] tells whether that journal is there as it was. [`group_seen`] and
//! [`head_seen`] tell what stands in a journal at the offset that the file says.
#![tactic(auto)]

mod believing;
mod error;
mod groups;
pub mod laws;
pub mod layout;
mod numbers;
mod place;
mod reading;
#[cfg(test)]
mod tests;
mod writing;

pub use believing::{Unbelieved, believe};
pub use error::MarksError;
pub use groups::{group_seen, head_seen};
pub use place::{GroupSeen, JournalPlace, JournalSeen};
pub use reading::{MarkedPartition, MarksFile, judge_marks};
pub use writing::{PartitionMarks, put_marks};
