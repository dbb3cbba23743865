//! A set of offsets, kept as its maximal ranges.
//!
//! An offset is the position of a record in a partition's log. A copy of a partition may hold some
//! of them and lack others (Kafka's documentation, "Log Compaction"), so what it has seen is a set
//! of offsets. This crate keeps such a set in as few ranges as there can be: no two of them touch.
#![tactic(auto)]

mod edit;
pub mod error;
mod judge;
pub mod laws;
mod search;
pub mod set;

pub use error::CoverError;
pub use set::Cover;

/// One past the greatest offset: offsets are from 0 to 2^62 - 1.
pub const OFFSETS_END: i64 = 1 << 62;
