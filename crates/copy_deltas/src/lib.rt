//! Deltas of copies of a partition as bytes: what a copy tells one that has some offsets already.
//!
//! [`write_delta`] makes the delta of a copy, for one that said which offsets it has, and [`apply_delta`]
//! takes it into that one. Each delta has one form of version 1, which is written; where its sender starts
//! at 0 there is one of version 0 too, which is read.
//!
//! ```
//! let delta = write_delta(alloc, &copy, &asked)?;
//! apply_delta(&mut other, &delta)?;
//! ```
#![tactic(auto)]

mod apply;
mod asking;
mod error;
mod knowing;
pub mod laws;
pub mod layout;
mod size;
mod told;
mod write;

pub use apply::{apply_delta, check_delta};
pub use copy_merge::{MergeError, merge_into};
pub use error::PatchError;
pub use size::has_delta_within;
pub use write::write_delta;
