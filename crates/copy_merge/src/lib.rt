//! The merge of two copies of a partition, by the rule of `content` (`specs/Joins.antt`).
//!
//! [`merge`] gives a third copy, [`merge_into`] changes its first argument. Both refuse two copies
//! that do not agree, and name the least base offset at which they disagree. Copies of one log always
//! agree; two that agree need not be of one log.
//!
//! A merge is a patch by what the other copy has to tell, all of its batches: `side_by_side` has the walk
//! over both, and its law stands in `deltas`. Whether two copies agree is found out without memory, and
//! batches that stay are not copied.
#![tactic(auto)]

mod error;
mod laws;
mod merging;

pub use error::MergeError;
pub use laws::agreement_is_decided;
pub use merging::{merge, merge_into};
