//! Requests about groups: OffsetCommit, OffsetFetch and ForgetGroup, answered from what a broker holds. What
//! an entry's work is, and what is replied to a request, is defined in the file of `specs/` that bears the
//! request's name.
//!
//! A reply is appended to an output that may hold others. Where there is no memory for it, the output is
//! as before, and nothing was done.
#![tactic(auto)]

mod forget_group;
mod group_partition;
mod offset_commit;
mod offset_fetch;

pub use forget_group::reply_to_forget_group;
pub use offset_commit::{MAX_METADATA_BYTES, reply_to_offset_commit};
pub use offset_fetch::{MAX_FETCHED_OFFSETS, index_asked_commits, reply_to_offset_fetch};
