//! A copy of a partition and what it is told of another, side by side, by rising base offset: whether the
//! two fit, and what is left of the copy.
//!
//! What is told stands in a delta's bytes, or is another copy: a merge of two copies is a patch by the delta
//! of one for which nothing was asked. So there is one walk, over the batches that a copy keeps and over
//! entries that something [`Telling`] gives one after another. [`judge`] takes no memory; [`patch`] plans
//! what becomes of each batch, and weaves: batches that stay are not copied.
#![tactic(auto)]

mod alike;
mod common;
mod judging;
mod kept;
mod listed;
mod next;
mod patching;
mod planning;
mod record_walk;
mod seen;
mod telling;

pub use delta_bytes::PartitionLog;
pub use judging::judge;
pub use kept::{KeptBatches, know_content};
pub use patching::patch;
pub use seen::{Seen, SeenCover};
pub use telling::Telling;
