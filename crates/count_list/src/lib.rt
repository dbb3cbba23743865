//! A list of counts, which tells the sum before an index, and the index into which a number falls,
//! without adding all counts up.
//!
//! Contracts see a [`CountList`] as the list of its counts. It keeps them in blocks, and the sum before
//! each block: a change in the middle counts these up, one at the end touches none.
#![tactic(auto)]

mod block;
mod blocks;
mod list;
mod starts;

pub use list::{CountList, CountPosition};
