//! A list that takes an element at any index at about the same cost.
//!
//! Contracts see a [`BlockList`] as the list of its elements. It keeps them in blocks, so that an
//! insertion moves the elements of one block and not all that stand behind it; so does letting go of
//! the first elements, of any number. [`Items`] takes the elements out, and a [`Filling`] is a list for
//! which all memory was taken before.
#![tactic(auto)]

mod block;
mod blocks;
mod filling;
mod items;
mod list;
mod starts;

pub use filling::Filling;
pub use items::Items;
pub use list::BlockList;
