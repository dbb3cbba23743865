//! The tests, and what they share, a file for each.

mod crashes;
mod drafts;
mod groups;
mod journal_bytes;
mod journal_memory;
mod keepers;
mod lacking;
mod lent;
mod mending;
