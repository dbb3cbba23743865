//! What a copy of a partition holds, and what may happen to it: the definitions that every crate
//! above cites. Read `specs/` in the order of `specs/Lib.antt`.
//!
//! A copy is a `Content`: the log start offset, the offsets that it has seen, and the batches that it
//! keeps. For example, take a=1, b=2, a=null at offsets 0, 1, 2. A copy of these has seen 0 to 2, and
//! its table is {b: 2}. Cleaned below 3 it keeps only b=2: a=1 is superseded, and the tombstone goes
//! because every offset from the start to it was seen. It has still seen 0 to 2, so a merge with an
//! older copy does not bring a=1 back. `examples` works this out, and more.
//!
//! Terms: *copy*, a `Content`; *seen*, in `cover`; *span*, a batch's first to last offset; *whole*, with
//! a record at each offset of its span; *head*, a batch without its records; *window*, a producer's
//! newest batches, five at most.
//!
//! The crate has hardly any code: only the types that definitions and calls share.
#![tactic(auto)]

mod delivery;
pub mod examples;
mod part;
mod report;
mod verdict;

pub use delivery::{DeliverError, Delivered};
pub use part::CleaningPart;
pub use report::CleanReport;
pub use verdict::Verdict;
