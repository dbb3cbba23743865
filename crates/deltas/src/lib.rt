//! What one copy of a partition tells another that says what it has already: the definitions of a
//! delta, of what it leaves of a copy and of which copies may take it, and their laws.
//!
//! A `Delta` has the sender's log start, the offsets that it has seen, the offsets that were asked, and
//! an entry for each batch that it keeps: of a batch that has an asked offset in its span only the base
//! and the offsets of its records, of any other one the whole batch. A copy that knows what was asked
//! ends as if it had been merged with the sender. `examples` works this out on small contents.
//!
//! Terms are those of `content`. *Asked*: offsets that the receiver said it has; *listed*: told by
//! offsets alone; *known*: seen, or below the start. Read `specs/` in the order of `specs/Lib.antt`.
//!
//! The functions do nothing: each clause is a law, or an example.
#![tactic(auto)]

pub mod contents;
pub mod examples;
pub mod exchanging;
pub mod knowing;
pub mod merging;
pub mod patching;
pub mod records;

/// The most offsets that an entry can list.
pub const MAX_LISTED: usize = 0x7fff_ffff;
/// The least base offset that the first entry of a delta may have: it has no bound but that of an int64.
pub const LEAST_BASE: i64 = i64::MIN;
