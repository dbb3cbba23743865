//! Requests that are answered entry by entry: what an entry's work is, how a request is answered by the
//! plan of its entries, the codes that say why an entry failed, and the one walk that answers all such
//! requests. Read `specs/` in the order of `specs/Lib.antt`.
//!
//! Terms: *entry*, what a request says of one partition; *work*, the checks of an entry in their order,
//! what is done where all pass, and what is answered where one fails.
//!
//! # A request with topics, each with entries
//!
//! Its definitions are an entry's `Work` and the request's `Plan`. Its code is a function that does an
//! entry's work, a struct that implements `Answers` by it, and a function that calls `respond`. There
//! are two kinds:
//!
//! - **It only reads.** `Answers` is implemented by a struct that borrows the broker, for the state `S`
//!   that entries share, or `()`; `size` is `None`, since answers need not be of one size. Where memory
//!   runs out, `respond` cuts the output back, and nothing else has changed. Nothing is told of memory:
//!   what `respond` notes is thrown away.
//! - **It changes something.** `S` is what the broker holds, and `size` is `Some` of the bytes of an
//!   answer. The room is taken before any work is done, so that want of memory can't come between. An
//!   entry's work tells whether it lacked memory, and `put` notes it. So it is told of the request whether
//!   memory sufficed for each entry, lacked for each, or lacked for some of them:
//!
//! ```
//! let Some(room) = response_room(ANSWER_BYTES, AROUND_BYTES, &request.topics) else {
//!     return Err(AllocError);
//! };
//! out.reserve(room)?;
//! let mut noted = None;
//! let Ok(()) = respond(
//!     &asked,
//!     state,
//!     &mut noted,
//!     correlation,
//!     &[],
//!     &request.topics,
//!     &AFTER,
//!     out,
//! ) else {
//!     unreachable!()
//! };
//! Ok(Memory::of_all(noted))
//! ```
//!
//! Its proof is three facts: the way in which `put` answers is one that the entry's work allows
//! (`MayAnswer`, or `TellsNext` where memory is told of); the bytes around the topics and the topics' own are the encoding of the response; and
//! what `respond` ensures makes a reply that the plan allows, by `plan_responded` of `proofs/Planned`, or
//! `plan_responded_told` of `proofs/ToldPlans`, along the entries' values and the states.
//!
//! # A request of one entry
//!
//! Its definitions are its `Work` and the bytes of the response to a result; `reply_once` and
//! `RepliesOnce` are what is replied, `WritesOnce` what its function ensures, or `WritesTold` where the
//! work changes something: then its function tells whether memory sufficed. A function does the work, and
//! says by `Refused` whether a check failed or memory lacked; another gives the bytes of a result, and the
//! response is appended by `respond_once`: where the work changes something, behind
//! `out.reserve(RESPONSE_HEAD_BYTES + ..)?`, after which it can't fail. A
//! result with bytes of its own, as a partition's, is a head, these bytes and what follows them; a
//! response in many parts implements `Body`, and is appended by `respond_with`. The proof is
//! `once_written`, and `once_answered` above it.
#![tactic(auto)]

mod codes;
mod entries;
mod memory;
mod once;
mod responding;
mod room;

pub use codes::ErrorCode;
pub use entries::Answers;
pub use memory::{Memory, Refused};
pub use once::{Body, respond_once, respond_with};
pub use responding::respond;
pub use room::response_room;
