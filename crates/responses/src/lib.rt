//! Responses to a broker's clients (Kafka's documentation, "Protocol Guide"), written part by part at
//! the end of a `Vec` that may hold earlier ones. A part of fixed size is an array, which `append_fixed`
//! appends; a part whose size varies has a call of its own. Each call appends exactly the bytes of its part,
//! or leaves the output as it was. At the end the size is set.
//!
//! ```
//! let start = out.len();
//! begin_response(&mut out, correlation)?;
//! append_fixed(&mut out, &count_bytes(1))?;
//! begin_topic(&mut out, b"readings", 1)?;
//! append_fixed(&mut out, &produced_bytes(ProducedPartition { index: 0, code: 0, base: 7 }))?;
//! append_fixed(&mut out, &produce_tail())?;
//! finish_response(&mut out, start);
//! ```
//!
//! Where a call fails, the parts before it still stand in the output: the caller cuts it back to `start`,
//! or reserves the room of all parts first, and then no call fails.
//!
//! `laws` has a law for each kind of response that has several parts: one after the other they are the
//! encoding of its fields. Where the response is one array, the array's function says so.
//!
//! A part is the encoding of its fields whatever they are. What is written of a count, a name or a
//! body above the limits below has a length that can't be read again.
#![tactic(auto)]

pub mod api_versions;
pub mod clean;
pub mod cover;
pub mod deliver;
pub mod export;
pub mod fetch;
pub mod find_coordinator;
pub mod forget_group;
pub mod get;
pub mod import;
pub mod init_producer_id;
pub mod laws;
pub mod list_offsets;
pub mod metadata;
pub mod offset_commit;
pub mod offset_fetch;
mod parts;
pub mod produce;
pub mod trim;

pub use parts::{
    COUNT_BYTES, MAX_BODY_BYTES, MAX_COUNT, MAX_STRING_BYTES, RESPONSE_HEAD_BYTES,
    TOPIC_HEAD_BYTES, append_fixed, begin_response, begin_topic, count_bytes, finish_response,
    set_count,
};
