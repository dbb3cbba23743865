//! Consumers' committed offsets, as records of the topic `__consumer_offsets` (Kafka's documentation,
//! section "Consumer Offset Tracking").
//!
//! A group's offset in a partition is the value of a key: [`put_key`] and [`put_value`] write them,
//! [`read_key`] and [`read_value`] read them. [`commit_batch`] is the batch that commits an offset,
//! [`forget_batch`] the one that forgets the keys of a group, which [`group_keys`] finds in a copy.
//! [`lookup`] answers what was committed last.
#![tactic(auto)]

mod commit;
mod entries;
mod error;
mod forget;
mod groups;
mod keys;
mod laws;
mod layout;
mod lookups;
mod sizes;
mod texts;
mod values;

pub use commit::commit_batch;
pub use error::GroupError;
pub use forget::{MAX_FORGOTTEN, forget_batch};
pub use groups::group_keys;
pub use keys::{GroupKey, put_key, read_key};
pub use laws::{
    batches_are_sendable, examples, found_offsets_fit, look_ups_are_the_logs, one_key_encoding,
    one_value_encoding, shown_keys_are_the_tables,
};
pub use layout::MAX_NAME_BYTES;
pub use lookups::lookup;
pub use sizes::fits_a_batch;
pub use values::{Committed, put_value, read_value};
