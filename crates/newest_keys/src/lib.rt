//! The offset of the newest record of each key: what a cleaner asks to find the records that later ones supersede.
#![tactic(auto)]

mod batches;
mod keys;

pub use keys::NewestKeys;
