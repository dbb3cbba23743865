//! The tests, and what they share, a file for each.

mod copies;
mod event_memory;
mod events;
mod exact_deltas;
mod leading;
mod lists_memory;
mod made_deltas;
mod memory;
mod merging;
mod outside;
mod parts;
mod run_memory;
mod stores;
mod taken_deltas;
