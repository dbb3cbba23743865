//! The tests, and what they share, a file for each.

mod cutting;
mod entry_memory;
mod handled_alike;
mod new_brokers;
mod one;
mod parts;
mod refusing;
mod request_memory;
mod runs;
mod writing;
