//! The tests, and what they share, a file for each.

mod both_stores;
mod clients_memory;
mod command_lines;
mod copying;
mod failing_streams;
mod frames;
mod memory;
mod pieces;
mod script_memory;
mod served;
mod session_memory;
mod sinks;
mod sources;
mod table_memory;
