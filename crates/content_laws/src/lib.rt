//! The laws of copies, over the definitions of `content` alone: what may happen to a copy of a log
//! leaves it a copy of that log, and a copy shows the log's own table over what it has seen.
//!
//! The functions do nothing: each clause is a law.
#![tactic(auto)]

pub mod contents;
pub mod copies;
pub mod joins;
pub mod legal_logs;
pub mod lists;
pub mod parts;
pub mod producer_windows;
pub mod shown_tables;
