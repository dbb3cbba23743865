//! What a cleaning policy's frames do to a partition, key by key: the bridge from the law on frames of `cleaning_policy` to
//! contents, by the definitions of `content` alone.
//!
//! The functions do nothing: each clause is a law.
#![tactic(auto)]

pub mod laws;
