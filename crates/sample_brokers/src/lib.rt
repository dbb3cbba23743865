//! Brokers for tests, and what they are asked: a broker of two topics, one of small ones, and requests with the responses to
//! them.
#![tactic(auto)]

pub mod brokers;
pub mod exchanges;
pub mod small;
pub mod stores;
