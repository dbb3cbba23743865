//! Tests of the public calls of numbers, checksums, batches, covered offsets, lists of batches, producers'
//! windows, copies, a leader's log and committed offsets, a file for each call or subject.
#![tactic(auto)]

#[cfg(test)]
mod tests;
