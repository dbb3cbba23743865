//! Tests of merges, images and deltas of copies and of clusters, a file for each subject.
#![tactic(auto)]

#[cfg(test)]
mod tests;
