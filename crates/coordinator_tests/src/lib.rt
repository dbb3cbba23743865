//! Tests of the coordinator of groups: moves worked by hand, a plain model beside it, and each allocation refused.
#![tactic(auto)]

#[cfg(test)]
mod tests;
