//! Tests of what is known of how far a copy was cleaned.
#![tactic(auto)]

#[cfg(test)]
mod tests;
