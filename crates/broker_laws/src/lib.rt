//! Laws of the definitions that a broker goes by, and the definitions worked out on a small one. The
//! functions do nothing: what they ensure is the law, or the example.
#![tactic(auto)]

pub mod examples;
mod laws;

pub use laws::{
    a_request_changes_only_its_places, answered_snoc, answers_function, any_version_is_answered,
    append_faults, effects_are_told_apart, one_content_changes, producer_ids_are_in_a_row,
    replies_fit,
};
