//! Laws of cleaning: on a broker that takes no other log's batches, cleaning changes no reply but those that
//! are read of which records are kept. The functions do nothing: what they ensure is the law.
#![tactic(auto)]

mod laws;

pub use laws::{
    a_new_broker_holds_copies_of_the_logs, an_answer_with_memory_is_the_reply,
    brokers_of_the_same_logs_answer_alike, cleaning_changes_no_answer, cleaning_changes_no_reply,
    cleaning_keeps_the_logs, parts_leave_what_one_clean_leaves,
};
