//! What holds of members of consumer groups, whatever they ask and whenever. The functions do nothing; their clauses
//! are the laws.
#![tactic(auto)]

mod apart;
mod generations;
mod members;
mod replies;
mod soundness;
mod standing;
mod times;

pub use apart::others_are_left;
pub use generations::{a_generation_is_one, generations_have_numbers, leaders_give_the_parts};
pub use members::{an_id_is_one_members, who_left_commits_nothing, who_left_stays_gone};
pub use replies::{
    a_request_waits_once, all_are_told_the_same, an_end_leaves_nothing, each_request_has_one_reply,
    joins_tell_of_a_generation,
};
pub use soundness::groups_are_sound;
pub use standing::{commits_are_admitted, heartbeats_are_done};
pub use times::{nobody_waits_too_long, nothing_expires_before};
