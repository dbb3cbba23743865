//! A broker and the sessions of many clients, whose changes are kept in a journal.
//!
//! What may have changed the broker is noted frame by frame, in the order in which it was handled
//! ([`FrameNotes`]); frames that are handled again lead to the same state ([`replay`]). So a start reads the journal,
//! handles its frames again ([`recover`]), and goes on with it ([`resume`]). A frame of which for want of memory nothing was
//! done is noted nowhere. Where one was done in part, nothing goes on, since handling it again may lead to another state.
//!
//! While what the broker holds is written elsewhere, partition by partition, the frames go to another journal
//! ([`Keeper::switch`]), and the partitions that aren't written yet are barred ([`Keeper::raise_barrier`]): a frame that may
//! change one is put off until that one is written and [lifted](Keeper::lift). Until then a barred partition holds what it
//! held.
#![tactic(auto)]

mod barrier;
mod keeper;
pub mod laws;
mod notes;
mod recovering;
mod replaying;

pub use keeper::{CommitError, Keeper, Sent};
pub use notes::FrameNotes;
pub use recovering::{RecoverError, ResumeError, Unwatched, Watch, recover, resume};
pub use replaying::{ReplayError, replay};
pub use sessions;
pub use sessions::{Answer, GROUP_TOPIC, Node};
