//! Rotations: the journal of a broker goes on in a new file, a snapshot of what the broker held then is written while
//! clients go on, and once it has its name, the files that it takes the place of are removed.
//!
//! A [`Rotation`] makes one step at a time, each behind a round of the broker: at most one image is written, or one piece of
//! an old file removed. In between, a frame that may change a partition whose image isn't written yet is put off by the
//! [`Keeper`](kept_sessions::Keeper), and that partition's image is written next.
//!
//! A group that doesn't fit beside a snapshot that is being written has this given up ([`Rotation::put_group`]).
//!
//! What a start needs of the crates below is handed on.
#![tactic(auto)]

mod drafting;
mod dropping;
mod faults;
mod files;
mod folding;
pub mod laws;
mod opening;
mod putting;
mod rotation;
mod timing;
mod whole;

pub use faults::{Done, FoldFault, Missed, RotationFault, Taken};
pub use files::KeptFiles;
pub use kept_sessions::{
    Answer, CommitError, GROUP_TOPIC, Keeper, Node, RecoverError, ReplayError, ResumeError, Sent,
    Unwatched, Watch, recover, resume, sessions,
};
pub use opening::{MEANING, make_journal, remove_if_there};
pub use putting::Put;
pub use rotation::Rotation;
pub use whole::{id_of, write_whole};
