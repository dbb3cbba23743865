//! The start of a broker whose changes are kept in a directory.
//!
//! [`start`] reads and judges all that is there, and handles the journal's frames again, before a byte changes. Then it
//! cuts what a crash left behind the last sound group, and gives the broker; or it makes the files of a directory that
//! has none. A directory that it doesn't take is refused by a [`StartFault`], and stays as it was.
//!
//! The files of a directory are `snapshot.N`, of what a broker held once, and journals in a row from `journal.N` on, of all
//! that may have changed it since. New ones are made in this order: the journal's head, then the snapshot under the name
//! `snapshot.tmp`, which it loses once it is on the disk. So where a snapshot stands its journal is whole, and a
//! journal without a group and without any snapshot is one that was being made.
//!
//! The head of a journal says the number, the key and the size of the one before it, and that of a snapshot the key of the
//! journal of its number. Files that don't follow one another so are refused. Files of version 0 say nothing of it: of them the
//! numbers alone are asked for.
//!
//! [`check`] reads a directory as a start does, and tells what each file is; it changes nothing.
//!
//! What a listener needs of the crates below is handed on.
#![tactic(auto)]

mod checking;
mod configuration;
mod faults;
pub mod laws;
mod making;
mod offsets;
mod places;
mod reading;
mod recovering;
mod snapshot;
mod standing;
mod starting;
mod telling;

pub use broker_state::{Config, ConfigError, Place, Role, TopicConfig};
pub use checking::{Checked, check};
pub use data_directory::{Directory, Folder, FolderError, Kind, Name};
pub use faults::{Damage, LaterWhy, StartFault};
pub use journal::layout::KEY_SIZE;
pub use journal::{Disk, FileDisk, JournalError};
pub use kept_rotations::{
    Answer, CommitError, Done, GROUP_TOPIC, Keeper, KeptFiles, MEANING, Missed, Node, Put,
    Rotation, RotationFault, Sent, Taken, Unwatched, sessions,
};
pub use snapshot_drafts::DraftFile;
pub use starting::{Found, Keeping, Started, start};
pub use telling::{FileFound, Watching, What};
