//! The directory in which a broker keeps what it acknowledged.
#![tactic(auto)]

mod cleanings;
mod directory;
mod folder;
mod names;

pub use cleanings::{Cleanings, KeepsCleanings};
pub use directory::{Directory, Kind};
pub use folder::{Folder, FolderError};
pub use names::Name;
