//! Two directories in memory, for tests. Of the one a call can fail, and what a crash leaves of it is told ([`Store`],
//! [`MemoryDirectory`]). Of the other one the names are known, so each clause on the names of a directory says something of
//! it, and is proved ([`KnownDirectory`]).
#![tactic(auto)]

mod known_directory;
mod memory_directory;
mod stored_files;
mod stored_names;

pub use known_directory::KnownDirectory;
pub use memory_directory::{MemoryDirectory, MemoryFile, Store, Way};
pub use stored_files::Left;
