//! Snapshots of what a broker holds that are written while it runs: image by image, in any order.
//!
//! The form of a snapshot is that of `state_snapshots`. All sizes are known when a [`Draft`] begins, so that each
//! image has its place in the file. A partition may change once its image is written; before that its image is
//! written first.
//!
//! ```
//! let mut draft = Draft::begin(alloc, FileDraft::new(file), id, &state)?;
//! while let Some(place) = draft.next() {
//!     let topic = &state.topics()[place.topic];
//!     draft.write(place, topic.partition_copy(place.partition), &mut buffer)?;
//! }
//! let file = draft.finish()?;
//! ```
//!
//! `specs/` has the definitions: read it in the order of `specs/Lib.antt`.
#![tactic(auto)]

mod beginning;
mod draft;
mod draft_file;
mod error;
mod file;
mod memory;
mod slots;
mod writing;

pub use beginning::snapshot_size;
pub use draft::Draft;
pub use draft_file::DraftFile;
pub use error::DraftError;
pub use file::FileDraft;
pub use memory::MemoryDraft;
