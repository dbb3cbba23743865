//! Snapshots of what a broker holds, written and read back image by image: there is never a second copy of the whole.
//!
//! [`write_snapshot`] appends the snapshot of a broker to a file. [`restore_snapshot`] reads the images behind a head
//! that was judged before, and puts each in the place of what a partition holds. [`laws`] say that what was written is
//! read back.
//!
//! The form of a snapshot is in docs/FORMATS.md; `specs/` says which bytes are that of a broker's state, what it means
//! that they were put back, and what each refusal means.
#![tactic(auto)]

mod error;
mod fault;
mod head;
pub mod laws;
mod restoring;
mod writing;

pub use error::WriteError;
pub use fault::{ImageFault, RestoreFault};
pub use head::{head_of, role_number};
pub use restoring::{ImageWatch, restore_snapshot};
pub use writing::write_snapshot;
