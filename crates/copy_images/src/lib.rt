//! Images of copies of a partition: a copy as bytes, to be kept in a file or sent.
//!
//! [`write_image`] makes the image of a copy, and [`read_image`] makes the copy of an image. Each copy
//! has one image of version 1, which is written; of a copy that starts at 0 there is one of version 0
//! too, which is read. Bytes that are not an image are refused for the first fault that stands in them.
//!
//! ```
//! let image = write_image(alloc, &copy)?;
//! let same = read_image::<ProgramStore<_>>(alloc, &image)?;
//! ```
#![tactic(auto)]

pub mod batches;
mod build;
mod error;
pub mod fields;
pub mod front;
pub mod laws;
pub mod layout;
pub mod ranges;
mod read;
mod write;

pub use error::ImageError;
pub use partition_log::{KeptWalk, PartitionLog};
pub use read::read_image;
pub use write::{has_image_within, image_into, image_size, write_image};
