//! Why two images are not merged.

use copy_images::ImageError;
use thiserror::Error;

/// Why two images are not merged: the first of these that applies, in the order of the variants, though
/// memory may be missing before a fault of the second image or of the merge is found.
#[derive(Clone, Copy, Debug, PartialEq, Eq, Error)]
pub enum MergeFault {
    /// The first image is refused; `Short` also where its size is missing, negative, or past the end.
    #[error("A: {0}")]
    First(ImageError),
    /// Likewise the second; `Extra` also where bytes follow it.
    #[error("B: {0}")]
    Second(ImageError),
    /// The images are of copies that are not of one log: at this base offset, the least one, they
    /// disagree.
    #[error("Disagree {base}")]
    Disagree {
        /// The base offset of a batch that one of the two keeps.
        base: i64,
    },
    /// There is no memory for the copies or for their image.
    #[error("out of memory")]
    OutOfMemory,
}
