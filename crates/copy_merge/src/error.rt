//! Why two copies are not merged.

use thiserror::Error;

/// Why two copies are not merged: the first of these that applies, in the order of the variants.
#[derive(Clone, Copy, Debug, PartialEq, Eq, Error)]
pub enum MergeError {
    /// The copies are not of one log: at this base offset, the least one, one keeps a batch that begins
    /// below the greater start and doesn't end below it; or, from that start on, both keep batches with
    /// different heads or with different records at one offset, or one keeps a batch of whose span the
    /// other has seen a part.
    #[error("Disagree {base}")]
    Disagree {
        /// The base offset of a batch that one of the two keeps.
        base: i64,
    },
    /// There is no memory for the merged copy.
    #[error("OutOfMemory")]
    OutOfMemory,
}
