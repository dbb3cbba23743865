//! The outcomes of a delivery.

use thiserror::Error;

/// What came of a delivery that was not refused.
#[derive(Clone, Copy, PartialEq, Eq)]
pub enum Delivered {
    /// The batch was added.
    Added,
    /// The copy had seen all of its offsets, or they lie below its start, and is as it was: offsets below
    /// the start count as seen.
    Repeat,
}

/// Why a copy refuses a batch: the first of these that applies, in the order of the variants.
#[derive(Clone, Copy, Debug, PartialEq, Eq, Error)]
pub enum DeliverError {
    /// A record of the batch's span is missing.
    #[error("NotWhole")]
    NotWhole,
    /// A record's key is null.
    #[error("NoKey")]
    NoKey,
    /// An offset of the span is below 0 or above 2^62 - 1.
    #[error("BadOffset")]
    BadOffset,
    /// Some of its offsets were seen, and some were not; those below the copy's start count as seen.
    #[error("Overlap")]
    Overlap,
    /// There is no memory to keep the batch.
    #[error("OutOfMemory")]
    OutOfMemory,
}
