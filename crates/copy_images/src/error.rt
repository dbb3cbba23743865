//! Why bytes are refused as an image.

use thiserror::Error;

/// Why bytes are not an image: the first fault in the order of the checks. That is the order of the
/// variants, but that after `BadCrc` the log start is judged first (`BadCover`), then whether the count of
/// ranges is there (`Short`), then whether it is negative (`BadCover`), then whether the ranges are all
/// there (`Short`), then the ranges. The batches are judged one after the other, each for `BadBatch` and
/// then for `Outside`.
#[derive(Clone, Copy, Debug, PartialEq, Eq, Error)]
pub enum ImageError {
    /// There are under 18 bytes, or fewer than the count of ranges, the ranges, the count of batches and
    /// the crc take.
    #[error("Short")]
    Short,
    /// The first four bytes are not `KCPY`.
    #[error("BadMark")]
    BadMark,
    /// The version is neither 0 nor 1.
    #[error("BadVersion")]
    BadVersion,
    /// The last four bytes are not the crc of those before them.
    #[error("BadCrc")]
    BadCrc,
    /// The log start lies below 0 or above 2^62, the count of ranges is negative, or the ranges are not
    /// the maximal ranges of a set of offsets from the log start to 2^62 - 1.
    #[error("BadCover")]
    BadCover,
    /// There is no valid batch at this index, from 0: it is missing or refused, a record's key is null,
    /// an offset lies below 0 or above 2^62 - 1, or the base is not above the offsets of the batch
    /// before. A negative count of batches is a bad batch 0.
    #[error("BadBatch {0}")]
    BadBatch(u32),
    /// An offset of a batch's span lies in none of the ranges.
    #[error("Outside")]
    Outside,
    /// Bytes stand between the last batch and the crc.
    #[error("Extra")]
    Extra,
    /// The bytes are an image, and there is no memory for the copy.
    #[error("OutOfMemory")]
    OutOfMemory,
}
