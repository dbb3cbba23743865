//! Why a delta is not taken.

use thiserror::Error;

/// Why a copy does not take bytes as a delta: the first of these that applies. The faults of the bytes come
/// first, in the order of their checks. That is the order of the variants, but that after `BadCrc` the
/// sender's log start is judged first (`BadCover`); then the sender's ranges and after them the asked ones,
/// of each list whether its count is there (`Short`), whether it is negative (`BadCover`), whether the list
/// and what has to follow it are all there (`Short`), and the ranges; then the entries one after the other,
/// each for `BadBatch` and then for `Outside`.
#[derive(Clone, Copy, Debug, PartialEq, Eq, Error)]
pub enum PatchError {
    /// There are under 22 bytes, or fewer than the front, both lists of ranges, the count of entries and the crc
    /// take.
    #[error("Short")]
    Short,
    /// The first four bytes are not `KDLT`.
    #[error("BadMark")]
    BadMark,
    /// The version is neither 0 nor 1.
    #[error("BadVersion")]
    BadVersion,
    /// The last four bytes are not the crc of those before them.
    #[error("BadCrc")]
    BadCrc,
    /// The sender's log start lies below 0 or above 2^62, a count of ranges is negative, or ranges are not
    /// the maximal ranges of a set of offsets up to 2^62 - 1: the sender's from its log start on, the asked
    /// ones from 0 on.
    #[error("BadCover")]
    BadCover,
    /// There is no valid entry at this index, from 0: its kind is another, it is cut, its offsets do not
    /// rise from its base on, its batch is refused, has a null key or offsets below 0 or above 2^62 - 1, or it
    /// does not lie behind the entry before it. A negative count is a bad entry 0.
    #[error("BadBatch {0}")]
    BadBatch(u32),
    /// An entry tells of an offset that the sender has not seen, or sends a batch whose span has an asked
    /// one.
    #[error("Outside")]
    Outside,
    /// Bytes stand between the last entry and the crc.
    #[error("Extra")]
    Extra,
    /// The bytes are a delta, and an offset that was asked is neither one that the copy has seen nor below
    /// its start.
    #[error("NotFor")]
    NotFor,
    /// The copy knows all that was asked, and the delta does not fit it: at this base offset, the least one, a
    /// batch of the copy or a sent one stands in the way of a merge, or offsets are listed that the copy can't
    /// have had: of a batch that it has not seen, behind the end of the batch that it keeps there, or from its
    /// start on at a base below it.
    #[error("Disagree {base}")]
    Disagree {
        /// The base offset of a batch that the copy keeps, or of an entry.
        base: i64,
    },
    /// The copy may take the delta, and there is no memory for it.
    #[error("OutOfMemory")]
    OutOfMemory,
}
