//! What may happen in a cluster, and what comes of it.

use batch_codec::BatchError;
use content::{CleanReport, CleaningPart, Delivered};
use partition_log::{AppendError, TrimError};
use std::alloc::{AllocError, Allocator};
use thiserror::Error;

/// One event: it happens whole, or it is refused and changes nothing. Copies, batches and images are
/// numbered from 0; copy 0 is the leader's.
#[derive(Drop)]
pub enum Event<A: Allocator + Copy> {
    /// A batch is sent to the leader.
    Produce {
        /// The batch's encoding.
        bytes: Vec<u8, A>,
    },
    /// A batch that the leader appended is delivered to a follower.
    Deliver {
        /// The follower, from 1 on.
        copy: usize,
        /// The batch, in the order in which they were appended.
        batch: usize,
    },
    /// A copy is cleaned.
    Clean {
        /// The copy.
        copy: usize,
        /// Batches whose last offset is below this are cleaned; any number.
        upto: i64,
        /// Tombstones whose offset is below this may go; any number.
        tomb_before: i64,
    },
    /// A part of a copy is cleaned.
    CleanPart {
        /// The copy.
        copy: usize,
        /// The part; its bounds may be any numbers.
        part: CleaningPart,
    },
    /// A copy is written as an image, which is kept.
    Send {
        /// The copy.
        copy: usize,
    },
    /// An image is merged into a follower.
    Merge {
        /// The follower, from 1 on.
        copy: usize,
        /// The image, in the order in which they were sent.
        image: usize,
    },
    /// A copy's start moves up: it drops what lies below.
    Trim {
        /// The copy.
        copy: usize,
        /// The log start offset that it gets; any number.
        start: i64,
    },
}

/// What came of an event that was not refused.
#[derive(Clone, Copy, PartialEq, Eq)]
pub enum Outcome {
    /// What came of a batch that was sent to the leader.
    Based {
        /// The offset of its first record.
        base: i64,
        /// Whether it had been appended before, and nothing changed.
        repeat: bool,
    },
    /// What came of a delivery.
    Delivered(Delivered),
    /// What a cleaning took away.
    Cleaned(CleanReport),
    /// An image is kept.
    Sent {
        /// Its number.
        image: usize,
    },
    /// An image was merged.
    Merged,
    /// A copy has the start that was asked.
    Trimmed,
}

/// Why an event is refused: the first of these that applies, in the order of the variants.
#[derive(Clone, Copy, Debug, PartialEq, Eq, Error)]
pub enum EventError {
    /// There is no such copy.
    #[error("NoCopy")]
    NoCopy,
    /// The leader's copy takes no deliveries and no merges.
    #[error("LeaderCopy")]
    LeaderCopy,
    /// No batch with this number was appended.
    #[error("NoBatch")]
    NoBatch,
    /// No image with this number was sent.
    #[error("NoImage")]
    NoImage,
    /// The bytes do not begin with a batch.
    #[error(transparent)]
    BadBatch(BatchError),
    /// Bytes follow the batch.
    #[error("Extra")]
    Extra,
    /// The leader refuses the batch.
    #[error(transparent)]
    Append(AppendError),
    /// The copy's start can't be the one that was asked.
    #[error(transparent)]
    Trim(TrimError),
    /// There is no memory for the event, or the copy that is sent has more than 2^31 - 1 ranges or batches.
    #[error("OutOfMemory")]
    OutOfMemory,
}

/// Why a cluster can't be made.
#[derive(Clone, Copy, Debug, PartialEq, Eq, Error)]
pub enum ClusterError {
    /// A cluster has from 1 to [`MAX_COPIES`](crate::MAX_COPIES) copies.
    #[error("BadCopies")]
    BadCopies,
    /// There is no memory for the copies.
    #[error("OutOfMemory")]
    OutOfMemory,
}
