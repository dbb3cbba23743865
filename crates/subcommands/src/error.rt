//! Why a subcommand did not do what it was asked for.

use crate::merge_fault::MergeFault;
use batch_codec::BatchError;
use broker_core::SessionError;
use partition_log::DeliverError;
use thiserror::Error;

/// Why a batch is refused, as bytes or by the copy.
#[derive(Clone, Copy, Debug, PartialEq, Eq, Error)]
pub enum Refusal {
    /// The bytes are not a batch.
    #[error(transparent)]
    View(BatchError),
    /// The copy doesn't take the batch.
    #[error(transparent)]
    Deliver(DeliverError),
}

/// Why no table was printed.
#[derive(Clone, Copy, Debug, PartialEq, Eq, Error)]
pub enum TableError {
    /// The batch with this number, from 0, is refused.
    #[error("batch {index}: {why}")]
    Batch { index: u64, why: Refusal },
    /// The input couldn't be read, or it didn't end within 2^32 reads.
    #[error("read failed")]
    Read,
    /// The lines couldn't be written.
    #[error("write failed")]
    Write,
    /// There is no memory for a batch, for the table or for the bytes between; or 2^64 batches came.
    #[error("out of memory")]
    OutOfMemory,
}

/// Why a session, or a broker that listens, stopped.
#[derive(Debug, Drop, Error)]
pub enum SessionFault {
    /// The input ended, and the last frame isn't complete.
    #[error("input ends inside a frame")]
    EndsInside,
    /// It stopped before the end.
    #[error(transparent)]
    Stopped(SessionError),
}

/// Why no image was written.
#[derive(Clone, Copy, Debug, PartialEq, Eq, Error)]
pub enum ImagesError {
    /// The images are refused; never for memory.
    #[error(transparent)]
    Images(MergeFault),
    /// The input couldn't be read, or it didn't end within 2^32 reads.
    #[error("read failed")]
    Read,
    /// The image couldn't be written.
    #[error("write failed")]
    Write,
    /// There is no memory for the input, for the copies, or for their image.
    #[error("out of memory")]
    OutOfMemory,
}
