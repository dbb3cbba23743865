//! Why a draft doesn't go on.

ghost use Rattle.std.specs.Prelude.{◌≡◌};
ghost use Rattle.snapshot_drafts.specs.declared.error.DraftError.TheVariants.{OnDisk, OutOfMemory};

use std::alloc::AllocError;
use std::io;
use thiserror::Error;

/// Why a draft doesn't go on. It is to be thrown away then.
#[derive(Clone, Copy, Debug, Error)]
pub enum DraftError {
    /// There is no memory for the head, for what is noted of each partition, or for an image.
    #[error("OutOfMemory")]
    OutOfMemory,
    /// An image has another size than when the draft began: the partition has changed since. Nothing was written.
    #[error("OtherSize")]
    OtherSize,
    /// The image of some partition isn't written yet.
    #[error("Unfinished")]
    Unfinished,
    /// The disk failed.
    #[error("OnDisk")]
    OnDisk(io::Error),
}

impl From<AllocError> for DraftError {
    ghost from_gives = { λ _ e. e ≡ OutOfMemory };

    fn from(_: AllocError) -> DraftError {
        DraftError::OutOfMemory
    }
}

impl From<io::Error> for DraftError {
    ghost from_gives = { λ error e. e ≡ OnDisk error };

    fn from(error: io::Error) -> DraftError {
        DraftError::OnDisk(error)
    }
}
