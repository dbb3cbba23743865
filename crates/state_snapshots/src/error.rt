//! Why a snapshot isn't written.

ghost use Rattle.std.specs.Prelude.{◌≡◌};
ghost use Rattle.state_snapshots.specs.declared.error.WriteError.TheVariants.{OnDisk, OutOfMemory};

use std::alloc::AllocError;
use std::io;
use thiserror::Error;

/// Why a snapshot isn't written.
#[derive(Clone, Copy, Debug, Error)]
pub enum WriteError {
    /// There is no memory for the head, or for an image.
    #[error("OutOfMemory")]
    OutOfMemory,
    /// The disk failed.
    #[error("OnDisk")]
    OnDisk(io::Error),
}

impl From<AllocError> for WriteError {
    ghost from_gives = { λ _ e. e ≡ OutOfMemory };

    fn from(_: AllocError) -> WriteError {
        WriteError::OutOfMemory
    }
}

impl From<io::Error> for WriteError {
    ghost from_gives = { λ error e. e ≡ OnDisk error };

    fn from(error: io::Error) -> WriteError {
        WriteError::OnDisk(error)
    }
}
