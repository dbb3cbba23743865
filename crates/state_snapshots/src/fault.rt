//! Why what a snapshot holds isn't put in place.

ghost use Rattle.std.specs.Prelude.{◌≡◌};
ghost use Rattle.state_snapshots.specs.declared.fault.RestoreFault.TheVariants.{OnDisk};
ghost use Rattle.state_snapshots.specs.Faults.{read_fault};

use broker_state::RestoreError;
use copy_images::ImageError;
use journal::ReadError;
use std::io;
use thiserror::Error;

/// What is wrong with an image of a snapshot, or with what stands behind the last one.
#[derive(Clone, Copy, Debug, PartialEq, Eq, Error)]
pub enum ImageFault {
    /// The head says that the image has a negative number of bytes. The offset is where it should begin.
    #[error("BadSize")]
    BadSize,
    /// The file ends before the image does. The offset is the end of the file.
    #[error("Short")]
    Short,
    /// The bytes are no image. The offset is that of its first byte.
    #[error("{0}")]
    Image(ImageError),
    /// Bytes stand behind the last image, from the offset on.
    #[error("Behind")]
    Behind,
}

/// Why what a snapshot holds isn't put in place: the first fault. One partition after the other is judged, in the order
/// of the head: whether its size is negative, whether the file ends before its image does, whether the bytes can be
/// read and are an image, and whether the broker takes the copy. Then comes the end of the file, and the next producer
/// id at last.
#[derive(Clone, Copy, Debug, Error)]
pub enum RestoreFault {
    /// There is no memory for an image, or for the copy that it is of.
    #[error("OutOfMemory")]
    OutOfMemory,
    /// The disk failed.
    #[error("OnDisk")]
    OnDisk(io::Error),
    /// A broker didn't write what stands at an offset of the file.
    #[error("Damaged {at} {why}")]
    Damaged { at: u64, why: ImageFault },
    /// The broker doesn't take the copy whose image is at an offset of the file.
    #[error("Refused {at} {why}")]
    Refused { at: u64, why: RestoreError },
    /// The next producer id lies below the first one that the broker was set up to give out.
    #[error("EarlyProducer")]
    EarlyProducer,
}

impl From<io::Error> for RestoreFault {
    ghost from_gives = { λ error e. e ≡ OnDisk error };

    fn from(error: io::Error) -> RestoreFault {
        RestoreFault::OnDisk(error)
    }
}

impl From<ReadError> for RestoreFault {
    ghost from_gives = { λ error e. e ≡ read_fault error };

    fn from(error: ReadError) -> RestoreFault {
        match error {
            ReadError::OutOfMemory => RestoreFault::OutOfMemory,
            ReadError::OnDisk(error) => RestoreFault::OnDisk(error),
        }
    }
}
