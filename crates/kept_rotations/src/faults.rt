//! What may keep a rotation from going on.

use data_directory::Name;
use journal::JournalError;
use snapshot_drafts::DraftError;
use std::alloc::AllocError;
use std::io::{self, Error, ErrorKind};

/// Why a broker can't go on: the journal can't be synced, or which journal its groups are to go to isn't certain.
#[derive(Drop)]
pub enum RotationFault {
    /// The journal took no sync.
    Journal(JournalError),
    /// A call of the directory failed behind which it isn't certain which files it has.
    Directory(Option<Name>, io::Error),
}

/// Why no snapshot was taken, or an old file not removed. The broker goes on, with the files that it has.
#[derive(Drop)]
pub enum Missed {
    /// There is no memory for it.
    OutOfMemory,
    /// A call failed on this file.
    Failed(Name, io::Error),
    /// What was to be written isn't what was begun.
    Unlike,
}

/// A snapshot that was taken.
#[derive(Clone, Copy)]
pub struct Taken {
    /// Its number.
    pub number: u64,
    /// How many bytes it has.
    pub size: u64,
    /// How many milliseconds it took.
    pub millis: u64,
}

/// What came of one step.
#[derive(Drop)]
pub struct Done {
    /// Why no snapshot was taken, or an old file not removed, if that came of it.
    pub missed: Option<Missed>,
    /// The snapshot that was taken, if it was whole with this step.
    pub taken: Option<Taken>,
}

/// Why a directory isn't folded into a snapshot.
#[derive(Drop)]
pub enum FoldFault {
    /// No snapshot was taken.
    Missed(Missed),
    /// The broker can't go on.
    Rotation(RotationFault),
}

impl From<RotationFault> for FoldFault {
    fn from(why: RotationFault) -> FoldFault {
        FoldFault::Rotation(why)
    }
}

impl From<AllocError> for Missed {
    fn from(_: AllocError) -> Missed {
        Missed::OutOfMemory
    }
}

/// The error by which something was missed.
pub(crate) fn error_of(why: Missed) -> io::Error {
    match why {
        Missed::OutOfMemory => Error::from(ErrorKind::OutOfMemory),
        Missed::Failed(_, error) => error,
        Missed::Unlike => Error::from(ErrorKind::Other),
    }
}

/// The error for which the broker is to end, where something failed behind which it isn't certain which names there are.
pub(crate) fn unsure_for(why: Missed) -> RotationFault {
    RotationFault::Directory(None, error_of(why))
}

/// What it means that a call on a file failed.
pub(crate) fn missed_for(name: Name, why: io::Error) -> Missed {
    match why.kind() {
        ErrorKind::OutOfMemory => Missed::OutOfMemory,
        _ => Missed::Failed(name, why),
    }
}

/// What it means that an image, or the head, wasn't written.
pub(crate) fn not_written(why: DraftError) -> Missed {
    match why {
        DraftError::OutOfMemory => Missed::OutOfMemory,
        DraftError::OnDisk(why) => missed_for(Name::Making, why),
        DraftError::OtherSize | DraftError::Unfinished => Missed::Unlike,
    }
}
