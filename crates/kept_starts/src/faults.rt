//! Why a broker doesn't start with a directory.

ghost use Rattle.kept_starts.specs.Refusals.{IsFailure};

use broker_state::{ConfigError, RestoreError, Role};
use data_directory::Name;
use journal::{OpenError, ReadError};
use kept_rotations::ReplayError;
use snapshots::SnapshotError;
use state_snapshots::ImageFault;
use std::alloc::{AllocError, Allocator};
use std::io::{Error, ErrorKind};
use thiserror::Error;

/// Why a broker doesn't start with a directory. Nothing in the directory has changed, but where a call failed or memory lacked.
#[derive(Drop)]
pub enum StartFault<A: Allocator> {
    /// A broker didn't write these bytes.
    Damaged {
        name: Name,
        /// The byte offset in the file.
        at: u64,
        why: Damage,
    },
    /// A later program wrote the file: its form isn't known, or what its frames mean.
    Later(Name, LaterWhy),
    /// A file isn't there, though others are.
    Missing(Name),
    /// What has the name is no regular file.
    NotRegular(Name),
    /// The first of these files is of another directory than the second: what it says of that isn't so.
    OfAnother(Name, Name),
    /// The directory is that of a broker with another role.
    OtherRole(Role),
    /// The directory has so many partitions of the topic, and fewer are asked for, or none.
    OtherTopic {
        name: Vec<u8, A>,
        partitions: usize,
    },
    /// The configuration is refused.
    Configuration(ConfigError),
    /// There is no memory.
    OutOfMemory,
    /// A call of the system failed: of a file, or of the directory; or a file of this start's own isn't what was made.
    Failed(Option<Name>, Error),
}

/// What is known of a file that a later program wrote.
#[derive(Clone, Copy, Debug, PartialEq, Eq, Error)]
pub enum LaterWhy {
    /// Its version is another one.
    #[error("BadVersion")]
    BadVersion,
    /// The definitions by which its frames were handled have another meaning.
    #[error("BadMeaning")]
    BadMeaning,
}

/// What is wrong with a file.
#[derive(Debug, Drop, Error)]
pub enum Damage {
    /// The head of a journal.
    #[error("{0}")]
    Journal(OpenError),
    /// The head of a snapshot.
    #[error("{0}")]
    Snapshot(SnapshotError),
    /// The number isn't that of the file's name.
    #[error("BadNumber")]
    BadNumber,
    /// The role is neither a leader's nor a follower's.
    #[error("BadRole")]
    BadRole,
    /// No broker can have these topics.
    #[error("BadTopics")]
    BadTopics,
    /// What should be the image of a partition, or what follows the last one.
    #[error("{0}")]
    Image(ImageFault),
    /// The copy that an image is of isn't one that the broker can have.
    #[error("{0}")]
    Copy(RestoreError),
    /// The next producer id lies below the first one.
    #[error("EarlyProducer")]
    EarlyProducer,
    /// A sound group has a frame that isn't handled again.
    #[error("{0}")]
    Frame(ReplayError),
    /// No sound group stands there, though one behind it says that more was on the disk.
    #[error("LaterSync")]
    LaterSync,
    /// No sound group stands there, though another journal follows.
    #[error("LaterJournal")]
    LaterJournal,
    /// The journal ends elsewhere than the one behind it says.
    #[error("LaterHead")]
    LaterHead,
}

impl<A: Allocator> From<AllocError> for StartFault<A> {
    fn from(_: AllocError) -> StartFault<A> {
        StartFault::OutOfMemory
    }
}

/// What it means that a call failed.
pub(crate) fn failed<A: Allocator>(name: Option<Name>, why: Error) -> StartFault<A>
    ensures { IsFailure result }
{
    match why.kind() {
        ErrorKind::OutOfMemory => StartFault::OutOfMemory,
        _ => StartFault::Failed(name, why),
    }
}

/// What it means that a file can't be read.
pub(crate) fn unread<A: Allocator>(name: Name, why: ReadError) -> StartFault<A> {
    match why {
        ReadError::OutOfMemory => StartFault::OutOfMemory,
        ReadError::OnDisk(why) => failed(Some(name), why),
    }
}

/// What a fault means of files that this start made itself: it is no refusal, as the system gives other bytes than were written.
pub(crate) fn as_failure<A: Allocator>(why: StartFault<A>) -> StartFault<A>
    ensures { IsFailure result }
{
    let name = match why {
        StartFault::OutOfMemory => return StartFault::OutOfMemory,
        StartFault::Failed(name, why) => return StartFault::Failed(name, why),
        StartFault::Damaged {
            name,
            at: _,
            why: _,
        } => Some(name),
        StartFault::Later(name, _)
        | StartFault::Missing(name)
        | StartFault::NotRegular(name)
        | StartFault::OfAnother(name, _) => Some(name),
        StartFault::OtherRole(_)
        | StartFault::OtherTopic {
            name: _,
            partitions: _,
        }
        | StartFault::Configuration(_) => None,
    };
    StartFault::Failed(name, Error::from(ErrorKind::InvalidData))
}
