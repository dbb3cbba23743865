//! Why a connection ended, as its line says it.

use frame_fields::FrameError;
use kept_starts::sessions::{Session, Why};
use std::alloc::Global;
use std::fmt;
use std::io::ErrorKind;
use std::net::SocketAddr;
use thiserror::Error;

/// Why a connection ended.
#[derive(Debug, Drop, Error)]
pub(crate) enum Ending {
    /// The client sends no more, and the last frame was complete.
    #[error("end")]
    Input,
    /// The client sends no more, and the frame with this number isn't complete.
    #[error("end within frame {0}")]
    Within(u64),
    #[error("read failed: {0}")]
    Read(ErrorKind),
    #[error("write failed: {0}")]
    Write(ErrorKind),
    /// A frame is refused for its size, or has no room for a header.
    #[error("frame {index}: {why}")]
    Size {
        index: u64,
        why: FrameError,
    },
    /// A frame is refused for what stands in it.
    #[error("frame {index}: {why} (key {key}, version {version})")]
    Frame {
        index: u64,
        why: FrameError,
        key: i16,
        version: i16,
    },
    #[error("out of memory")]
    OutOfMemory,
    /// No frame was answered and no byte left for so many seconds.
    #[error("idle for {0} s")]
    Idle(u64),
    /// All connections held too much, those of its address the most, and this one the most of these.
    #[error("most held")]
    MostHeld,
    /// Its address had as many connections as it may have.
    #[error("most per address")]
    MostPerAddress,
}

/// A connection that has ended.
#[derive(Drop)]
pub(crate) struct Ended {
    pub(crate) number: u64,
    pub(crate) address: SocketAddr,
    pub(crate) why: Ending,
}

impl fmt::Display for Ended {
    fn fmt<W: fmt::Write>(&self, f: &mut fmt::Formatter<W>) -> fmt::Result {
        write!(
            f,
            "connection {} {}: {}",
            self.number, self.address, self.why
        )
    }
}

/// Why a frame was refused, with the key and the version of its header where the size is right and a
/// header is there.
fn refusal(session: &Session<Global>, why: FrameError) -> Ending {
    let index = session.answered();
    match (&why, session.header()) {
        (FrameError::NegativeSize | FrameError::TooLarge | FrameError::ShortHeader, _)
        | (_, None) => Ending::Size { index, why },
        (_, Some((key, version))) => Ending::Frame {
            index,
            why,
            key,
            version,
        },
    }
}

/// What a session's end is called.
pub(crate) fn ending_of(session: &Session<Global>, why: Why) -> Ending {
    match why {
        Why::End if session.held() == 0 => Ending::Input,
        Why::End => Ending::Within(session.answered()),
        Why::Read(kind) => Ending::Read(kind),
        Why::Write(kind) => Ending::Write(kind),
        Why::Frame(FrameError::OutOfMemory) | Why::OutOfMemory => Ending::OutOfMemory,
        Why::Frame(why) => refusal(session, why),
    }
}
