//! The statuses of the program.

ghost use Rattle.std.specs.Prelude.{◌≡◌};
ghost use Rattle.subcommands.specs.Status.{table_status, session_status, images_status, replay_status};

use crate::error::{ImagesError, SessionFault, TableError};
use broker_core::SessionError;
use script_replay::ReplayError;
use std::io::Write;

/// The status of a run that did what it was asked for.
pub const DONE: u8 = 0;
/// The status where the input is refused.
pub const REFUSED: u8 = 1;
/// The status of a faulty command line, and of a configuration that is refused.
pub const FAULTY: u8 = 2;
/// The status where there is no memory.
pub const NO_MEMORY: u8 = 3;
/// The status where a read or a write failed.
pub const FAILED: u8 = 4;

/// The status where there is no table.
pub(crate) fn table_status(why: TableError) -> u8
    ensures { result ≡ table_status why }
{
    match why {
        TableError::Batch { index: _, why: _ } => REFUSED,
        TableError::OutOfMemory => NO_MEMORY,
        TableError::Read | TableError::Write => FAILED,
    }
}

/// The status where no image was written.
pub(crate) fn images_status(why: ImagesError) -> u8
    ensures { result ≡ images_status why }
{
    match why {
        ImagesError::Images(_) => REFUSED,
        ImagesError::OutOfMemory => NO_MEMORY,
        ImagesError::Read | ImagesError::Write => FAILED,
    }
}

/// The status where a script stopped before its end.
pub(crate) fn replay_status(why: ReplayError) -> u8
    ensures { result ≡ replay_status why }
{
    match why {
        ReplayError::BadLine { line: _ } => REFUSED,
        ReplayError::OutOfMemory => NO_MEMORY,
        ReplayError::Read | ReplayError::Write => FAILED,
    }
}

/// The status where a session is no success.
fn session_status(why: &SessionFault) -> u8
    ensures { result ≡ session_status why.now }
{
    match why {
        SessionFault::EndsInside => REFUSED,
        SessionFault::Stopped(why) => match why {
            SessionError::Frame { index: _, why: _ } => REFUSED,
            SessionError::OutOfMemory => NO_MEMORY,
            SessionError::Read | SessionError::Write => FAILED,
        },
    }
}

/// Says on one line of `err` why a session is no success, and answers the status: 1 the input is refused,
/// 3 out of memory, 4 a read or a write failed.
pub fn fail_session<E: Write>(why: &SessionFault, err: &mut E) -> u8
    ensures { result ≡ session_status why.now }
{
    let _ = writeln!(err, "kbroker: {why}");
    session_status(why)
}
