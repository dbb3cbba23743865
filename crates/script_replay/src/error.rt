//! Why a script stops.

use thiserror::Error;

/// Why a script stopped before its end.
#[derive(Clone, Copy, Debug, PartialEq, Eq, Error)]
pub enum ReplayError {
    /// The line with this number, from 1, is none of a script's. The lines before it were done.
    #[error("line {line}: bad line")]
    BadLine {
        /// The line's number; empty lines are counted.
        line: u64,
    },
    /// There is no memory for a line, for an event, or for what is printed.
    #[error("out of memory")]
    OutOfMemory,
    /// The script couldn't be read, or it didn't end within 2^32 reads.
    #[error("read failed")]
    Read,
    /// What came of an event couldn't be printed.
    #[error("write failed")]
    Write,
}
