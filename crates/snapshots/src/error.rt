//! Why bytes are no head of a snapshot.

use thiserror::Error;

/// Why bytes don't begin with the head of a snapshot. The variants come in the order of the checks.
#[derive(Clone, Copy, Debug, Drop, Error, PartialEq, Eq)]
pub enum SnapshotError {
    /// The bytes end before the head does.
    #[error("Short")]
    Short,
    /// The mark is another one.
    #[error("BadMark")]
    BadMark,
    /// The version is one that this program doesn't know.
    #[error("BadVersion")]
    BadVersion,
    /// The size of the fields is negative.
    #[error("BadSize")]
    BadSize,
    /// The crc is not that of the head.
    #[error("BadCrc")]
    BadCrc,
    /// The fields are malformed, or bytes stand behind them.
    #[error("BadFields")]
    BadFields,
}
