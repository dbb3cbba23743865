//! Why bytes are no file of marks.

use thiserror::Error;

/// Why bytes are no file of marks. The variants come in the order of the checks.
#[derive(Clone, Copy, Debug, Drop, Error, PartialEq, Eq)]
pub enum MarksError {
    /// The bytes end before the fields begin.
    #[error("Short")]
    Short,
    /// The mark is another one.
    #[error("BadMark")]
    BadMark,
    /// The version is one that this program doesn't know.
    #[error("BadVersion")]
    BadVersion,
    /// The crc is not that of the bytes.
    #[error("BadCrc")]
    BadCrc,
    /// The fields are malformed, or bytes stand behind them.
    #[error("BadFields")]
    BadFields,
    /// The fields of a mark say neither that it is there nor that it isn't.
    #[error("BadMarks")]
    BadMarks,
}
