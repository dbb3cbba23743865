//! Why a list of ranges is refused.
use thiserror::Error;

/// Why a list of ranges is not that of a cover. The first range at fault decides, and within it the
/// first of these.
#[derive(Debug, Drop, Error)]
pub enum CoverError {
    /// A range ends below its start.
    #[error("EmptyRange")]
    EmptyRange,
    /// A range starts at most one past the end of an earlier one.
    #[error("NotRising")]
    NotRising,
    /// A range holds an offset below 0, or one of 2^62 or more.
    #[error("OutOfBounds")]
    OutOfBounds,
    /// No range is at fault, and the allocation failed.
    #[error("OutOfMemory")]
    OutOfMemory,
}
