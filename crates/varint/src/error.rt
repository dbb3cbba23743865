//! Why no number could be read.

use thiserror::Error;

/// Why no number could be read.
#[derive(Clone, Copy, Debug, PartialEq, Eq, Error)]
pub enum VarintError {
    /// The bytes end before the last digit.
    #[error("Short")]
    Short,
    /// The digits go on past the number's width.
    #[error("TooLong")]
    TooLong,
    /// The last of several digits is 0, so that a shorter encoding stands for the same number.
    #[error("NotShortest")]
    NotShortest,
}
