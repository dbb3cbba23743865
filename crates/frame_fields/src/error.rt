//! Why a frame is refused.
use thiserror::Error;

/// What is wrong with a field.
#[derive(Clone, Copy)]
pub enum FieldFault {
    /// The frame ends before the field does.
    ShortBody,
    /// The field's length or count is below what its type allows.
    Malformed,
}

/// Why a frame is refused: the first of these in the order of the checks.
#[derive(Debug, Drop, Error)]
pub enum FrameError {
    /// The size is negative.
    #[error("NegativeSize")]
    NegativeSize,
    /// The size is above the limit.
    #[error("TooLarge")]
    TooLarge,
    /// The frame has fewer than 8 bytes.
    #[error("ShortHeader")]
    ShortHeader,
    /// No request has this api key.
    #[error("UnknownApi")]
    UnknownApi,
    /// The request isn't read in this version.
    #[error("BadVersion")]
    BadVersion,
    /// The frame ends inside a field, and the fields before it are right.
    #[error("ShortBody")]
    ShortBody,
    /// A length or a count is below what its type allows, and the fields before it are right.
    #[error("Malformed")]
    Malformed,
    /// All fields are right, and bytes are left.
    #[error("TrailingBytes")]
    TrailingBytes,
    /// A complete frame is there, and the allocation failed.
    #[error("OutOfMemory")]
    OutOfMemory,
}
