//! Why offsets are not committed, looked up or forgotten.

use std::alloc::AllocError;
use thiserror::Error;

/// Why a committed offset is not written or not read: the first of these that holds, in the order of
/// the variants.
#[derive(Clone, Copy, Debug, PartialEq, Eq, Error)]
pub enum GroupError {
    /// A name or the metadata has more than `MAX_NAME_BYTES` bytes.
    #[error("NameTooLong")]
    NameTooLong,
    /// The value that is there is not that of a committed offset.
    #[error("BadValue")]
    BadValue,
    /// There is no memory for the bytes.
    #[error("OutOfMemory")]
    OutOfMemory,
}
