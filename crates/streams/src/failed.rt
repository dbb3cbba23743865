//! The answers of calls that failed.

/// A call of a reader or a writer failed, or it was a read beyond 2^64 - 1, or a call had failed before. The
/// source or sink has its flag set.
///
/// It doesn't say how the call failed, and has no text of its own.
///
/// ```
/// if sink.write_all(reply) == Err(Failed) {
///     // sink.failed(), and at least one byte of the reply isn't written
/// }
/// ```
#[derive(Clone, Copy, PartialEq, Eq)]
pub struct Failed;

/// No bytes came into a buffer, which is as it was.
#[derive(Clone, Copy, PartialEq, Eq)]
pub enum FillError {
    /// The read failed, or one had failed before. The source has its flag set.
    Read,
    /// There is no memory for the room. No read was made.
    OutOfMemory,
}
