//! A session: request frames come in, and their replies go out.

ghost use Rattle.std.specs.Prelude.{◌≡◌, ◌+◌, ◌^◌, ◌≤◌, false, IfOk, IfErr, IsErrOf};
ghost use Rattle.broker_core.specs.Sessions.{EndsAs, StopsAs};

use crate::receiving::read_more;
use crate::replying::answer_held;
use bytes::BytesMut;
use frame_fields::FrameError;
use segment::BatchStore;
use sessions::Node;
use std::alloc::Allocator;
use std::io::{Read, Write};
use streams::{MOST_READS, Sink, Source};
use thiserror::Error;

/// How a session ended whose input came to its end.
#[derive(Clone, Copy, PartialEq, Eq)]
pub struct Ended {
    /// How many frames were answered.
    pub frames: u64,
    /// How many bytes of an incomplete frame were left.
    pub rest: usize,
}

/// Why a session stopped before the end of its input.
#[derive(Debug, Drop, Error)]
pub enum SessionError {
    /// The frame with this number, from 0, is refused.
    #[error("frame {index}: {why}")]
    Frame { index: u64, why: FrameError },
    /// A read failed, or 2^32 reads were made without an end.
    #[error("read failed")]
    Read,
    /// A write failed.
    #[error("write failed")]
    Write,
    /// There is no memory for a frame, for what is read, or for a response; or 2^63 frames were
    /// answered. No read failed, and the next frame's size isn't refused.
    #[error("out of memory")]
    OutOfMemory,
}

/// A session goes no further once so many frames were answered, so that their number can't overflow
/// while those that are held are answered. No input reaches it.
const MOST_FRAMES: u64 = 9_223_372_036_854_775_808;

/// Answers the frames that come from the source, in order, each as soon as it is complete. Each
/// reply goes to the sink before the next frame is handled, and all complete frames are answered
/// before more is read. In which pieces the bytes come makes no difference. The sink isn't flushed.
/// However it ends, it makes at most 2^32 reads.
///
/// The bytes of an incomplete frame are held. The memory for them grows as they come, whatever size
/// the frame announces.
///
/// ```
/// let mut source = Source::new(reader);
/// let mut sink = Sink::new(writer);
/// match serve(alloc, &mut node, &mut source, &mut sink) {
///     Ok(Ended { frames, rest: 0 }) => {} // so many requests came, and all were answered
///     Ok(Ended { frames, rest }) => {} // the client left within a request, which is dropped
///     Err(SessionError::Frame { index, why }) => {} // the frames before this one were answered
///     Err(why) => {}
/// }
/// ```
///
/// Where the reader gives one request and the first 2 bytes of another, and then ends, the answer is
/// `Ended { frames: 1, rest: 2 }`, and the writer took one response. Where 4 bytes of the other came,
/// and they say a negative size, it is `Frame { index: 1, why: NegativeSize }` at once.
///
/// # Errors
///
/// The first thing that stops the session. The frames before it were answered, and the broker is as
/// they left it; at `Write` the frame whose reply was cut was handled too.
///
/// A source of which a read failed before isn't read: the answer is `Read`. A sink of which a write
/// failed before isn't written: the answer is `Write` at the first reply that isn't empty.
#[tactic(auto, using(crate::proofs::ServedSessions::nothing_served, crate::proofs::ServedSessions::few_reads, crate::proofs::ServedSessions::all_reads))]
pub fn serve<S: BatchStore, R: Read, W: Write, A: Allocator + Copy>(
    alloc: A,
    node: &mut Node<S>,
    source: &mut Source<R>,
    sink: &mut Sink<W>,
) -> Result<Ended, SessionError>
    ensures ends { IfOk result (EndsAs node.old source.old source.new sink.old sink.new node.new) }
    ensures stops { IfErr result (StopsAs node.old source.old source.new sink.old sink.new node.new) }
    ensures few_reads { source.new.reads ≤ source.old.reads + 2 ^ 32 }
    ensures only_a_read_error_fails_the_source { ¬ IsErrOf result SessionError.Read
        → source.new.failed ≡ false }
    ensures only_a_write_error_fails_the_sink { ¬ IsErrOf result SessionError.Write
        → sink.new.failed ≡ sink.old.failed }
{
    let mut buffer = BytesMut::new(alloc);
    let mut out = Vec::new(alloc);
    let mut frames = 0;
    for _ in 0..MOST_READS {
        if !read_more(source, &mut buffer)? {
            let rest = buffer.len();
            return Ok(Ended { frames, rest });
        }
        frames = answer_held(node, &mut buffer, frames, sink, &mut out)?;
        if frames >= MOST_FRAMES {
            return Err(SessionError::OutOfMemory);
        }
    }
    Err(SessionError::Read)
}
