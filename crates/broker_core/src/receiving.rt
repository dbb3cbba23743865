//! Bytes that a session reads and holds until their frame is complete.

ghost use Rattle.std.specs.Prelude.{◌+◌, ◌^◌, ◌<◌, ◌≤◌, length, MatchBool, IfOk, IfErr, OnOk};
ghost use Rattle.streams.specs.State.{ReadsOnce, ReadsMore, ReadsEnd};
ghost use Rattle.broker_core.specs.SessionSteps.{StopsReading};

use crate::session::SessionError;
use bytes::BytesMut;
use frame_fields::SIZE_BYTES;
use std::alloc::Allocator;
use std::io::Read;
use streams::{FillError, Source, fill};

/// How many bytes an incomplete first frame lacks; the most that there are while its size isn't there.
fn lacking(held: &[u8]) -> usize
    ensures { 0 < result }
{
    match held.first_chunk::<SIZE_BYTES>() {
        Some(size) => {
            let whole = SIZE_BYTES + u32::from_be_bytes(*size) as usize;
            whole.saturating_sub(held.len()).max(1)
        }
        None => usize::MAX,
    }
}

/// Makes one read behind the bytes that are held, and tells whether any came, or the end of input. A
/// frame announces its size before its bytes come, and memory is taken only as they do. A source of
/// which a read has failed before isn't read again.
///
/// # Errors
///
/// `OutOfMemory` before the read, and `Read`.
pub(crate) fn read_more<R: Read, A: Allocator + Copy>(
    source: &mut Source<R>,
    buffer: &mut BytesMut<A>,
) -> Result<bool, SessionError>
    ensures reads { IfOk result (λ more. MatchBool more
        (ReadsMore source.old source.new buffer.old.items buffer.new.items)
        (ReadsEnd source.old source.new buffer.old.items buffer.new.items)) }
    ensures reads_once { OnOk result (ReadsOnce source.old source.new) }
    ensures bound { OnOk result (length buffer.new.items < 2 ^ 63) }
    ensures stops { IfErr result (StopsReading source.old source.new) }
    ensures reads_at_most_once { source.new.reads ≤ source.old.reads + 1 }
{
    let lacking = lacking(buffer.as_slice());
    match fill(source, buffer, lacking) {
        Ok(more) => Ok(more),
        Err(FillError::Read) => Err(SessionError::Read),
        Err(FillError::OutOfMemory) => Err(SessionError::OutOfMemory),
    }
}
