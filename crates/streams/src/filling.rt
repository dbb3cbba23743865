//! A buffer that grows, and is filled from a source.

ghost use Rattle.std.specs.Prelude.{◌≡◌, ◌+◌, ◌^◌, ◌<◌, ◌≤◌, true, length, IfErr, IfOk, IsErrOf, MatchBool, OnErr, OnOk};
ghost use Rattle.streams.specs.State.{ReadsOnce, ReadsMore, ReadsEnd, StopsFilling};

use crate::{FillError, Source};
use bytes::BytesMut;
use std::alloc::{AllocError, Allocator};
use std::io::Read;

/// The most reads of one call: a session, a table, a merge and a script stop at so many.
pub const MOST_READS: u64 = 4_294_967_296;

/// The room for a read, in bytes, where no fewer are lacking.
const READ_ROOM: usize = 65_536;

/// The least room for a read, in bytes, where the buffer holds much already, and no fewer are lacking.
const LEAST_ROOM: usize = 4_096;

/// Makes room for a read: for the bytes that are lacking, but for no more than `READ_ROOM` or what the
/// buffer holds already. What is there is enough where the lacking bytes fit, or `READ_ROOM`; or
/// `LEAST_ROOM`, where the buffer holds more than it is worth to move.
fn make_room<A: Allocator + Copy>(
    buffer: &mut BytesMut<A>,
    lacking: usize,
) -> Result<(), AllocError>
    requires { 0 < lacking }
    ensures keeps { buffer.new.items ≡ buffer.old.items }
    ensures room { OnOk result (0 < buffer.new.spare) }
{
    let held = buffer.len();
    let enough = lacking.min(if held < READ_ROOM {
        READ_ROOM
    } else {
        LEAST_ROOM
    });
    if enough <= buffer.capacity() - held {
        return Ok(());
    }
    buffer.reserve(lacking.min(READ_ROOM.max(held)))
}

/// Makes one read of a source behind the bytes of a buffer, which grows where there is no room, and
/// tells whether any came, or the end of input. `lacking` is how many more bytes are needed, as far as
/// the caller knows: `usize::MAX` if it doesn't. Room is made for these, but for no more than 64 KiB or
/// what the buffer holds already: so memory is taken only as bytes come, and as the room doubles, each
/// byte is moved a few times over all reads.
///
/// ```
/// let mut held = BytesMut::new(alloc);
/// while fill(&mut source, &mut held, usize::MAX)? {
///     // whoever takes the bytes takes what came
/// }
/// // the input ended
/// ```
///
/// # Errors
///
/// `OutOfMemory` before the read; `Read` where it fails, or one had failed before: then none is made.
pub fn fill<R: Read, A: Allocator + Copy>(
    source: &mut Source<R>,
    buffer: &mut BytesMut<A>,
    lacking: usize,
) -> Result<bool, FillError>
    ensures fills { IfOk result (λ more. MatchBool more
        (ReadsMore source.old source.new buffer.old.items buffer.new.items)
        (ReadsEnd source.old source.new buffer.old.items buffer.new.items)) }
    ensures reads_once { OnOk result (ReadsOnce source.old source.new) }
    ensures bound { OnOk result (length buffer.new.items < 2 ^ 63) }
    ensures stops { IfErr result (StopsFilling source.old source.new) }
    ensures reads_at_most_once { source.new.reads ≤ source.old.reads + 1 }
    ensures unchanged_on_error { OnErr result (buffer.new.items ≡ buffer.old.items) }
    ensures only_a_read_error_sets_the_flag { ¬ IsErrOf result FillError.Read
        → source.new.failed ≡ source.old.failed }
    ensures unread_once_failed { source.old.failed ≡ true → source.new ≡ source.old }
{
    if source.failed() {
        return Err(FillError::Read);
    }
    if make_room(buffer, lacking.max(1)).is_err() {
        return Err(FillError::OutOfMemory);
    }
    let held = buffer.len();
    if source.read_into(buffer).is_err() {
        return Err(FillError::Read);
    }
    Ok(held < buffer.len())
}
