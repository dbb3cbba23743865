//! A map takes in more batches, some at a time.

ghost use Rattle.std.specs.Prelude.{◌≡◌, ◌<ℤ◌, ◌≤ℤ◌, ◌^◌, pos, int_lt, true, IfOk};
ghost use Rattle.batch_codec.specs.Offsets.{last_offset};
ghost use Rattle.newest_keys.specs.Shards.{newest_in};
ghost use Rattle.cleaning_progress.specs.Extending.{TakesDirty, has_room};

use batch_codec::BatchView;
use newest_keys::NewestKeys;
use segment::BatchStore;
use std::alloc::{AllocError, Allocator};

/// How much may be taken in at once.
#[derive(Clone, Copy)]
pub struct Room {
    /// So many bytes of batches are read, about.
    pub read: usize,
    /// So many bytes of memory are taken, about.
    pub taken: usize,
}

/// Whether a batch ends below a bound.
fn ends_below(batch: &BatchView<'_>, bound: i64) -> bool
    requires { last_offset batch.now <ℤ pos (2 ^ 62) }
    ensures { result ≡ int_lt (last_offset batch.now) bound }
{
    batch.last_offset() < bound
}

/// Whether there is room for more.
fn has_room(room: Room) -> bool
    ensures { result ≡ has_room room }
{
    room.read > 0 && room.taken > 0
}

/// What is left of some room.
fn room_after(room: Room, read: usize, taken: usize) -> Room {
    Room {
        read: room.read.saturating_sub(read),
        taken: room.taken.saturating_sub(taken),
    }
}

/// Takes in the batches that end at `from` or later and below `bound`, until there is no more room. The offset below
/// which all are taken in then, at least `bound` where room is left, and what is left of it.
pub(crate) fn take_batches<S: BatchStore, A: Allocator + Copy>(
    newest: &mut NewestKeys<A>,
    from: i64,
    batches: &S,
    bound: i64,
    room: Room,
) -> Result<(i64, Room), AllocError>
    ensures reaches { IfOk result (λ done. has_room done.1 ≡ true → bound ≤ℤ done.0) }
    ensures takes { IfOk result (λ done.
        TakesDirty from done.0 (newest_in newest.old) (newest_in newest.new) (S.batches batches.now)) }
{
    let mut end = from;
    let mut left = room;
    let mut cursor = batches.cursor(batches.first_from(from));
    while has_room(left) {
        let Some(batch) = batches.next(&mut cursor) else {
            return Ok((end.max(bound), left));
        };
        if !ends_below(&batch, bound) {
            return Ok((end.max(bound), left));
        }
        let taken = newest.put_batch(&batch)?;
        left = room_after(left, batch.bytes().len(), taken);
        end = batch.last_offset() + 1;
    }
    Ok((end, left))
}
