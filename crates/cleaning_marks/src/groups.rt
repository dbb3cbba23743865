//! What stands in a journal at a byte offset, seen by its first bytes.

ghost use Rattle.std.specs.Prelude.{◌≡◌};
ghost use Rattle.frame_fields.specs.Fields.{number, size32};
ghost use Rattle.frame_fields.specs.Reading.{Gives, nothing, read_field, read_fields};
ghost use Rattle.cleaning_marks.specs.Groups.{group_fields, is_group_at, seen_group, seen_head};

use crate::place::GroupSeen;
use frame_fields::FieldFault;
use frame_fields::fields::{int32, int64};
use journal::layout::FRAMES_AT;

/// What stands before a group's frames.
#[derive(Clone, Copy)]
struct GroupStart {
    crc: i32,
    key: i64,
    own: i64,
    synced: i64,
    size: i32,
}

/// What stands before a group's frames, and the bytes behind it.
#[tactic(auto, unfolding(frame_fields::specs::Reading::read_fields))]
fn group_start_at(bytes: &[u8]) -> Result<(GroupStart, &[u8]), FieldFault>
    ensures { Gives
        (λ x. ((x.0.crc, (x.0.key, (x.0.own, (x.0.synced, (x.0.size, nothing))))), x.1.now)) result
        (read_fields group_fields bytes.now) }
{
    let (crc, rest) = int32(bytes)?;
    let (key, rest) = int64(rest)?;
    let (own, rest) = int64(rest)?;
    let (synced, rest) = int64(rest)?;
    let (size, rest) = int32(rest)?;
    let start = GroupStart {
        crc,
        key,
        own,
        synced,
        size,
    };
    Ok((start, rest))
}

/// Whether this stands before the frames of a group with this key at this offset.
fn is_group_at(key: i64, at: u64, start: &GroupStart) -> bool
    ensures { result ≡ is_group_at key at (
      start.now.crc,
      (
        start.now.key,
        (
          start.now.own,
          (start.now.synced, (start.now.size, nothing)),
        ),
      ),
    ) }
{
    start.key == key && start.own.cast_unsigned() == at && 0 < start.size
}

/// The group whose first 32 bytes these are, if they bear this key and this byte offset of the file. Its frames aren't looked at,
/// so its crc is what it says itself. Of more bytes the first ones count; fewer are none.
pub fn group_seen(key: i64, at: u64, bytes: &[u8]) -> Option<GroupSeen>
    ensures { result ≡ seen_group key at (read_fields group_fields bytes.now) }
{
    let Ok((start, _behind)) = group_start_at(bytes) else {
        return None;
    };
    if !is_group_at(key, at, &start) {
        return None;
    }
    let size = FRAMES_AT as u64 + u64::from(start.size.unsigned_abs());
    Some(GroupSeen {
        at,
        end: at.saturating_add(size),
        crc: start.crc.cast_unsigned(),
    })
}

/// The head of a journal whose first bytes these are, and whose first group begins at `start`. Fewer than four are none.
pub fn head_seen(start: u64, bytes: &[u8]) -> Option<GroupSeen>
    ensures { result ≡ seen_head start (read_field (number size32) bytes.now) }
{
    match int32(bytes) {
        Ok((crc, _behind)) => Some(GroupSeen {
            at: 0,
            end: start,
            crc: crc.cast_unsigned(),
        }),
        Err(_) => None,
    }
}
