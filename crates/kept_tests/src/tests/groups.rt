//! Journals and groups of the tests: the head, the frames of a group, and the names of what becomes of calls.

ghost use Rattle.std.specs.Prelude.{◌≡◌, is_some, true};

use journal::layout::KEY_SIZE;
use journal::{Before, GroupBuffer, Head, JournalError, MemoryDisk, OpenError, Reader};
use std::alloc::{AllocError, Allocator};

/// The key of the journals.
pub(crate) const KEPT_KEY: [u8; KEY_SIZE] = *b"01234567";

/// What `HEAD` says.
pub(crate) fn kept_head() -> Head
    ensures { is_some result.before ≡ true }
{
    Head {
        meaning: 3,
        number: 2,
        key: KEPT_KEY,
        before: Some(Before {
            number: 1,
            key: *b"89abcdef",
            size: 61,
        }),
    }
}

/// The frames of a group.
pub(crate) fn frames_of(group: &'static [u8]) -> &'static [u8] {
    group.get(32..).unwrap_or(b"")
}

/// A group with these frames, which is written as it is; with none where there is no memory.
pub(crate) fn group_of<A: Allocator + Copy>(alloc: A, frames: &[u8]) -> GroupBuffer<A> {
    let mut group = GroupBuffer::new(alloc);
    let _pushed = group.push(frames, b"");
    group
}

/// Some parts, one after the other.
pub(crate) fn joined<A: Allocator + Copy>(
    alloc: A,
    parts: &[&[u8]],
) -> Result<Vec<u8, A>, AllocError> {
    let mut all = Vec::new(alloc);
    for part in parts {
        all.extend_from_slice(part)?;
    }
    Ok(all)
}

/// The name of what became of a call that appends or syncs.
pub(crate) fn journal_name(answer: Result<(), JournalError>) -> &'static str {
    match answer {
        Ok(()) => "",
        Err(JournalError::Failed) => "Failed",
        Err(JournalError::Empty) => "Empty",
        Err(JournalError::TooLarge) => "TooLarge",
        Err(JournalError::Full) => "Full",
        Err(JournalError::OnDisk(_)) => "OnDisk",
    }
}

/// The name of why a file isn't opened.
fn open_name(why: OpenError) -> &'static str {
    match why {
        OpenError::Short => "Short",
        OpenError::BadCrc => "BadCrc",
        OpenError::BadMark => "BadMark",
        OpenError::BadVersion => "BadVersion",
        OpenError::BadBefore => "BadBefore",
        OpenError::BadNumber => "BadNumber",
        OpenError::OnDisk(_) => "OnDisk",
    }
}

/// The name of why a file of these bytes isn't opened.
pub(crate) fn refusal<A: Allocator + Copy>(alloc: A, bytes: &[u8]) -> &'static str {
    match MemoryDisk::new(alloc, bytes) {
        Ok(disk) => match Reader::open(disk, alloc) {
            Ok(_) => "",
            Err(why) => open_name(why),
        },
        Err(_) => "OutOfMemory",
    }
}
