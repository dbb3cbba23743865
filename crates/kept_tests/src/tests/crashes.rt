//! Journals whose disk fails at each call in turn, and all that a crash may leave then: any front of what wasn't synced,
//! also with zeros behind it, and any sectors of it torn. What is read are the groups that are left whole, all that were
//! synced among them; the end is no damage, and a further group goes on from there. So it is of a new journal, and of one
//! of version 0 that is gone on with.

use crate::tests::groups::{frames_of, group_of, joined, journal_name, kept_head, refusal};
use crate::tests::journal_bytes::{FOUR, OLD_HEAD};
use crate::tests::lent::{Lent, Watched};
use journal::layout::{FRAMES_AT, HEAD_SIZE, OLD_HEAD_SIZE, VERSION_AT};
use journal::{
    CreateError, Disk, GroupBuffer, Journal, JournalError, MemoryDisk, OpenError, Reader,
    SECTOR_SIZE,
};
use refusing_alloc::Refusing;
use std::alloc::{AllocError, Allocator};

/// How a group is written.
#[derive(Clone, Copy)]
pub(crate) enum Way {
    /// It is appended.
    Append,
    /// It is appended, and then synced.
    Sync,
    /// It is committed.
    Commit,
}

/// The frames of the groups in turn: of three sectors in all.
pub(crate) static GROUPS: [(&[u8], Way); 5] = [
    (&[1; 5], Way::Append),
    (&[2; 430], Way::Sync),
    (&[3; 1], Way::Commit),
    (&[4; 610], Way::Append),
    (&[5; 40], Way::Sync),
];

/// More calls of a disk than are made.
pub(crate) const MOST_CALLS: u64 = 40;

/// Writes a group.
pub(crate) fn put<D: Disk, A: Allocator + Copy>(
    journal: &mut Journal<D>,
    group: &mut GroupBuffer<A>,
    way: Way,
) -> Result<(), JournalError> {
    match way {
        Way::Append => journal.append(group),
        Way::Sync => {
            journal.append(group)?;
            journal.sync()
        }
        Way::Commit => journal.commit(group),
    }
}

/// Whether each further call is refused.
pub(crate) fn is_closed<D: Disk, A: Allocator + Copy>(
    journal: &mut Journal<D>,
    group: &mut GroupBuffer<A>,
) -> bool {
    let names = [
        journal_name(journal.append(group)),
        journal_name(journal.sync()),
        journal_name(journal.commit(group)),
    ];
    journal.has_failed() && names == ["Failed"; 3]
}

/// How many groups are written to a journal, up to the first that fails; none where a call behind it doesn't.
pub(crate) fn written_to<D: Disk, A: Allocator + Copy>(
    alloc: A,
    journal: &mut Journal<D>,
) -> Option<usize> {
    let mut count = 0_usize;
    for (frames, way) in &GROUPS {
        let mut group = group_of(alloc, frames);
        let name = journal_name(put(journal, &mut group, *way));
        if name == "OnDisk" && is_closed(journal, &mut group) {
            return Some(count);
        }
        if !name.is_empty() {
            return None;
        }
        count = count.saturating_add(1);
    }
    Some(count)
}

/// The journal that a disk has, made ready for groups; or whether the disk failed.
fn settled<A: Allocator + Copy, B: Allocator + Copy>(
    alloc: B,
    lent: Lent<'_, A>,
) -> Result<Journal<Lent<'_, A>>, bool> {
    let mut reader = match Reader::open(lent, alloc) {
        Ok(reader) => reader,
        Err(why) => return Err(matches!(why, OpenError::OnDisk(_))),
    };
    if reader.read_to_end().is_err() {
        return Err(true);
    }
    match reader.into_journal() {
        Ok(journal) => Ok(journal),
        Err(_) => Err(true),
    }
}

/// A new journal on a disk that has no bytes; else the one that it has. Or whether the disk failed.
pub(crate) fn begun<A: Allocator + Copy, B: Allocator + Copy>(
    alloc: B,
    lent: Lent<'_, A>,
) -> Result<Journal<Lent<'_, A>>, bool> {
    if !lent.watched.disk.bytes().is_empty() {
        return settled(alloc, lent);
    }
    match Journal::create(lent, &kept_head()) {
        Ok(journal) => Ok(journal),
        Err(why) => Err(matches!(why, CreateError::OnDisk(_))),
    }
}

/// How many groups are written to a journal on a disk, which may fail while that is made, or made ready.
fn written<A: Allocator + Copy, B: Allocator + Copy>(alloc: B, lent: Lent<'_, A>) -> Option<usize> {
    match begun(alloc, lent) {
        Ok(mut journal) => written_to(alloc, &mut journal),
        Err(true) => Some(0),
        Err(false) => None,
    }
}

/// How many bytes the head of a file has, by its version.
fn start_of(whole: &[u8]) -> usize {
    if whole.get(VERSION_AT + 1) == Some(&0) {
        OLD_HEAD_SIZE
    } else {
        HEAD_SIZE
    }
}

/// How many of the groups stand in so many bytes of the file, behind a head of so many.
fn groups_within(start: usize, size: usize) -> usize {
    let mut end = start;
    let mut count = 0_usize;
    for (frames, _way) in &GROUPS {
        end = end.saturating_add(FRAMES_AT).saturating_add(frames.len());
        if end <= size {
            count = count.saturating_add(1);
        }
    }
    count
}

/// How many bytes two files have in common, from the first on.
fn common(one: &[u8], other: &[u8]) -> usize {
    let mut count = 0_usize;
    for (a, b) in one.iter().zip(other) {
        if a != b {
            return count;
        }
        count = count.saturating_add(1);
    }
    count
}

/// Whether the next groups that are read are the first so many.
fn has_first<D: Disk, A: Allocator + Copy>(reader: &mut Reader<D, A>, count: usize) -> bool {
    for (frames, _way) in GROUPS.iter().take(count) {
        let is_next = matches!(reader.next(), Ok(true));
        if !is_next || reader.frames() != *frames {
            return false;
        }
    }
    true
}

/// Whether a file is read as the first so many groups, what is behind them is no damage, and a further group is
/// committed.
fn is_gone_on_with<A: Allocator + Copy>(alloc: A, lent: Lent<'_, A>, count: usize) -> bool {
    let Ok(mut reader) = Reader::open(lent, alloc) else {
        return false;
    };
    let is_read = has_first(&mut reader, count) && matches!(reader.next(), Ok(false));
    let is_sound = is_read && matches!(reader.has_later_sync(), Ok(false));
    let mut group = group_of(alloc, frames_of(FOUR));
    match reader.into_journal() {
        Ok(mut journal) => is_sound && journal.commit(&mut group).is_ok(),
        Err(_) => false,
    }
}

/// Whether a file is read as the first so many groups and the further one, and nothing behind them.
fn has_further<A: Allocator + Copy>(alloc: A, lent: Lent<'_, A>, count: usize) -> bool {
    let Ok(mut reader) = Reader::open(lent, alloc) else {
        return false;
    };
    let is_read = has_first(&mut reader, count) && reader.read_to_end().is_ok();
    is_read && reader.frames() == frames_of(FOUR) && reader.at() == reader.size()
}

/// Whether a file is read and gone on with so.
pub(crate) fn goes_on<A: Allocator + Copy>(alloc: A, file: &[u8], count: usize) -> bool {
    let Ok(mut watched) = Watched::new(alloc, file) else {
        return false;
    };
    let lent = Lent {
        watched: &mut watched,
    };
    let is_done = is_gone_on_with(alloc, lent, count);
    let lent = Lent {
        watched: &mut watched,
    };
    is_done && has_further(alloc, lent, count)
}

/// Why a file of so many bytes isn't opened, the first of which, fewer than its head has, are as they should be.
fn wanted_refusal(size: usize, same: usize) -> &'static str {
    if size < OLD_HEAD_SIZE {
        "Short"
    } else if same < OLD_HEAD_SIZE {
        "BadCrc"
    } else if size < HEAD_SIZE {
        "Short"
    } else {
        "BadBefore"
    }
}

/// Whether what a crash leaves of a file is read as it should, of which so many bytes were synced.
fn is_recovered<A: Allocator + Copy>(alloc: A, left: &[u8], whole: &[u8], synced: usize) -> bool {
    let same = common(left, whole);
    let start = start_of(whole);
    if start <= same {
        return synced <= same && goes_on(alloc, left, groups_within(start, same));
    }
    synced == 0 && refusal(alloc, left) == wanted_refusal(left.len(), same)
}

/// Whether a front of the file is read as it should, and with zeros behind it.
fn is_front_recovered<A: Allocator + Copy>(
    alloc: A,
    whole: &[u8],
    synced: usize,
    size: usize,
) -> bool {
    let front = whole.get(..size).unwrap_or(b"");
    let Ok(mut filled) = front.to_vec(alloc) else {
        return false;
    };
    let is_filled = filled.resize(whole.len(), 0).is_ok();
    let is_recovered_so = is_filled && is_recovered(alloc, &filled, whole, synced);
    is_recovered_so && is_recovered(alloc, front, whole, synced)
}

/// Whether what a crash leaves with a torn sector from an offset on is read as it should; and so where there is no memory
/// to tell.
fn is_torn_recovered<A: Allocator + Copy, B: Allocator + Copy>(
    alloc: B,
    watched: &Watched<A>,
    whole: &[u8],
    torn: usize,
) -> bool {
    match watched.disk.after_crash(whole.len(), torn) {
        Ok(file) => is_recovered(alloc, &file, whole, watched.synced),
        Err(AllocError) => true,
    }
}

/// How many parts of a file end within so many bytes: of its head, of so many, the first 28 and all; and the groups.
fn ends_within(start: usize, size: usize) -> usize {
    let of_head = usize::from(OLD_HEAD_SIZE <= size).saturating_add(usize::from(start <= size));
    groups_within(start, size).saturating_add(of_head)
}

/// Whether a front of so many bytes is tried: each seventeenth, and each that ends within a byte of the end of a part.
fn is_tried(start: usize, size: usize) -> bool {
    let before = ends_within(start, size.saturating_sub(2));
    size % 17 == 0 || before < ends_within(start, size.saturating_add(1))
}

/// The first front of the file that isn't read as it should, where a crash leaves it.
fn first_wrong_front<A: Allocator + Copy>(alloc: A, whole: &[u8], synced: usize) -> Option<usize> {
    let start = start_of(whole);
    for size in synced..=whole.len() {
        if is_tried(start, size) && !is_front_recovered(alloc, whole, synced, size) {
            return Some(size);
        }
    }
    None
}

/// The first torn sector with which the file isn't read as it should.
fn first_wrong_sector<A: Allocator + Copy, B: Allocator + Copy>(
    alloc: B,
    watched: &Watched<A>,
    whole: &[u8],
) -> Option<usize> {
    for torn in 0..whole.len() {
        let is_sector = torn % SECTOR_SIZE == 0;
        if is_sector && !is_torn_recovered(alloc, watched, whole, torn) {
            return Some(torn);
        }
    }
    None
}

/// The first thing that a crash may leave and that isn't read as it should: the size of a front, or a torn sector.
pub(crate) fn first_wrong<A: Allocator + Copy, B: Allocator + Copy>(
    alloc: B,
    watched: &Watched<A>,
) -> Option<(&'static str, usize)> {
    let Ok(whole) = joined(alloc, &[watched.disk.bytes(), watched.lost.as_slice()]) else {
        return Some(("no memory", 0));
    };
    match first_wrong_front(alloc, &whole, watched.synced) {
        Some(size) => Some(("a front", size)),
        None => first_wrong_sector(alloc, watched, &whole).map(|torn| ("a sector", torn)),
    }
}

/// What is wrong of a disk to which the groups are written, of which one call fails, and how many were written.
type Outcome = (Option<(&'static str, usize)>, Option<usize>);

/// What comes of a disk in this heap, with no bytes or a head, of which this call fails.
fn outcome_in<A: Allocator + Copy, B: Allocator + Copy>(
    heap: A,
    alloc: B,
    head: &[u8],
    failing: u64,
) -> Outcome {
    let Ok(mut watched) = Watched::new(heap, head) else {
        return (None, Some(0));
    };
    watched.disk.fail_at(failing);
    let lent = Lent {
        watched: &mut watched,
    };
    let count = written(alloc, lent);
    (first_wrong(alloc, &watched), count)
}

/// The call that fails where something is wrong; and how many calls fail before none does.
fn calls_that_fail<A: Allocator + Copy>(alloc: A, head: &[u8]) -> Result<u64, (u64, Outcome)> {
    for failing in 1..MOST_CALLS {
        let outcome = outcome_in(alloc, alloc, head, failing);
        if outcome.0.is_some() || outcome.1.is_none() {
            return Err((failing, outcome));
        }
        if outcome.1 == Some(GROUPS.len()) {
            return Ok(failing - 1);
        }
    }
    Err((MOST_CALLS, (None, None)))
}

/// The same of allocations of the disk.
fn allocations_that_fail<A: Allocator + Copy>(inner: A) -> Result<u64, (u64, Outcome)> {
    for refused in 1..MOST_CALLS {
        let heap = Refusing::new(inner, refused);
        let outcome = outcome_in(&heap, inner, b"", 0);
        if outcome.0.is_some() || outcome.1.is_none() {
            return Err((refused, outcome));
        }
        if heap.calls() < refused {
            return Ok(refused - 1);
        }
    }
    Err((MOST_CALLS, (None, None)))
}

#[test]
fn each_call_fails_and_a_crash_follows(rt: HostRuntime) {
    // the head: its length, an append and a sync; an append for each group; three syncs
    assert_eq!(rt; calls_that_fail(rt.alloc(), b""), Ok(3 + 5 + 3));
    // one that is there: its length, a read of it, another before it is written again, and a sync
    assert_eq!(rt; calls_that_fail(rt.alloc(), OLD_HEAD), Ok(5 + 5 + 3));
    let allocations = allocations_that_fail(rt.alloc());
    assert!(rt; allocations.is_ok_and(|count| 3 < count), "{allocations:?}");
}

/// What a crash leaves of `abc` synced and `defgh` behind it, by the size and the torn sector.
static LEFT: [(usize, usize, &[u8]); 6] = [
    (8, 8, b"abcdefgh"),
    (5, 8, b"abcde"),
    (0, 8, b"abc"),
    (9, 5, b"abcde\0\0\0"),
    (7, 0, b"abc\0\0\0\0"),
    (3, 0, b"abc"),
];

/// A disk of `abc` and, behind what was synced, `defgh`.
fn half_synced<A: Allocator + Copy>(alloc: A) -> Option<MemoryDisk<A>> {
    let mut disk = MemoryDisk::new(alloc, b"").ok()?;
    disk.append(b"abc").ok()?;
    disk.sync().ok()?;
    disk.append(b"defgh").ok()?;
    Some(disk)
}

/// The first row that isn't what a crash leaves.
fn first_not_left<A: Allocator + Copy>(disk: &MemoryDisk<A>) -> Option<usize> {
    for (index, (size, torn, wanted)) in LEFT.iter().enumerate() {
        match disk.after_crash(*size, *torn) {
            Ok(left) if left.as_slice() == *wanted => {}
            _ => return Some(index),
        }
    }
    None
}

/// The first row that isn't what a crash leaves of a new disk.
fn first_wrongly_left<A: Allocator + Copy>(alloc: A) -> Option<usize> {
    match half_synced(alloc) {
        Some(disk) => first_not_left(&disk),
        None => Some(LEFT.len()),
    }
}

#[test]
fn what_a_disk_in_memory_leaves(rt: HostRuntime) {
    assert_eq!(rt; first_wrongly_left(rt.alloc()), None);
}
