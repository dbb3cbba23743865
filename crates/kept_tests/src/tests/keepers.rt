//! Keepers whose disk has no room for a part of one group: that part is cut, the group is put into the journal once more, and
//! the file is what it is where there was room; or the disk fails then too, and nothing goes on. And what a recovery tells
//! while it goes on.

ghost use Rattle.std.specs.Prelude.{None, true, ⊤};

use crate::tests::groups::{KEPT_KEY, kept_head};
use crate::tests::journal_bytes::OLD_HEAD;
use journal::{Disk, Journal, JournalError, MemoryDisk, Reader};
use kept_sessions::sessions::{Role, Seat};
use kept_sessions::{CommitError, Keeper, Node, Unwatched, Watch, recover, resume};
use sample_brokers::brokers::end_of;
use sample_brokers::exchanges::{COMMIT, STORE};
use sample_brokers::small::new_node;
use segment::{BatchStore, SegStore};
use std::alloc::Allocator;
use std::io;

/// A disk in memory that is lent. One append is half done and fails; then one further call fails, perhaps.
#[derive(Drop)]
pub(crate) struct Cramped<'a, A: Allocator + Copy> {
    disk: &'a mut MemoryDisk<A>,
    /// How many appends are done before the one that fails; none does where there is no number.
    appends: Option<u64>,
    /// How many calls are done behind that before one fails.
    calls: Option<u64>,
    /// Whether that append came.
    is_torn: bool,
}

/// Whether this call is the one that fails: the calls before it are counted down.
fn is_it(left: &mut Option<u64>) -> bool {
    let is_it = *left == Some(0);
    *left = match *left {
        Some(0) | None => None,
        Some(more) => Some(more.saturating_sub(1)),
    };
    is_it
}

impl<'a, A: Allocator + Copy> Cramped<'a, A> {
    /// A disk of which no call fails.
    pub(crate) fn roomy(disk: &'a mut MemoryDisk<A>) -> Cramped<'a, A> {
        Cramped {
            disk,
            appends: None,
            calls: None,
            is_torn: false,
        }
    }

    /// Counts a call behind the append that failed.
    fn count(&mut self) -> io::Result<()> {
        if self.is_torn && is_it(&mut self.calls) {
            return Err(io::Error::from(io::ErrorKind::Other));
        }
        Ok(())
    }
}

impl<'a, A: Allocator + Copy> Disk for Cramped<'a, A> {
    ghost seen = { λ disk. None };

    ghost may_leave = { λ disk c. ⊥ };

    ghost moment = { λ disk. 0 };

    ghost left_since = { λ disk t c. ⊥ };

    ghost written = { λ disk i. ⊤ };

    ghost may_fail = { λ disk. true };

    ghost has_failed = { λ disk. true };

    ghost counts_now = { λ disk t c le left. left };

    ghost only_now = { λ disk c left. left };

    fn append(&mut self, bytes: &[u8]) -> io::Result<()> {
        self.count()?;
        if is_it(&mut self.appends) {
            self.is_torn = true;
            self.disk
                .append(bytes.get(..bytes.len() / 2).unwrap_or(b""))?;
            return Err(io::Error::from(io::ErrorKind::StorageFull));
        }
        self.disk.append(bytes)
    }

    fn rewrite(&mut self, _at: u64, _bytes: &[u8]) -> io::Result<()> {
        Ok(())
    }

    fn sync(&mut self) -> io::Result<()> {
        self.count()?;
        self.disk.sync()
    }

    fn cut(&mut self, size: u64) -> io::Result<()> {
        self.count()?;
        if size > self.disk.bytes().len() as u64 {
            return Err(io::Error::from(io::ErrorKind::InvalidInput));
        }
        self.disk.cut(size)
    }

    fn len(&self) -> io::Result<u64> {
        self.disk.len()
    }

    fn read_at(&self, at: u64, room: &mut [u8]) -> io::Result<usize> {
        self.disk.read_at(at, room)
    }
}

/// What came of a run.
#[derive(Clone, Copy, Debug, PartialEq, Eq)]
enum Came {
    /// Both groups were put into the journal at once.
    AtOnce,
    /// One of them was, once more, behind a part of it that was cut.
    OnceMore,
    /// The disk failed at that too.
    Failed,
    /// A call answered something else than it is to.
    Wrong(u8),
}

/// Whether a session is answered one frame, which is noted then.
fn is_answered<S: BatchStore, A: Allocator + Copy, D: Disk>(
    keeper: &mut Keeper<S, A, D>,
    number: u64,
    frame: &'static [u8],
) -> bool {
    let mut seat = Seat::new();
    seat.may_read = true;
    let mut from = frame;
    let is_one = match keeper.answer(number, 0, &mut seat, &mut from) {
        Some(visit) => visit.answered == 1,
        None => false,
    };
    is_one && keeper.noted() == frame.len() && !keeper.is_clear()
}

/// Whether the journal refuses each further call.
fn is_over<S: BatchStore, A: Allocator + Copy, D: Disk>(keeper: &mut Keeper<S, A, D>) -> bool {
    let is_committed = matches!(
        keeper.commit(),
        Err(CommitError::Journal(JournalError::Failed))
    );
    let is_appended = matches!(
        keeper.append(),
        Err(CommitError::Journal(JournalError::Failed))
    );
    is_committed && is_appended && !keeper.has_no_group()
}

/// Cuts what was written of a group, and puts it into the journal once more.
fn mended<S: BatchStore, A: Allocator + Copy, D: Disk>(keeper: &mut Keeper<S, A, D>) -> Came {
    let (end, noted) = (keeper.journal_end(), keeper.noted());
    if !keeper.is_torn() || !is_over(keeper) {
        return Came::Wrong(1);
    }
    if keeper.mend().is_err() {
        let is_over = is_over(keeper) && matches!(keeper.mend(), Err(JournalError::Failed));
        return if is_over && !keeper.is_torn() {
            Came::Failed
        } else {
            Came::Wrong(2)
        };
    }
    let is_as_before = keeper.journal_end() == end && keeper.noted() == noted;
    if keeper.is_torn() || keeper.unsynced() > 0 || !is_as_before {
        return Came::Wrong(3);
    }
    match keeper.commit() {
        Ok(()) => Came::OnceMore,
        Err(_) if is_over(keeper) => Came::Failed,
        Err(_) => Came::Wrong(4),
    }
}

/// Puts what is noted into the journal.
fn put<S: BatchStore, A: Allocator + Copy, D: Disk>(
    keeper: &mut Keeper<S, A, D>,
    is_synced: bool,
) -> Came {
    let put = if is_synced {
        keeper.commit()
    } else {
        keeper.append()
    };
    let came = match put {
        Ok(()) => Came::AtOnce,
        Err(CommitError::Journal(JournalError::OnDisk(_))) => mended(keeper),
        Err(_) => Came::Wrong(5),
    };
    if matches!(came, Came::AtOnce | Came::OnceMore) && !keeper.is_clear() {
        return Came::Wrong(6);
    }
    came
}

/// Has a broker handle two frames, of which each is put into the journal as a group.
fn run<S: BatchStore, A: Allocator + Copy, D: Disk>(
    keeper: &mut Keeper<S, A, D>,
    is_synced: bool,
) -> Came {
    let Ok(number) = keeper.open() else {
        return Came::Wrong(7);
    };
    if !keeper.has_no_group() || !keeper.is_clear() {
        return Came::Wrong(8);
    }
    if !is_answered(keeper, number, STORE.request) {
        return Came::Wrong(9);
    }
    let first = put(keeper, is_synced);
    if first == Came::Failed {
        return first;
    }
    if keeper.has_no_group() || !is_answered(keeper, number, COMMIT.request) {
        return Came::Wrong(10);
    }
    match (first, put(keeper, is_synced)) {
        (Came::AtOnce, came) | (came, Came::AtOnce) => came,
        _ => Came::Wrong(11),
    }
}

/// A broker that is kept in the journal that a disk has, if it has a head and no group.
fn resumed<S: BatchStore + Drop, A: Allocator + Copy>(
    alloc: A,
    mut node: Node<S>,
    cramped: Cramped<'_, A>,
) -> Option<Keeper<S, A, Cramped<'_, A>>> {
    let mut reader = Reader::open(cramped, alloc).ok()?;
    let mut out = Vec::new(alloc);
    let count = recover(&mut reader, &mut node, &mut out, &mut Unwatched).ok()?;
    if count == 0 {
        resume(alloc, node, reader).ok()
    } else {
        None
    }
}

/// A broker that is kept in a new journal where a disk has no bytes, and else in the one that it has.
fn keeper_of<S: BatchStore + Drop, A: Allocator + Copy>(
    store: S::Alloc,
    alloc: A,
    cramped: Cramped<'_, A>,
) -> Option<Keeper<S, A, Cramped<'_, A>>> {
    let node = new_node::<S>(store, Role::Leader)?;
    if !cramped.disk.bytes().is_empty() {
        return resumed(alloc, node, cramped);
    }
    let journal = Journal::create(cramped, &kept_head()).ok()?;
    Keeper::new(alloc, node, journal).ok()
}

/// The same with a journal over a disk that fails so, which is a new one where the disk has no bytes.
fn came_of<S: BatchStore + Drop, A: Allocator + Copy>(
    store: S::Alloc,
    alloc: A,
    disk: &mut MemoryDisk<A>,
    appends: Option<u64>,
    calls: Option<u64>,
    is_synced: bool,
) -> Option<Came> {
    let cramped = Cramped {
        disk,
        appends,
        calls,
        is_torn: false,
    };
    let mut keeper = keeper_of::<S, A>(store, alloc, cramped)?;
    if keeper.journal_start() == keeper.journal_end() && keeper.journal_key() == KEPT_KEY {
        Some(run(&mut keeper, is_synced))
    } else {
        None
    }
}

/// What was told of a recovery.
#[derive(Clone, Copy, Debug, PartialEq, Eq)]
struct Told {
    times: u64,
    at: u64,
    size: u64,
    frames: u64,
}

impl Watch for Told {
    fn reached(&mut self, at: u64, size: u64, frames: u64) {
        let is_next = at > self.at && (self.times == 0 || size == self.size);
        *self = Told {
            times: if is_next {
                self.times.saturating_add(1)
            } else {
                u64::MAX
            },
            at,
            size,
            frames,
        };
    }
}

/// What is told where a broker is recovered from a file; none where it isn't what was put into it.
fn told_of<S: BatchStore + Drop, A: Allocator + Copy>(
    store: S::Alloc,
    alloc: A,
    disk: &mut MemoryDisk<A>,
) -> Option<Told> {
    let cramped = Cramped::roomy(disk);
    let mut told = Told {
        times: 0,
        at: 0,
        size: 0,
        frames: 0,
    };
    let mut node = new_node::<S>(store, Role::Leader)?;
    let mut reader = Reader::open(cramped, alloc).ok()?;
    let start = reader.at();
    let mut out = Vec::new(alloc);
    let count = recover(&mut reader, &mut node, &mut out, &mut told).ok()?;
    let keeper = resume(alloc, node, reader).ok()?;
    let is_so = count == told.frames && keeper.journal_end() == told.at && !keeper.has_no_group();
    if is_so && keeper.journal_start() == start && keeper.is_clear() && end_of(keeper.node()) == 1 {
        Some(told)
    } else {
        None
    }
}

/// A file with no bytes or a head into which both groups were put, the first so many appends being done before one that
/// fails.
fn filled<A: Allocator + Copy>(
    alloc: A,
    head: &[u8],
    appends: Option<u64>,
    is_synced: bool,
) -> Option<(Came, MemoryDisk<A>)> {
    let mut disk = MemoryDisk::new(alloc, head).ok()?;
    let came = came_of::<SegStore<_>, A>(alloc, alloc, &mut disk, appends, None, is_synced)?;
    Some((came, disk))
}

/// The first append for which it isn't so: where there is no room for a part of a group the file is, in the end, what it is
/// where there is room. The last one has no room at once.
fn first_unlike<A: Allocator + Copy>(alloc: A, head: &[u8], is_synced: bool) -> Option<u64> {
    let Some((Came::AtOnce, whole)) = filled(alloc, head, None, is_synced) else {
        return Some(u64::MAX);
    };
    // that of the head, where there is none
    let before = u64::from(head.is_empty());
    for appends in before..before.saturating_add(2) {
        match filled(alloc, head, Some(appends), is_synced) {
            Some((Came::OnceMore, disk)) if is_synced && disk.bytes() == whole.bytes() => {}
            Some((Came::OnceMore, disk))
                if !is_synced && disk.bytes().len() == whole.bytes().len() => {}
            _ => return Some(appends),
        }
    }
    None
}

/// What comes of it where a call behind the append that failed fails too, by the number of that call.
fn failed_at<A: Allocator + Copy>(alloc: A, calls: u64) -> Option<Came> {
    let mut disk = MemoryDisk::new(alloc, b"").ok()?;
    came_of::<SegStore<_>, A>(alloc, alloc, &mut disk, Some(2), Some(calls), true)
}

/// What is told of a recovery of a file with both groups, and how many bytes that has.
fn recovery_told<A: Allocator + Copy>(alloc: A, head: &[u8]) -> Option<(Told, usize)> {
    let (_came, mut disk) = filled(alloc, head, None, true)?;
    let size = disk.bytes().len();
    let told = told_of::<SegStore<_>, A>(alloc, alloc, &mut disk)?;
    Some((told, size))
}

/// Of a new journal, and of one of version 0 that is there.
const HEADS: [&[u8]; 2] = [b"", OLD_HEAD];

#[test]
fn a_group_is_put_once_more_behind_a_part_that_is_cut(rt: HostRuntime) {
    for head in HEADS {
        assert_eq!(rt; first_unlike(rt.alloc(), head, true), None);
        assert_eq!(rt; first_unlike(rt.alloc(), head, false), None);
    }
}

#[test]
fn a_part_that_cannot_be_cut_ends_all(rt: HostRuntime) {
    // the cut and the sync behind it; the append and the sync of the second try; none
    let came = (
        failed_at(rt.alloc(), 0),
        failed_at(rt.alloc(), 1),
        failed_at(rt.alloc(), 2),
        failed_at(rt.alloc(), 3),
        failed_at(rt.alloc(), 4),
    );
    let failed = Some(Came::Failed);
    assert_eq!(rt;
        came,
        (failed, failed, failed, failed, Some(Came::OnceMore))
    );
}

#[test]
fn a_recovery_tells_how_far_it_is(rt: HostRuntime) {
    for head in HEADS {
        let told = recovery_told(rt.alloc(), head);
        assert!(rt;
            matches!(
                told,
                Some((
                    Told {
                        times: 2,
                        at,
                        size,
                        frames: 2,
                    },
                    bytes,
                )) if at == size && size == bytes as u64
            ),
            "{told:?}"
        );
    }
}
