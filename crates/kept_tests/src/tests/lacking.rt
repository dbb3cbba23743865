//! Keepers for which one allocation fails while they answer a frame, or two. Where for want of memory nothing was done, the
//! frame is answered with a storage error and noted nowhere, and what comes behind it is kept as ever; where it was done in
//! part, nothing of it is kept, and nothing goes on. What the journal has then leads to the state that the broker is in, or
//! was in before.

use crate::tests::groups::kept_head;
use crate::tests::keepers::Cramped;
use journal::{Disk, Journal, MemoryDisk, Reader};
use kept_sessions::sessions::{Role, Seat};
use kept_sessions::{CommitError, Keeper, Sent, Unwatched, recover};
use refusing_alloc::Refusing;
use sample_brokers::brokers::{answers_of, has_answers};
use sample_brokers::exchanges::{CLEAN, COMMIT, Exchange, FORGET, SILENT, STORE, TAKE};
use sample_brokers::small::new_node;
use segment::{BatchStore, SegStore};
use std::alloc::{AllocError, Allocator};

/// A Produce request for partition 0 of `t` and of `u`: `a` = 1 in each.
const BOTH: Exchange = Exchange {
    name: "Produce to two partitions",
    changes: true,
    request: b"\0\0\0\xc0\0\0\0\x03\0\0\0\x07\xff\xff\xff\xff\0\x01\0\0\x03\xe8\0\0\0\x02\0\x01t\0\0\0\x01\0\0\0\0\0\0\0F\0\0\0\0\0\0\0\0\0\0\0:\0\0\0\0\x022\xc83\x8d\0\0\0\0\0\0\0\0\0\0\0\0\0\0\0\0\0\0\0\0\0\0\xff\xff\xff\xff\xff\xff\xff\xff\xff\xff\xff\xff\xff\xff\0\0\0\x01\x10\0\0\0\x02a\x021\0\0\x01u\0\0\0\x01\0\0\0\0\0\0\0F\0\0\0\0\0\0\0\0\0\0\0:\0\0\0\0\x022\xc83\x8d\0\0\0\0\0\0\0\0\0\0\0\0\0\0\0\0\0\0\0\0\0\0\xff\xff\xff\xff\xff\xff\xff\xff\xff\xff\xff\xff\xff\xff\0\0\0\x01\x10\0\0\0\x02a\x021\0",
    response: b"\0\0\0F\0\0\0\x07\0\0\0\x02\0\x01t\0\0\0\x01\0\0\0\0\0\0\0\0\0\0\0\0\0\0\xff\xff\xff\xff\xff\xff\xff\xff\0\x01u\0\0\0\x01\0\0\0\0\0\0\0\0\0\0\0\0\0\0\xff\xff\xff\xff\xff\xff\xff\xff\0\0\0\0",
    failed: Some(
        b"\0\0\0F\0\0\0\x07\0\0\0\x02\0\x01t\0\0\0\x01\0\0\0\0\08\xff\xff\xff\xff\xff\xff\xff\xff\xff\xff\xff\xff\xff\xff\xff\xff\0\x01u\0\0\0\x01\0\0\0\0\08\xff\xff\xff\xff\xff\xff\xff\xff\xff\xff\xff\xff\xff\xff\xff\xff\0\0\0\0",
    ),
};

/// A frame, and the one that was kept before it.
struct Row {
    before: Option<Exchange>,
    exchange: Exchange,
}

/// Frames of one entry.
static ALONE: [Row; 6] = [
    Row {
        before: None,
        exchange: STORE,
    },
    Row {
        before: None,
        exchange: SILENT,
    },
    Row {
        before: Some(STORE),
        exchange: CLEAN,
    },
    Row {
        before: None,
        exchange: COMMIT,
    },
    Row {
        before: Some(COMMIT),
        exchange: FORGET,
    },
    Row {
        before: None,
        exchange: TAKE,
    },
];

/// One of two entries.
static TWO: Row = Row {
    before: None,
    exchange: BOTH,
};

/// More allocations than a run asks for.
const MOST: u64 = 400;

/// What came of a frame.
#[derive(Clone, Copy, Debug, PartialEq, Eq)]
enum Came {
    /// It was done, and is in the journal.
    Done,
    /// Nothing was done: it was answered, and noted nowhere.
    TakenBack,
    /// It was done in part, and isn't in the journal.
    InPart,
    /// It wasn't answered, and its session is over.
    Unanswered,
    /// Something else.
    Wrong(u8),
}

/// Has a broker answer a frame, and puts what is noted then into the journal.
fn came_of<S: BatchStore, A: Allocator + Copy, D: Disk>(
    keeper: &mut Keeper<S, A, D>,
    number: u64,
    frame: &[u8],
) -> Came {
    let end = keeper.journal_end();
    let mut seat = Seat::new();
    seat.may_read = true;
    let mut from = frame;
    let Some(visit) = keeper.answer(number, 0, &mut seat, &mut from) else {
        return Came::Wrong(1);
    };
    let (is_clear, noted) = (keeper.is_clear(), keeper.noted());
    let is_kept = match keeper.commit() {
        Ok(()) => true,
        Err(CommitError::OutOfMemory) => false,
        Err(_) => return Came::Wrong(2),
    };
    let has_grown = keeper.journal_end() > end;
    match (visit.answered, is_clear, is_kept) {
        (1, false, true) if noted == frame.len() && has_grown => Came::Done,
        (1, false, false) if noted == frame.len() && !has_grown => Came::InPart,
        (1, true, true) if noted == 0 && !has_grown => Came::TakenBack,
        (0, true, true) if noted == 0 && !has_grown => Came::Unanswered,
        _ => Came::Wrong(3),
    }
}

/// Whether this reply leaves, and nothing else.
fn sends<S: BatchStore, A: Allocator + Copy, D: Disk, B: Allocator + Copy>(
    alloc: B,
    keeper: &mut Keeper<S, A, D>,
    number: u64,
    reply: &[u8],
) -> bool {
    let mut out = Vec::new(alloc);
    let is_told = matches!(
        keeper.send(number, &mut Seat::new(), &mut out),
        Some(Sent::Bytes(_))
    );
    is_told && out.as_slice() == reply
}

/// Whether nothing leaves.
fn is_held_back<S: BatchStore, A: Allocator + Copy, D: Disk, B: Allocator + Copy>(
    alloc: B,
    keeper: &mut Keeper<S, A, D>,
    number: u64,
) -> bool {
    let mut out = Vec::new(alloc);
    let is_told = matches!(
        keeper.send(number, &mut Seat::new(), &mut out),
        Some(Sent::HeldBack)
    );
    is_told && out.is_empty()
}

/// Whether a frame is done and kept in a session of its own, and answered as it should be.
fn is_done<S: BatchStore, A: Allocator + Copy, D: Disk, B: Allocator + Copy>(
    alloc: B,
    keeper: &mut Keeper<S, A, D>,
    exchange: &Exchange,
) -> bool {
    let Ok(number) = keeper.open() else {
        return false;
    };
    let is_kept = came_of(keeper, number, exchange.request) == Came::Done;
    is_kept && sends(alloc, keeper, number, exchange.response)
}

/// Has a new session answer a frame, and tells what came of it. There is none where memory lacks for one.
fn first_try<S: BatchStore, A: Allocator + Copy, D: Disk>(
    keeper: &mut Keeper<S, A, D>,
    frame: &[u8],
) -> (u64, Came) {
    match keeper.open() {
        Ok(number) => (number, came_of(keeper, number, frame)),
        Err(AllocError) => (0, Came::Unanswered),
    }
}

/// Whether the broker goes on as it should: a frame of which nothing was done is done in another session.
fn goes_on<S: BatchStore, A: Allocator + Copy, D: Disk, B: Allocator + Copy>(
    alloc: B,
    keeper: &mut Keeper<S, A, D>,
    exchange: &Exchange,
    (number, came): (u64, Came),
) -> bool {
    match came {
        Came::Done => sends(alloc, keeper, number, exchange.response),
        Came::TakenBack => {
            let failed = exchange.failed.unwrap_or(b"none");
            sends(alloc, keeper, number, failed) && is_done(alloc, keeper, exchange)
        }
        Came::InPart => is_held_back(alloc, keeper, number),
        Came::Unanswered => is_done(alloc, keeper, exchange),
        Came::Wrong(_) => true,
    }
}

/// A run: what came of the frame, how many allocations were asked for before it and behind it, and what the broker answers
/// that the journal is to lead to.
#[derive(Drop)]
struct Run<A: Allocator + Copy> {
    came: Came,
    began: u64,
    ended: u64,
    answers: Vec<u8, A>,
}

/// Answers a frame behind another one, and keeps them on a disk.
fn run_on<A: Allocator + Copy>(
    heap: &Refusing<Refusing<A>>,
    alloc: A,
    disk: &mut MemoryDisk<A>,
    row: &Row,
) -> Option<Run<A>> {
    let node = new_node::<SegStore<_>>(heap, Role::Leader)?;
    let journal = Journal::create(Cramped::roomy(disk), &kept_head()).ok()?;
    let mut keeper = Keeper::new(heap, node, journal).ok()?;
    if let Some(before) = row.before {
        if !is_done(alloc, &mut keeper, &before) {
            return None;
        }
    }
    let began = heap.calls();
    let first = answers_of(alloc, keeper.node()).ok()?;
    let (number, came) = first_try(&mut keeper, row.exchange.request);
    let ended = heap.calls();
    let came = if goes_on(alloc, &mut keeper, &row.exchange, (number, came)) {
        came
    } else {
        Came::Wrong(4)
    };
    let last = answers_of(alloc, keeper.node()).ok()?;
    Some(Run {
        came,
        began,
        ended,
        answers: if came == Came::InPart { first } else { last },
    })
}

/// Whether a journal's file leads to a state in which a broker answers so.
fn leads_to<A: Allocator + Copy>(alloc: A, disk: &mut MemoryDisk<A>, answers: &[u8]) -> bool {
    let Some(mut node) = new_node::<SegStore<A>>(alloc, Role::Leader) else {
        return false;
    };
    let Ok(mut reader) = Reader::open(Cramped::roomy(disk), alloc) else {
        return false;
    };
    let mut out = Vec::new(alloc);
    let is_read = recover(&mut reader, &mut node, &mut out, &mut Unwatched).is_ok();
    is_read && has_answers(alloc, &node, answers)
}

/// A run for which these two allocations fail, the second one counted without the first. None where there is no memory for
/// it.
fn run_without<A: Allocator + Copy>(alloc: A, row: &Row, refused: (u64, u64)) -> Option<Run<A>> {
    let heap = Refusing::new(Refusing::new(alloc, refused.1), refused.0);
    let mut disk = MemoryDisk::new(alloc, b"").ok()?;
    let mut run = run_on(&heap, alloc, &mut disk, row)?;
    if !leads_to(alloc, &mut disk, &run.answers) {
        run.came = Came::Wrong(5);
    }
    Some(run)
}

/// How often what came of a frame.
#[derive(Clone, Copy, Debug)]
struct Counts {
    done: u64,
    taken_back: u64,
    in_part: u64,
    unanswered: u64,
}

impl Counts {
    /// Nothing came yet.
    fn new() -> Counts {
        Counts {
            done: 0,
            taken_back: 0,
            in_part: 0,
            unanswered: 0,
        }
    }

    /// Counts what came of a frame, unless it is wrong.
    fn count(&mut self, came: Came) -> bool {
        let count = match came {
            Came::Done => &mut self.done,
            Came::TakenBack => &mut self.taken_back,
            Came::InPart => &mut self.in_part,
            Came::Unanswered => &mut self.unanswered,
            Came::Wrong(_) => return false,
        };
        *count = count.saturating_add(1);
        true
    }
}

/// The allocations that failed where something is wrong, and what came.
type Wrong = ((u64, u64), Option<Came>);

/// Counts what comes of a frame where one allocation fails that it asks for, each in turn.
fn all_once<A: Allocator + Copy>(alloc: A, row: &Row) -> Result<Counts, Wrong> {
    let Some(whole) = run_without(alloc, row, (0, 0)) else {
        return Err(((0, 0), None));
    };
    let mut counts = Counts::new();
    for refused in whole.began.saturating_add(1)..MOST {
        match run_without(alloc, row, (refused, 0)) {
            Some(run) if run.ended < refused => return Ok(counts),
            Some(run) if counts.count(run.came) => {}
            other => return Err(((refused, 0), other.map(|run| run.came))),
        }
    }
    Err(((MOST, 0), None))
}

/// Counts what comes of a frame where this allocation fails, and one behind it, each in turn.
fn all_behind<A: Allocator + Copy>(
    alloc: A,
    row: &Row,
    first: u64,
    counts: &mut Counts,
) -> Result<(), Wrong> {
    for second in first..MOST {
        match run_without(alloc, row, (first, second)) {
            // the first one isn't counted
            Some(run) if run.ended <= second => return Ok(()),
            Some(run) if counts.count(run.came) => {}
            other => return Err(((first, second), other.map(|run| run.came))),
        }
    }
    Err(((first, MOST), None))
}

/// Counts what comes of a frame where two allocations fail that it asks for, each two in turn.
fn all_twice<A: Allocator + Copy>(alloc: A, row: &Row) -> Result<Counts, Wrong> {
    let Some(whole) = run_without(alloc, row, (0, 0)) else {
        return Err(((0, 0), None));
    };
    let mut counts = Counts::new();
    for first in whole.began.saturating_add(1)..=whole.ended {
        all_behind(alloc, row, first, &mut counts)?;
    }
    Ok(counts)
}

#[test]
fn a_frame_of_one_entry_is_done_or_taken_back(rt: HostRuntime) {
    for row in &ALONE {
        let counts = all_once(rt.alloc(), row);
        let is_right = matches!(
            counts,
            Ok(Counts {
                taken_back: 1..,
                in_part: 0,
                unanswered: 1..,
                ..
            })
        );
        assert!(rt; is_right, "{}: {counts:?}", row.exchange.name);
    }
}

#[test]
fn a_frame_of_two_entries_is_done_in_part_where_one_lacks_memory(rt: HostRuntime) {
    let counts = all_once(rt.alloc(), &TWO);
    let is_right = matches!(
        counts,
        Ok(Counts {
            taken_back: 0,
            in_part: 1..,
            unanswered: 1..,
            ..
        })
    );
    assert!(rt; is_right, "{counts:?}");
}

#[test]
fn a_frame_of_two_entries_is_taken_back_where_both_lack_memory(rt: HostRuntime) {
    let counts = all_twice(rt.alloc(), &TWO);
    let is_right = matches!(
        counts,
        Ok(Counts {
            taken_back: 1..,
            in_part: 1..,
            ..
        })
    );
    assert!(rt; is_right, "{counts:?}");
}
