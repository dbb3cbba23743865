//! Two clients' sessions under each allocation failing in turn: one of them lacks memory, or neither does, and the other is
//! answered.

use crate::tests::frames::{FETCHED, LIST, LISTED, NOT_STORED, PRODUCE, STORED};
use crate::tests::served::READ_ROOM;
use refusing_alloc::Refusing;
use sample_brokers::brokers::configured;
use segment::{BatchStore, ProgramStore};
use sessions::{Plainly, Seat, Sessions, Then, Visit, Why};
use std::alloc::Allocator;
use std::test::Fail;
use tcp_edge::{Node, Role};

/// More allocations than any run below asks for.
const MOST: u64 = 100;

/// A Fetch request for partition 0 of `t` from offset 0 on, which waits a second for a byte.
const WAITING: &[u8] =
    b"\0\0\0\x36\0\x01\0\x04\0\0\0\x09\xff\xff\xff\xff\xff\xff\0\0\x03\xe8\0\0\0\x01\0\0\x03\xe8\0\0\0\0\x01\0\x01t\0\0\0\x01\0\0\0\0\0\0\0\0\0\0\0\0\0\0\x03\xe8";

/// What came of a call in memory of which one allocation fails.
#[derive(Clone, Copy, Debug, PartialEq, Eq)]
enum Came {
    /// What is wanted.
    Done,
    /// Memory was wanting, and nothing was done.
    Lacked,
    /// Something else.
    Wrong,
}

/// What came of two calls, of which one may have lacked memory.
fn both(first: Came, second: Came) -> Came {
    match (first, second) {
        (Came::Done, it) | (it, Came::Done) => it,
        _ => Came::Wrong,
    }
}

/// Opens a session; where memory is wanting, once more, and it has the number that it would have had.
fn opens<S: BatchStore, A: Allocator + Copy>(sessions: &mut Sessions<S, A>, number: u64) -> Came {
    match sessions.open() {
        Ok(given) if given == number => return Came::Done,
        Ok(_) => return Came::Wrong,
        Err(_) => {}
    }
    match (sessions.session(number).is_none(), sessions.open()) {
        (true, Ok(given)) if given == number => Came::Lacked,
        _ => Came::Wrong,
    }
}

/// What a visit and what it wrote say of a request that came.
fn came_of(visit: &Visit, written: &[u8]) -> Came {
    match &visit.then {
        Then::Again if visit.answered == 1 && written == LISTED => Came::Done,
        Then::Over(Why::OutOfMemory) if visit.answered == 0 && written.is_empty() => Came::Lacked,
        _ => Came::Wrong,
    }
}

/// Visits a session to which these bytes came, if any, when the clock says so many milliseconds, and sends what it is owed.
fn visited<S: BatchStore, A: Allocator + Copy, B: Allocator + Copy>(
    sessions: &mut Sessions<S, A>,
    number: u64,
    clock: u64,
    came: &[u8],
    to: &mut Vec<u8, B>,
) -> Option<Visit> {
    let mut seat = Seat::new();
    seat.may_read = !came.is_empty();
    let mut from = came;
    let visit = sessions.visit(number, clock, &mut Plainly, &mut seat, &mut from)?;
    let _ = sessions.send(number, &mut seat, to);
    Some(visit)
}

/// Visits a session to which a request came.
fn visits<S: BatchStore, A: Allocator + Copy, B: Allocator + Copy>(
    sessions: &mut Sessions<S, A>,
    alloc: B,
    number: u64,
) -> Came {
    let mut to = Vec::new(alloc);
    match visited(sessions, number, 0, LIST, &mut to) {
        Some(visit) => came_of(&visit, &to),
        None => Came::Wrong,
    }
}

/// Opens two sessions and visits them.
fn serves<S: BatchStore, A: Allocator + Copy, B: Allocator + Copy>(
    sessions: &mut Sessions<S, A>,
    alloc: B,
) -> Came {
    let opened = both(opens(sessions, 0), opens(sessions, 1));
    let visited = both(visits(sessions, alloc, 0), visits(sessions, alloc, 1));
    both(opened, visited)
}

/// Visits session 0, to which a Fetch came that waits for one partition, until the clock says 1,005.
fn waits<S: BatchStore, A: Allocator + Copy, B: Allocator + Copy>(
    sessions: &mut Sessions<S, A>,
    alloc: B,
) -> Came {
    let mut to = Vec::new(alloc);
    let visit = visited(sessions, 0, 5, WAITING, &mut to);
    let due = sessions.next_due();
    match (visit, sessions.awaited(0)) {
        (
            Some(
                Visit {
                    answered: 0,
                    then: Then::Idle,
                    ..
                },
            ),
            1,
        ) if due == Some(1_005) => Came::Done,
        (
            Some(
                Visit {
                    answered: 0,
                    then: Then::Over(Why::OutOfMemory),
                    ..
                },
            ),
            0,
        ) if due.is_none() => { Came::Lacked }
        _ => Came::Wrong,
    }
}

/// Visits a session that answers one frame with these bytes.
fn answers<S: BatchStore, A: Allocator + Copy, B: Allocator + Copy>(
    sessions: &mut Sessions<S, A>,
    alloc: B,
    number: u64,
    came: &[u8],
    wanted: &[u8],
) -> Came {
    let mut to = Vec::new(alloc);
    match visited(sessions, number, 5, came, &mut to) {
        Some(Visit { answered: 1, .. }) if to.as_slice() == wanted => Came::Done,
        Some(Visit { answered: 1, .. }) if to.as_slice() == NOT_STORED => Came::Lacked,
        Some(
            Visit {
                answered: 0,
                then: Then::Over(Why::OutOfMemory),
                ..
            },
        ) => Came::Lacked,
        _ => Came::Wrong,
    }
}

/// A Fetch waits, another client produces, and the Fetch is woken and answered.
fn wakes<S: BatchStore, A: Allocator + Copy, B: Allocator + Copy>(
    sessions: &mut Sessions<S, A>,
    alloc: B,
) -> Came {
    let opened = both(opens(sessions, 0), opens(sessions, 1));
    let waiting = both(opened, waits(sessions, alloc));
    if waiting != Came::Done {
        return waiting;
    }
    let produced = answers(sessions, alloc, 1, PRODUCE, STORED);
    if produced != Came::Done {
        return produced;
    }
    if sessions.next_woken(5) != Some(0) {
        return Came::Wrong;
    }
    let fetched = answers(sessions, alloc, 0, &[], FETCHED);
    let is_left = sessions.next_woken(2_000).is_some() || sessions.awaited(0) > 0;
    match fetched {
        Came::Done if is_left => Came::Wrong,
        came => came,
    }
}

/// What comes of a broker with two clients, of which one waits if that is asked for; that memory was wanting, if
/// there is no broker.
fn runs<A: Allocator + Copy, B: Allocator + Copy>(heap: A, alloc: B, is_waiting: bool) -> Came {
    let Ok(config) = configured(heap, Role::Leader, 3, "t", 1) else {
        return Came::Lacked;
    };
    let Ok(node) = Node::<ProgramStore<A>>::new(heap, config) else {
        return Came::Lacked;
    };
    match Sessions::new(heap, node) {
        Ok(mut sessions) if is_waiting => wakes(&mut sessions, alloc),
        Ok(mut sessions) => serves(&mut sessions, alloc),
        Err(_) => Came::Lacked,
    }
}

/// What comes of it in memory of which this allocation fails, and whether that is asked for.
fn runs_without<B: Allocator + Copy>(alloc: B, refused: u64, is_waiting: bool) -> (Came, bool) {
    let heap = Refusing::new(alloc, refused);
    let came = runs(&heap, alloc, is_waiting);
    let is_small = heap.largest() <= READ_ROOM;
    (
        if is_small { came } else { Came::Wrong },
        heap.calls() >= refused,
    )
}

#[test]
fn a_client_lacks_memory_by_itself(rt: HostRuntime) -> Result<(), Fail> {
    let mut came = Came::Wrong;
    let mut lacked = 0_u64;
    for refused in 1..MOST {
        let (now, is_asked) = runs_without(rt.alloc(), refused, false);
        came = now;
        // All that is asked for is needed.
        assert!(rt;
            (came == Came::Done) == !is_asked && came != Came::Wrong,
            "allocation {refused} fails: {came:?}"
        );
        lacked = lacked.saturating_add(u64::from(came == Came::Lacked));
        if came == Came::Done {
            break;
        }
    }
    assert!(rt; came == Came::Done && lacked > 0, "{came:?}, {lacked}");
    Ok(())
}

#[test]
fn a_fetch_waits_and_is_woken_or_lacks_memory(rt: HostRuntime) -> Result<(), Fail> {
    let mut came = Came::Wrong;
    let mut lacked = 0_u64;
    for refused in 1..MOST {
        let (now, is_asked) = runs_without(rt.alloc(), refused, true);
        came = now;
        assert!(rt; came != Came::Wrong, "allocation {refused} fails: {came:?}");
        lacked = lacked.saturating_add(u64::from(came == Came::Lacked));
        if !is_asked {
            break;
        }
    }
    assert!(rt; came == Came::Done && lacked > 10, "{came:?}, {lacked}");
    Ok(())
}
