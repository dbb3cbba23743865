//! `run` with each allocation failing in turn: where memory lacks for its answers, nothing happens; where it lacks for an
//! event, that event is left out and the others go on.

use crate::tests::event_memory::{Told, event_of, shown};
use crate::tests::events::Answer;
use crate::tests::memory::MOST;
use crate::tests::stores::{BOTH, Kept};
use cluster::{Cluster, ClusterError, Event, EventError, Outcome};
use partition_log::{CleanReport, Delivered, PartitionLog};
use refusing_alloc::Refusing;
use sample_batches::{A_IS_1, A_IS_NULL, one};
use segment::{BatchStore, SegStore, VecStore};
use std::alloc::{AllocError, Allocator, Global};
use std::test::Fail;

/// How many events there are.
const COUNT: usize = 10;

/// How many bytes the three batches have, and the image of what is left of them, and a place for each answer.
const GIVEN: usize = 70 + 70 + 69 + 112 + COUNT * 32;

/// Behind three batches, `a` = 1, `b` = 2 and `a` = null: a cleaning, an image of what is left, a delivery to a follower,
/// the image merged into it twice, a delivery to the leader, and a merge of an image that isn't there.
static BEHIND: [Told; 7] = [
    Told::Clean(0, 3, 3),
    Told::Send(0),
    Told::Deliver(1, 0),
    Told::Merge(1, 0),
    Told::Merge(1, 0),
    Told::Deliver(0, 0),
    Told::Merge(1, 5),
];

/// The events.
fn events(alloc: Global) -> Result<Vec<Event<Global>, Global>, AllocError> {
    let mut events = Vec::new(alloc);
    let first: [&[u8]; 3] = [&A_IS_1, &one(0, 0, b'b', b'2'), &A_IS_NULL];
    for bytes in first {
        events.push(Event::Produce {
            bytes: Vec::from_slice(alloc, bytes)?,
        })?;
    }
    for told in &BEHIND {
        events.push(event_of(alloc, *told)?)?;
    }
    Ok(events)
}

// The answers.
const BASED_0: Answer = Ok(Outcome::Based {
    base: 0,
    repeat: false,
});

const BASED_1: Answer = Ok(Outcome::Based {
    base: 1,
    repeat: false,
});

const BASED_2: Answer = Ok(Outcome::Based {
    base: 2,
    repeat: false,
});

/// The older record of `a`, its null, and the batches of both went.
const CLEANED: Answer = Ok(Outcome::Cleaned(CleanReport {
    records: 1,
    tombstones: 1,
    batches: 2,
}));

/// The null alone went, with its batch.
const NULL_WENT: Answer = Ok(Outcome::Cleaned(CleanReport {
    records: 0,
    tombstones: 1,
    batches: 1,
}));

/// Nothing went.
const NONE_WENT: Answer = Ok(Outcome::Cleaned(CleanReport {
    records: 0,
    tombstones: 0,
    batches: 0,
}));

const SENT: Answer = Ok(Outcome::Sent { image: 0 });

const ADDED: Answer = Ok(Outcome::Delivered(Delivered::Added));

const MERGED: Answer = Ok(Outcome::Merged);

const LEADER: Answer = Err(EventError::LeaderCopy);

const NO_IMAGE: Answer = Err(EventError::NoImage);

const LACKED: Answer = Err(EventError::OutOfMemory);

/// Which event is left out, the answers, and then the rows of the follower's table and the ranges of the offsets that it
/// has seen.
type Row = (
    &'static str,
    [Answer; COUNT],
    &'static [(&'static [u8], &'static [u8])],
    &'static [(i64, i64)],
);

/// What comes of the list, worked by hand. The last two events take no memory.
static ROWS: [Row; 9] = [
    (
        "none",
        [
            BASED_0, BASED_1, BASED_2, CLEANED, SENT, ADDED, MERGED, MERGED, LEADER, NO_IMAGE,
        ],
        &[(b"b", b"2")],
        &[(0, 2)],
    ),
    (
        "a = 1",
        [
            LACKED, BASED_0, BASED_1, NULL_WENT, SENT, ADDED, MERGED, MERGED, LEADER, NO_IMAGE,
        ],
        &[(b"b", b"2")],
        &[(0, 1)],
    ),
    (
        "b = 2",
        [
            BASED_0, LACKED, BASED_1, CLEANED, SENT, ADDED, MERGED, MERGED, LEADER, NO_IMAGE,
        ],
        &[],
        &[(0, 1)],
    ),
    (
        "a = null",
        [
            BASED_0, BASED_1, LACKED, NONE_WENT, SENT, ADDED, MERGED, MERGED, LEADER, NO_IMAGE,
        ],
        &[(b"a", b"1"), (b"b", b"2")],
        &[(0, 1)],
    ),
    (
        "the cleaning",
        [
            BASED_0, BASED_1, BASED_2, LACKED, SENT, ADDED, MERGED, MERGED, LEADER, NO_IMAGE,
        ],
        &[(b"b", b"2")],
        &[(0, 2)],
    ),
    (
        "the image",
        [
            BASED_0, BASED_1, BASED_2, CLEANED, LACKED, ADDED, NO_IMAGE, NO_IMAGE, LEADER, NO_IMAGE,
        ],
        &[(b"a", b"1")],
        &[(0, 0)],
    ),
    (
        "the delivery",
        [
            BASED_0, BASED_1, BASED_2, CLEANED, SENT, LACKED, MERGED, MERGED, LEADER, NO_IMAGE,
        ],
        &[(b"b", b"2")],
        &[(0, 2)],
    ),
    (
        "the first merge",
        [
            BASED_0, BASED_1, BASED_2, CLEANED, SENT, ADDED, LACKED, MERGED, LEADER, NO_IMAGE,
        ],
        &[(b"b", b"2")],
        &[(0, 2)],
    ),
    (
        "the second merge",
        [
            BASED_0, BASED_1, BASED_2, CLEANED, SENT, ADDED, MERGED, LACKED, LEADER, NO_IMAGE,
        ],
        &[(b"b", b"2")],
        &[(0, 2)],
    ),
];

/// What comes of a run: that memory lacked for its answers, the number of a row, or something else.
#[derive(Clone, Copy, Debug, PartialEq, Eq)]
enum Came {
    Lacked,
    Row(usize),
    Wrong,
}

/// Whether a copy shows this table, at the first or the second time of asking, and has seen these offsets.
fn shows<S: BatchStore>(copy: &PartitionLog<S>, row: &Row) -> bool {
    let table = match copy.table() {
        Ok(table) => Ok(table),
        Err(_) => copy.table(),
    };
    match table {
        Ok(table) => table.as_slice() == row.2 && copy.cover().ranges() == row.3,
        Err(_) => false,
    }
}

/// The number of the row that has these answers, if the follower shows what it should then.
fn row_of<S: BatchStore>(cluster: &Cluster<S>, answers: &[Answer]) -> Came {
    for (number, row) in ROWS.iter().enumerate() {
        if answers == row.1.as_slice() {
            return match cluster.copy(1) {
                Some(copy) if shows(copy, row) => Came::Row(number),
                _ => Came::Wrong,
            };
        }
    }
    Came::Wrong
}

/// What comes of a run; where memory lacked for the answers, the cluster shows what it had shown, and all happens later.
fn runs<S: BatchStore>(alloc: Global, cluster: &mut Cluster<S>, events: &[Event<Global>]) -> Came {
    let before = shown(alloc, cluster);
    match cluster.run(events) {
        Ok(answers) => row_of(cluster, &answers),
        Err(_) => {
            let is_same = before.is_ok() && shown(alloc, cluster) == before;
            let again = match cluster.run(events) {
                Ok(answers) => row_of(cluster, &answers),
                Err(_) => Came::Wrong,
            };
            if is_same && again == Came::Row(0) {
                Came::Lacked
            } else {
                Came::Wrong
            }
        }
    }
}

/// The same of a new cluster, which is made again where memory lacked.
fn new_runs<S: BatchStore>(heap: S::Alloc, alloc: Global, events: &[Event<Global>]) -> Came {
    let cluster = match Cluster::<S>::new(heap, 2) {
        Err(ClusterError::OutOfMemory) => Cluster::<S>::new(heap, 2),
        cluster => cluster,
    };
    match cluster {
        Ok(mut cluster) => runs(alloc, &mut cluster, events),
        Err(_) => Came::Wrong,
    }
}

/// The same of a cluster whose copies keep their batches so.
fn runs_in<A: Allocator + Copy>(
    kept: Kept,
    heap: A,
    alloc: Global,
    events: &[Event<Global>],
) -> Came {
    match kept {
        Kept::Apart => new_runs::<VecStore<A>>(heap, alloc, events),
        Kept::EndToEnd => new_runs::<SegStore<A>>(heap, alloc, events),
    }
}

/// The same where this allocation fails, and whether it is asked for; something else where more is asked for at once than
/// what was given allows.
fn runs_without(alloc: Global, kept: Kept, refused: u64, events: &[Event<Global>]) -> (Came, bool) {
    let heap = Refusing::new(alloc, refused);
    let came = runs_in(kept, &heap, alloc, events);
    let is_asked = heap.calls() >= refused;
    if heap.is_within(GIVEN) {
        (came, is_asked)
    } else {
        (Came::Wrong, is_asked)
    }
}

/// The bits of the rows that come, where each allocation fails in turn, and above them that of a run without answers; an
/// error with the number of an allocation at whose failure something else comes.
fn all_that_come(alloc: Global, kept: Kept, events: &[Event<Global>]) -> Result<u32, u64> {
    let mut all = 0_u32;
    for refused in 1..MOST {
        let (came, is_asked) = runs_without(alloc, kept, refused, events);
        all |= match came {
            Came::Row(number) if number < COUNT && (is_asked || number == 0) => 1 << number,
            Came::Lacked if is_asked => 1 << COUNT,
            _ => return Err(refused),
        };
        if !is_asked {
            return Ok(all);
        }
    }
    Err(MOST)
}

#[test]
fn an_event_without_memory_is_left_out(rt: HostRuntime) -> Result<(), Fail> {
    let events = events(rt.alloc())?;
    for kept in BOTH {
        let all = all_that_come(rt.alloc(), kept, &events);
        assert_eq!(rt; all, Ok(0b101_1111_1111), "{kept:?}");
    }
    Ok(())
}
