//! What a copy answers from the batches that it keeps. That a deleted key stays deleted is a row of
//! `tests/rows/deliveries.rows`.
use crate::tests::answers::is_added;
use partition_log::{OutOfRange, PartitionLog};
use sample_batches::one;
use segment::{BatchStore, SegStore, VecStore};

/// Whether a copy that has seen nothing answers so.
fn is_empty<S: BatchStore>(log: &PartitionLog<S>) -> bool {
    let answers = [
        (log.start(), log.end(), log.len()) == (0, 0, 0),
        log.get(b"b").is_none(),
        log.fetch(0, 100, true) == Ok(0..0),
        log.by_time(i64::MIN).is_none(),
    ];
    answers == [true; 4]
}

/// Delivers the offset 3 and then the offset 1, each of them new.
fn takes_both<S: BatchStore>(log: &mut PartitionLog<S>) -> bool {
    let later = is_added(log, &one(3, 3000, b'b', b'3'));
    later && is_added(log, &one(1, 1000, b'b', b'2'))
}

/// Whether the batches of a copy with gaps are those that came, and it has seen them, and has the later
/// value.
fn has_both<S: BatchStore>(log: &PartitionLog<S>) -> bool {
    if log.len() != 2 {
        return false;
    }
    let answers = [
        log.at(0).head().base == 1,
        log.bytes_of(1) == one(3, 3000, b'b', b'3').as_slice(),
        (log.start(), log.end(), log.cover().first_gap(0)) == (0, 4, 0),
        log.cover().ranges() == [(1, 1), (3, 3)].as_slice(),
        log.get(b"b") == Some(b"3".as_slice()),
    ];
    answers == [true; 5]
}

/// An offset, a limit in bytes and whether the first batch may be longer, and the indices of the batches;
/// `None` for out of range.
type Fetch = (i64, usize, bool, Option<(usize, usize)>);

/// Fetches from a copy with gaps.
static FETCHES: [Fetch; 9] = [
    (0, 140, false, Some((0, 2))),
    (0, 139, false, Some((0, 1))),
    (0, 69, false, Some((0, 0))),
    (0, 69, true, Some((0, 1))),
    (2, 70, false, Some((1, 2))),
    (4, 0, false, Some((2, 2))),
    (4, 0, true, Some((2, 2))),
    (5, 0, true, None),
    (-1, 0, true, None),
];

/// The first fetch that is answered otherwise; `None` where there is none.
fn wrong_fetch<S: BatchStore>(log: &PartitionLog<S>) -> Option<Fetch> {
    let mut wrong = None;
    for fetch in &FETCHES {
        let answer = match log.fetch(fetch.0, fetch.1, fetch.2) {
            Ok(range) => Some((range.start, range.end)),
            Err(OutOfRange) => None,
        };
        if answer != fetch.3 {
            wrong = Some(*fetch);
        }
    }
    wrong
}

/// A time, and the time and the offset of the first record from then on.
type Time = (i64, Option<(i64, i64)>);

/// Times of a copy with gaps.
static TIMES: [Time; 5] = [
    (i64::MIN, Some((1000, 1))),
    (1000, Some((1000, 1))),
    (1001, Some((3000, 3))),
    (3000, Some((3000, 3))),
    (3001, None),
];

/// The first time that is answered otherwise; `None` where there is none.
fn wrong_time<S: BatchStore>(log: &PartitionLog<S>) -> Option<Time> {
    let mut wrong = None;
    for time in &TIMES {
        if log.by_time(time.0) != time.1 {
            wrong = Some(*time);
        }
    }
    wrong
}

/// Whether a new copy is empty, takes two batches, and has both; and the first fetch and the first time that it
/// answers otherwise then.
fn answers_of_new<S: BatchStore>(alloc: S::Alloc) -> ([bool; 3], Option<Fetch>, Option<Time>) {
    let mut log = PartitionLog::<S>::new(alloc);
    let answers = [is_empty(&log), takes_both(&mut log), has_both(&log)];
    (answers, wrong_fetch(&log), wrong_time(&log))
}

#[test]
fn a_copy_with_gaps(rt: HostRuntime) {
    assert_eq!(rt;
        answers_of_new::<VecStore<_>>(rt.alloc()),
        ([true; 3], None, None)
    );
    assert_eq!(rt;
        answers_of_new::<SegStore<_>>(rt.alloc()),
        ([true; 3], None, None)
    );
}
