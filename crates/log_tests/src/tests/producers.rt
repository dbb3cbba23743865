//! A leader's log of many producers: what it answers to each, by the index of producers that it has and by one
//! made anew, and with each allocation failing in turn.
use crate::tests::answers::{Answer, answer, is_added};
use batch_codec::view;
use copy_answers::answers_of;
use partition_log::{AppendError, CleanReport, LeaderLog, PartitionLog};
use refusing_alloc::Refusing;
use sample_batches::sent;
use segment::{BatchStore, SegStore, VecStore};
use std::alloc::Allocator;

/// How many producers there are.
const PRODUCERS: i32 = 20;

/// How many offsets they take, with three batches of one record each.
const END: i32 = 60;

/// How many bytes their batches have.
const GIVEN: usize = 60 * 70;

/// More allocations than any run below asks for.
const MOST: u64 = 500;

/// What goes where every record but the last does, and no batch.
const ALL_BUT_ONE: CleanReport = CleanReport {
    records: 59,
    tombstones: 0,
    batches: 0,
};

/// The batch that the producers, in turn, have at an offset.
fn in_turn(offset: i32) -> [u8; 70] {
    let mut bytes = sent(i64::from(offset % PRODUCERS), 0, offset / PRODUCERS);
    bytes[..8].copy_from_slice(&i64::from(offset).to_be_bytes());
    bytes
}

/// Whether the log judges the batch that has this offset as new.
fn is_new<S: BatchStore>(log: &LeaderLog<S>, bytes: &[u8]) -> bool {
    match view(bytes) {
        Ok(batch) => log.judge(&batch) == Ok(None),
        Err(_) => false,
    }
}

/// Delivers the producers' batches below an offset to a copy, and tells whether each was new.
fn is_given<S: BatchStore>(copy: &mut PartitionLog<S>, end: i32) -> bool {
    let mut all = true;
    for offset in 0..end {
        all = all && is_added(copy, &in_turn(offset));
    }
    all
}

/// Whether a copy answers as one in this memory does that has the producers' batches below an offset.
fn answers_as_given<S: BatchStore>(ample: S::Alloc, copy: &PartitionLog<S>, end: i32) -> bool {
    let mut other = PartitionLog::<S>::new(ample);
    let is_given = is_given(&mut other, end);
    match (answers_of(ample, copy), answers_of(ample, &other)) {
        (Ok(answers), Ok(wanted)) => is_given && answers == wanted,
        _ => false,
    }
}

/// Sends the batch that has this offset, and tells whether it goes there. Where memory lacks, which is
/// counted, the log answers as before, and it is sent again.
fn is_appended<S: BatchStore>(
    ample: S::Alloc,
    log: &mut LeaderLog<S>,
    offset: i32,
    lacked: &mut u64,
) -> bool {
    let bytes = in_turn(offset);
    let mut is_same = true;
    let mut answered = answer(log, &bytes);
    if answered == Some(Err(AppendError::OutOfMemory)) {
        *lacked = lacked.saturating_add(1);
        is_same = is_new(log, &bytes) && answers_as_given(ample, log.copy(), offset);
        answered = answer(log, &bytes);
    }
    is_same && answered == Some(Ok((i64::from(offset), false)))
}

/// Whether the producers' batches go to the end in turn.
fn are_appended<S: BatchStore>(ample: S::Alloc, log: &mut LeaderLog<S>, lacked: &mut u64) -> bool {
    let mut all = true;
    for offset in 0..END {
        all = all && is_appended(ample, log, offset, lacked);
    }
    all
}

/// Whether each of the producers' batches is a repeat.
fn are_repeats<S: BatchStore>(log: &mut LeaderLog<S>) -> bool {
    let mut all = true;
    for offset in 0..END {
        let repeat = Some(Ok((i64::from(offset), true)));
        all = all && answer(log, &in_turn(offset)) == repeat;
    }
    all
}

/// Whether a copy has the batches as they were sent.
fn has_all<S: BatchStore>(copy: &PartitionLog<S>) -> bool {
    copy.len() == 60 && copy.end() == 60 && copy.bytes_of(0) == in_turn(0).as_slice()
}

/// Cleans the log, again where memory lacks, which is counted, and tells whether it answered as before then, and
/// every record but the last goes, and no batch.
fn is_cleaned<S: BatchStore>(ample: S::Alloc, log: &mut LeaderLog<S>, lacked: &mut u64) -> bool {
    match log.clean(60, 0) {
        Ok(report) => report == ALL_BUT_ONE,
        Err(_) => {
            *lacked = lacked.saturating_add(1);
            let is_same = answers_as_given(ample, log.copy(), END);
            is_same && log.clean(60, 0) == Ok(ALL_BUT_ONE)
        }
    }
}

/// A batch's name, its producer, epoch and sequence number, and what the leader answers.
type Row = (&'static str, i64, i16, i32, Answer);

/// Batches that are sent behind those of the producers.
static ROWS: [Row; 12] = [
    ("the first of 0 again", 0, 0, 0, Ok((0, true))),
    ("the second of 7 again", 7, 0, 1, Ok((27, true))),
    ("the last of 19 again", 19, 0, 2, Ok((59, true))),
    ("one of 7 left out", 7, 0, 4, Err(AppendError::OutOfOrder)),
    ("7 goes on", 7, 0, 3, Ok((60, false))),
    ("a producer never met", 20, 3, 9, Ok((61, false))),
    ("it goes on", 20, 3, 10, Ok((62, false))),
    ("its first again", 20, 3, 9, Ok((61, true))),
    ("a later epoch of 19", 19, 1, 0, Ok((63, false))),
    ("the epoch before", 19, 0, 3, Err(AppendError::OldEpoch)),
    ("one of it left out", 19, 1, 2, Err(AppendError::OutOfOrder)),
    ("what 7 sent last", 7, 0, 3, Ok((60, true))),
];

/// What the log of a clone answers, whose index of producers was made anew.
fn answer_of_clone<S: BatchStore>(copy: &PartitionLog<S>, bytes: &[u8]) -> Option<Answer> {
    let clone = copy.try_clone().ok()?;
    match LeaderLog::from_copy(clone) {
        Ok(mut log) => answer(&mut log, bytes),
        Err(_) => None,
    }
}

/// The name of the first batch of these that the log answers in another way, itself or its clone; empty
/// where there is none.
fn wrong_row<S: BatchStore>(log: &mut LeaderLog<S>, rows: &[Row]) -> &'static str {
    let mut wrong = "";
    for (name, producer, epoch, sequence, wanted) in rows {
        let bytes = sent(*producer, *epoch, *sequence);
        let answers = [answer_of_clone(log.copy(), &bytes), answer(log, &bytes)];
        if wrong.is_empty() && answers != [Some(*wanted); 2] {
            wrong = *name;
        }
    }
    wrong
}

/// What is wrong of a log that takes the producers' batches, is cleaned, knows them before and after, and is
/// sent the batches of these rows then; empty where all is right.
fn wrong_of<S: BatchStore>(
    ample: S::Alloc,
    log: &mut LeaderLog<S>,
    lacked: &mut u64,
    rows: &[Row],
) -> &'static str {
    let known = [
        are_appended(ample, log, lacked),
        are_repeats(log),
        is_cleaned(ample, log, lacked),
        are_repeats(log),
    ];
    if known == [true; 4] {
        wrong_row(log, rows)
    } else {
        "the producers' batches"
    }
}

/// The same of a new log.
fn wrong_of_new<S: BatchStore>(
    heap: S::Alloc,
    ample: S::Alloc,
    lacked: &mut u64,
    rows: &[Row],
) -> &'static str {
    match LeaderLog::from_copy(PartitionLog::<S>::new(heap)) {
        Ok(mut log) => wrong_of(ample, &mut log, lacked, rows),
        Err(_) => "a gap",
    }
}

#[test]
fn each_producer_has_its_window(rt: HostRuntime) {
    assert_eq!(rt;
        wrong_of_new::<VecStore<_>>(rt.alloc(), rt.alloc(), &mut 0, &ROWS),
        ""
    );
    assert_eq!(rt;
        wrong_of_new::<SegStore<_>>(rt.alloc(), rt.alloc(), &mut 0, &ROWS),
        ""
    );
}

/// Whether the log's start moves to offset 45, so that 15 batches are left.
fn is_trimmed<S: BatchStore>(log: &mut LeaderLog<S>) -> bool {
    let answered = log.trim(45);
    answered == Ok(()) && log.copy().start() == 45 && log.copy().len() == 15
}

/// Whether a new log takes the producers' batches, and its start moves then, if that is wanted.
fn is_filled<S: BatchStore>(heap: S::Alloc, trims: bool) -> bool {
    match LeaderLog::from_copy(PartitionLog::<S>::new(heap)) {
        Ok(mut log) => are_appended(heap, &mut log, &mut 0) && (!trims || is_trimmed(&mut log)),
        Err(_) => false,
    }
}

/// How many allocations that asks for; `None` where anything is wrong.
fn asked_by_log<A: Allocator + Copy>(alloc: A, trims: bool) -> Option<u64> {
    let heap = Refusing::new(alloc, 0);
    if is_filled::<SegStore<_>>(&heap, trims) {
        Some(heap.calls())
    } else {
        None
    }
}

#[test]
fn a_trim_asks_for_no_memory(rt: HostRuntime) {
    let asked = asked_by_log(rt.alloc(), false);
    assert!(rt; asked.is_some());
    assert_eq!(rt; asked_by_log(rt.alloc(), true), asked);
}

/// Delivers the batch that has this offset. Where memory lacks, which is counted, the copy answers as before,
/// and it is delivered again.
fn is_delivered<S: BatchStore>(
    ample: S::Alloc,
    copy: &mut PartitionLog<S>,
    offset: i32,
    lacked: &mut u64,
) -> bool {
    let bytes = in_turn(offset);
    if is_added(copy, &bytes) {
        return true;
    }
    *lacked = lacked.saturating_add(1);
    answers_as_given(ample, copy, offset) && is_added(copy, &bytes)
}

/// Cleans the copy as the log is cleaned.
fn copy_is_left<S: BatchStore>(
    ample: S::Alloc,
    copy: &mut PartitionLog<S>,
    lacked: &mut u64,
) -> bool {
    match copy.clean(60, 0) {
        Ok(report) => report == ALL_BUT_ONE,
        Err(_) => {
            *lacked = lacked.saturating_add(1);
            answers_as_given(ample, copy, END) && copy.clean(60, 0) == Ok(ALL_BUT_ONE)
        }
    }
}

/// Whether a new copy takes the batches and is cleaned, again where memory lacked, which is counted.
fn copy_is_cleaned<S: BatchStore>(heap: S::Alloc, ample: S::Alloc, lacked: &mut u64) -> bool {
    let mut copy = PartitionLog::<S>::new(heap);
    let mut all = true;
    for offset in 0..END {
        all = all && is_delivered(ample, &mut copy, offset, lacked);
    }
    all && has_all(&copy) && copy_is_left(ample, &mut copy, lacked)
}

/// How the copies and logs below keep their batches.
#[derive(Clone, Copy)]
enum Kept {
    /// Each in memory of its own.
    Apart,
    /// End to end, in segments.
    EndToEnd,
}

/// Whether a new copy is cleaned in this heap.
fn copy_is_cleaned_in<A: Allocator + Copy>(
    kept: Kept,
    heap: A,
    ample: A,
    lacked: &mut u64,
) -> bool {
    match kept {
        Kept::Apart => copy_is_cleaned::<VecStore<A>>(heap, ample, lacked),
        Kept::EndToEnd => copy_is_cleaned::<SegStore<A>>(heap, ample, lacked),
    }
}

/// Whether a new log is cleaned in this heap.
fn log_is_cleaned_in<A: Allocator + Copy>(kept: Kept, heap: A, ample: A, lacked: &mut u64) -> bool {
    match kept {
        Kept::Apart => wrong_of_new::<VecStore<A>>(heap, ample, lacked, &[]).is_empty(),
        Kept::EndToEnd => wrong_of_new::<SegStore<A>>(heap, ample, lacked, &[]).is_empty(),
    }
}

/// How often a call of a copy lacks memory, and how many allocations a run asks for where none fails, with each
/// failing in turn; `None` where anything is wrong.
fn lacked_by_copy<A: Allocator + Copy>(alloc: A, kept: Kept) -> Option<(u64, u64)> {
    let mut lacked = 0;
    for refused in 1..MOST {
        let heap = Refusing::new(alloc, refused);
        let ample = Refusing::new(alloc, 0);
        if !copy_is_cleaned_in(kept, &heap, &ample, &mut lacked) || !heap.is_within(GIVEN) {
            return None;
        }
        if heap.calls() < refused {
            return Some((lacked, heap.calls()));
        }
    }
    None
}

/// How often a call of a log lacks memory, with each allocation failing in turn, until a run doesn't ask for the one
/// that would fail; `None` where anything is wrong.
fn lacked_by_log<A: Allocator + Copy>(alloc: A, kept: Kept) -> Option<u64> {
    let mut lacked = 0;
    for refused in 1..MOST {
        let heap = Refusing::new(alloc, refused);
        let ample = Refusing::new(alloc, 0);
        if !log_is_cleaned_in(kept, &heap, &ample, &mut lacked) || !heap.is_within(GIVEN) {
            return None;
        }
        if heap.calls() < refused {
            return Some(lacked);
        }
    }
    None
}

/// A leader's log lacks memory as often as a follower's copy, and neither where an allocation fails that is
/// left out: of the index, and of the marks in a segment.
#[test]
fn a_log_lacks_memory_where_its_copy_does(rt: HostRuntime) {
    for kept in [Kept::Apart, Kept::EndToEnd] {
        let copy = lacked_by_copy(rt.alloc(), kept);
        assert!(rt; copy.is_some_and(|(lacked, asked)| 0 < lacked && lacked < asked));
        assert_eq!(rt;
            lacked_by_log(rt.alloc(), kept),
            copy.map(|(lacked, _)| lacked)
        );
    }
}

/// So many producers that a walk over all their batches, for each of them, takes minutes.
const MANY: i32 = 200_000;

/// The first batch of a producer, at the offset that is its number.
fn first_of(producer: i32) -> [u8; 70] {
    let mut bytes = sent(i64::from(producer), 0, 0);
    bytes[..8].copy_from_slice(&i64::from(producer).to_be_bytes());
    bytes
}

/// Delivers the first batch of each of some producers, and tells whether each was taken.
fn are_delivered<S: BatchStore>(copy: &mut PartitionLog<S>, producers: i32) -> bool {
    let mut all = true;
    for producer in 0..producers {
        all = all && is_added(copy, &first_of(producer));
    }
    all
}

/// Whether each of many producers' first batches is a repeat.
fn are_known<S: BatchStore>(log: &mut LeaderLog<S>) -> bool {
    let mut all = true;
    for producer in 0..MANY {
        let repeat = Some(Ok((i64::from(producer), true)));
        all = all && answer(log, &first_of(producer)) == repeat;
    }
    all
}

/// Whether the leader of a copy with the batches of many producers appends a batch of another one, and then
/// knows all of them.
fn knows_many<S: BatchStore>(heap: S::Alloc) -> bool {
    let mut copy = PartitionLog::<S>::new(heap);
    let all = are_delivered(&mut copy, MANY);
    match LeaderLog::from_copy(copy) {
        Ok(mut log) => {
            let appended = Some(Ok((i64::from(MANY), false)));
            all && answer(&mut log, &first_of(MANY)) == appended && are_known(&mut log)
        }
        Err(_) => false,
    }
}

/// Whether a new copy takes the first batch of each of a few producers.
fn takes_a_few<S: BatchStore>(heap: S::Alloc) -> bool {
    let mut copy = PartitionLog::<S>::new(heap);
    are_delivered(&mut copy, PRODUCERS)
}

/// The first allocation that a copy asks for its index of producers alone: refused, all batches are taken
/// nevertheless; 0 where there is none.
fn asked_by_index<A: Allocator + Copy>(alloc: A) -> u64 {
    for refused in 1..MOST {
        let heap = Refusing::new(alloc, refused);
        if takes_a_few::<SegStore<_>>(&heap) && refused <= heap.calls() {
            return refused;
        }
    }
    0
}

/// Whether a leader knows many producers, of a copy whose index of them lacked memory, so that it has none.
fn knows_many_without<A: Allocator + Copy>(alloc: A, refused: u64) -> bool {
    let heap = Refusing::new(alloc, refused);
    knows_many::<SegStore<_>>(&heap)
}

/// Where there is no index of producers, the next append makes it: without it this takes longer than a test
/// may.
#[test]
fn an_append_makes_the_index_again(rt: HostRuntime) {
    let refused = asked_by_index(rt.alloc());
    assert!(rt; 0 < refused);
    assert!(rt; knows_many_without(rt.alloc(), refused));
}
