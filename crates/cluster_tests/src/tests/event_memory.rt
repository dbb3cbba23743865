//! Clusters with each allocation failing in turn: what takes no memory answers as before, and the same call then
//! succeeds. A call counts it where it lacks memory.

use crate::tests::events::{Answer, end_of};
use crate::tests::memory::{MOST, count};
use crate::tests::outside::{EMPTY, SECOND_OF_TWO, TWO};
use crate::tests::stores::{BOTH, Kept, without};
use cluster::{Cluster, ClusterError, Event, EventError, Outcome};
use copy_answers::put_answers;
use copy_images::write_image;
use partition_log::{CleanReport, CleaningPart, Delivered, PartitionLog};
use refusing_alloc::Refusing;
use sample_batches::{NINE, THREE, nine_at};
use segment::{BatchStore, SegStore, VecStore};
use std::alloc::{AllocError, Allocator, Global};
use std::test::Fail;

/// An event.
#[derive(Clone, Copy)]
pub(crate) enum Told {
    /// These bytes are sent to the leader.
    Produce(&'static [u8]),
    /// A batch is delivered to a copy.
    Deliver(usize, usize),
    /// A copy is cleaned up to an offset, of tombstones below another.
    Clean(usize, i64, i64),
    /// A part of a copy is cleaned.
    CleanPart(usize, CleaningPart),
    /// The image of a copy is kept.
    Send(usize),
    /// An image is merged into a copy.
    Merge(usize, usize),
    /// A copy's start moves to an offset.
    Trim(usize, i64),
}

/// How many segments are begun in all.
const SEGMENTS: u64 = 10;

/// How many bytes the three batches that are produced have, and the three images that are kept of them.
const GIVEN: usize = 79 + 70 + 87 + 112 + 26 + 112;

/// Events that happen one after the other, and their answers.
static STEPS: [(Told, Answer); 9] = [
    (
        Told::Produce(&TWO),
        Ok(Outcome::Based {
            base: 0,
            repeat: false,
        }),
    ),
    (
        Told::Clean(0, 2, 0),
        Ok(Outcome::Cleaned(CleanReport {
            records: 1,
            tombstones: 0,
            batches: 0,
        })),
    ),
    (Told::Send(0), Ok(Outcome::Sent { image: 0 })),
    (
        Told::Produce(&NINE),
        Ok(Outcome::Based {
            base: 2,
            repeat: false,
        }),
    ),
    (
        Told::Clean(0, 3, 0),
        Ok(Outcome::Cleaned(CleanReport {
            records: 1,
            tombstones: 0,
            batches: 1,
        })),
    ),
    (
        Told::Deliver(1, 0),
        Ok(Outcome::Delivered(Delivered::Added)),
    ),
    (Told::Merge(2, 0), Ok(Outcome::Merged)),
    (Told::Send(3), Ok(Outcome::Sent { image: 1 })),
    (Told::Trim(0, 2), Ok(Outcome::Trimmed)),
];

/// A list of events behind these, and their answers. Their order is all the same.
static LIST: [(Told, Answer); 5] = [
    (
        Told::Deliver(1, 1),
        Ok(Outcome::Delivered(Delivered::Added)),
    ),
    (Told::Merge(3, 0), Ok(Outcome::Merged)),
    (
        Told::CleanPart(
            1,
            CleaningPart {
                from: 0,
                to: 2,
                upto: 2,
                tomb_before: 0,
            },
        ),
        Ok(Outcome::Cleaned(CleanReport {
            records: 1,
            tombstones: 0,
            batches: 0,
        })),
    ),
    (
        Told::Produce(&THREE),
        Ok(Outcome::Based {
            base: 3,
            repeat: false,
        }),
    ),
    (Told::Send(2), Ok(Outcome::Sent { image: 2 })),
];

/// An event as a cluster takes it.
pub(crate) fn event_of(alloc: Global, told: Told) -> Result<Event<Global>, AllocError> {
    Ok(match told {
        Told::Produce(bytes) => Event::Produce {
            bytes: Vec::from_slice(alloc, bytes)?,
        },
        Told::Deliver(copy, batch) => Event::Deliver { copy, batch },
        Told::Clean(copy, upto, tomb_before) => Event::Clean {
            copy,
            upto,
            tomb_before,
        },
        Told::CleanPart(copy, part) => Event::CleanPart { copy, part },
        Told::Send(copy) => Event::Send { copy },
        Told::Merge(copy, image) => Event::Merge { copy, image },
        Told::Trim(copy, start) => Event::Trim { copy, start },
    })
}

/// The events of a table.
fn events_of(
    alloc: Global,
    table: &[(Told, Answer)],
) -> Result<Vec<Event<Global>, Global>, AllocError> {
    let mut events = Vec::new(alloc);
    for (told, _) in table {
        events.push(event_of(alloc, *told)?)?;
    }
    Ok(events)
}

/// Adds the image of a copy, and what it answers without taking memory, where there is such a copy.
fn add_copy<S: BatchStore>(
    alloc: Global,
    copy: Option<&PartitionLog<S>>,
    out: &mut Vec<u8, Global>,
) -> Result<(), AllocError> {
    match copy {
        Some(copy) => {
            out.extend_from_slice(&write_image(alloc, copy)?)?;
            put_answers(out, copy)
        }
        None => Ok(()),
    }
}

/// Adds what a cluster shows by a number: a copy's image, a batch, and an image.
fn add_shown<S: BatchStore>(
    alloc: Global,
    cluster: &Cluster<S>,
    number: usize,
    out: &mut Vec<u8, Global>,
) -> Result<(), AllocError> {
    add_copy(alloc, cluster.copy(number), out)?;
    out.extend_from_slice(cluster.archived(number).unwrap_or(&[]))?;
    out.extend_from_slice(cluster.image(number).unwrap_or(&[]))
}

/// All that a cluster shows.
pub(crate) fn shown<S: BatchStore>(
    alloc: Global,
    cluster: &Cluster<S>,
) -> Result<Vec<u8, Global>, AllocError> {
    let mut out = Vec::new(alloc);
    for number in 0..5 {
        add_shown(alloc, cluster, number, &mut out)?;
    }
    Ok(out)
}

/// Whether an event happens that has this answer, again where memory lacked, and the cluster showed what it
/// had shown then.
fn happens<S: BatchStore>(
    alloc: Global,
    cluster: &mut Cluster<S>,
    event: &Event<Global>,
    wanted: Answer,
    lacked: &mut u64,
) -> bool {
    let before = shown(alloc, cluster);
    let mut answer = cluster.step(event);
    let mut is_same = before.is_ok();
    if answer == Err(EventError::OutOfMemory) {
        count(lacked);
        is_same = is_same && shown(alloc, cluster) == before;
        answer = cluster.step(event);
    }
    is_same && answer == wanted
}

/// Whether the events happen one after the other.
fn all_happen<S: BatchStore>(
    alloc: Global,
    cluster: &mut Cluster<S>,
    events: &[Event<Global>],
    lacked: &mut u64,
) -> bool {
    let mut all = true;
    for (event, (_, answer)) in events.iter().zip(&STEPS) {
        all = all && happens(alloc, cluster, event, *answer, lacked);
    }
    all
}

/// Whether the events of the list had their answers, again where they lacked memory.
fn are_made_up<S: BatchStore>(
    cluster: &mut Cluster<S>,
    events: &[Event<Global>],
    answers: &[Answer],
    lacked: &mut u64,
) -> bool {
    let mut all = events.len() == answers.len();
    for (event, (answer, (_, wanted))) in events.iter().zip(answers.iter().zip(&LIST)) {
        let mut answer = *answer;
        if answer == Err(EventError::OutOfMemory) {
            count(lacked);
            answer = cluster.step(event);
        }
        all = all && answer == *wanted;
    }
    all
}

/// Whether the events of the list happen at once, again where there was no memory for their answers, and
/// none had happened then.
fn list_happens<S: BatchStore>(
    alloc: Global,
    cluster: &mut Cluster<S>,
    events: &[Event<Global>],
    lacked: &mut u64,
) -> bool {
    let before = shown(alloc, cluster);
    match cluster.run(events) {
        Ok(answers) => are_made_up(cluster, events, &answers, lacked),
        Err(_) => {
            count(lacked);
            let is_same = before.is_ok() && shown(alloc, cluster) == before;
            let again = match cluster.run(events) {
                Ok(answers) => are_made_up(cluster, events, &answers, lacked),
                Err(_) => false,
            };
            is_same && again
        }
    }
}

/// Whether a copy has this image.
fn has_image<S: BatchStore>(alloc: Global, copy: Option<&PartitionLog<S>>, image: &[u8]) -> bool {
    match copy {
        Some(copy) => match write_image(alloc, copy) {
            Ok(bytes) => bytes.as_slice() == image,
            Err(_) => false,
        },
        None => false,
    }
}

/// Whether the cluster shows what the events leave.
fn is_left<S: BatchStore>(alloc: Global, cluster: &Cluster<S>) -> bool {
    let facts = [
        end_of(cluster, 0) == Some(6),
        end_of(cluster, 1) == Some(3),
        has_image(alloc, cluster.copy(2), &SECOND_OF_TWO),
        has_image(alloc, cluster.copy(3), &SECOND_OF_TWO),
        cluster.archived(0) == Some(TWO.as_slice()),
        cluster.archived(1) == Some(nine_at(2).as_slice()),
        cluster.image(0) == Some(SECOND_OF_TWO.as_slice()),
        cluster.image(1) == Some(EMPTY.as_slice()),
        cluster.image(2) == Some(SECOND_OF_TWO.as_slice()),
    ];
    facts == [true; 9]
}

/// Whether all happens in a cluster as it should.
fn does_all<S: BatchStore>(
    alloc: Global,
    cluster: &mut Cluster<S>,
    (steps, list): (&[Event<Global>], &[Event<Global>]),
    lacked: &mut u64,
) -> bool {
    let done = [
        all_happen(alloc, cluster, steps, lacked),
        list_happens(alloc, cluster, list, lacked),
        is_left(alloc, cluster),
    ];
    done == [true; 3]
}

/// The same in a new cluster, which is made again where memory lacked.
fn new_does_all<S: BatchStore>(
    heap: S::Alloc,
    alloc: Global,
    events: (&[Event<Global>], &[Event<Global>]),
    lacked: &mut u64,
) -> bool {
    let cluster = match Cluster::<S>::new(heap, 4) {
        Err(ClusterError::OutOfMemory) => {
            count(lacked);
            Cluster::<S>::new(heap, 4)
        }
        cluster => cluster,
    };
    match cluster {
        Ok(mut cluster) => does_all(alloc, &mut cluster, events, lacked),
        Err(_) => false,
    }
}

/// The same in a cluster whose copies keep their batches so.
fn does_in<A: Allocator + Copy>(
    kept: Kept,
    heap: A,
    alloc: Global,
    events: (&[Event<Global>], &[Event<Global>]),
    lacked: &mut u64,
) -> bool {
    match kept {
        Kept::Apart => new_does_all::<VecStore<A>>(heap, alloc, events, lacked),
        Kept::EndToEnd => new_does_all::<SegStore<A>>(heap, alloc, events, lacked),
    }
}

/// How many allocations the calls do without, where each fails in turn; an error with the number of one at whose
/// failure not all happens as it should, or more is asked for at once than what was given allows, with [`MOST`] where
/// each run asks for more.
fn done_without(
    alloc: Global,
    kept: Kept,
    events: (&[Event<Global>], &[Event<Global>]),
) -> Result<u64, u64> {
    let mut without = 0;
    for number in 1..MOST {
        let heap = Refusing::new(alloc, number);
        let mut lacked = 0;
        let done = does_in(kept, &heap, alloc, events, &mut lacked) && heap.is_within(GIVEN);
        let fails = number <= heap.calls();
        if !done || (lacked > 0 && !fails) {
            return Err(number);
        }
        if !fails {
            return Ok(without);
        }
        if lacked == 0 {
            count(&mut without);
        }
    }
    Err(MOST)
}

#[test]
fn events_happen_later(rt: HostRuntime) -> Result<(), Fail> {
    let steps = events_of(rt.alloc(), &STEPS)?;
    let list = events_of(rt.alloc(), &LIST)?;
    for kept in BOTH {
        let done = done_without(rt.alloc(), kept, (&steps, &list));
        assert_eq!(rt; done, Ok(without(kept, SEGMENTS)));
    }
    Ok(())
}
