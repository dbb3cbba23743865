//! Clusters of each number of copies, and what they answer to the bytes that are sent to their leader.

use batch_codec::BatchError;
use cluster::{Cluster, ClusterError, Event, EventError, Outcome};
use partition_log::AppendError;
use sample_batches::{NO_KEY, sent};
use segment::{BatchStore, ProgramStore};
use std::test::Fail;

/// What comes of an event.
pub(crate) type Answer = Result<Outcome, EventError>;

/// The end of a copy of a cluster; `None` where there is no such copy.
pub(crate) fn end_of<S: BatchStore>(cluster: &Cluster<S>, number: usize) -> Option<i64> {
    match cluster.copy(number) {
        Some(copy) => Some(copy.end()),
        None => None,
    }
}

/// Whether a cluster has this many copies, eight at most, the last one empty, and neither batches nor images.
fn has_copies<S: BatchStore>(cluster: &Cluster<S>, copies: usize) -> bool {
    let answers = [
        copies < 9,
        end_of(cluster, copies.saturating_sub(1)) == Some(0),
        cluster.copy(copies).is_none(),
        cluster.archived(0).is_none(),
        cluster.image(0).is_none(),
    ];
    answers == [true; 5]
}

/// Whether a cluster of this many copies is refused or made as it should be.
fn is_made<S: BatchStore>(alloc: S::Alloc, copies: usize) -> bool {
    match Cluster::<S>::new(alloc, copies) {
        Ok(cluster) => has_copies(&cluster, copies),
        Err(why) => why == ClusterError::BadCopies && (copies == 0 || copies > 8),
    }
}

#[test]
fn clusters_have_one_to_eight_copies(rt: HostRuntime) -> Result<(), Fail> {
    for copies in [0, 1, 2, 3, 4, 5, 6, 7, 8, 9, usize::MAX] {
        assert!(rt; is_made::<ProgramStore<_>>(rt.alloc(), copies), "{copies}");
    }
    Ok(())
}

/// A batch of a producer that asks for the offset 9 and the leader epoch 5, and a byte behind it. In the folder
/// `tests/encoders`: `batch_of("base:9 leader:5 producer:7 epoch:0 sequence:0 k=v".split()) + bytes(1)`.
const MISPLACED: [u8; 71] = [
    0x00, 0x00, 0x00, 0x00, 0x00, 0x00, 0x00, 0x09, 0x00, 0x00, 0x00, 0x3a, 0x00, 0x00, 0x00, 0x05,
    0x02, 0xa3, 0x5a, 0xf1, 0x74, 0x00, 0x00, 0x00, 0x00, 0x00, 0x00, 0x00, 0x00, 0x00, 0x00, 0x00,
    0x00, 0x00, 0x00, 0x00, 0x00, 0x00, 0x00, 0x00, 0x00, 0x00, 0x00, 0x00, 0x00, 0x00, 0x00, 0x00,
    0x00, 0x00, 0x07, 0x00, 0x00, 0x00, 0x00, 0x00, 0x00, 0x00, 0x00, 0x00, 0x01, 0x10, 0x00, 0x00,
    0x00, 0x02, 0x6b, 0x02, 0x76, 0x00, 0x00,
];

/// The producer's batch with the sequence number 2: `batch_of("producer:7 epoch:0 sequence:2 k=v".split())`.
const LATER: [u8; 70] = [
    0x00, 0x00, 0x00, 0x00, 0x00, 0x00, 0x00, 0x00, 0x00, 0x00, 0x00, 0x3a, 0x00, 0x00, 0x00, 0x00,
    0x02, 0x0b, 0x54, 0x5b, 0xf8, 0x00, 0x00, 0x00, 0x00, 0x00, 0x00, 0x00, 0x00, 0x00, 0x00, 0x00,
    0x00, 0x00, 0x00, 0x00, 0x00, 0x00, 0x00, 0x00, 0x00, 0x00, 0x00, 0x00, 0x00, 0x00, 0x00, 0x00,
    0x00, 0x00, 0x07, 0x00, 0x00, 0x00, 0x00, 0x00, 0x02, 0x00, 0x00, 0x00, 0x01, 0x10, 0x00, 0x00,
    0x00, 0x02, 0x6b, 0x02, 0x76, 0x00,
];

/// Whether a cluster answers so to a batch that is sent, and then holds the one batch and no image.
fn answers<S: BatchStore>(
    alloc: S::Alloc,
    cluster: &mut Cluster<S>,
    bytes: &[u8],
    wanted: Answer,
) -> bool {
    let Ok(bytes) = Vec::from_slice(alloc, bytes) else {
        return false;
    };
    let event = Event::Produce { bytes };
    let answers = [
        cluster.step(&event) == wanted,
        cluster.archived(0) == Some(sent(7, 0, 0).as_slice()),
        cluster.archived(1).is_none(),
        cluster.image(0).is_none(),
    ];
    answers == [true; 4]
}

/// What is sent, the bytes, how many of them, and the answer.
type Sent = (&'static str, &'static [u8], usize, Answer);

/// What is sent to a cluster, one after the other.
static SENT: [Sent; 7] = [
    (
        "a batch",
        &MISPLACED,
        70,
        Ok(Outcome::Based {
            base: 0,
            repeat: false,
        }),
    ),
    (
        "it again",
        &MISPLACED,
        70,
        Ok(Outcome::Based {
            base: 0,
            repeat: true,
        }),
    ),
    (
        "one left out",
        &LATER,
        70,
        Err(EventError::Append(AppendError::OutOfOrder)),
    ),
    (
        "a null key",
        &NO_KEY,
        69,
        Err(EventError::Append(AppendError::NoKey)),
    ),
    ("a byte more", &MISPLACED, 71, Err(EventError::Extra)),
    (
        "a byte less",
        &MISPLACED,
        69,
        Err(EventError::BadBatch(BatchError::Short)),
    ),
    (
        "no byte",
        &MISPLACED,
        0,
        Err(EventError::BadBatch(BatchError::Short)),
    ),
];

/// The name of what a cluster answers in another way; empty where there is none.
fn wrong_answer<S: BatchStore>(
    alloc: S::Alloc,
    cluster: &mut Cluster<S>,
    rows: &[Sent],
) -> &'static str {
    let mut wrong = "";
    for (name, bytes, len, wanted) in rows {
        let is_right = match bytes.get(..*len) {
            Some(bytes) => answers(alloc, cluster, bytes, *wanted),
            None => false,
        };
        if wrong.is_empty() && !is_right {
            wrong = *name;
        }
    }
    wrong
}

/// The same of a new cluster.
fn wrong_answer_of_new<S: BatchStore>(alloc: S::Alloc, rows: &[Sent]) -> &'static str {
    match Cluster::<S>::new(alloc, 2) {
        Ok(mut cluster) => wrong_answer(alloc, &mut cluster, rows),
        Err(_) => "no cluster",
    }
}

#[test]
fn batches_that_are_sent(rt: HostRuntime) {
    assert_eq!(rt;
        wrong_answer_of_new::<ProgramStore<_>>(rt.alloc(), &SENT),
        ""
    );
}
