//! Requests in memory of which one allocation fails, behind an output that holds something: each entry of a request is
//! answered by itself, and what isn't answered leaves the output as it was, and each partition that took nothing answers
//! as before. The bytes are worked out from docs/FORMATS.md.

use broker_node::{GROUP_TOPIC, Node, Role};
use refusing_alloc::Refusing;
use sample_brokers::brokers::{CONFIGURED, new_node, partition_answers};
use sample_brokers::exchanges::STORE_REQUEST;
use sample_brokers::small::request_in;
use sample_brokers::stores::{BOTH, Kept};
use segment::{BatchStore, SegStore, VecStore};
use std::alloc::{AllocError, Allocator};

/// What stands in the output before.
const OLD: &[u8] = b"old";

/// A Produce request for partitions 0 and 1 of `t`: `a` = 1 for each.
const STORE_BOTH: &[u8] =
    b"\0\0\0\xb9\0\0\0\x03\0\0\0\x07\xff\xff\xff\xff\0\x01\0\0\x03\xe8\0\0\0\x01\0\x01t\0\0\0\x02\0\0\0\0\0\0\0F\0\0\0\0\0\0\0\0\0\0\0:\0\0\0\0\x022\xc83\x8d\0\0\0\0\0\0\0\0\0\0\0\0\0\0\0\0\0\0\0\0\0\0\xff\xff\xff\xff\xff\xff\xff\xff\xff\xff\xff\xff\xff\xff\0\0\0\x01\x10\0\0\0\x02a\x021\0\0\0\0\x01\0\0\0F\0\0\0\0\0\0\0\0\0\0\0:\0\0\0\0\x022\xc83\x8d\0\0\0\0\0\0\0\0\0\0\0\0\0\0\0\0\0\0\0\0\0\0\xff\xff\xff\xff\xff\xff\xff\xff\xff\xff\xff\xff\xff\xff\0\0\0\x01\x10\0\0\0\x02a\x021\0";

/// An OffsetCommit request of group `g`: offset 10 of partition 0 of `t`, and 11 of partition 1.
const COMMITS: &[u8] =
    b"\0\0\0B\0\x08\0\x02\0\0\0\x07\xff\xff\0\x01g\xff\xff\xff\xff\0\0\xff\xff\xff\xff\xff\xff\xff\xff\0\0\0\x01\0\x01t\0\0\0\x02\0\0\0\0\0\0\0\0\0\0\0\x0a\0\0\0\0\0\x01\0\0\0\0\0\0\0\x0b\0\0";

/// An OffsetFetch request for both.
const POSITIONS: &[u8] =
    b"\0\0\0\x20\0\x09\0\x01\0\0\0\x07\xff\xff\0\x01g\0\0\0\x01\0\x01t\0\0\0\x02\0\0\0\0\0\0\0\x01";

/// A Clean request for partition 0 of `t`, for the offsets below 2.
const CLEAN: &[u8] =
    b"\0\0\0!N!\0\0\0\0\0\x07\xff\xff\0\x01t\0\0\0\0\0\0\0\0\0\0\0\x02\0\0\0\0\0\0\0\0";

/// A Clean request of version 1 for partition 0 of `t`: for the offset 1, where records below 3 supersede.
const CLEAN_PART: &[u8] =
    b"\0\0\01N!\0\x01\0\0\0\x07\xff\xff\0\x01t\0\0\0\0\0\0\0\0\0\0\0\x01\0\0\0\0\0\0\0\x02\0\0\0\0\0\0\0\x03\0\0\0\0\0\0\0\0";

/// The partitions that the requests name.
static PLACES: [(&[u8], i32); 3] = [(b"t", 0), (b"t", 1), (GROUP_TOPIC, 0)];

/// What comes of a request: the bytes that it appends, and how many batches each of these partitions keeps then.
type Outcome = (&'static [u8], [usize; 3]);

/// Requests that are answered before, a request, and what may come of it. Where nothing comes of it, the partitions keep
/// what they did before.
struct Case {
    before: &'static [&'static [u8]],
    request: &'static [u8],
    outcomes: &'static [Outcome],
}

static CASES: [Case; 5] = [
    Case {
        before: &[],
        request: STORE_BOTH,
        outcomes: &[
            (b"", [0, 0, 0]),
            (
                b"\0\0\0?\0\0\0\x07\0\0\0\x01\0\x01t\0\0\0\x02\0\0\0\0\08\xff\xff\xff\xff\xff\xff\xff\xff\xff\xff\xff\xff\xff\xff\xff\xff\0\0\0\x01\0\0\0\0\0\0\0\0\0\0\xff\xff\xff\xff\xff\xff\xff\xff\0\0\0\0",
                [0, 1, 0],
            ),
            (
                b"\0\0\0?\0\0\0\x07\0\0\0\x01\0\x01t\0\0\0\x02\0\0\0\0\0\0\0\0\0\0\0\0\0\0\xff\xff\xff\xff\xff\xff\xff\xff\0\0\0\x01\08\xff\xff\xff\xff\xff\xff\xff\xff\xff\xff\xff\xff\xff\xff\xff\xff\0\0\0\0",
                [1, 0, 0],
            ),
            (
                b"\0\0\0?\0\0\0\x07\0\0\0\x01\0\x01t\0\0\0\x02\0\0\0\0\0\0\0\0\0\0\0\0\0\0\xff\xff\xff\xff\xff\xff\xff\xff\0\0\0\x01\0\0\0\0\0\0\0\0\0\0\xff\xff\xff\xff\xff\xff\xff\xff\0\0\0\0",
                [1, 1, 0],
            ),
        ],
    },
    Case {
        before: &[],
        request: COMMITS,
        outcomes: &[
            (b"", [0, 0, 0]),
            (
                b"\0\0\0\x1b\0\0\0\x07\0\0\0\x01\0\x01t\0\0\0\x02\0\0\0\0\08\0\0\0\x01\0\0",
                [0, 0, 1],
            ),
            (
                b"\0\0\0\x1b\0\0\0\x07\0\0\0\x01\0\x01t\0\0\0\x02\0\0\0\0\0\0\0\0\0\x01\08",
                [0, 0, 1],
            ),
            (
                b"\0\0\0\x1b\0\0\0\x07\0\0\0\x01\0\x01t\0\0\0\x02\0\0\0\0\0\0\0\0\0\x01\0\0",
                [0, 0, 2],
            ),
        ],
    },
    Case {
        before: &[COMMITS],
        request: POSITIONS,
        outcomes: &[
            (b"", [0, 0, 2]),
            (
                b"\0\0\0/\0\0\0\x07\0\0\0\x01\0\x01t\0\0\0\x02\0\0\0\0\xff\xff\xff\xff\xff\xff\xff\xff\0\0\08\0\0\0\x01\0\0\0\0\0\0\0\x0b\0\0\0\0",
                [0, 0, 2],
            ),
            (
                b"\0\0\0/\0\0\0\x07\0\0\0\x01\0\x01t\0\0\0\x02\0\0\0\0\0\0\0\0\0\0\0\x0a\0\0\0\0\0\0\0\x01\xff\xff\xff\xff\xff\xff\xff\xff\0\0\08",
                [0, 0, 2],
            ),
            (
                b"\0\0\0/\0\0\0\x07\0\0\0\x01\0\x01t\0\0\0\x02\0\0\0\0\0\0\0\0\0\0\0\x0a\0\0\0\0\0\0\0\x01\0\0\0\0\0\0\0\x0b\0\0\0\0",
                [0, 0, 2],
            ),
        ],
    },
    Case {
        before: &[STORE_REQUEST, STORE_REQUEST],
        request: CLEAN,
        outcomes: &[
            (b"", [2, 0, 0]),
            (
                b"\0\0\0\x1e\0\0\0\x07\08\0\0\0\0\0\0\0\0\0\0\0\0\0\0\0\0\0\0\0\0\0\0\0\0",
                [2, 0, 0],
            ),
            (
                b"\0\0\0\x1e\0\0\0\x07\0\0\0\0\0\0\0\0\0\x01\0\0\0\0\0\0\0\0\0\0\0\0\0\0\0\x01",
                [1, 0, 0],
            ),
        ],
    },
    Case {
        before: &[STORE_REQUEST, STORE_REQUEST, STORE_REQUEST],
        request: CLEAN_PART,
        outcomes: &[
            (b"", [3, 0, 0]),
            (
                b"\0\0\0\x1e\0\0\0\x07\08\0\0\0\0\0\0\0\0\0\0\0\0\0\0\0\0\0\0\0\0\0\0\0\0",
                [3, 0, 0],
            ),
            (
                b"\0\0\0\x1e\0\0\0\x07\0\0\0\0\0\0\0\0\0\x01\0\0\0\0\0\0\0\0\0\0\0\0\0\0\0\x01",
                [2, 0, 0],
            ),
        ],
    },
];

/// More allocations than a case asks for.
const MOST: u64 = 200;

/// How many batches a partition keeps.
fn batches<S: BatchStore>(node: &Node<S>, (topic, partition): (&[u8], i32)) -> usize {
    node.log(topic, partition).map_or(0, |log| log.len())
}

/// How many batches each of the partitions keeps.
fn counts<S: BatchStore>(node: &Node<S>) -> [usize; 3] {
    [
        batches(node, PLACES[0]),
        batches(node, PLACES[1]),
        batches(node, PLACES[2]),
    ]
}

/// How many batches each of the partitions keeps, and what it answers without taking memory.
fn shown<S: BatchStore, B: Allocator + Copy>(
    alloc: B,
    node: &Node<S>,
) -> Result<Vec<(usize, Vec<u8, B>), B>, AllocError> {
    let mut shown = Vec::new(alloc);
    for (topic, partition) in &PLACES {
        let answers = partition_answers(alloc, node, topic, *partition)?;
        shown.push((batches(node, (topic, *partition)), answers))?;
    }
    Ok(shown)
}

/// Whether each partition that keeps as many batches as before answers as before.
fn are_same<B: Allocator + Copy>(
    before: &[(usize, Vec<u8, B>)],
    now: &[(usize, Vec<u8, B>)],
) -> bool {
    let mut all = before.len() == now.len();
    for ((count, answers), (count_now, answers_now)) in before.iter().zip(now) {
        all = all && (count != count_now || answers == answers_now);
    }
    all
}

/// The bit of the outcome that came, of which the first has the lowest; none where something else came.
fn bit_of(outcomes: &[Outcome], came: (&[u8], [usize; 3])) -> Option<u32> {
    let mut bit = 1_u32;
    for outcome in outcomes {
        if *outcome == came {
            return Some(bit);
        }
        bit = bit.wrapping_mul(2);
    }
    None
}

/// Whether a request is answered, with what stands behind the output.
fn is_answered<S: BatchStore, A: Allocator + Copy>(
    node: &mut Node<S>,
    frame: &'static [u8],
    out: &mut Vec<u8, A>,
) -> bool {
    match request_in(frame) {
        Some(request) => node.handle(&request, out).is_ok(),
        None => false,
    }
}

/// Whether the requests before are all answered, and the partitions keep what they should then.
fn is_ready<S: BatchStore, A: Allocator + Copy>(heap: A, node: &mut Node<S>, case: &Case) -> bool {
    let mut out = Vec::new(heap);
    for request in case.before {
        if !is_answered(node, request, &mut out) {
            return false;
        }
    }
    match case.outcomes.first() {
        Some(first) => counts(node) == first.1,
        None => false,
    }
}

/// What a case's request appends to an output that holds something, and the bit of what comes of it; none where something
/// else comes of it.
fn answered<S: BatchStore, A: Allocator + Copy>(
    node: &mut Node<S>,
    case: &Case,
    out: &mut Vec<u8, A>,
) -> Option<u32> {
    let is_answered = is_answered(node, case.request, out);
    let appended = out.strip_prefix(OLD)?;
    if is_answered == appended.is_empty() {
        return None;
    }
    bit_of(case.outcomes, (appended, counts(node)))
}

/// The bit of what comes of a case's request; none where something else comes of it, or a partition that took nothing
/// answers in another way, and 0 where it isn't made, since memory lacked before.
fn came_of<S: BatchStore, A: Allocator + Copy, B: Allocator + Copy>(
    heap: A,
    alloc: B,
    node: &mut Node<S>,
    case: &Case,
) -> Option<u32> {
    if !is_ready(heap, node, case) {
        return Some(0);
    }
    let Ok(mut out) = OLD.to_vec(heap) else {
        return Some(0);
    };
    let before = shown(alloc, node).ok()?;
    let bit = answered(node, case, &mut out)?;
    let now = shown(alloc, node).ok()?;
    if are_same(&before, &now) {
        Some(bit)
    } else {
        None
    }
}

/// The same with a new broker in this heap.
fn came_in<S: BatchStore, B: Allocator + Copy>(
    heap: S::Alloc,
    alloc: B,
    case: &Case,
) -> Option<u32> {
    match new_node::<S>(heap, Role::Leader, 3, "t", 1) {
        Ok(mut node) => came_of(heap, alloc, &mut node, case),
        Err(_) => Some(0),
    }
}

/// The same with one that keeps batches so.
fn came_with<A: Allocator + Copy, B: Allocator + Copy>(
    kept: Kept,
    heap: A,
    alloc: B,
    case: &Case,
) -> Option<u32> {
    match kept {
        Kept::Apart => came_in::<VecStore<A>, B>(heap, alloc, case),
        Kept::EndToEnd => came_in::<SegStore<A>, B>(heap, alloc, case),
    }
}

/// How many bytes the broker of a case is made of and given.
fn given(case: &Case) -> usize {
    let mut bytes = CONFIGURED.saturating_add(case.request.len());
    for request in case.before {
        bytes = bytes.saturating_add(request.len());
    }
    bytes
}

/// The same where this allocation fails, and whether it is asked for; none where more is asked for at once than what was
/// given allows.
fn came_without<A: Allocator + Copy>(
    inner: A,
    kept: Kept,
    refused: u64,
    case: &Case,
) -> (Option<u32>, bool) {
    let heap = Refusing::new(inner, refused);
    let bit = came_with(kept, &heap, inner, case);
    let is_asked = heap.calls() >= refused;
    if heap.is_within(given(case)) {
        (bit, is_asked)
    } else {
        (None, is_asked)
    }
}

/// The bits of all that comes of a case's request where one allocation fails, whichever that is; none where something
/// else comes of it.
fn all_that_comes<A: Allocator + Copy>(inner: A, kept: Kept, case: &Case) -> Option<u32> {
    let mut all = 0_u32;
    for refused in 1..MOST {
        let (bit, is_asked) = came_without(inner, kept, refused, case);
        all |= bit?;
        if !is_asked {
            return Some(all);
        }
    }
    None
}

/// The name of each case, and the bits of what comes of it: all of its outcomes.
static WANTED: [(&str, u32); 5] = [
    ("Produce", 0b1111),
    ("OffsetCommit", 0b1111),
    ("OffsetFetch", 0b1111),
    ("Clean", 0b111),
    ("Clean of a part", 0b111),
];

#[test]
fn each_entry_lacks_memory_by_itself(rt: HostRuntime) {
    for ((name, wanted), case) in WANTED.iter().zip(&CASES) {
        for kept in BOTH {
            let all = all_that_comes(rt.alloc(), kept, case);
            assert!(rt; all == Some(*wanted), "{name}, {kept:?}: {all:?}");
        }
    }
}
