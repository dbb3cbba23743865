//! Requests handled so that it is told whether memory sufficed: on one broker, as on an equal one without, behind outputs that
//! hold something. With memory, and with each allocation failing in turn, in the memory of either broker the same one.

use crate::tests::runs::{MOST, OF_A_FOLLOWER, OF_A_LEADER, Run, given};
use broker_node::{Answer, Memory, Node};
use refusing_alloc::Refusing;
use sample_brokers::brokers::{answers_of, has_answers, new_node};
use sample_brokers::exchanges::Exchange;
use sample_brokers::small::request_in;
use sample_brokers::stores::{BOTH, Kept};
use segment::{BatchStore, SegStore, VecStore};
use std::alloc::Allocator;

/// What stands in the outputs before.
const OLD: &[u8] = b"old";

/// What is told of a request; none where it isn't answered.
fn told_of<S: BatchStore, A: Allocator + Copy>(
    node: &mut Node<S>,
    exchange: &Exchange,
    out: &mut Vec<u8, A>,
) -> Option<Memory> {
    let request = request_in(exchange.request)?;
    node.handle_exactly(&request, out).ok()
}

/// How a request is answered where nothing is told; none where it isn't.
fn answer_of<S: BatchStore, A: Allocator + Copy>(
    node: &mut Node<S>,
    exchange: &Exchange,
    out: &mut Vec<u8, A>,
) -> Option<Answer> {
    let request = request_in(exchange.request)?;
    node.handle(&request, out).ok()
}

/// How a request is to be answered of which this is told.
fn wanted_of(exchange: &Exchange, told: Option<Memory>) -> Option<Answer> {
    match told {
        Some(_) if exchange.response.is_empty() => Some(Answer::Silent),
        Some(_) => Some(Answer::Reply),
        None => None,
    }
}

/// What came of a request on two equal brokers.
#[derive(Clone, Copy)]
struct Came {
    /// What was told of it on one; none where it wasn't answered.
    told: Option<Memory>,
    /// How it was answered on the other, where nothing is told; none where it wasn't.
    answer: Option<Answer>,
}

/// Whether a request is told of just where it is answered on the other broker, and both append the same; and, where no
/// allocation fails, is told as sufficed, and has its response behind what stood there.
fn is_right(
    came: Came,
    (out, wanted): (&[u8], &[u8]),
    exchange: &Exchange,
    may_lack: bool,
) -> bool {
    let has_response = out.strip_prefix(OLD) == Some(exchange.response);
    let is_full = came.told == Some(Memory::Sufficed) && has_response;
    let is_same = came.answer == wanted_of(exchange, came.told) && out == wanted;
    is_same && (may_lack || is_full)
}

/// Whether a request is handled on two equal brokers alike, and as it should be where no allocation fails.
fn is_alike<S: BatchStore, A: Allocator + Copy>(
    (node, out): (&mut Node<S>, &mut Vec<u8, A>),
    (other, wanted): (&mut Node<S>, &mut Vec<u8, A>),
    exchange: &Exchange,
    may_lack: bool,
) -> bool {
    let told = told_of(node, exchange, out);
    let answer = answer_of(other, exchange, wanted);
    is_right(Came { told, answer }, (out, wanted), exchange, may_lack)
}

/// The same behind new outputs, for which both brokers have memory or neither.
fn is_alike_behind<S: BatchStore, A: Allocator + Copy>(
    (heap, node): (A, &mut Node<S>),
    (other_heap, other): (A, &mut Node<S>),
    exchange: &Exchange,
    may_lack: bool,
) -> bool {
    match (OLD.to_vec(heap), OLD.to_vec(other_heap)) {
        (Ok(mut out), Ok(mut wanted)) => {
            is_alike((node, &mut out), (other, &mut wanted), exchange, may_lack)
        }
        (Err(_), Err(_)) => may_lack,
        _ => false,
    }
}

/// Whether two brokers answer alike without taking memory.
fn are_equal<S: BatchStore, B: Allocator + Copy>(
    alloc: B,
    node: &Node<S>,
    other: &Node<S>,
) -> bool {
    match answers_of(alloc, other) {
        Ok(answers) => has_answers(alloc, node, &answers),
        Err(_) => false,
    }
}

/// The first request of a run that isn't handled on two equal brokers alike. They are equal at its end, and, where no
/// allocation fails, behind each request.
fn first_other_of<S: BatchStore, A: Allocator + Copy, B: Allocator + Copy>(
    alloc: B,
    (heap, node): (A, &mut Node<S>),
    (other_heap, other): (A, &mut Node<S>),
    run: &Run,
    may_lack: bool,
) -> Option<&'static str> {
    for exchange in run.exchanges {
        let is_alike = is_alike_behind((heap, node), (other_heap, other), exchange, may_lack);
        if !(is_alike && (may_lack || are_equal(alloc, node, other))) {
            return Some(exchange.name);
        }
    }
    if are_equal(alloc, node, other) {
        None
    } else {
        Some("all of them")
    }
}

/// The same of two new brokers, each in its heap; for both of them there is memory, or for neither.
fn first_other<S: BatchStore, B: Allocator + Copy>(
    alloc: B,
    (heap, other_heap): (S::Alloc, S::Alloc),
    run: &Run,
    may_lack: bool,
) -> Option<&'static str> {
    match (
        new_node::<S>(heap, run.role, 3, "t", 1),
        new_node::<S>(other_heap, run.role, 3, "t", 1),
    ) {
        (Ok(mut node), Ok(mut other)) => first_other_of(
            alloc,
            (heap, &mut node),
            (other_heap, &mut other),
            run,
            may_lack,
        ),
        (Err(_), Err(_)) if may_lack => None,
        _ => Some("a new broker"),
    }
}

/// The same of brokers that keep batches so, where in the heap of each this allocation fails, none if its number is 0; and
/// whether it is asked for. Neither may ask for more at once than what was given allows.
fn first_other_without<A: Allocator + Copy>(
    inner: A,
    kept: Kept,
    refused: u64,
    run: &Run,
) -> (Option<&'static str>, bool) {
    let heap = Refusing::new(inner, refused);
    let other_heap = Refusing::new(inner, refused);
    let heaps = (&heap, &other_heap);
    let other = match kept {
        Kept::Apart => first_other::<VecStore<_>, A>(inner, heaps, run, refused > 0),
        Kept::EndToEnd => first_other::<SegStore<_>, A>(inner, heaps, run, refused > 0),
    };
    let is_asked = heap.calls() >= refused;
    if heap.is_within(given(run)) && other_heap.is_within(given(run)) {
        (other, is_asked)
    } else {
        (Some("an allocation"), is_asked)
    }
}

/// Whether a run is handled alike with memory, and where one allocation fails, whichever that is; else the number of that one
/// and the first request that isn't.
fn all_alike<A: Allocator + Copy>(
    inner: A,
    kept: Kept,
    run: &Run,
) -> Result<(), (u64, &'static str)> {
    for refused in 0..MOST {
        match first_other_without(inner, kept, refused, run) {
            (None, true) => {}
            (None, false) => return Ok(()),
            (Some(name), _) => return Err((refused, name)),
        }
    }
    Err((MOST, "more allocations"))
}

#[test]
fn handled_as_without(rt: HostRuntime) {
    for kept in BOTH {
        let leads = all_alike(rt.alloc(), kept, &OF_A_LEADER);
        let follows = all_alike(rt.alloc(), kept, &OF_A_FOLLOWER);
        assert_eq!(rt; leads, Ok(()));
        assert_eq!(rt; follows, Ok(()));
    }
}
