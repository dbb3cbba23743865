//! Requests in memory of which one allocation fails: one of them isn't answered, or is answered with a storage error and, if
//! it may change something, told as lacking memory; what takes no memory answers as before; made again it is answered as it
//! should be, and told that memory sufficed.

use crate::tests::runs::{MOST, OF_A_FOLLOWER, OF_A_LEADER, Run, given};
use broker_node::{GROUP_TOPIC, Memory, Node, may_change};
use refusing_alloc::Refusing;
use sample_brokers::brokers::{answers_of, has_answers, new_node};
use sample_brokers::exchanges::Exchange;
use sample_brokers::small::request_in;
use sample_brokers::stores::{BOTH, Kept};
use segment::{BatchStore, SegStore, VecStore};
use std::alloc::{AllocError, Allocator};

/// The end of partition 0 of a topic.
fn end<S: BatchStore>(node: &Node<S>, topic: &[u8]) -> i64 {
    node.log(topic, 0).map_or(-1, |log| log.end())
}

/// Whether the partitions end as they should.
fn has_ends<S: BatchStore>(node: &Node<S>, ends: (i64, i64, i64)) -> bool {
    (end(node, b"t"), end(node, b"u"), end(node, GROUP_TOPIC)) == ends
}

/// What came of a request.
#[derive(Clone, Copy, PartialEq, Eq)]
enum Came {
    /// Its response, and memory sufficed.
    Answered,
    /// Nothing, for lack of memory.
    Unanswered,
    /// A storage error, and memory lacked; or, of a request that only reads, memory sufficed.
    Failed,
    /// Something else.
    Wrong,
}

/// What came of a request of which this was told and that appended this.
fn came_of(exchange: &Exchange, told: Result<Memory, AllocError>, appended: &[u8]) -> Came {
    let lacked = if exchange.changes {
        Memory::Lacked
    } else {
        Memory::Sufficed
    };
    match told {
        Ok(Memory::Sufficed) if appended == exchange.response => Came::Answered,
        Ok(memory) if memory == lacked && exchange.failed == Some(appended) => Came::Failed,
        Err(AllocError) if appended.is_empty() => Came::Unanswered,
        _ => Came::Wrong,
    }
}

/// Sends a request once.
fn once<S: BatchStore, A: Allocator + Copy>(
    heap: A,
    node: &mut Node<S>,
    exchange: &Exchange,
) -> Came {
    let Some(request) = request_in(exchange.request) else {
        return Came::Wrong;
    };
    let mut out = Vec::new(heap);
    let told = node.handle_exactly(&request, &mut out);
    if may_change(&request.body) == exchange.changes {
        came_of(exchange, told, &out)
    } else {
        Came::Wrong
    }
}

/// Sends a request, and again where memory lacked, which must have changed no answer. One without a response changes
/// some where memory sufficed.
fn sent<S: BatchStore, A: Allocator + Copy, B: Allocator + Copy>(
    heap: A,
    alloc: B,
    node: &mut Node<S>,
    exchange: &Exchange,
) -> Came {
    let Ok(before) = answers_of(alloc, node) else {
        return Came::Wrong;
    };
    let came = once(heap, node, exchange);
    let is_right = match came {
        Came::Answered => !(exchange.response.is_empty() && has_answers(alloc, node, &before)),
        Came::Unanswered | Came::Failed => {
            has_answers(alloc, node, &before) && once(heap, node, exchange) == Came::Answered
        }
        Came::Wrong => false,
    };
    if is_right { came } else { Came::Wrong }
}

/// The bit of a request that lacked memory: of its response, or of its work. 0 where it didn't.
fn bit(came: Came, index: u32) -> Option<u64> {
    match came {
        Came::Answered => Some(0),
        Came::Unanswered => 1_u64.checked_shl(2 * (index % 32)),
        Came::Failed => 2_u64.checked_shl(2 * (index % 32)),
        Came::Wrong => None,
    }
}

/// The bits of the requests that lack memory; none where something else comes of one, or the partitions end elsewhere.
fn lacking_of<S: BatchStore, A: Allocator + Copy, B: Allocator + Copy>(
    heap: A,
    alloc: B,
    node: &mut Node<S>,
    run: &Run,
) -> Option<u64> {
    let mut bits = 0_u64;
    let mut index = 0_u32;
    for exchange in run.exchanges {
        bits |= bit(sent(heap, alloc, node, exchange), index)?;
        index = index.saturating_add(1);
    }
    if has_ends(node, run.ends) {
        Some(bits)
    } else {
        None
    }
}

/// The same of a new broker in this heap. Where there is no memory for it, none of the requests lacks any.
fn lacking<S: BatchStore, B: Allocator + Copy>(heap: S::Alloc, alloc: B, run: &Run) -> Option<u64> {
    match new_node::<S>(heap, run.role, 3, "t", 1) {
        Ok(mut node) => lacking_of(heap, alloc, &mut node, run),
        Err(_) => Some(0),
    }
}

/// The same of a broker that keeps batches so.
fn lacking_in<A: Allocator + Copy, B: Allocator + Copy>(
    kept: Kept,
    heap: A,
    alloc: B,
    run: &Run,
) -> Option<u64> {
    match kept {
        Kept::Apart => lacking::<VecStore<A>, B>(heap, alloc, run),
        Kept::EndToEnd => lacking::<SegStore<A>, B>(heap, alloc, run),
    }
}

/// The same where this allocation fails, and whether it is asked for; none where more is asked for at once than what was
/// given allows.
fn lacking_without<A: Allocator + Copy>(
    inner: A,
    kept: Kept,
    refused: u64,
    run: &Run,
) -> (Option<u64>, bool) {
    let heap = Refusing::new(inner, refused);
    let bits = lacking_in(kept, &heap, inner, run);
    let is_asked = heap.calls() >= refused;
    if heap.is_within(given(run)) {
        (bits, is_asked)
    } else {
        (None, is_asked)
    }
}

/// The bits of all requests that lack memory where one allocation fails, whichever that is; an error with the number of
/// one at which something else comes of them, or memory lacks though no allocation fails.
fn all_lacking<A: Allocator + Copy>(inner: A, kept: Kept, run: &Run) -> Result<u64, u64> {
    let mut all = 0_u64;
    for refused in 1..MOST {
        match lacking_without(inner, kept, refused, run) {
            (Some(bits), true) => all |= bits,
            (Some(0), false) => return Ok(all),
            _ => return Err(refused),
        }
    }
    Err(MOST)
}

#[test]
fn each_request_lacks_memory_once(rt: HostRuntime) {
    for kept in BOTH {
        let leads = all_lacking(rt.alloc(), kept, &OF_A_LEADER);
        let follows = all_lacking(rt.alloc(), kept, &OF_A_FOLLOWER);
        // both bits of each, from the first at the right, also of a Produce with acks 0, whose room is taken too; but for
        // Get, Cover, Trim, and those that clients ask first, whose work takes none
        assert_eq!(rt;
            leads,
            Ok(0b01_01_01_01_11_11_11_01_11_11_11_11_01_01_11_11_11)
        );
        assert_eq!(rt; follows, Ok(0b01_11_11_11));
    }
}
