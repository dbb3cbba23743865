//! A broker in memory of which one allocation fails: one call lacks memory and what takes none answers as before, and
//! made again it does what it is to do.

use crate::tests::frames::{
    DESCRIBE, DESCRIBED, FETCH, FETCHED, LIST, LISTED_AT_1, NOT_STORED, PRODUCE, STORED, repeated,
};
use crate::tests::pieces::{reader_of, writer_of};
use crate::tests::served::{READ_ROOM, session};
use refusing_alloc::Refusing;
use request_frames::parse;
use sample_brokers::brokers::{answers_of, has_answers, has_logs, leader, prints};
use sample_brokers::stores::{BOTH, Kept};
use segment::{BatchStore, SegStore, VecStore};
use std::alloc::Allocator;
use std::test::Fail;
use tcp_edge::{Answer, Node};

// The calls that may lack memory, each a bit of a number, in the order in which they are made.
const CONFIG: u32 = 1;

const NEW: u32 = 2;

const PRODUCE_RESPONSE: u32 = 4;

const BATCH: u32 = 8;

const FETCH_RESPONSE: u32 = 16;

const METADATA_RESPONSE: u32 = 32;

const LIST_RESPONSE: u32 = 64;

const SESSION: u32 = 128;

/// Something else came of a call. No sum with it is a bit.
const WRONG: u32 = 1000;

/// More allocations than all calls ask for.
const MOST: u64 = 200;

/// How many allocations fail that a segment of batches does without: of its two lists of marked batches.
const OF_THE_MARKS: u64 = 2;

/// The call that lacks memory where a request isn't answered, the request and its response.
static REQUESTS: [(u32, &[u8], &[u8]); 4] = [
    (PRODUCE_RESPONSE, PRODUCE, STORED),
    (FETCH_RESPONSE, FETCH, FETCHED),
    (METADATA_RESPONSE, DESCRIBE, DESCRIBED),
    (LIST_RESPONSE, LIST, LISTED_AT_1),
];

/// The answer to a frame behind its size; `None` where there was no memory for it, or it is no request.
fn answer<S: BatchStore, A: Allocator + Copy>(
    node: &mut Node<S>,
    frame: &[u8],
    out: &mut Vec<u8, A>,
) -> Option<Answer> {
    match parse(frame.get(4..).unwrap_or(b"")) {
        Ok(request) => node.handle(&request, out).ok(),
        Err(_) => None,
    }
}

/// Which call lacked memory, and left nothing behind the output; 0 where the response stands there.
fn lack_of(is_answered: bool, out: &[u8], call: u32, response: &[u8]) -> u32 {
    if !is_answered && out.is_empty() {
        call
    } else if is_answered && out == response {
        0
    } else if is_answered && call == PRODUCE_RESPONSE && out == NOT_STORED {
        BATCH
    } else {
        WRONG
    }
}

/// Sends a request, and again where memory lacked, which changes no answer. Gives the call that lacked it.
fn sends<S: BatchStore, A: Allocator + Copy, B: Allocator + Copy>(
    alloc: B,
    node: &mut Node<S>,
    row: &(u32, &[u8], &[u8]),
    out: &mut Vec<u8, A>,
) -> u32 {
    let Ok(before) = answers_of(alloc, node) else {
        return WRONG;
    };
    let is_answered = answer(node, row.1, out) == Some(Answer::Reply);
    let lack = lack_of(is_answered, out, row.0, row.2);
    if lack == 0 {
        return 0;
    }
    let is_same = has_answers(alloc, node, &before);
    out.clear();
    let is_done = answer(node, row.1, out) == Some(Answer::Reply) && out.as_slice() == row.2;
    if is_same && is_done { lack } else { WRONG }
}

/// The calls of a session of two requests that lacked memory behind whole replies; a second one answers both.
fn serves<S: BatchStore, A: Allocator + Copy>(
    alloc: A,
    node: &mut Node<S>,
    input: &[u8],
    replies: &[u8],
) -> u32 {
    let came = session(alloc, node, reader_of(input, 30), writer_of(replies, 100));
    if came == ("ended", 2, 0, 0, 4) {
        return 0;
    }
    let lacks = came.0 == "memory" && (came.3 == 82 || came.3 == 41);
    let again = session(alloc, node, reader_of(input, 30), writer_of(replies, 100));
    if lacks && again == ("ended", 2, 0, 0, 4) {
        SESSION
    } else {
        WRONG
    }
}

/// Which calls of a broker lack memory in this heap.
fn lacking_of<S: BatchStore, A: Allocator + Copy, B: Allocator + Copy>(
    heap: A,
    alloc: B,
    node: &mut Node<S>,
    input: &[u8],
    replies: &[u8],
) -> u32 {
    let mut lacking = 0_u32;
    for row in &REQUESTS {
        lacking = lacking.saturating_add(sends(alloc, node, row, &mut Vec::new(heap)));
    }
    lacking.saturating_add(serves(heap, node, input, replies))
}

/// Whether a broker is made.
fn is_made<S: BatchStore>(alloc: S::Alloc) -> bool {
    match leader::<S>(alloc) {
        Ok(node) => has_logs(&node),
        Err(_) => false,
    }
}

/// Which calls lack memory in this heap.
fn lacking<S: BatchStore, B: Allocator + Copy>(
    heap: S::Alloc,
    alloc: B,
    input: &[u8],
    replies: &[u8],
) -> u32 {
    match leader::<S>(heap) {
        Ok(mut node) => lacking_of(heap, alloc, &mut node, input, replies),
        Err(None) => CONFIG,
        Err(Some(why)) if prints(heap, why, "OutOfMemory") && is_made::<S>(heap) => NEW,
        Err(Some(_)) => WRONG,
    }
}

/// Which calls lack memory where this allocation fails, and whether it is asked for, of a broker that keeps batches so.
/// Something else came where more is asked for at once than a session's reads need.
fn lacking_without<A: Allocator + Copy>(
    inner: A,
    kept: Kept,
    refused: u64,
    input: &[u8],
    replies: &[u8],
) -> (u32, bool) {
    let heap = Refusing::new(inner, refused);
    let lacking = match kept {
        Kept::Apart => lacking::<VecStore<_>, A>(&heap, inner, input, replies),
        Kept::EndToEnd => lacking::<SegStore<_>, A>(&heap, inner, input, replies),
    };
    let is_asked = heap.calls() >= refused;
    if heap.largest() <= READ_ROOM {
        (lacking, is_asked)
    } else {
        (WRONG, is_asked)
    }
}

/// How many allocations a broker does without that keeps batches so.
fn needless(kept: Kept) -> u64 {
    match kept {
        Kept::Apart => 0,
        Kept::EndToEnd => OF_THE_MARKS,
    }
}

/// The last call that lacks memory, where each allocation fails in turn, and how many allocations are asked for and done
/// without; an error with the number of one at whose failure something is wrong, or which isn't followed by the same call
/// or the next.
fn last_lacking<A: Allocator + Copy>(
    inner: A,
    kept: Kept,
    input: &[u8],
    replies: &[u8],
) -> Result<(u32, u64), u64> {
    let mut last = CONFIG;
    let mut without = 0_u64;
    for refused in 1..MOST {
        let (lacking, is_asked) = lacking_without(inner, kept, refused, input, replies);
        let is_next = lacking == last || lacking == last.saturating_mul(2);
        if lacking > 0 && !(is_asked && is_next) {
            return Err(refused);
        }
        if !is_asked {
            return Ok((last, without));
        }
        without = without.saturating_add(u64::from(lacking == 0));
        last = if lacking == 0 { last } else { lacking };
    }
    Err(MOST)
}

#[test]
fn one_allocation_fails(rt: HostRuntime) -> Result<(), Fail> {
    let input = repeated(rt.alloc(), b"", LIST, 2)?;
    let replies = repeated(rt.alloc(), b"", LISTED_AT_1, 2)?;
    for kept in BOTH {
        let last = last_lacking(rt.alloc(), kept, &input, &replies);
        assert_eq!(rt; last, Ok((SESSION, needless(kept))));
    }
    Ok(())
}
