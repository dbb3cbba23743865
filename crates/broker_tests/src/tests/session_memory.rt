//! A session under each allocation failing in turn: a request is answered, or nothing is but that memory was wanting.

use crate::tests::frames::{LIST, LISTED};
use crate::tests::served::READ_ROOM;
use refusing_alloc::Refusing;
use sample_brokers::brokers::configured;
use std::alloc::Allocator;
use std::test::Fail;
use streams::{Sink, Source};
use tcp_edge::{Config, Role, run_session};

/// More allocations than any run below asks for.
const MOST: u64 = 100;

/// What came of a session in memory of which one allocation fails.
#[derive(Clone, Copy, Debug, PartialEq, Eq)]
enum Came {
    /// The request is answered.
    Answered,
    /// There was no memory for the configuration itself.
    Unasked,
    /// Memory was wanting, and nothing is answered.
    Lacked,
    /// Something else.
    Wrong,
}

/// What a status, the replies and the line on standard error say.
fn came_of(status: u8, out: &[u8], err: &[u8]) -> Came {
    match status {
        0 if out == LISTED && err.is_empty() => Came::Answered,
        3 if out.is_empty() && err == "kbroker: out of memory\n".as_bytes() => Came::Lacked,
        _ => Came::Wrong,
    }
}

/// What comes of a session of a broker of this configuration.
fn runs<A: Allocator + Copy, B: Allocator + Copy>(heap: A, alloc: B, config: Config<A>) -> Came {
    let mut source = Source::new(LIST);
    let mut sink = Sink::new(Vec::new(alloc));
    let mut err = Vec::new(alloc);
    let status = run_session(heap, config, &mut source, &mut sink, &mut err);
    came_of(status, sink.get_ref(), &err)
}

/// What comes of it in memory of which this allocation fails, and whether that is asked for.
fn runs_without<B: Allocator + Copy>(alloc: B, refused: u64) -> (Came, bool) {
    let heap = Refusing::new(alloc, refused);
    let came = match configured(&heap, Role::Leader, 3, "t", 1) {
        Ok(config) => runs(&heap, alloc, config),
        Err(_) => Came::Unasked,
    };
    let is_small = heap.largest() <= READ_ROOM;
    (
        if is_small { came } else { Came::Wrong },
        heap.calls() >= refused,
    )
}

#[test]
fn a_session_is_answered_once_there_is_memory(rt: HostRuntime) -> Result<(), Fail> {
    let mut came = Came::Wrong;
    let mut lacked = 0_u64;
    for refused in 1..MOST {
        let (now, is_asked) = runs_without(rt.alloc(), refused);
        came = now;
        // All that is asked for is needed.
        assert!(rt;
            (came == Came::Answered) == !is_asked && came != Came::Wrong,
            "allocation {refused} fails: {came:?}"
        );
        lacked = lacked.saturating_add(u64::from(came == Came::Lacked));
        if came == Came::Answered {
            break;
        }
    }
    assert!(rt; came == Came::Answered && lacked > 0, "{came:?}, {lacked}");
    Ok(())
}
