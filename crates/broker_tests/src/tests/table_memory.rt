//! A table under each allocation failing in turn: nothing is printed, and a run with memory prints it, or one that
//! does without it.
use crate::tests::served::READ_ROOM;
use refusing_alloc::Refusing;
use sample_batches::THREE;
use std::alloc::Allocator;
use std::test::Fail;
use streams::{Sink, Source};
use tcp_edge::{TableError, run_table, run_table_subcommand};

/// More allocations than any run below asks for.
const MOST: u64 = 100;

/// How many allocations fail that a segment of batches does without: of its two lists of marked batches.
const OF_THE_MARKS: u64 = 2;

/// What a table answers with memory or without, and what it prints.
fn answer_of(has_memory: bool) -> (Result<(), TableError>, &'static str) {
    if has_memory {
        (Ok(()), "b=2\n")
    } else {
        (Err(TableError::OutOfMemory), "")
    }
}

/// What came of a run.
#[derive(Clone, Copy, Debug, PartialEq, Eq)]
enum Came {
    /// The table is printed.
    Printed,
    /// Memory was wanting, and nothing is printed.
    Lacked,
    /// Something else.
    Wrong,
}

/// What came of it where there is an answer, and this is printed.
fn came_of(answer: Result<(), TableError>, out: &[u8]) -> Came {
    for (has_memory, came) in [(true, Came::Printed), (false, Came::Lacked)] {
        let (wanted, lines) = answer_of(has_memory);
        if answer == wanted && out == lines.as_bytes() {
            return came;
        }
    }
    Came::Wrong
}

/// Runs a table in memory of which this allocation fails: what came of it, and whether it is asked for.
fn runs<A: Allocator + Copy>(alloc: A, refused: u64) -> (Came, bool) {
    let heap = Refusing::new(alloc, refused);
    let mut source = Source::new(THREE.as_slice());
    let mut sink = Sink::new(Vec::new(alloc));
    let answer = run_table(&heap, &mut source, &mut sink);
    let came = if heap.largest() <= READ_ROOM {
        came_of(answer, sink.get_ref())
    } else {
        Came::Wrong
    };
    (came, heap.calls() >= refused)
}

/// Whether a status, and what comes on standard output and on standard error, are those of a table that is printed,
/// or that lacked memory.
fn is_status(status: u8, out: &[u8], err: &[u8], came: Came) -> bool {
    match came {
        Came::Printed => status == 0 && out == b"b=2\n".as_slice() && err.is_empty(),
        Came::Lacked => {
            status == 3 && out.is_empty() && err == "kbroker: out of memory\n".as_bytes()
        }
        Came::Wrong => false,
    }
}

/// Whether the call that has a status and says why does the same.
fn is_told<A: Allocator + Copy>(alloc: A, refused: u64, came: Came) -> bool {
    let heap = Refusing::new(alloc, refused);
    let mut source = Source::new(THREE.as_slice());
    let mut sink = Sink::new(Vec::new(alloc));
    let mut err = Vec::new(alloc);
    let status = run_table_subcommand(&heap, &mut source, &mut sink, &mut err);
    is_status(status, sink.get_ref(), &err, came)
}

#[test]
fn a_small_table_is_printed_once_there_is_memory(rt: HostRuntime) -> Result<(), Fail> {
    let mut is_asked = true;
    let mut without = 0_u64;
    for refused in 1..MOST {
        if is_asked {
            let (came, asked) = runs(rt.alloc(), refused);
            assert!(rt;
                (asked || came == Came::Printed) && is_told(rt.alloc(), refused, came),
                "allocation {refused} fails"
            );
            is_asked = asked;
            without = without.saturating_add(u64::from(asked && came == Came::Printed));
        }
    }
    assert!(rt; !is_asked);
    assert_eq!(rt; without, OF_THE_MARKS);
    Ok(())
}
