//! Sessions of a Produce and a ListOffsets request: cut frames, streams in pieces and such that fail, and
//! how few allocations they make.

use crate::tests::frames::{LIST, LISTED, LISTED_AT_1, PRODUCE, STORED, repeated};
use crate::tests::pieces::{Halting, NONE, Pieces, WAYS, reader_of, writer_of};
use refusing_alloc::Refusing;
use sample_brokers::brokers::{end_of, leader};
use segment::{BatchStore, ProgramStore};
use std::alloc::Allocator;
use std::io::ErrorKind;
use std::test::Fail;
use streams::{Sink, Source};
use tcp_edge::{Ended, Node, SessionError, serve};

/// What comes of a session: how it ends, how many frames it has answered and how many bytes of another
/// are left, how many bytes of its replies weren't taken, and how many reads it made.
pub(crate) type Came = (&'static str, u64, usize, usize, u64);

/// How a session ends.
fn answer_of(answer: std::result::Result<Ended, SessionError>) -> (&'static str, u64, usize) {
    match answer {
        Ok(ended) => ("ended", ended.frames, ended.rest),
        Err(SessionError::Read) => ("read", 0, 0),
        Err(SessionError::Write) => ("write", 0, 0),
        Err(SessionError::OutOfMemory) => ("memory", 0, 0),
        Err(SessionError::Frame { index: _, why: _ }) => ("frame", 0, 0),
    }
}

/// Lets a broker serve what the reader gives.
pub(crate) fn session<S: BatchStore, A: Allocator + Copy>(
    alloc: A,
    node: &mut Node<S>,
    reader: Pieces<'_>,
    writer: Halting<'_>,
) -> Came {
    let mut source = Source::new(reader);
    let mut sink = Sink::new(writer);
    let (answer, frames, rest) = answer_of(serve(alloc, node, &mut source, &mut sink));
    let writer = sink.into_inner();
    let left = if writer.is_wrong {
        NONE
    } else {
        writer.left.len()
    };
    (answer, frames, rest, left, source.reads())
}

/// How many bytes of the requests come, how many at most a read and a write, and how many are left where
/// a read fails; what comes of the session, and where the log ends then.
type Row = (&'static str, usize, usize, usize, Came, i64);

static ROWS: [Row; 16] = [
    ("one byte a read", 152, 1, NONE, ("ended", 2, 0, 0, 153), 1),
    ("a frame a read", 152, 111, NONE, ("ended", 2, 0, 0, 3), 1),
    (
        "a part of the next",
        152,
        113,
        NONE,
        ("ended", 2, 0, 0, 3),
        1,
    ),
    ("all at once", 152, 1000, NONE, ("ended", 2, 0, 0, 2), 1),
    ("nothing", 0, 37, NONE, ("ended", 0, 0, 86, 1), 0),
    ("all but a byte", 110, 37, NONE, ("ended", 0, 110, 86, 4), 0),
    ("the first", 111, 37, NONE, ("ended", 1, 0, 41, 4), 1),
    ("a part of a size", 113, 37, NONE, ("ended", 1, 2, 41, 5), 1),
    ("a size", 115, 37, NONE, ("ended", 1, 4, 41, 5), 1),
    ("no last byte", 151, 37, NONE, ("ended", 1, 40, 41, 6), 1),
    ("at once", 152, 1, 152, ("read", 0, 0, 86, 1), 0),
    ("within the first", 152, 1, 101, ("read", 0, 0, 86, 52), 0),
    ("at its last byte", 152, 1, 42, ("read", 0, 0, 86, 111), 0),
    ("between both", 152, 1, 41, ("read", 0, 0, 41, 112), 1),
    ("within the second", 152, 1, 1, ("read", 0, 0, 41, 152), 1),
    ("at the end", 152, 1, 0, ("read", 0, 0, 0, 153), 1),
];

/// Whether this comes of a session of a new broker, and its log ends there.
fn comes<S: BatchStore>(
    alloc: S::Alloc,
    reader: Pieces<'_>,
    writer: Halting<'_>,
    came: Came,
    end: i64,
) -> bool {
    match leader::<S>(alloc) {
        Ok(mut node) => {
            let is_right = session(alloc, &mut node, reader, writer) == came;
            is_right && end_of(&node) == end
        }
        Err(_) => false,
    }
}

/// Whether it comes as the row says.
fn is_row<S: BatchStore>(alloc: S::Alloc, input: &[u8], replies: &[u8], row: &Row) -> bool {
    let reader = Pieces {
        rest: row.3,
        error: Some(ErrorKind::ConnectionReset),
        ..reader_of(input.get(..row.1).unwrap_or(b""), row.2)
    };
    comes::<S>(alloc, reader, writer_of(replies, row.2), row.4, row.5)
}

#[test]
fn cut_and_failing_readers(rt: HostRuntime) -> Result<(), Fail> {
    let input = repeated(rt.alloc(), PRODUCE, LIST, 1)?;
    let replies = repeated(rt.alloc(), STORED, LISTED_AT_1, 1)?;
    for row in &ROWS {
        assert!(rt;
            is_row::<ProgramStore<_>>(rt.alloc(), &input, &replies, row),
            "{}",
            row.0
        );
    }
    Ok(())
}

/// Whether a reply is cut behind so many bytes by a writer that fails so, and none where it takes them all:
/// it isn't flushed. The batch is stored.
fn is_cut<S: BatchStore>(
    alloc: S::Alloc,
    input: &[u8],
    replies: &[u8],
    room: usize,
    error: Option<ErrorKind>,
) -> bool {
    let writer = Halting {
        room,
        error,
        ..writer_of(replies, 8)
    };
    let reads = if room < 45 { 3 } else { 4 };
    let came = match replies.len().saturating_sub(room) {
        0 => ("ended", 2, 0, 0, 5),
        lost => ("write", 0, 0, lost, reads),
    };
    comes::<S>(alloc, reader_of(input, 50), writer, came, 1)
}

#[test]
fn writers_that_fail(rt: HostRuntime) -> Result<(), Fail> {
    let input = repeated(rt.alloc(), PRODUCE, LIST, 1)?;
    let replies = repeated(rt.alloc(), STORED, LISTED_AT_1, 1)?;
    for room in 0..=replies.len() {
        for (way, error) in &WAYS {
            assert!(rt;
                is_cut::<ProgramStore<_>>(rt.alloc(), &input, &replies, room, *error),
                "{room}, {way}"
            );
        }
    }
    Ok(())
}

/// Whether a session of these requests answers them all, and how many allocations it asks for.
fn calls_of<S: BatchStore>(
    inner: S::Alloc,
    input: &[u8],
    replies: &[u8],
    count: u64,
) -> (bool, u64) {
    let heap = Refusing::new(inner, 0);
    let is_answered = match leader::<S>(inner) {
        Ok(mut node) => {
            let reader = reader_of(input, 10_000);
            let came = session(&heap, &mut node, reader, writer_of(replies, 100));
            came.0 == "ended" && came.1 == count && came.2 == 0 && came.3 == 0
        }
        Err(_) => false,
    };
    (is_answered, heap.calls())
}

#[test]
fn many_requests_in_few_allocations(rt: HostRuntime) -> Result<(), Fail> {
    let input = repeated(rt.alloc(), b"", LIST, 3000)?;
    let replies = repeated(rt.alloc(), b"", LISTED, 3000)?;
    let (is_answered, calls) = calls_of::<ProgramStore<_>>(rt.alloc(), &input, &replies, 3000);
    assert!(rt; is_answered && calls < 40, "{calls} allocations");
    Ok(())
}

/// The room for two reads.
pub(crate) const READ_ROOM: usize = 2 * 65_536;

/// How many bytes a frame announces, how many of them come, and how many bytes may be asked for at once: room for two
/// reads, or four times what came.
static ANNOUNCED: [(u32, u32, usize); 4] = [
    (8_388_608, 0, READ_ROOM),
    (8_388_608, 10, READ_ROOM),
    (8_388_608, 30_000, READ_ROOM),
    (8_388_608, 100_000, 4 * 100_004),
];

/// What comes of a session of a frame that ends before its announced end, and how many bytes are asked for at once.
fn largest_of<S: BatchStore>(inner: S::Alloc, input: &[u8]) -> Option<(Came, usize)> {
    let heap = Refusing::new(inner, 0);
    let mut node = leader::<S>(inner).ok()?;
    let came = session(
        &heap,
        &mut node,
        reader_of(input, 10_000),
        writer_of(b"", 100),
    );
    Some((came, heap.largest()))
}

#[test]
fn a_size_that_is_announced_takes_no_memory(rt: HostRuntime) -> Result<(), Fail> {
    for (announced, count, most) in &ANNOUNCED {
        let input = repeated(rt.alloc(), &announced.to_be_bytes(), b"x", *count)?;
        let came = largest_of::<ProgramStore<_>>(rt.alloc(), &input);
        let is_right = came.is_some_and(|(came, largest)| {
            (came.0, came.1, came.2) == ("ended", 0, input.len()) && largest <= *most
        });
        assert!(rt; is_right, "{count}: {came:?}");
    }
    Ok(())
}
