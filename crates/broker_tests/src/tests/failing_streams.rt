//! Readers and writers that fail, at once and in mid-stream.

use crate::tests::frames::{LIST, LISTED};
use sample_batches::THREE;
use script_replay::{ReplayError, replay};
use segment::ProgramStore;
use std::alloc::{Allocator, Global};
use std::io::{Error, ErrorKind, Read, Result, Write};
use std::test::Fail;
use streams::{Sink, Source};
use tcp_edge::{ImagesError, TableError, merge_stream, run_line, run_table};

/// Gives at most 50 bytes a call, and then fails or ends.
#[derive(Drop)]
struct Reader<'a> {
    left: &'a [u8],
    fails: bool,
}

impl Read for Reader<'_> {
    fn read(&mut self, buf: &mut [u8]) -> Result<usize> {
        if self.fails && self.left.is_empty() {
            return Err(Error::from(ErrorKind::ConnectionReset));
        }
        let room = buf.len().min(50);
        self.left.read(&mut buf[..room])
    }
}

/// Takes so many bytes, and fails at the next, or where it is flushed.
#[derive(Drop)]
struct Writer {
    room: usize,
    taken: usize,
    /// How many of them are flushed.
    flushed: usize,
    flushes: bool,
}

impl Write for Writer {
    fn write(&mut self, buf: &[u8]) -> Result<usize> {
        if self.room == 0 {
            return Err(Error::from(ErrorKind::BrokenPipe));
        }
        let count = buf.len().min(self.room);
        self.room -= count;
        self.taken = self.taken.saturating_add(count);
        Ok(count)
    }

    fn flush(&mut self) -> Result<()> {
        if self.flushes {
            self.flushed = self.taken;
            Ok(())
        } else {
            Err(Error::from(ErrorKind::BrokenPipe))
        }
    }
}

/// How the streams of a table fail: whether the reader does at its end, how many bytes the writer takes,
/// and whether it flushes.
#[derive(Clone, Copy)]
struct Streams {
    fails: bool,
    room: usize,
    flushes: bool,
}

/// A source of the bytes, and a sink that takes so many.
fn ends_of(input: &[u8], streams: Streams) -> (Source<Reader<'_>>, Sink<Writer>) {
    let source = Source::new(Reader {
        left: input,
        fails: streams.fails,
    });
    let sink = Sink::new(Writer {
        room: streams.room,
        taken: 0,
        flushed: 0,
        flushes: streams.flushes,
    });
    (source, sink)
}

/// What is run.
#[derive(Clone, Copy)]
enum Run {
    Table,
    Merge,
    Replay,
}

/// What came of it.
#[derive(Clone, Copy, Debug, PartialEq, Eq)]
enum Came {
    Done,
    Read,
    Write,
    Other,
}

/// The name of its subcommand.
fn name_of(run: Run) -> &'static str {
    match run {
        Run::Table => "table",
        Run::Merge => "merge",
        Run::Replay => "replay",
    }
}

/// What came of a table.
fn of_table(answer: std::result::Result<(), TableError>) -> Came {
    match answer {
        Ok(()) => Came::Done,
        Err(TableError::Read) => Came::Read,
        Err(TableError::Write) => Came::Write,
        Err(_) => Came::Other,
    }
}

/// What came of a merge.
fn of_merge(answer: std::result::Result<(), ImagesError>) -> Came {
    match answer {
        Ok(()) => Came::Done,
        Err(ImagesError::Read) => Came::Read,
        Err(ImagesError::Write) => Came::Write,
        Err(_) => Came::Other,
    }
}

/// What came of a script.
fn of_script(answer: std::result::Result<(), ReplayError>) -> Came {
    match answer {
        Ok(()) => Came::Done,
        Err(ReplayError::Read) => Came::Read,
        Err(ReplayError::Write) => Came::Write,
        Err(_) => Came::Other,
    }
}

/// What comes of a run between these ends.
fn runs<A: Allocator + Copy>(
    alloc: A,
    run: Run,
    source: &mut Source<Reader<'_>>,
    sink: &mut Sink<Writer>,
) -> Came {
    match run {
        Run::Table => of_table(run_table(alloc, source, sink)),
        Run::Merge => of_merge(merge_stream(alloc, source, sink)),
        Run::Replay => of_script(replay::<ProgramStore<A>, _, _>(alloc, source, sink)),
    }
}

/// Whether a run between these streams comes to that, its writer takes so many bytes, and its source and sink have
/// failed where it says so.
fn is_answered<A: Allocator + Copy>(
    alloc: A,
    run: Run,
    input: &[u8],
    streams: Streams,
    wanted: (Came, usize),
) -> bool {
    let (mut source, mut sink) = ends_of(input, streams);
    let came = runs(alloc, run, &mut source, &mut sink);
    (came, sink.get_ref().taken) == wanted
        && source.failed() == (came == Came::Read)
        && sink.failed() == (came == Came::Write)
}

/// Whether a line has this status, and this comes on standard error. Gives its writer.
fn told(
    alloc: Global,
    arguments: &[&str],
    input: &[u8],
    streams: Streams,
    wanted: (u8, &str),
) -> (bool, Writer) {
    let (mut source, mut sink) = ends_of(input, streams);
    let mut err = Vec::new(alloc);
    let status = run_line(alloc, arguments, &mut source, &mut sink, &mut err);
    (
        status == wanted.0 && err.as_slice() == wanted.1.as_bytes(),
        sink.into_inner(),
    )
}

/// The status and the line on standard error for what came of it.
fn told_of(came: Came) -> (u8, &'static str) {
    match came {
        Came::Done => (0, ""),
        Came::Read => (4, "kbroker: read failed\n"),
        Came::Write => (4, "kbroker: write failed\n"),
        Came::Other => (9, "something else"),
    }
}

/// Whether both the call and the line for it do so.
fn is_right(
    alloc: Global,
    run: Run,
    input: &[u8],
    streams: Streams,
    wanted: (Came, usize),
) -> bool {
    let line = ["kbroker", name_of(run)];
    let (is_told, writer) = told(alloc, &line, input, streams, told_of(wanted.0));
    is_answered(alloc, run, input, streams, wanted) && is_told && writer.taken == wanted.1
}

/// The image of a copy that has seen nothing, of version 0, behind its size, twice. The image of their merge is of
/// version 1.
const TWO_IMAGES: &[u8] =
    b"\0\0\0\x12KCPY\0\0\0\0\0\0\0\0\0\0\x59\x1a\x35\x81\0\0\0\x12KCPY\0\0\0\0\0\0\0\0\0\0\x59\x1a\x35\x81";

/// A script, which prints 15 bytes: `base 0`, `a=1` and `end`.
const SCRIPT: &[u8] = b"copies 1\nproduce a=1\ntable 0\n";

/// A run's name, what it is, its input, how many bytes of it the reader gives at most, whether it fails then, the
/// writer's room, whether it flushes, what comes of it, and the bytes taken by the writer.
type Row = (
    &'static str,
    Run,
    &'static [u8],
    usize,
    bool,
    usize,
    bool,
    Came,
    usize,
);

/// More bytes than any input has.
const ALL: usize = 999;

static ROWS: [Row; 21] = [
    (
        "a table",
        Run::Table,
        &THREE,
        ALL,
        false,
        9,
        true,
        Came::Done,
        4,
    ),
    (
        "no read of a table",
        Run::Table,
        &THREE,
        0,
        true,
        9,
        true,
        Came::Read,
        0,
    ),
    (
        "a read within a batch",
        Run::Table,
        &THREE,
        86,
        true,
        9,
        true,
        Came::Read,
        0,
    ),
    (
        "a read after a batch",
        Run::Table,
        &THREE,
        ALL,
        true,
        9,
        true,
        Came::Read,
        0,
    ),
    (
        "no write of a table",
        Run::Table,
        &THREE,
        ALL,
        false,
        0,
        true,
        Came::Write,
        0,
    ),
    (
        "a write within a line",
        Run::Table,
        &THREE,
        ALL,
        false,
        3,
        true,
        Came::Write,
        3,
    ),
    (
        "a flush of a table",
        Run::Table,
        &THREE,
        ALL,
        false,
        9,
        false,
        Came::Write,
        4,
    ),
    (
        "a merge",
        Run::Merge,
        TWO_IMAGES,
        ALL,
        false,
        99,
        true,
        Came::Done,
        26,
    ),
    (
        "no read of images",
        Run::Merge,
        TWO_IMAGES,
        0,
        true,
        99,
        true,
        Came::Read,
        0,
    ),
    (
        "a read within images",
        Run::Merge,
        TWO_IMAGES,
        30,
        true,
        99,
        true,
        Came::Read,
        0,
    ),
    (
        "a read after images",
        Run::Merge,
        TWO_IMAGES,
        ALL,
        true,
        99,
        true,
        Came::Read,
        0,
    ),
    (
        "no write of an image",
        Run::Merge,
        TWO_IMAGES,
        ALL,
        false,
        0,
        true,
        Came::Write,
        0,
    ),
    (
        "a write within an image",
        Run::Merge,
        TWO_IMAGES,
        ALL,
        false,
        25,
        true,
        Came::Write,
        25,
    ),
    (
        "a flush of an image",
        Run::Merge,
        TWO_IMAGES,
        ALL,
        false,
        99,
        false,
        Came::Write,
        26,
    ),
    (
        "a script",
        Run::Replay,
        SCRIPT,
        ALL,
        false,
        99,
        true,
        Came::Done,
        15,
    ),
    (
        "no read of a script",
        Run::Replay,
        SCRIPT,
        0,
        true,
        99,
        true,
        Came::Read,
        0,
    ),
    (
        "a read within a line",
        Run::Replay,
        SCRIPT,
        25,
        true,
        99,
        true,
        Came::Read,
        7,
    ),
    (
        "a read after a script",
        Run::Replay,
        SCRIPT,
        ALL,
        true,
        99,
        true,
        Came::Read,
        15,
    ),
    (
        "no write of a script",
        Run::Replay,
        SCRIPT,
        ALL,
        false,
        0,
        true,
        Came::Write,
        0,
    ),
    (
        "a write of a script",
        Run::Replay,
        SCRIPT,
        ALL,
        false,
        14,
        true,
        Came::Write,
        14,
    ),
    (
        "a flush of a script",
        Run::Replay,
        SCRIPT,
        ALL,
        false,
        99,
        false,
        Came::Write,
        15,
    ),
];

#[test]
fn failing_streams(rt: HostRuntime) -> std::result::Result<(), Fail> {
    for (name, run, input, given, fails, room, flushes, came, taken) in &ROWS {
        let streams = Streams {
            fails: *fails,
            room: *room,
            flushes: *flushes,
        };
        let bytes = &input[..input.len().min(*given)];
        assert!(rt;
            is_right(rt.alloc(), *run, bytes, streams, (*came, *taken)),
            "{name}"
        );
    }
    Ok(())
}

/// Whether a run between ends of which one has failed before comes to that, and neither reads nor writes more.
fn is_stopped<A: Allocator + Copy>(alloc: A, run: Run, input: &[u8], by_read: bool) -> bool {
    let (mut source, mut sink) = ends_of(input, streams_of(by_read, by_read));
    let before = if by_read {
        runs(alloc, run, &mut source, &mut sink)
    } else {
        let _ = sink.finish();
        Came::Write
    };
    let reads = source.reads();
    let taken = sink.get_ref().taken;
    let again = runs(alloc, run, &mut source, &mut sink);
    before == again && (!by_read || source.reads() == reads) && sink.get_ref().taken == taken
}

#[test]
fn ends_that_have_failed_are_not_used(rt: HostRuntime) {
    for (run, input) in [
        (Run::Table, THREE.as_slice()),
        (Run::Merge, TWO_IMAGES),
        (Run::Replay, SCRIPT),
    ] {
        let name = name_of(run);
        assert!(rt;
            is_stopped(rt.alloc(), run, input, true),
            "a read of {name}"
        );
        assert!(rt;
            is_stopped(rt.alloc(), run, input, false),
            "a flush of {name}"
        );
    }
}

/// A writer with room for all, which flushes or doesn't, and a reader that fails at its end or doesn't.
fn streams_of(fails: bool, flushes: bool) -> Streams {
    Streams {
        fails,
        room: 99,
        flushes,
    }
}

#[test]
fn a_merge_is_flushed(rt: HostRuntime) {
    let line = ["kbroker", "merge"];
    let (done, sink) = told(
        rt.alloc(),
        &line,
        TWO_IMAGES,
        streams_of(false, true),
        (0, ""),
    );
    assert!(rt; done && sink.taken == 26 && sink.flushed == 26);
}

#[test]
fn replies_before_a_read_that_fails_are_flushed(rt: HostRuntime) {
    let line = ["kbroker", "session", "t:1"];
    let failed = (4, "kbroker: read failed\n");
    let (done, sink) = told(rt.alloc(), &line, LIST, streams_of(true, true), failed);
    assert!(rt; done && sink.taken == LISTED.len() && sink.flushed == LISTED.len());
}
