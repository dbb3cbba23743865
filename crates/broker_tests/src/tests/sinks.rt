//! Sinks into a writer that takes few bytes a write, and that fails once; and a copy from a source.
ghost use Rattle.std.specs.Prelude.{◌≡◌, ◌<◌, false};

use crate::tests::copying::copy;
use crate::tests::pieces::{Halting, WAYS, reader_of, writer_of};
use std::io::ErrorKind;
use std::test::Fail;
use streams::{Failed, Sink, Source};

/// What is written.
static BYTES: &[u8] = b"abcde";

/// A sink over a writer that fails so.
fn sink_of(piece: usize, room: usize, error: Option<ErrorKind>) -> Sink<Halting<'static>>
    ensures { result.failed ≡ false }
{
    Sink::new(Halting {
        room,
        error,
        ..writer_of(BYTES, piece)
    })
}

/// Whether the sink says of a failure what is wanted, and its writer has taken so many bytes in so many
/// calls.
fn has_taken(sink: &Sink<Halting<'_>>, fails: bool, count: usize, calls: usize) -> bool {
    let writer = sink.get_ref();
    let has_taken = !writer.is_wrong && writer.left.len().saturating_add(count) == 5;
    sink.failed() == fails && has_taken && writer.calls == calls
}

/// Whether each write, up to the one that fails behind all the room, takes one byte.
fn writes_bytes(room: usize, error: Option<ErrorKind>) -> bool {
    let mut sink = sink_of(1, room, error);
    let mut is_right = true;
    for call in 0..5 {
        if !sink.failed() {
            let fails = call == room;
            let wanted = if fails { Err(Failed) } else { Ok(1) };
            let answers = sink.write(&BYTES[call..]) == wanted;
            let count = if fails { call } else { call + 1 };
            is_right = is_right && answers && has_taken(&sink, fails, count, call + 1);
        }
    }
    is_right
}

/// Whether a writer of that room takes all the bytes in pieces of at most so many, or as many as it
/// has room for.
fn takes_all(piece: usize, room: usize, error: Option<ErrorKind>) -> bool {
    let mut sink = sink_of(piece, room, error);
    let fails = room < 5;
    let wanted = if fails { Err(Failed) } else { Ok(()) };
    let is_answer = sink.write_all(BYTES) == wanted && sink.failed() == fails;
    let writer = sink.into_inner();
    let is_taken = !writer.is_wrong && writer.left.len() == 5_usize.saturating_sub(room);
    is_answer && is_taken
}

/// Whether a writer of that room that fails so takes the bytes by single writes and all at once.
fn is_written(room: usize, error: Option<ErrorKind>) -> bool {
    writes_bytes(room, error)
        && takes_all(1, room, error)
        && takes_all(2, room, error)
        && takes_all(9, room, error)
}

/// Whether no bytes are no write, so that the writer can't fail, and a flush is one call, which fails or
/// not.
fn is_flushed(error: Option<ErrorKind>) -> bool {
    let mut sink = sink_of(1, 0, error);
    let is_unused = sink.write_all(b"") == Ok(()) && has_taken(&sink, false, 0, 0);
    let fails = error.is_some();
    let wanted = if fails { Err(Failed) } else { Ok(()) };
    is_unused && !sink.failed() && sink.flush() == wanted && has_taken(&sink, fails, 0, 1)
}

#[test]
fn writes_and_flushes(rt: HostRuntime) {
    for (way, error) in &WAYS {
        assert!(rt; is_flushed(*error), "{way}, a flush");
        for room in 0..=5 {
            assert!(rt; is_written(room, *error), "{way} after {room} bytes");
        }
    }
}

/// What is copied.
static SEVENS: [u8; 150] = [7; 150];

/// Whether these bytes are copied.
fn is_copied(bytes: &[u8]) -> bool {
    let mut source = Source::new(reader_of(bytes, 100));
    let mut sink = Sink::new(writer_of(bytes, 100));
    let answer = copy(&mut source, &mut sink);
    let writer = sink.into_inner();
    let is_taken = !writer.is_wrong && writer.left.is_empty();
    answer == Ok(true) && is_taken && source.into_inner().left.is_empty()
}

#[test]
fn copies_the_whole_input(rt: HostRuntime) {
    for length in [0, 1, 64, 150] {
        let bytes = SEVENS.get(..length).unwrap_or(b"");
        assert!(rt; is_copied(bytes), "{length} bytes");
    }
}
