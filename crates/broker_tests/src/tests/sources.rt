//! Sources over a reader that gives few bytes a read, and that fails once.
ghost use Rattle.std.specs.Prelude.{◌≡◌, false};

use crate::tests::pieces::{NONE, Pieces, reader_of};
use bytes::BytesMut;
use std::alloc::Allocator;
use std::io::ErrorKind;
use std::test::Fail;
use streams::{Failed, Source};

const BROKEN: Option<ErrorKind> = Some(ErrorKind::ConnectionReset);

const INTERRUPTED: Option<ErrorKind> = Some(ErrorKind::Interrupted);

/// The most bytes a read, how many bytes are left where it fails, and how; how many bytes the reads
/// give in turn, and which of them fails. The input is "abc", and a read has room for two bytes.
type Row = (
    &'static str,
    usize,
    usize,
    Option<ErrorKind>,
    [usize; 5],
    usize,
);

static ROWS: [Row; 8] = [
    ("one byte a read", 1, NONE, None, [1, 1, 1, 0, 0], NONE),
    ("all the room", 2, NONE, None, [2, 1, 0, 0, 0], NONE),
    ("first read fails", 1, 3, BROKEN, [0, 0, 0, 0, 0], 0),
    ("fails after a byte", 1, 2, BROKEN, [1, 0, 0, 0, 0], 1),
    ("fails after two bytes", 2, 1, BROKEN, [2, 0, 0, 0, 0], 1),
    ("fails at the end", 1, 0, BROKEN, [1, 1, 1, 0, 0], 3),
    ("at once, but again", 1, 3, INTERRUPTED, [0, 0, 0, 0, 0], 0),
    ("interrupted", 1, 1, INTERRUPTED, [1, 1, 0, 0, 0], 2),
];

/// A source of "abc" that gives and fails as the row says.
fn source_of(row: &Row) -> Source<Pieces<'static>> {
    Source::new(Pieces {
        rest: row.2,
        error: row.3,
        ..reader_of(b"abc", row.1)
    })
}

/// Whether the source has failed or not, and has counted so many calls of its reader.
fn has_counted(source: &Source<Pieces<'_>>, fails: bool, calls: usize) -> bool {
    let made = source.get_ref().calls;
    source.failed() == fails && made == calls && source.reads() == made as u64
}

/// Reads into a slice. Tells whether the read answers so, and gives the next bytes.
fn reads(source: &mut Source<Pieces<'_>>, wanted: Result<usize, Failed>) -> bool
    requires source_is_fine { source.old.failed ≡ false }
{
    let mut buf = [0; 2];
    let before = source.get_ref().left;
    match source.read(&mut buf) {
        Ok(given) => wanted == Ok(given) && before.starts_with(&buf[..given]),
        Err(_) => wanted.is_err(),
    }
}

/// Makes room in the buffer and reads into it. Tells whether the read answers so, and puts the next bytes
/// at the buffer's end.
fn reads_into<A: Allocator + Copy>(
    source: &mut Source<Pieces<'_>>,
    buffer: &mut BytesMut<A>,
    wanted: Result<usize, Failed>,
) -> bool
    requires source_is_fine { source.old.failed ≡ false }
{
    let before = source.get_ref().left;
    let answers = match buffer.reserve(1) {
        Ok(()) => source.read_into(buffer) == wanted,
        Err(_) => false,
    };
    let next = before.get(..wanted.unwrap_or(0)).unwrap_or(b"");
    answers && buffer.as_slice().ends_with(next)
}

/// What the read of that number, from 0 on, answers.
fn answer_of(row: &Row, call: usize, count: usize) -> Result<usize, Failed> {
    if call == row.5 {
        Err(Failed)
    } else {
        Ok(count)
    }
}

/// Whether the reads into a slice go as the row says.
fn is_read(source: &mut Source<Pieces<'_>>, row: &Row) -> bool {
    let mut is_right = true;
    for (call, count) in row.4.iter().enumerate() {
        if !source.failed() {
            let answers = reads(source, answer_of(row, call, *count));
            let counts = has_counted(source, call == row.5, call.saturating_add(1));
            is_right = is_right && answers && counts;
        }
    }
    is_right
}

/// Whether the reads into the buffer, behind what stands there, go as the row says.
fn is_read_into<A: Allocator + Copy>(
    source: &mut Source<Pieces<'_>>,
    buffer: &mut BytesMut<A>,
    row: &Row,
) -> bool {
    let mut is_right = true;
    for (call, count) in row.4.iter().enumerate() {
        if !source.failed() {
            let answers = reads_into(source, buffer, answer_of(row, call, *count));
            let counts = has_counted(source, call == row.5, call.saturating_add(1));
            is_right = is_right && answers && counts;
        }
    }
    is_right
}

/// Whether all reads go as the row says, those into a buffer behind four bytes.
fn is_row<A: Allocator + Copy>(alloc: A, row: &Row) -> bool {
    match BytesMut::copy_from_slice(alloc, b"old ") {
        Ok(mut buffer) => {
            let is_right = is_read(&mut source_of(row), row)
                && is_read_into(&mut source_of(row), &mut buffer, row);
            is_right && buffer.as_slice().starts_with(b"old ")
        }
        Err(_) => false,
    }
}

#[test]
fn reads_of_a_slice_and_into_a_buffer(rt: HostRuntime) {
    for row in &ROWS {
        assert!(rt; is_row(rt.alloc(), row), "{}", row.0);
    }
}
