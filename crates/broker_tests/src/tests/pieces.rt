//! The reader and the writer of the tests: they give and take little, fail once, and count their calls.

use std::io::{Error, ErrorKind, Read, Result, Write};

/// No number of bytes.
pub(crate) const NONE: usize = usize::MAX;

/// Gives at most `piece` bytes a read. It fails once, where `rest` bytes are left, if `error` says how; a
/// read after that gives bytes again.
#[derive(Drop)]
pub(crate) struct Pieces<'a> {
    pub(crate) left: &'a [u8],
    pub(crate) piece: usize,
    pub(crate) rest: usize,
    pub(crate) error: Option<ErrorKind>,
    pub(crate) calls: usize,
}

impl Read for Pieces<'_> {
    fn read(&mut self, buf: &mut [u8]) -> Result<usize> {
        self.calls = self.calls.saturating_add(1);
        if self.left.len() == self.rest {
            if let Some(kind) = self.error.take() {
                return Err(Error::from(kind));
            }
        }
        let room = buf.len().min(self.piece);
        self.left.read(&mut buf[..room])
    }
}

/// A reader that doesn't fail.
pub(crate) fn reader_of(input: &[u8], piece: usize) -> Pieces<'_> {
    Pieces {
        left: input,
        piece,
        rest: NONE,
        error: None,
        calls: 0,
    }
}

/// Takes the bytes that are `left`, at most `piece` a write. A write fails once, behind `room` bytes: with
/// the error, or by taking no byte where there is none; a write after that takes bytes again. Where there
/// is an error, each flush fails with it.
#[derive(Drop)]
pub(crate) struct Halting<'a> {
    pub(crate) left: &'a [u8],
    pub(crate) piece: usize,
    pub(crate) room: usize,
    pub(crate) error: Option<ErrorKind>,
    /// Whether another byte was given.
    pub(crate) is_wrong: bool,
    pub(crate) calls: usize,
}

/// The ways in which a writer fails.
pub(crate) static WAYS: [(&str, Option<ErrorKind>); 3] = [
    ("takes 0 bytes", None),
    ("broken", Some(ErrorKind::BrokenPipe)),
    ("interrupted", Some(ErrorKind::Interrupted)),
];

impl Write for Halting<'_> {
    fn write(&mut self, buf: &[u8]) -> Result<usize> {
        self.calls = self.calls.saturating_add(1);
        if self.room == 0 {
            self.room = NONE;
            return match self.error {
                Some(kind) => Err(Error::from(kind)),
                None => Ok(0),
            };
        }
        let count = buf.len().min(self.piece).min(self.room);
        self.is_wrong = self.is_wrong || !self.left.starts_with(&buf[..count]);
        self.left = self.left.get(count..).unwrap_or(b"");
        self.room -= count;
        Ok(count)
    }

    fn flush(&mut self) -> Result<()> {
        self.calls = self.calls.saturating_add(1);
        match self.error {
            Some(kind) => Err(Error::from(kind)),
            None => Ok(()),
        }
    }
}

/// A writer that is to take these bytes, and doesn't fail.
pub(crate) fn writer_of(bytes: &[u8], piece: usize) -> Halting<'_> {
    Halting {
        left: bytes,
        piece,
        room: NONE,
        error: None,
        is_wrong: false,
        calls: 0,
    }
}
