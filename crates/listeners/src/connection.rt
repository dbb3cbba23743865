//! Two streams, of requests and of replies, where the replies to requests that came together leave
//! together.

use std::alloc::Global;
use std::cell::Cell;
use std::io::{Error, ErrorKind, Read, Result, Write};
use streams::Sink;

/// How many bytes of replies wait at most.
const MOST_WAITING: usize = 65_536;

/// A piece that is longer is written at once, behind those that wait, and isn't copied.
const LONGEST_WAITING: usize = 32_768;

/// A reader, a writer, and the bytes of replies that wait. They go out before the next read, so that a
/// client never waits for a reply while its broker waits for a request.
///
/// ```
/// let connection = Connection::new(alloc, rt.stdin(), rt.stdout());
/// let mut source = Source::new(Requests(&connection));
/// let mut sink = Sink::new(Replies(&connection));
/// let answered = serve(alloc, &mut node, &mut source, &mut sink);
/// let is_sent = connection.finish();
/// ```
#[derive(Drop)]
pub struct Connection<R: Read + Copy, W: Write + Copy> {
    reader: R,
    writer: W,
    alloc: Global,
    waiting: Cell<Vec<u8>>,
    write_failed: Cell<bool>,
}

impl<R: Read + Copy, W: Write + Copy> Connection<R, W> {
    /// A connection of which nothing waits.
    pub fn new(alloc: Global, reader: R, writer: W) -> Connection<R, W> {
        Connection {
            reader,
            writer,
            alloc,
            waiting: Cell::new(Vec::new(alloc)),
            write_failed: Cell::new(false),
        }
    }

    /// Sends what waits, and tells whether no write has failed, now or before. One that was interrupted
    /// is not made again. What waited is lost where it can't be sent.
    pub fn finish(&self) -> bool {
        let mut waiting = self.waiting.replace(Vec::new(self.alloc));
        let mut sink = Sink::new(self.writer);
        if sink.write_all(&waiting).is_err() {
            self.write_failed.set(true);
        }
        waiting.clear();
        self.waiting.set(waiting);
        !self.write_failed.get()
    }

    /// Lets bytes wait, and tells whether there was room for them.
    fn keep(&self, bytes: &[u8]) -> bool {
        let mut waiting = self.waiting.replace(Vec::new(self.alloc));
        let is_kept = bytes.len() <= LONGEST_WAITING
            && waiting.len() <= MOST_WAITING - bytes.len()
            && waiting.extend_from_slice(bytes).is_ok();
        self.waiting.set(waiting);
        is_kept
    }
}

/// The requests of a connection. They end where a reply can't be written.
#[derive(Drop)]
pub struct Requests<'a, R: Read + Copy, W: Write + Copy>(pub &'a Connection<R, W>);

impl<R: Read + Copy, W: Write + Copy> Read for Requests<'_, R, W> {
    fn read(&mut self, buf: &mut [u8]) -> Result<usize> {
        if !self.0.finish() {
            return Ok(0);
        }
        let mut reader = self.0.reader;
        reader.read(buf)
    }
}

/// The replies of a connection.
#[derive(Drop)]
pub struct Replies<'a, R: Read + Copy, W: Write + Copy>(pub &'a Connection<R, W>);

impl<R: Read + Copy, W: Write + Copy> Write for Replies<'_, R, W> {
    fn write(&mut self, buf: &[u8]) -> Result<usize> {
        if self.0.keep(buf) {
            return Ok(buf.len());
        }
        self.flush()?;
        let mut writer = self.0.writer;
        writer.write(buf)
    }

    fn flush(&mut self) -> Result<()> {
        if self.0.finish() {
            return Ok(());
        }
        Err(Error::from(ErrorKind::Other))
    }
}
