//! The bytes that come over a connection.

use mio::net::TcpStream;
use std::io::{Read, Result};

/// The reader of a stream that remembers whether the last read took all that was there. Then no further
/// read is worth its while before an event says that more came. Where something urgent came, a read may end
/// before it, and then this isn't known.
#[derive(Drop)]
pub(crate) struct Incoming<'a> {
    stream: &'a TcpStream,
    is_drained: bool,
}

impl<'a> Incoming<'a> {
    /// The bytes of a stream, before a read.
    pub(crate) fn new(stream: &'a TcpStream) -> Incoming<'a> {
        Incoming {
            stream,
            is_drained: false,
        }
    }

    /// Whether the last read gave bytes, and fewer than it had room for.
    pub(crate) fn is_drained(&self) -> bool {
        self.is_drained
    }
}

impl Read for Incoming<'_> {
    fn read(&mut self, buf: &mut [u8]) -> Result<usize> {
        self.is_drained = false;
        let mut stream = self.stream;
        let count = stream.read(buf)?;
        self.is_drained = 0 < count && count < buf.len();
        Ok(count)
    }
}
