//! The standard output and error of a broker that runs on, whoever reads them.

use libc::net::{POLLNVAL, POLLOUT, poll};
use libc::types::pollfd;
use libc::{STDERR_FILENO, STDOUT_FILENO};
use std::io::{Error, ErrorKind, Result, Write};

/// A standard stream that is written to only where nothing waits for it. A write fails with `WouldBlock`
/// while nobody takes the bytes that wait already, and with `BrokenPipe` where nobody will; neither
/// stops the program.
///
/// A pipe takes a piece of less than 4,096 bytes whole, so a line that is written in one piece is there
/// as a whole or isn't.
#[derive(Drop)]
pub struct PromptStream<W: Write> {
    stream: W,
    descriptor: i32,
    was_open: bool,
}

impl<W: Write> PromptStream<W> {
    /// Standard output, which the stream writes to. Make it before anything else is opened: if it is
    /// closed, the next file takes its number, and is never written to then.
    pub fn stdout(stream: W) -> PromptStream<W> {
        PromptStream::new(stream, STDOUT_FILENO)
    }

    /// Standard error, likewise.
    pub fn stderr(stream: W) -> PromptStream<W> {
        PromptStream::new(stream, STDERR_FILENO)
    }

    fn new(stream: W, descriptor: i32) -> PromptStream<W> {
        PromptStream {
            stream,
            descriptor,
            was_open: readiness(descriptor) & POLLNVAL == 0,
        }
    }
}

/// What the system reports of a descriptor that would be written to: flags of `poll`.
fn readiness(descriptor: i32) -> i16 {
    let mut asked = [pollfd {
        fd: descriptor,
        events: POLLOUT,
        revents: 0,
    }];
    poll(&mut asked, 0);
    asked[0].revents
}

impl<W: Write> Write for PromptStream<W> {
    fn write(&mut self, buf: &[u8]) -> Result<usize> {
        if !self.was_open {
            return Err(Error::from(ErrorKind::BrokenPipe));
        }
        let readiness = readiness(self.descriptor);
        if readiness == 0 {
            return Err(Error::from(ErrorKind::WouldBlock));
        }
        if readiness & POLLOUT == 0 {
            return Err(Error::from(ErrorKind::BrokenPipe));
        }
        self.stream.write(buf)
    }

    fn flush(&mut self) -> Result<()> {
        Ok(())
    }
}
