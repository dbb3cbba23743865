//! The end of a connection of which input may be left unread.
//!
//! Where a socket is closed before all that came was read, the system resets the connection, and what was sent and hasn't
//! arrived is lost. So nothing more is sent first, and what comes is read and dropped, until the client closes its side too.

use std::io::{ErrorKind, Read};
use std::time::{Duration, Instant};

/// The most bytes that are read and dropped.
const MOST_DROPPED: usize = 1_048_576;

/// For how long, in milliseconds, input is read and dropped.
const PATIENCE: u64 = 2_000;

/// The most bytes that one read takes.
const PIECE: usize = 16_384;

/// The most reads in a row.
const MOST_READS: u32 = 64;

/// What came of reading.
pub(crate) enum Dropped {
    /// Some bytes came, and more may be there.
    Some,
    /// Nothing is there for now.
    Nothing,
    /// The input has ended or failed, or too much of it came.
    Over,
}

/// A connection whose session is over, until it is closed.
#[derive(Clone, Copy)]
pub(crate) struct Parting {
    /// When it is closed at the latest, once something was read.
    until: Option<Instant>,
    /// How many bytes may still be dropped.
    left: usize,
}

impl Parting {
    /// One of which nothing was dropped yet.
    pub(crate) fn new() -> Parting {
        Parting {
            until: None,
            left: MOST_DROPPED,
        }
    }

    /// When it is closed at the latest, once something was read.
    pub(crate) fn until(&self) -> Option<Instant> {
        self.until
    }

    /// Whether it is to be closed, whatever comes.
    pub(crate) fn is_over(&self, now: Instant) -> bool {
        match self.until {
            Some(until) => now >= until,
            None => false,
        }
    }

    /// Drops what is there to be read. Its time counts from the first call on.
    pub(crate) fn drop_input<R: Read>(&mut self, now: Instant, from: &mut R) -> Dropped {
        if self.until.is_none() {
            let until = now.checked_add(Duration::from_millis(PATIENCE));
            self.until = Some(until.unwrap_or(now));
        }
        for _ in 0..MOST_READS {
            match self.drop_piece(from) {
                Dropped::Some => {}
                dropped => return dropped,
            }
        }
        Dropped::Some
    }

    /// Makes one read, and drops what came.
    fn drop_piece<R: Read>(&mut self, from: &mut R) -> Dropped {
        let mut piece = [0; PIECE];
        match from.read(&mut piece) {
            Ok(count) => self.count(count),
            Err(why) => match why.kind() {
                ErrorKind::Interrupted => Dropped::Some,
                ErrorKind::WouldBlock => Dropped::Nothing,
                _ => Dropped::Over,
            },
        }
    }

    /// Counts the bytes that a read gave: none where the input has ended.
    fn count(&mut self, count: usize) -> Dropped {
        self.left = self.left.saturating_sub(count);
        if count == 0 || self.left == 0 {
            Dropped::Over
        } else {
            Dropped::Some
        }
    }
}
