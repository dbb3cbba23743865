//! How far a directory is read, in lines that come while it takes long.

use crate::reports::{is_over, say};
use crate::units::Share;
use kept_starts::{Name, Watching};
use std::alloc::Global;
use std::io::Write;
use std::time::{Clock, Duration, Instant};

/// After how many seconds the first line comes, and then each further one.
const BETWEEN_LINES: u64 = 5;

/// Says every five seconds how far a directory is read.
#[derive(Drop)]
pub(crate) struct Progress<'a, R: Clock, E: Write> {
    rt: &'a R,
    alloc: Global,
    /// What is done with its files, in a word.
    word: &'static str,
    err: &'a mut E,
    /// When the next line comes; none does where the clock can't be read.
    next: Option<Instant>,
}

impl<'a, R: Clock, E: Write> Progress<'a, R, E> {
    /// Nothing was read yet.
    pub(crate) fn new(
        rt: &'a R,
        alloc: Global,
        word: &'static str,
        err: &'a mut E,
    ) -> Progress<'a, R, E> {
        let mut progress = Progress {
            rt,
            alloc,
            word,
            err,
            next: None,
        };
        if let Ok(now) = Instant::now(rt) {
            progress.rest(now);
        }
        progress
    }

    /// Says nothing for a while.
    fn rest(&mut self, now: Instant) {
        self.next = now.checked_add(Duration::from_secs(BETWEEN_LINES));
    }

    /// The time, where a line is to come.
    fn now_if_due(&self) -> Option<Instant> {
        self.next?;
        let now = Instant::now(self.rt).ok()?;
        if is_over(self.next, now) {
            Some(now)
        } else {
            None
        }
    }
}

impl<R: Clock, E: Write> Watching for Progress<'_, R, E> {
    fn reached(&mut self, name: Name, at: u64, size: u64, frames: u64) {
        let Some(now) = self.now_if_due() else {
            return;
        };
        self.rest(now);
        let word = self.word;
        let share = Share { bytes: at, size };
        say(
            format!(in self.alloc; "{word} {name}: {share}, {frames} frames\n"),
            self.err,
        );
    }
}
