//! Lines on standard error about connections and files: never many in a second, and never waited for.

use crate::connections::sooner;
use crate::ending::Ended;
use crate::units::{Millis, Now, Size};
use crate::upkeep::{Cleaned, WhyGivenUp};
use kept_starts::{Missed, Name, Place, Taken};
use std::alloc::{AllocError, Global};
use std::fmt;
use std::fmt::Display;
use std::io::{Error, ErrorKind, Write};
use std::net::SocketAddr;
use std::string::String;
use std::time::{Duration, Instant};

/// The most lines about ended connections in a second.
const MOST_LINES: u32 = 100;

/// For how long, in seconds, no two lines say that as many connections are open as there may be.
const BETWEEN_FULL: u64 = 10;

/// For how long, in seconds, no two lines say that a sync took long.
const BETWEEN_SLOW: u64 = 10;

/// For how long, in seconds, no two lines say that a partition was cleaned.
const BETWEEN_CLEANED: u64 = 60;

/// For how long, in seconds, no two lines say that a cleaning was given up.
const BETWEEN_GIVEN_UP: u64 = 10;

/// A sync that takes more milliseconds took long.
const LONG_SYNC: u64 = 1_000;

/// Why a call failed: its kind in words; or what the system says where it has no kind, and what the program says where it is one of
/// its own.
#[derive(Clone, Copy)]
pub(crate) struct Reason<'a>(pub(crate) &'a Error);

impl fmt::Display for Reason<'_> {
    fn fmt<W: fmt::Write>(&self, f: &mut fmt::Formatter<W>) -> fmt::Result {
        match self.0.kind() {
            ErrorKind::Uncategorized | ErrorKind::Other => Display::fmt(self.0, f),
            kind => Display::fmt(&kind, f),
        }
    }
}

/// Writes a line in one piece, where there is memory for it, and whether or not it can be written.
pub(crate) fn say<W: Write>(line: Result<String, AllocError>, out: &mut W) {
    if let Ok(line) = line {
        let _ = out.write_all(line.as_bytes());
        let _ = out.flush();
    }
}

/// Whether a time is over. One that there is none of is.
pub(crate) fn is_over(time: Option<Instant>, now: Instant) -> bool {
    match time {
        Some(time) => now >= time,
        None => true,
    }
}

/// How many milliseconds passed between two times.
pub(crate) fn millis_between(from: Instant, to: Instant) -> u64 {
    u64::try_from(to.duration_since(from).as_millis()).unwrap_or(u64::MAX)
}

/// Writes a line in one piece. Tells whether it, or another line in its place, is worth a later try: where
/// it wasn't written because it would have had to wait, or for lack of memory.
fn is_unsaid<E: Write>(line: Option<String>, err: &mut E) -> bool {
    let Some(line) = line else {
        return true;
    };
    match err.write_all(line.as_bytes()) {
        Ok(()) => false,
        Err(why) => matches!(why.kind(), ErrorKind::WouldBlock),
    }
}

/// What was said lately, and what is still to be said.
#[derive(Drop)]
pub(crate) struct Reports {
    alloc: Global,
    /// The end of the second in which lines are counted.
    second_ends: Option<Instant>,
    /// How many lines there were in it.
    lines: u32,
    /// How many ends were not said.
    unsaid: u64,
    /// Until when no failed accept is said.
    accepts_silent_until: Option<Instant>,
    /// Until when it isn't said that as many connections are open as there may be.
    full_silent_until: Option<Instant>,
    /// Until when it isn't said that a sync took long.
    syncs_silent_until: Option<Instant>,
    /// Until when it isn't said that a partition was cleaned.
    cleaned_silent_until: Option<Instant>,
    /// Until when it isn't said that a cleaning was given up.
    given_up_silent_until: Option<Instant>,
    /// What isn't said yet of the partition that was cleaned last.
    unsaid_cleaned: Option<String>,
    /// How many partitions were cleaned since that was said last.
    cleaned_count: u64,
    /// What the clock said when the partition was cleaned of which that was said.
    cleaned_until: u64,
    /// What the clock said when a partition was cleaned last.
    last_cleaned: u64,
}

/// The name of a partition's topic, as text.
fn topic_text(topic: &[u8]) -> &str {
    std::str::from_utf8(topic).unwrap_or("?")
}

impl Reports {
    /// Nothing was said yet.
    pub(crate) fn new(alloc: Global) -> Reports {
        Reports {
            alloc,
            second_ends: None,
            lines: 0,
            unsaid: 0,
            accepts_silent_until: None,
            full_silent_until: None,
            syncs_silent_until: None,
            cleaned_silent_until: None,
            given_up_silent_until: None,
            unsaid_cleaned: None,
            cleaned_count: 0,
            cleaned_until: 0,
            last_cleaned: 0,
        }
    }

    /// When something is to be said, if nothing happens until then.
    pub(crate) fn due(&self) -> Option<Instant> {
        let ends = if self.unsaid == 0 {
            None
        } else {
            self.second_ends
        };
        let cleaned = if self.unsaid_cleaned.is_some() {
            self.cleaned_silent_until
        } else {
            None
        };
        sooner(ends, cleaned)
    }

    /// Says that a connection ended, or counts it.
    pub(crate) fn connection_ended<E: Write>(&mut self, now: Instant, ended: &Ended, err: &mut E) {
        self.catch_up(now, err);
        if self.lines >= MOST_LINES || is_unsaid(format!(in self.alloc; "{ended}\n").ok(), err) {
            self.unsaid = self.unsaid.saturating_add(1);
        }
        self.lines = self.lines.saturating_add(1);
    }

    /// Begins a new second where the one before is over, and says how many ends were not said. Says what wasn't said of partitions
    /// that were cleaned, where that may be said again.
    pub(crate) fn catch_up<E: Write>(&mut self, now: Instant, err: &mut E) {
        self.say_cleaned(now, err);
        if !is_over(self.second_ends, now) {
            return;
        }
        self.second_ends = now.checked_add(Duration::from_secs(1));
        self.lines = 0;
        let unsaid = self.unsaid;
        if unsaid > 0
            && !is_unsaid(
                format!(in self.alloc; "{unsaid} more connections ended\n").ok(),
                err,
            )
        {
            self.unsaid = 0;
        }
    }

    /// Says why nothing can be accepted at an address, at most once in a second.
    pub(crate) fn accept_failed<E: Write>(
        &mut self,
        now: Instant,
        address: SocketAddr,
        why: &Error,
        err: &mut E,
    ) {
        if !is_over(self.accepts_silent_until, now) {
            return;
        }
        self.accepts_silent_until = now.checked_add(Duration::from_secs(1));
        let why = Reason(why);
        is_unsaid(
            format!(in self.alloc; "accept {address}: {why}\n").ok(),
            err,
        );
    }

    /// Says that as many connections are open as there may be, at most once in ten seconds.
    pub(crate) fn most_connected<E: Write>(&mut self, now: Instant, count: usize, err: &mut E) {
        if !is_over(self.full_silent_until, now) {
            return;
        }
        self.full_silent_until = now.checked_add(Duration::from_secs(BETWEEN_FULL));
        is_unsaid(
            format!(in self.alloc; "connections: {count}, the most; others wait\n").ok(),
            err,
        );
    }

    /// Says why no snapshot was taken, or a file of no use not removed.
    pub(crate) fn snapshot_missed<E: Write>(&mut self, missed: &Missed, err: &mut E) {
        let line = match missed {
            Missed::OutOfMemory => String::from_str(self.alloc, "snapshot: out of memory\n"),
            Missed::Failed(name, why) => {
                let why = Reason(why);
                format!(in self.alloc; "snapshot: {name}: {why}\n")
            }
            Missed::Unlike => String::from_str(self.alloc, "snapshot: given up\n"),
        };
        is_unsaid(line.ok(), err);
    }

    /// Says that a snapshot was taken, and in how many milliseconds.
    pub(crate) fn snapshot_taken<E: Write>(&mut self, taken: &Taken, millis: u64, err: &mut E) {
        let number = taken.number;
        let size = Size(taken.size);
        let took = Millis(millis);
        is_unsaid(
            format!(in self.alloc; "snapshot {number}: {size} in {took}\n").ok(),
            err,
        );
    }

    /// Says that a sync of a file took long, if it did, at most once in ten seconds.
    pub(crate) fn synced<E: Write>(
        &mut self,
        name: Name,
        began: Instant,
        ended: Instant,
        err: &mut E,
    ) {
        let millis = millis_between(began, ended);
        if millis <= LONG_SYNC || !is_over(self.syncs_silent_until, ended) {
            return;
        }
        self.syncs_silent_until = ended.checked_add(Duration::from_secs(BETWEEN_SLOW));
        let took = Millis(millis);
        is_unsaid(
            format!(in self.alloc; "{name}: a sync took {took}\n").ok(),
            err,
        );
    }

    /// Says that a partition was cleaned, where something was removed; at most once in a minute, and then with how many others were,
    /// that weren't said.
    pub(crate) fn cleaned<E: Write>(
        &mut self,
        now: Instant,
        topic: &[u8],
        cleaned: Cleaned,
        err: &mut E,
    ) {
        if !cleaned.has_removed() {
            return;
        }
        let topic = topic_text(topic);
        let partition = cleaned.place.partition;
        let size = Now {
            before: cleaned.before,
            after: cleaned.after,
        };
        let (records, tombstones) = (cleaned.answer.records, cleaned.answer.tombstones);
        let batches = cleaned.answer.batches;
        let took = Millis(cleaned.millis);
        let line = format!(in self.alloc;
            "cleaned {topic} {partition}: {size}; {records} records, {tombstones} tombstones, {batches} batches; {took}"
        );
        let is_counted = matches!(cleaned.before_at, Some(at) if at > self.cleaned_until);
        if !is_counted {
            self.cleaned_count = self.cleaned_count.saturating_add(1);
        }
        self.last_cleaned = cleaned.at;
        self.unsaid_cleaned = line.ok();
        self.say_cleaned(now, err);
    }

    /// Says what is to be said of the partition that was cleaned last, where it may be said.
    fn say_cleaned<E: Write>(&mut self, now: Instant, err: &mut E) {
        if self.unsaid_cleaned.is_none() || !is_over(self.cleaned_silent_until, now) {
            return;
        }
        let Some(said) = self.unsaid_cleaned.take() else {
            return;
        };
        self.cleaned_silent_until = now.checked_add(Duration::from_secs(BETWEEN_CLEANED));
        let line = match self.cleaned_count.saturating_sub(1) {
            0 => format!(in self.alloc; "{said}\n"),
            1 => format!(in self.alloc; "{said}, and 1 more partition\n"),
            more => format!(in self.alloc; "{said}, and {more} more partitions\n"),
        };
        self.cleaned_count = 0;
        self.cleaned_until = self.last_cleaned;
        is_unsaid(line.ok(), err);
    }

    /// Says that a cleaning was given up, and why, at most once in ten seconds.
    pub(crate) fn given_up<E: Write>(
        &mut self,
        now: Instant,
        topic: &[u8],
        place: Place,
        why: WhyGivenUp,
        err: &mut E,
    ) {
        if !is_over(self.given_up_silent_until, now) {
            return;
        }
        self.given_up_silent_until = now.checked_add(Duration::from_secs(BETWEEN_GIVEN_UP));
        let topic = topic_text(topic);
        let partition = place.partition;
        let line = match why {
            WhyGivenUp::OutOfMemory => {
                format!(in self.alloc; "clean {topic} {partition}: given up: out of memory\n")
            }
            WhyGivenUp::Code(code) => {
                format!(in self.alloc; "clean {topic} {partition}: given up: error code {code}\n")
            }
        };
        is_unsaid(line.ok(), err);
    }

    /// Says why what is known of passes isn't written.
    pub(crate) fn marks_unwritten<E: Write>(&mut self, why: &Error, err: &mut E) {
        let why = Reason(why);
        is_unsaid(format!(in self.alloc; "cleanings: {why}\n").ok(), err);
    }
}
