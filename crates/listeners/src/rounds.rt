//! The rounds of a broker that listens: wait, accept, visit.

use crate::accepting::{Accepted, Acceptor, LISTENER};
use crate::connections::{Connections, sooner};
use crate::ending::Ended;
use crate::reports::{Reports, is_over, millis_between};
use crate::serving_sessions::{ServedSessions, Unkept};
use crate::upkeep::Outcome;
use kept_starts::{Missed, Name, Taken};
use mio::net::TcpStream;
use mio::{Events, Poll};
use std::alloc::Global;
use std::io::{Error, Result, Write};
use std::net::SocketAddr;
use std::time::{Clock, Duration, Instant, SystemTime, UNIX_EPOCH};

/// The most clients that are accepted in a round.
const MOST_ACCEPTED: u32 = 64;

/// For how long, in seconds, no two looks for idle connections are made.
const BETWEEN_LOOKS: u64 = 1;

/// What bounds the connections of a broker.
#[derive(Clone, Copy)]
pub(crate) struct Bounds {
    /// The most connections of one address, where there is such a bound.
    pub(crate) most_per_address: Option<u32>,
    /// The most bytes of memory that are kept for what all hold and are owed.
    pub(crate) most_held: u64,
    /// After how many seconds without movement a connection ends.
    pub(crate) idle: u64,
}

impl Bounds {
    /// Whether an address that has so many connections may have one more.
    fn allow(&self, count: u32) -> bool {
        match self.most_per_address {
            Some(most) => count < most,
            None => true,
        }
    }
}

/// A broker that listens, between two rounds.
#[derive(Drop)]
pub(crate) struct Rounds<B: ServedSessions> {
    alloc: Global,
    poll: Poll,
    events: Events,
    acceptor: Acceptor,
    connections: Connections<B>,
    reports: Reports,
    bounds: Bounds,
    /// When the first round began: from then on the clock of those that wait counts.
    began: Instant,
    /// The time of the round.
    now: Instant,
    /// When to look for idle connections; never while there is none.
    look_at: Option<Instant>,
}

/// Why a broker makes no further round.
#[derive(Drop)]
pub(crate) enum Stop {
    /// The system gives no more events or connections.
    Listening(Error),
    /// What was done can't be kept.
    Keeping(Unkept),
}

impl From<Error> for Stop {
    fn from(error: Error) -> Stop {
        Stop::Listening(error)
    }
}

/// What the clock says; where it can't be read, the time before.
fn time<R: Clock>(rt: &R, before: Instant) -> Instant {
    match Instant::now(rt) {
        Ok(now) => now,
        Err(_) => before,
    }
}

/// What a wall clock says, in milliseconds since 1970, where it can be read.
pub(crate) fn wall_millis<R: Clock>(rt: &R) -> Option<u64> {
    let now = SystemTime::now(rt).ok()?;
    u64::try_from(now.duration_since(UNIX_EPOCH).ok()?.as_millis()).ok()
}

impl<B: ServedSessions> Rounds<B> {
    /// A broker before its first round.
    pub(crate) fn new(
        alloc: Global,
        poll: Poll,
        events: Events,
        acceptor: Acceptor,
        connections: Connections<B>,
        reports: Reports,
        bounds: Bounds,
        now: Instant,
    ) -> Rounds<B> {
        Rounds {
            alloc,
            poll,
            events,
            acceptor,
            connections,
            reports,
            bounds,
            began: now,
            now,
            look_at: None,
        }
    }

    /// Makes rounds without end.
    ///
    /// # Errors
    ///
    /// The system gives no more events or connections, or what was done can't be kept.
    pub(crate) fn run<R: Clock, E: Write>(
        &mut self,
        rt: &R,
        err: &mut E,
    ) -> std::result::Result<(), Stop> {
        for _ in 0..u64::MAX {
            self.wait(rt)?;
            self.accept(err)?;
            self.wake();
            self.visit_ready(rt, err)?;
            self.release(rt, err)?;
            self.tend(rt, err)?;
            self.wake();
            self.look_for_idle(err);
            self.connections.close_parted(self.now);
            self.reports.catch_up(self.now, err);
            self.keep_up(rt, err);
        }
        Ok(())
    }

    /// How long the next wait may take; without an end where nothing is to be done before an event.
    fn patience(&self) -> Option<Duration> {
        let is_tending = self.connections.is_tending(self.clock());
        if is_tending || self.connections.ready_count() > 0 {
            return Some(Duration::ZERO);
        }
        let accept_at = self.acceptor.due(self.connections.count(), self.now);
        let first = sooner(accept_at, sooner(self.look_at, self.reports.due()));
        let first = sooner(first, self.connections.sync_at());
        let first = sooner(first, self.tend_at());
        let first = sooner(first, self.upkeep_at());
        let first = sooner(first, self.connections.part_at());
        let first = sooner(first, self.next_due())?;
        Some(first.duration_since(self.now))
    }

    /// What the clock says of those that wait, and of a snapshot: the milliseconds since the first round.
    fn clock(&self) -> u64 {
        millis_between(self.began, self.now)
    }

    /// When the clock says so much.
    fn time_at(&self, clock: u64) -> Option<Instant> {
        self.began.checked_add(Duration::from_millis(clock))
    }

    /// When the first frame that waits will be due.
    fn next_due(&self) -> Option<Instant> {
        let due = u64::try_from(self.connections.next_due()?).ok()?;
        self.time_at(due)
    }

    /// When the next step of a snapshot is to be made.
    fn tend_at(&self) -> Option<Instant> {
        self.time_at(self.connections.tend_at()?)
    }

    /// When the broker has something to do for its partitions.
    fn upkeep_at(&self) -> Option<Instant> {
        self.time_at(self.connections.upkeep_at()?)
    }

    /// Waits for events, and notes whom they concern.
    fn wait<R: Clock>(&mut self, rt: &R) -> Result<()> {
        self.now = time(rt, self.now);
        let patience = self.patience();
        self.poll.poll(&mut self.events, patience)?;
        self.now = time(rt, self.now);
        for event in &self.events {
            if event.token() == LISTENER {
                self.acceptor.note();
            } else {
                self.connections.note(event);
            }
        }
        Ok(())
    }

    /// Accepts clients while some are there, but not too many of them.
    ///
    /// # Errors
    ///
    /// The socket is none to accept from.
    fn accept<E: Write>(&mut self, err: &mut E) -> Result<()> {
        for _ in 0..MOST_ACCEPTED {
            let due = self.acceptor.due(self.connections.count(), self.now);
            if due.is_none() || !is_over(due, self.now) {
                break;
            }
            match self.acceptor.accept()? {
                Accepted::Client(stream, address) => self.let_in(stream, address, err),
                Accepted::Failed(why) => self.pause(&why, err),
                Accepted::Nobody => {}
            }
        }
        Ok(())
    }

    /// Opens a connection to a client that was accepted, unless its address has as many as it may have: then it is closed.
    fn let_in<E: Write>(&mut self, stream: TcpStream, address: SocketAddr, err: &mut E) {
        if self.bounds.allow(self.connections.count_of(address)) {
            self.open(stream, address, err);
        } else {
            let ended = self.connections.turn_away(address);
            self.note_end(ended, err);
        }
    }

    /// Opens a connection to a client that was accepted; where it can't, no other is accepted for a while.
    fn open<E: Write>(&mut self, stream: TcpStream, address: SocketAddr, err: &mut E) {
        let registry = self.poll.registry();
        if let Err(why) = self.connections.open(registry, stream, address, self.now) {
            self.pause(&why, err);
        }
        if self.look_at.is_none() {
            self.look_at = self.now.checked_add(Duration::from_secs(self.bounds.idle));
        }
        self.note_count(err);
    }

    /// Says that as many connections are open as there may be, if so.
    fn note_count<E: Write>(&mut self, err: &mut E) {
        let count = self.connections.count();
        if self.acceptor.is_full(count) {
            self.reports.most_connected(self.now, count, err);
        }
    }

    /// Accepts nothing for a while, and says why.
    fn pause<E: Write>(&mut self, why: &Error, err: &mut E) {
        self.acceptor.pause(self.now);
        self.reports
            .accept_failed(self.now, self.acceptor.address(), why, err);
    }

    /// Has those connections visited whose frame waited and may be due.
    fn wake(&mut self) {
        let clock = self.clock();
        self.connections.wake(clock);
    }

    /// Visits each connection that is ready once, unless much is to be kept before.
    ///
    /// # Errors
    ///
    /// What was done can no longer be kept. Nothing more is sent.
    fn visit_ready<R: Clock, E: Write>(
        &mut self,
        rt: &R,
        err: &mut E,
    ) -> std::result::Result<(), Stop> {
        let clock = self.clock();
        for _ in 0..self.connections.ready_count() {
            if self.connections.is_full() {
                break;
            }
            let ended = self.connections.visit_next(self.now, clock);
            self.look_at_clock(rt, err)?;
            self.note_end(ended, err);
            self.keep_bounds(err);
        }
        Ok(())
    }

    /// Behind a visit, by the clock as it is now, since the round may have been long: has the connection count as moved on which
    /// something just did, and syncs what was put in rounds before, where it is time to.
    ///
    /// # Errors
    ///
    /// It can't be synced.
    fn look_at_clock<R: Clock, E: Write>(
        &mut self,
        rt: &R,
        err: &mut E,
    ) -> std::result::Result<(), Stop> {
        let sync_at = self.connections.sync_at();
        if sync_at.is_none() && !self.connections.is_moving() {
            return Ok(());
        }
        let now = time(rt, self.now);
        self.connections.note_moved(now);
        if sync_at.is_some() && is_over(sync_at, now) {
            return self.sync(rt, now, err);
        }
        Ok(())
    }

    /// Syncs what was put, and says so where that took long.
    ///
    /// # Errors
    ///
    /// It can't be synced.
    fn sync<R: Clock, E: Write>(
        &mut self,
        rt: &R,
        began: Instant,
        err: &mut E,
    ) -> std::result::Result<(), Stop> {
        if let Err(why) = self.connections.sync() {
            return Err(Stop::Keeping(why));
        }
        if let Some(name) = self.connections.journal() {
            self.reports.synced(name, began, time(rt, began), err);
        }
        Ok(())
    }

    /// Keeps what was done in this round, and then sends what is owed for it.
    ///
    /// # Errors
    ///
    /// It can't be kept. Nothing more is sent.
    fn release<R: Clock, E: Write>(
        &mut self,
        rt: &R,
        err: &mut E,
    ) -> std::result::Result<(), Stop> {
        let clock = self.clock();
        match self.connections.put(clock) {
            Ok(missed) => self.note_missed(missed, err),
            Err(why) => return Err(Stop::Keeping(why)),
        }
        if self.connections.is_to_sync() {
            self.sync_if_due(rt, err)?;
        }
        for _ in 0..self.connections.outgoing_count() {
            let ended = self.connections.send_next();
            self.look_at_clock(rt, err)?;
            self.note_end(ended, err);
        }
        Ok(())
    }

    /// Syncs what was put, where that is due by the clock as it is now.
    ///
    /// # Errors
    ///
    /// It can't be synced.
    fn sync_if_due<R: Clock, E: Write>(
        &mut self,
        rt: &R,
        err: &mut E,
    ) -> std::result::Result<(), Stop> {
        let now = time(rt, self.now);
        if self.connections.is_sync_due(now) {
            return self.sync(rt, now, err);
        }
        Ok(())
    }

    /// Makes the next step of a snapshot, and says if one was taken, or none. What was put is synced before, where it is to be: a step
    /// may be long.
    ///
    /// # Errors
    ///
    /// What was done can no longer be kept.
    fn tend<R: Clock, E: Write>(&mut self, rt: &R, err: &mut E) -> std::result::Result<(), Stop> {
        let mut began = self.now;
        if self.is_step_due() {
            began = time(rt, self.now);
            if self.connections.is_to_sync() {
                self.sync(rt, began, err)?;
                began = time(rt, began);
            }
        }
        let clock = millis_between(self.began, began);
        let journal = self.connections.journal();
        let done = match self.connections.tend(clock) {
            Ok(done) => done,
            Err(why) => return Err(Stop::Keeping(why)),
        };
        self.note_switched(rt, journal, began, err);
        self.note_missed(done.missed, err);
        if let Some(taken) = done.taken {
            self.note_taken(&taken, millis_between(began, time(rt, began)), err);
        }
        Ok(())
    }

    /// Whether a step of a snapshot is to be made now.
    fn is_step_due(&self) -> bool {
        let clock = self.clock();
        if self.connections.is_tending(clock) {
            return true;
        }
        match self.connections.tend_at() {
            Some(at) => at <= clock,
            None => false,
        }
    }

    /// Says that a step took long behind which groups go to another journal, if it did: it has synced the one before.
    fn note_switched<R: Clock, E: Write>(
        &mut self,
        rt: &R,
        before: Option<Name>,
        began: Instant,
        err: &mut E,
    ) {
        let Some(name) = before else {
            return;
        };
        if self.connections.journal() != Some(name) {
            self.reports.synced(name, began, time(rt, began), err);
        }
    }

    /// Does what is to be done for the broker's partitions, and says what came of it. It comes last in a round: the replies of the
    /// round have left, no step of a snapshot is to be made, and a frame that is noted goes into the journal with the next round.
    fn keep_up<R: Clock, E: Write>(&mut self, rt: &R, err: &mut E) {
        let Some(at) = self.connections.upkeep_at() else {
            return;
        };
        let now = time(rt, self.now);
        let clock = millis_between(self.began, now);
        if at > clock {
            return;
        }
        match self.connections.keep_up(clock) {
            Some(Outcome::Cleaned(cleaned)) => {
                let topic = self.connections.topic_at(cleaned.place).unwrap_or(&[]);
                self.reports.cleaned(now, topic, cleaned, err);
            }
            Some(Outcome::GivenUp(place, why)) => {
                let topic = self.connections.topic_at(place).unwrap_or(&[]);
                self.reports.given_up(now, topic, place, why, err);
            }
            None => {}
        }
        self.write_marks(rt, clock, err);
    }

    /// Writes what is known of passes, where that is due, and says why it couldn't, if so.
    fn write_marks<R: Clock, E: Write>(&mut self, rt: &R, clock: u64, err: &mut E) {
        if !self.connections.is_to_write_marks(clock) {
            return;
        }
        let wall = wall_millis(rt);
        if let Err(why) = self.connections.write_marks(self.alloc, clock, wall) {
            self.reports.marks_unwritten(&why, err);
        }
    }

    /// Says why no snapshot was taken, if none was.
    fn note_missed<E: Write>(&mut self, missed: Option<Missed>, err: &mut E) {
        if let Some(missed) = missed {
            self.reports.snapshot_missed(&missed, err);
        }
    }

    /// Says that a snapshot was taken, whose last step took so many milliseconds.
    fn note_taken<E: Write>(&mut self, taken: &Taken, last_step: u64, err: &mut E) {
        let millis = taken.millis.saturating_add(last_step);
        self.reports.snapshot_taken(taken, millis, err);
    }

    /// Ends connections while too much is kept for all: of the address for whose connections most is, the largest first.
    fn keep_bounds<E: Write>(&mut self, err: &mut E) {
        for _ in 0..self.connections.count() {
            if self.connections.kept() <= self.bounds.most_held {
                break;
            }
            let ended = self.connections.end_largest();
            self.note_end(ended, err);
        }
    }

    /// Ends connections that were idle for too long, where it is time to look for them.
    fn look_for_idle<E: Write>(&mut self, err: &mut E) {
        if self.look_at.is_none() || !is_over(self.look_at, self.now) {
            return;
        }
        for index in (0..self.connections.count()).rev() {
            let ended = self
                .connections
                .end_if_idle(index, self.now, self.bounds.idle);
            self.note_end(ended, err);
        }
        self.look_at = self.next_look();
    }

    /// When to look for idle connections after a look now.
    fn next_look(&self) -> Option<Instant> {
        let first = self.connections.first_idle(self.bounds.idle)?;
        let earliest = self.now.checked_add(Duration::from_secs(BETWEEN_LOOKS))?;
        Some(if first < earliest { earliest } else { first })
    }

    /// Says that a connection ended, if one did.
    fn note_end<E: Write>(&mut self, ended: Option<Ended>, err: &mut E) {
        if let Some(ended) = ended {
            self.acceptor.note_end();
            self.reports.connection_ended(self.now, &ended, err);
        }
    }
}
