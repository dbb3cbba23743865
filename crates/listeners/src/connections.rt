//! The connections that are open, and which of them are to be visited.

use crate::addresses::Addresses;
use crate::ending::{Ended, Ending, ending_of};
use crate::incoming::Incoming;
use crate::parting::{Dropped, Parting};
use crate::serving_sessions::{ServedSessions, Unkept};
use crate::upkeep::{Outcome, Upkeep, topic_at};
use indexmap::IndexMap;
use kept_starts::sessions::{Seat, Then, Why};
use kept_starts::{Done, Missed, Name, Place, Sent};
use mio::event::Event;
use mio::net::TcpStream;
use mio::{Interest, Registry, Token};
use std::alloc::Global;
use std::collections::VecDeque;
use std::io::{Error, Result};
use std::net::{IpAddr, Shutdown, SocketAddr};
use std::time::{Duration, Instant};

/// How many bytes a partition counts for which a frame waits: where none waits for it beside, what the sessions keep of it takes as
/// much, as measured.
const AWAITED_BYTES: u64 = 640;

/// A connection that is open.
#[derive(Drop)]
struct Connection {
    /// The number by which lines call it: how many clients were accepted before it.
    shown: u64,
    stream: TcpStream,
    address: SocketAddr,
    /// It is closing where the client has closed its side, or the connection has failed: the end is to be
    /// read then.
    seat: Seat,
    /// Whether it stands among those to be visited.
    is_ready: bool,
    /// Whether it stands among those to which something is sent at the end of the round.
    is_outgoing: bool,
    /// Whether its last visit ended at a frame that is put off.
    is_put_off: bool,
    /// Whether an event said that it has failed.
    is_failed: bool,
    /// Whether an event said that something urgent came: then a read may end at its mark, though more is there.
    is_urgent: bool,
    /// How many bytes of memory are kept for what it holds and is owed, and for a frame that waits.
    kept: u64,
    /// When a frame was answered or a byte left, by the clock behind that, or when it was opened.
    moved: Instant,
    /// Its end, where its session is over and it isn't closed yet.
    parting: Option<Parting>,
}

impl Connection {
    /// One that was just accepted. Nothing is read before an event says that something came.
    fn new(shown: u64, stream: TcpStream, address: SocketAddr, now: Instant) -> Connection {
        Connection {
            shown,
            stream,
            address,
            seat: Seat::new(),
            is_ready: false,
            is_outgoing: false,
            is_put_off: false,
            is_failed: false,
            is_urgent: false,
            kept: 0,
            moved: now,
            parting: None,
        }
    }
}

/// The sessions of a broker and their connections, each by the number of its session.
#[derive(Drop)]
pub(crate) struct Connections<B: ServedSessions> {
    sessions: B,
    /// What the broker does for its partitions by itself.
    upkeep: Upkeep,
    /// How many clients were accepted.
    accepted: u64,
    by_number: IndexMap<u64, Connection>,
    /// The numbers of those to be visited, each once, and of some that have ended.
    ready: VecDeque<u64>,
    /// The numbers of those to which something is sent at the end of the round, likewise.
    outgoing: VecDeque<u64>,
    /// The numbers of those whose session is over, in the order in which they are closed, and of some that are closed.
    parting: VecDeque<u64>,
    /// How many connections each address has, and how many bytes are kept for these.
    addresses: Addresses<IpAddr>,
    /// How many bytes are kept for all.
    kept: u64,
    /// The number of the connection on which something moved since the clock was read last, if one did.
    moving: Option<u64>,
}

/// Has a connection visited, where there is room for its number.
fn make_ready(ready: &mut VecDeque<u64>, number: u64, connection: &mut Connection) {
    if !connection.is_ready {
        connection.is_ready = ready.push_back(number).is_ok();
    }
}

/// Has something sent to a connection at the end of the round, where there is room for its number.
fn make_outgoing(outgoing: &mut VecDeque<u64>, number: u64, connection: &mut Connection) {
    if !connection.is_outgoing {
        connection.is_outgoing = outgoing.push_back(number).is_ok();
    }
}

/// Whether input may be left unread where a session is over for this.
fn leaves_input(why: &Why) -> bool {
    matches!(why, Why::Frame(_) | Why::OutOfMemory)
}

/// The token of a connection. No two have the same, since no number is used twice.
fn token_of(number: u64) -> Token {
    Token(number as usize)
}

impl<B: ServedSessions + Drop> Connections<B> {
    /// No connection, of a broker's sessions.
    pub(crate) fn new(alloc: Global, sessions: B, upkeep: Upkeep) -> Connections<B> {
        Connections {
            sessions,
            upkeep,
            accepted: 0,
            by_number: IndexMap::new(alloc),
            ready: VecDeque::new(alloc),
            outgoing: VecDeque::new(alloc),
            parting: VecDeque::new(alloc),
            addresses: Addresses::new(alloc),
            kept: 0,
            moving: None,
        }
    }
}

impl<B: ServedSessions> Connections<B> {
    /// Whether so much was done in this round that the others are to wait for the next one.
    pub(crate) fn is_full(&self) -> bool {
        self.sessions.is_full()
    }

    /// Puts what was done in this round where it is kept, and gives what wasn't done beside for that. What is owed for it may leave
    /// once it is synced, where that is due.
    ///
    /// # Errors
    ///
    /// It can't be kept: nothing more may leave.
    pub(crate) fn put(&mut self, clock: u64) -> std::result::Result<Option<Missed>, Unkept> {
        self.sessions.put(clock)
    }

    /// Whether something that was put isn't synced, and will be.
    pub(crate) fn is_to_sync(&self) -> bool {
        self.sessions.is_to_sync()
    }

    /// Whether that is to be synced now, before what is owed leaves.
    pub(crate) fn is_sync_due(&mut self, now: Instant) -> bool {
        self.sessions.is_sync_due(now)
    }

    /// When something is to be synced, if nothing is done until then.
    pub(crate) fn sync_at(&self) -> Option<Instant> {
        self.sessions.sync_at()
    }

    /// Syncs all that was put.
    ///
    /// # Errors
    ///
    /// It can't be kept: nothing more may leave.
    pub(crate) fn sync(&mut self) -> std::result::Result<(), Unkept> {
        self.sessions.sync()
    }

    /// The file that is synced, if there is one.
    pub(crate) fn journal(&self) -> Option<Name> {
        self.sessions.journal()
    }

    /// Makes the next step of what is to be done beside, and gives what was done and wasn't.
    ///
    /// # Errors
    ///
    /// What was done can no longer be kept: nothing more may leave.
    pub(crate) fn tend(&mut self, clock: u64) -> std::result::Result<Done, Unkept> {
        self.sessions.tend(clock)
    }

    /// Whether another step is to follow at once.
    pub(crate) fn is_tending(&self, clock: u64) -> bool {
        self.sessions.is_tending(clock)
    }

    /// When the next step is to be made by the clock, if nothing is done until then.
    pub(crate) fn tend_at(&self) -> Option<u64> {
        self.sessions.tend_at()
    }

    /// What the clock says once the broker has something to do for its partitions, if nothing is done until then; 0 where that is now.
    pub(crate) fn upkeep_at(&self) -> Option<u64> {
        let write = if self.sessions.keeps_marks() {
            self.upkeep.write_at(self.sessions.has_marks_elsewhere())
        } else {
            None
        };
        match (self.upkeep.due_at(), write) {
            (Some(a), Some(b)) => Some(a.min(b)),
            (None, time) | (time, None) => time,
        }
    }

    /// Does what is to be done for its partitions now, and gives what came of a cleaning that is over, if one is.
    pub(crate) fn keep_up(&mut self, clock: u64) -> Option<Outcome> {
        self.upkeep.go_on(&mut self.sessions, clock)
    }

    /// Whether what is known of passes is to be written now.
    pub(crate) fn is_to_write_marks(&self, clock: u64) -> bool {
        if !self.sessions.keeps_marks() {
            return false;
        }
        let at = self.upkeep.write_at(self.sessions.has_marks_elsewhere());
        matches!(at, Some(at) if at <= clock)
    }

    /// Writes what is known of passes. `wall` is what a wall clock says in milliseconds; nothing is written where it couldn't be read.
    ///
    /// # Errors
    ///
    /// It can't be written. It is tried again a while later.
    pub(crate) fn write_marks(
        &mut self,
        alloc: Global,
        clock: u64,
        wall: Option<u64>,
    ) -> Result<()> {
        let told = match wall {
            Some(wall) => self.write_known(alloc, clock, wall),
            None => Ok(false),
        };
        self.upkeep.note_written(clock, matches!(told, Ok(true)));
        told?;
        Ok(())
    }

    /// Writes it, with times of that clock.
    fn write_known(&mut self, alloc: Global, clock: u64, wall: u64) -> Result<bool> {
        let mut known = Vec::new(alloc);
        for index in 0..self.upkeep.len() {
            if let Some(marks) = self.upkeep.known_at(index, clock, wall) {
                known.push(marks)?;
            }
        }
        self.sessions.write_marks(&known)
    }

    /// The name of the topic at a place.
    pub(crate) fn topic_at(&self, place: Place) -> Option<&[u8]> {
        topic_at(self.sessions.state(), place)
    }

    /// How many are open, with those whose session is over and that aren't closed yet.
    pub(crate) fn count(&self) -> usize {
        self.by_number.len()
    }

    /// How many of them are of a client's IP address.
    pub(crate) fn count_of(&self, client: SocketAddr) -> u32 {
        self.addresses.count(client.ip())
    }

    /// How many are to be visited, and perhaps some that have ended.
    pub(crate) fn ready_count(&self) -> usize {
        self.ready.len()
    }

    /// How many bytes of memory are kept for what all hold and are owed, and for frames that wait.
    pub(crate) fn kept(&self) -> u64 {
        self.kept
    }

    /// Opens a connection, to be visited once something came.
    ///
    /// # Errors
    ///
    /// Out of memory, or the system reports no events of it: the stream is closed.
    pub(crate) fn open(
        &mut self,
        registry: &Registry,
        stream: TcpStream,
        address: SocketAddr,
        now: Instant,
    ) -> Result<()> {
        let number = self.sessions.open()?;
        let shown = self.next_shown();
        let opened = self.add(
            registry,
            number,
            Connection::new(shown, stream, address, now),
        );
        if opened.is_err() {
            self.sessions.close(number);
        }
        opened
    }

    /// The number by which lines call the client that is accepted next.
    fn next_shown(&mut self) -> u64 {
        let shown = self.accepted;
        self.accepted = shown.saturating_add(1);
        shown
    }

    /// Adds the connection of a session.
    fn add(&mut self, registry: &Registry, number: u64, connection: Connection) -> Result<()> {
        let mut added = connection;
        let _ = added.stream.set_nodelay(true);
        registry.register(
            &mut added.stream,
            token_of(number),
            Interest::READABLE | Interest::WRITABLE | Interest::PRIORITY,
        )?;
        let address = added.address.ip();
        self.by_number.insert(number, added)?;
        if let Err(why) = self.addresses.add(address) {
            self.by_number.swap_remove(&number);
            return Err(Error::from(why));
        }
        Ok(())
    }

    /// The end of a connection to a client that was accepted, and that isn't opened, since its address has as many as it may
    /// have. It has a number as any other; there is none where memory lacks for that.
    pub(crate) fn turn_away(&mut self, address: SocketAddr) -> Option<Ended> {
        let number = self.sessions.open().ok()?;
        self.sessions.close(number);
        Some(Ended {
            number: self.next_shown(),
            address,
            why: Ending::MostPerAddress,
        })
    }

    /// Notes what an event says of a connection, which is to be visited if there is something to do.
    pub(crate) fn note(&mut self, event: &Event) {
        let number = event.token().0 as u64;
        let Some(connection) = self.by_number.get_mut(&number) else {
            return;
        };
        let is_error = event.is_error();
        connection.is_failed |= is_error;
        connection.is_urgent |= event.is_priority();
        if is_error || event.is_read_closed() {
            connection.seat.is_closing = true;
        }
        if connection.seat.is_closing || event.is_readable() {
            connection.seat.may_read = true;
        }
        if is_error || event.is_writable() || event.is_write_closed() {
            connection.seat.may_write = true;
        }
        if connection.seat.may_read || connection.kept > 0 {
            make_ready(&mut self.ready, number, connection);
        }
    }

    /// Has those connections visited whose frame waited and may be due, or was put off and may be handled now. `clock` counts
    /// milliseconds.
    pub(crate) fn wake(&mut self, clock: u64) {
        for _ in 0..u64::MAX {
            let Some(number) = self.sessions.next_woken(clock) else {
                break;
            };
            if self.upkeep.wake(number) {
                continue;
            }
            if let Some(connection) = self.by_number.get_mut(&number) {
                make_ready(&mut self.ready, number, connection);
            }
        }
    }

    /// When the first frame that waits will be due, in milliseconds.
    pub(crate) fn next_due(&self) -> Option<u128> {
        self.sessions.next_due()
    }

    /// Visits the connection that was ready first, and sends what it is owed, unless that is to be kept before. Gives its
    /// end, if that was its last visit.
    pub(crate) fn visit_next(&mut self, now: Instant, clock: u64) -> Option<Ended> {
        let number = self.ready.pop_front()?;
        let connection = self.by_number.get(&number)?;
        if connection.parting.is_some() {
            self.drop_input(number, now);
            return None;
        }
        if let Some(why) = self.failure(number, connection) {
            return self.end(number, why);
        }
        match self.visit(number, clock) {
            Some(why) => self.end_over(number, why),
            None => self.send(number),
        }
    }

    /// Why a connection has failed whose frame waits: nothing that is held behind it is answered.
    fn failure(&self, number: u64, connection: &Connection) -> Option<Ending> {
        if !connection.is_failed || !self.sessions.is_waiting(number) {
            return None;
        }
        let why = connection.stream.take_error().ok()??;
        Some(Ending::Read(why.kind()))
    }

    /// Visits a connection, if it is open, and gives why it is over, if it is.
    fn visit(&mut self, number: u64, clock: u64) -> Option<Why> {
        let connection = self.by_number.get_mut(&number)?;
        connection.is_ready = false;
        connection.is_put_off = false;
        let mut from = Incoming::new(&connection.stream);
        let visit = self
            .sessions
            .visit(number, clock, &mut connection.seat, &mut from)?;
        let may_leave_some = connection.seat.is_closing || connection.is_urgent;
        let is_drained = from.is_drained() && !may_leave_some;
        if is_drained {
            connection.seat.may_read = false;
        }
        if visit.answered > 0 {
            self.moving = Some(number);
            self.upkeep.note_change();
        }
        self.go_on(number, visit.then, is_drained)
    }

    /// Counts anew what is kept for a connection.
    fn count_kept(&mut self, number: u64) -> Option<()> {
        let awaited = (self.sessions.awaited(number) as u64).saturating_mul(AWAITED_BYTES);
        let kept = self.sessions.session(number)?.kept() as u64;
        self.note_kept(number, awaited.saturating_add(kept))
    }

    /// Notes that so many bytes are kept for a connection.
    fn note_kept(&mut self, number: u64, kept: u64) -> Option<()> {
        let connection = self.by_number.get_mut(&number)?;
        let before = connection.kept;
        if kept == before {
            return None;
        }
        connection.kept = kept;
        self.kept = self.kept.saturating_sub(before).saturating_add(kept);
        self.addresses
            .count_kept(connection.address.ip(), before, kept);
        None
    }

    /// Has a connection visited again where a visit left something to do: a read, unless all was read that was there, or
    /// a frame that is held behind one that was dear. Gives why it is over, if it is.
    fn go_on(&mut self, number: u64, then: Then, is_drained: bool) -> Option<Why> {
        match then {
            Then::Again if is_drained => None,
            Then::Again | Then::Dear => {
                let connection = self.by_number.get_mut(&number)?;
                make_ready(&mut self.ready, number, connection);
                None
            }
            Then::Idle => None,
            Then::PutOff(place) => self.put_off(number, place),
            Then::Over(why) => Some(why),
        }
    }

    /// Has a connection visited again whose first frame was put off, once the partition at this place may change. Gives why
    /// it is over, if there is no memory to note that.
    fn put_off(&mut self, number: u64, place: Place) -> Option<Why> {
        let connection = self.by_number.get_mut(&number)?;
        connection.is_put_off = true;
        match self.sessions.put_off(number, place) {
            Ok(()) => None,
            Err(_) => Some(Why::OutOfMemory),
        }
    }

    /// How many connections are to be sent something, with some that have ended.
    pub(crate) fn outgoing_count(&self) -> usize {
        self.outgoing.len()
    }

    /// Sends the first of the connections that wait for it what it is owed. Gives its end, if a write failed.
    pub(crate) fn send_next(&mut self) -> Option<Ended> {
        let number = self.outgoing.pop_front()?;
        let connection = self.by_number.get_mut(&number)?;
        connection.is_outgoing = false;
        self.send(number)
    }

    /// Sends a connection what it is owed, if a write may be made. Gives its end, if one failed.
    fn send(&mut self, number: u64) -> Option<Ended> {
        let owed = self.sessions.session(number)?.owed();
        match self.send_some(number, owed) {
            Some(why) => self.end_over(number, why),
            None => {
                self.count_kept(number)?;
                None
            }
        }
    }

    /// Sends a connection some of so many bytes that it is owed, if a write may be made, or has them sent once what they tell of
    /// is kept. Gives why the connection is over, if a write failed.
    fn send_some(&mut self, number: u64, owed: usize) -> Option<Why> {
        let connection = self.by_number.get_mut(&number)?;
        if owed == 0 || !connection.seat.may_write {
            return None;
        }
        let mut to = &connection.stream;
        match self.sessions.send(number, &mut connection.seat, &mut to)? {
            Sent::Bytes(flushed) => {
                if flushed.bytes > 0 {
                    self.moving = Some(number);
                }
                // Where more is owed, the writer took no more, or it took as much as a send gives it.
                let can_send_more = flushed.bytes < owed && connection.seat.may_write;
                if flushed.is_ready || can_send_more {
                    make_ready(&mut self.ready, number, connection);
                }
                None
            }
            Sent::HeldBack => {
                make_outgoing(&mut self.outgoing, number, connection);
                None
            }
            Sent::Failed(why) => Some(why),
        }
    }

    /// Ends a connection whose session is over: at once, unless input may be left unread.
    fn end_over(&mut self, number: u64, why: Why) -> Option<Ended> {
        let leaves_input = leaves_input(&why);
        let why = ending_of(self.sessions.session(number)?, why);
        if leaves_input {
            return self.part(number, why);
        }
        self.end(number, why)
    }

    /// Ends a connection.
    fn end(&mut self, number: u64, why: Ending) -> Option<Ended> {
        self.sessions.close(number);
        let (shown, address) = self.close(number)?;
        Some(Ended {
            number: shown,
            address,
            why,
        })
    }

    /// Closes a connection, if it is open, and gives its number in lines and its client's address.
    fn close(&mut self, number: u64) -> Option<(u64, SocketAddr)> {
        let connection = self.by_number.swap_remove(&number)?;
        self.kept = self.kept.saturating_sub(connection.kept);
        self.addresses
            .remove(connection.address.ip(), connection.kept);
        Some((connection.shown, connection.address))
    }

    /// Ends a session, and sends its client no more. What it still sends is dropped, until the connection is closed.
    fn part(&mut self, number: u64, why: Ending) -> Option<Ended> {
        self.sessions.close(number);
        self.note_kept(number, 0);
        let connection = self.by_number.get_mut(&number)?;
        connection.parting = Some(Parting::new());
        let address = connection.address;
        let shown = connection.shown;
        make_ready(&mut self.ready, number, connection);
        let is_shut = connection.stream.shutdown(Shutdown::Write).is_ok();
        let is_to_be_read = is_shut && connection.is_ready;
        if !is_to_be_read || self.parting.push_back(number).is_err() {
            self.close(number);
        }
        Some(Ended {
            number: shown,
            address,
            why,
        })
    }

    /// Drops some of what came over a connection whose session is over, and closes it where that is its end.
    fn drop_input(&mut self, number: u64, now: Instant) -> Option<()> {
        let connection = self.by_number.get_mut(&number)?;
        connection.is_ready = false;
        let mut parting = connection.parting?;
        let mut from = &connection.stream;
        let dropped = parting.drop_input(now, &mut from);
        connection.parting = Some(parting);
        match dropped {
            Dropped::Some => make_ready(&mut self.ready, number, connection),
            Dropped::Nothing => {}
            Dropped::Over => {
                self.close(number)?;
            }
        }
        None
    }

    /// When the first connection whose session is over is closed at the latest, once something of it was dropped.
    pub(crate) fn part_at(&self) -> Option<Instant> {
        let number = self.parting.front()?;
        self.by_number.get(number)?.parting?.until()
    }

    /// Whether the first connection whose session is over has been so for too long, or is closed already.
    fn is_first_parted(&self, now: Instant) -> bool {
        let Some(number) = self.parting.front() else {
            return false;
        };
        match self.by_number.get(number) {
            Some(connection) => matches!(connection.parting, Some(parting) if parting.is_over(now)),
            None => true,
        }
    }

    /// Closes the connections whose sessions have been over for too long.
    pub(crate) fn close_parted(&mut self, now: Instant) {
        for _ in 0..self.parting.len() {
            if !self.is_first_parted(now) {
                break;
            }
            if let Some(number) = self.parting.pop_front() {
                self.close(number);
            }
        }
    }

    /// Ends a connection of the address for whose connections most is kept: of these the one for which most is.
    pub(crate) fn end_largest(&mut self) -> Option<Ended> {
        let address = self.addresses.largest()?;
        let mut largest = None;
        let mut most = 0;
        for (number, connection) in &self.by_number {
            if connection.address.ip() == address && connection.kept >= most {
                most = connection.kept;
                largest = Some(*number);
            }
        }
        self.end(largest?, Ending::MostHeld)
    }

    /// Whether something moved on a connection since the clock was read last.
    pub(crate) fn is_moving(&self) -> bool {
        self.moving.is_some()
    }

    /// Notes when something moved on the connection that was visited last, or to which something was sent.
    pub(crate) fn note_moved(&mut self, now: Instant) -> Option<()> {
        let number = self.moving.take()?;
        let connection = self.by_number.get_mut(&number)?;
        connection.moved = now;
        None
    }

    /// Ends the connection with this index among those that are open, if nothing moved on it for so
    /// many seconds. The last one comes in its place. One whose frame waits, or is put off, counts as moved until
    /// now.
    pub(crate) fn end_if_idle(&mut self, index: usize, now: Instant, idle: u64) -> Option<Ended> {
        let (number, connection) = self.by_number.get_index(index)?;
        let is_moving = now.duration_since(connection.moved) < Duration::from_secs(idle);
        if is_moving || connection.parting.is_some() {
            return None;
        }
        let number = *number;
        if connection.is_put_off || self.sessions.is_waiting(number) {
            self.by_number.get_mut(&number)?.moved = now;
            return None;
        }
        self.end(number, Ending::Idle(idle))
    }

    /// When the first connection will be idle for so many seconds, if nothing moves until then.
    pub(crate) fn first_idle(&self, idle: u64) -> Option<Instant> {
        let mut first = None;
        for (_, connection) in &self.by_number {
            first = sooner(first, Some(connection.moved));
        }
        first?.checked_add(Duration::from_secs(idle))
    }
}

/// The first of two times, where there are any.
pub(crate) fn sooner(a: Option<Instant>, b: Option<Instant>) -> Option<Instant> {
    match (a, b) {
        (Some(a), Some(b)) => Some(if a < b { a } else { b }),
        (None, time) | (time, None) => time,
    }
}
