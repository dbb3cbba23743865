//! A broker, and the sessions of its clients.

ghost use Rattle.std.specs.Prelude.{◌≡◌, ℕ, ◌<◌, true, false, None, IfNone, IfOk, IfSome, MatchBool, OnErr};
ghost use Rattle.std.specs.Option.{option_copied};
ghost use Rattle.sessions.specs.Orders.{GoesOnBy, IsInOrder, NobodyIsDue, OthersSleepOn, SendsAt, SleepsWhereItWaits, Step, VisitsAt, is_asleep, is_waiting, new_world, session_at};
ghost use Rattle.sessions.specs.Orders.Event.{Closes, Opens};
ghost use Rattle.sessions.specs.Visits.{then_place};

use crate::handler::Handler;
use crate::session::Session;
use crate::visiting::{Flushed, READ_PIECE, Seat, Then, Visit, Why, send_session, visit_session};
use crate::waiting::Waiting;
use broker_node::Node;
use indexmap::IndexMap;
use segment::BatchStore;
use std::alloc::{AllocError, Allocator};
use std::hash::{BuildHasherDefault, FoldHasher};
use std::io::{Read, Write};
use std::marker::Model;

/// A broker and the sessions of its clients, each with a number that is never used twice.
///
/// ```
/// let mut sessions = Sessions::new(alloc, node)?;
/// let number = sessions.open()?;
/// let mut seat = Seat::new();
/// match sessions.visit(number, clock, &mut Plainly, &mut seat, &mut reader) {
///     Some(Visit { then: Then::Over(_), .. }) => sessions.close(number),
///     _ => sessions.send(number, &mut seat, &mut writer).is_some(),
/// }
/// ```
#[derive(Drop)]
pub struct Sessions<S: BatchStore, A: Allocator + Copy> {
    alloc: A,
    node: Node<S>,
    sessions: IndexMap<u64, Session<A>, BuildHasherDefault<FoldHasher>, A>,
    next: u64,
    waiting: Waiting<A>,
    /// What a read is made into.
    piece: Vec<u8, A>,
}

impl<S: BatchStore, A: Allocator + Copy> Model for Sessions<S, A> {
    ghost use Rattle.std.specs.Prelude.{◌≡◌, length};
    ghost use Rattle.sessions.specs.declared.visiting.TheConstants.{READ_PIECE};
    ghost use Rattle.sessions.specs.Orders.{SessionsState};
    ghost use Rattle.sessions.specs.Waiting.{names_of};
    ghost use Rattle.sessions.specs.Watched.{IsWatched};

    ghost Value = { SessionsState };

    ghost view = { λ b. record {
      world = record { state = b.node; sessions = b.sessions.entries; next = b.next };
      waits = names_of b.waiting.waits;
    } };

    ghost invariant = { λ b. (length b.piece.items ≡ READ_PIECE)
        × IsWatched (record { state = b.node; sessions = b.sessions.entries; next = b.next }) b.waiting };
}

impl<S: BatchStore + Drop, A: Allocator + Copy> Sessions<S, A> {
    /// A broker without a client. It takes memory for the piece that one read may bring.
    ///
    /// # Errors
    ///
    /// Out of memory.
    pub fn new(alloc: A, node: Node<S>) -> Result<Sessions<S, A>, AllocError>
        ensures is_new { IfOk result (λ sessions. sessions.world ≡ new_world node) }
        ensures none_sleeps { IfOk result (λ sessions. (k : ℕ) → is_asleep sessions k ≡ false) }
    {
        let piece = vec![in alloc; 0; READ_PIECE]?;
        Ok(Sessions {
            alloc,
            node,
            sessions: IndexMap::new(alloc),
            next: 0,
            waiting: Waiting::new(alloc),
            piece,
        })
    }
}

impl<S: BatchStore, A: Allocator + Copy> Sessions<S, A> {
    /// Opens a session, and gives its number: 0, and then one more for each that was opened before.
    ///
    /// # Errors
    ///
    /// Out of memory, or 2^64 - 1 sessions were opened: nothing has changed.
    pub fn open(&mut self) -> Result<u64, AllocError>
        ensures opens { IfOk result (λ number. Step self.old.world (Opens number) self.new.world) }
        ensures goes_on { IfOk result (λ number. GoesOnBy (Opens number) self.old.world self.new.world) }
        ensures asleep { (k : ℕ) → is_asleep self.new k ≡ is_asleep self.old k }
        ensures unchanged_on_error { OnErr result (self.new ≡ self.old) }
    {
        let number = self.next;
        let Some(next) = number.checked_add(1) else {
            return Err(AllocError);
        };
        self.sessions.insert(number, Session::new(self.alloc))?;
        self.next = next;
        Ok(number)
    }

    /// Visits the session with this number: makes at most one read, where a read may be made and no
    /// complete frame is held, and answers complete frames in order, until 256 KiB or more are owed, or one
    /// was dear. It sends nothing. `None` if there is no such session. `clock` is what the caller's clock says, in
    /// milliseconds: a Fetch that waits is answered once it says so much more than it did at the visit
    /// that first came to that frame, or once what it waits for is there, or the input has ended. The
    /// handler is asked for each request that is handled; a frame that it puts off stays the first one.
    pub fn visit<H: Handler<S>, R: Read>(
        &mut self,
        number: u64,
        clock: u64,
        handler: &mut H,
        seat: &mut Seat,
        from: &mut R,
    ) -> Option<Visit>
        ensures visits { IfSome result (VisitsAt number clock seat.old self.old.world seat.new self.new.world
            (R.remaining from.old) (R.remaining from.new)) }
        ensures others_sleep { OthersSleepOn number self.old self.new }
        ensures sleeps { IfSome result (λ visit. visit.then ≡ Then.Idle → SleepsWhereItWaits number self.new) }
        ensures puts_off { IfSome result (λ visit. IfSome (then_place visit.then) (H.puts_off handler.new)) }
        ensures keeps { H.keeps handler.old self.old.world.state handler.new self.new.world.state }
        ensures none_is_absent { IfNone result (session_at self.old.world number ≡ None) }
        ensures none_changes_nothing { IfNone result ((self.new ≡ self.old)
            × (seat.new ≡ seat.old) × (from.new ≡ from.old)) }
    {
        match self.sessions.get_mut(&number) {
            Some(session) => Some(visit_session(
                &mut self.node,
                handler,
                &mut self.waiting,
                number,
                clock,
                session,
                seat,
                from,
                &mut self.piece,
            )),
            None => None,
        }
    }

    /// Sends the session with this number what it is owed, by at most four writes, where they may be made; it
    /// reads and answers nothing. Gives how many bytes left and whether a visit may have something to do then,
    /// or why the session is over. `None` if there is no such session.
    ///
    /// # Errors
    ///
    /// A write failed: the session is over, and some of what it was owed may have left.
    pub fn send<W: Write>(
        &mut self,
        number: u64,
        seat: &mut Seat,
        to: &mut W,
    ) -> Option<Result<Flushed, Why>>
        ensures sends { IfSome result (SendsAt number seat.old self.old.world seat.new self.new.world
            (W.contents to.old) (W.contents to.new)) }
        ensures asleep { (k : ℕ) → is_asleep self.new k ≡ is_asleep self.old k }
        ensures none_is_absent { IfNone result (session_at self.old.world number ≡ None) }
        ensures none_changes_nothing { IfNone result ((self.new ≡ self.old)
            × (seat.new ≡ seat.old) × (to.new ≡ to.old)) }
    {
        let Some(session) = self.sessions.get_mut(&number) else {
            return None;
        };
        Some(send_session(session, seat, to))
    }

    /// Closes the session with this number, with all that it holds and owes, and tells whether there was
    /// one.
    pub fn close(&mut self, number: u64) -> bool
        ensures closes { MatchBool result (Step self.old.world (Closes number) self.new.world)
            ((session_at self.old.world number ≡ None) × (self.new ≡ self.old)) }
        ensures goes_on { result ≡ true → GoesOnBy (Closes number) self.old.world self.new.world }
        ensures sleeps_no_more { result ≡ true → is_asleep self.new number ≡ false }
        ensures others_sleep { OthersSleepOn number self.old self.new }
    {
        let Some(_closed) = self.sessions.swap_remove(&number) else {
            return false;
        };
        self.waiting.leave(number);
        true
    }

    /// The number of a session that slept and may be due: a partition that it asks for may have changed, or its time is over by the
    /// clock. It sleeps no more, and is to be visited: that finds whether it is due. `None` where no Fetch of a session that sleeps
    /// could be answered yet.
    pub fn next_woken(&mut self, clock: u64) -> Option<u64>
        ensures changes_nothing { self.new.world ≡ self.old.world }
        ensures slept { IfSome result (λ number. is_asleep self.old number ≡ true) }
        ensures names { IfSome result (λ number. (is_asleep self.new number ≡ false)
            × OthersSleepOn number self.old self.new) }
        ensures sleeps_on { IfNone result ((k : ℕ) → is_asleep self.new k ≡ is_asleep self.old k) }
        ensures nobody_is_due { IfNone result (NobodyIsDue clock self.new) }
    {
        self.waiting.next_woken(clock)
    }

    /// Whether the first frame of a session was found to be a Fetch that waits, as far as it was looked at.
    pub fn is_waiting(&self, number: u64) -> bool
        ensures { result ≡ is_waiting self.now number }
    {
        self.waiting.waits(number)
    }

    /// For how many partitions a session waits, by which the memory is reckoned that it takes; 0 where it doesn't wait.
    pub fn awaited(&self, number: u64) -> usize
        ensures { is_waiting self.now number ≡ false → result ≡ 0 }
    {
        self.waiting.places(number)
    }

    /// Until when no Fetch of a session that sleeps can be answered, in milliseconds, if nothing else happens before:
    /// [`next_woken`](Sessions::next_woken) has something to do then. `None` where none sleeps.
    pub fn next_due(&self) -> Option<u128>
        ensures rests { (clock : ℕ) → IfSome result (λ due. clock < due) → NobodyIsDue clock self.now }
    {
        self.waiting.next_due()
    }

    /// The broker.
    pub fn node(&self) -> &Node<S>
        ensures { result.now ≡ self.now.world.state }
    {
        &self.node
    }

    /// A law: whatever events the broker and its clients went by since it had none, all frames that were answered are one list,
    /// as [`many_clients_are_one_list`](crate::many_clients_are_one_list) says. Each call goes on by an event, as its contract
    /// says.
    pub fn are_one_list(&self)
        ensures { IsInOrder self.now.world }
    {}

    /// The session with this number.
    pub fn session(&self, number: u64) -> Option<&Session<A>>
        ensures { option_copied result ≡ session_at self.now.world number }
    {
        self.sessions.get(&number)
    }
}
