//! A visit of a session: what may be read is read, and what is complete is answered. What is owed is sent by a call of its own.

ghost use Rattle.std.specs.Prelude.{◌≡◌, ◌≢◌, ◌⊎◌, ◌<◌, ◌≤◌, true, false, ℕ, List, [], length, None, IfErr, IfSome, IsSome, MatchBool, OnErr, OnOk, IfOk};
ghost use Rattle.frame_fields.specs.Frames.{IsIncomplete};
ghost use Rattle.sessions.specs.Turns.{Exchange, SessionState, StopsNext, WaitsFirst, next_place};
ghost use Rattle.sessions.specs.Waiting.{unnamed_at};
ghost use Rattle.sessions.specs.Asleep.{KeepsWatch, OthersWait};
ghost use Rattle.sessions.specs.Visits.{GoesOn, IsReady, Moment, SendsTo, StaysIdle, WantsMore, has_ended, then_place};
ghost use Rattle.sessions.specs.Steps.{ComesIn, HasGot, FailsToRead, GoesOut, IsFailure, IsNoRead, MayIdle, StopsTurn, VisitsSession, WriteFault, Writes, frees, stop_place};

use crate::handler::Handler;
use crate::replying::NextError;
use crate::session::{Now, ReceiveError, Session, Stop};
use crate::waiting::Waiting;
use broker_node::Node;
use broker_state::Place;
use frame_fields::FrameError;
use segment::BatchStore;
use std::alloc::Allocator;
use std::io::{ErrorKind, Read, Write};

/// The most bytes that a visit reads.
pub const READ_PIECE: usize = 65_536;

/// A visit answers no further frame where so many bytes are owed.
pub const MOST_OWED: usize = 262_144;

/// The most writes of a send.
const MOST_WRITES: u32 = 4;

/// What is known of a connection beside its session.
#[derive(Clone, Copy, PartialEq, Eq)]
pub struct Seat {
    /// Whether a read may give something. A read that would wait clears it; an event sets it.
    pub may_read: bool,
    /// Whether a write may take something. A write that would wait clears it; an event sets it.
    pub may_write: bool,
    /// Whether the input has come to its end.
    pub at_end: bool,
    /// Whether the client is known to send nothing more than what came until then, so that its frames wait
    /// no more. The caller sets it.
    pub is_closing: bool,
}

/// What came of a visit.
#[derive(Drop)]
pub struct Visit {
    /// How many frames were answered.
    pub answered: u64,
    /// Whether its read was interrupted: then nothing came, and nothing is known of what is there. Another visit reads again.
    pub was_interrupted: bool,
    /// What is to be done with the session.
    pub then: Then,
}

/// What is to be done with a session after a visit.
#[derive(Drop)]
pub enum Then {
    /// More can be read: another visit, after the others.
    Again,
    /// The last frame that was answered is dear, as [`is_dear`](broker_node::is_dear) says, and another is held: another
    /// visit, after the others.
    Dear,
    /// There is nothing to do until a read may be made again, some of what is owed has left, or a frame that
    /// waits is due.
    Idle,
    /// The first frame that is held is put off: it may change the partition at this place, which may not
    /// change yet. There is nothing to do until it may.
    PutOff(Place),
    /// It is over, and can be closed.
    Over(Why),
}

/// What came of sending a session what it is owed.
#[derive(Clone, Copy, PartialEq, Eq)]
pub struct Flushed {
    /// How many bytes left.
    pub bytes: usize,
    /// Whether its writes were interrupted: nothing left, though something is owed and a write may be made.
    pub was_interrupted: bool,
    /// Whether a visit may have something to do now, which it couldn't do while so much was owed.
    pub is_ready: bool,
}

/// Why a session is over.
#[derive(Drop)]
pub enum Why {
    /// The input ended, its complete frames were answered, and all that was owed left.
    End,
    /// A read failed.
    Read(ErrorKind),
    /// A write failed.
    Write(ErrorKind),
    /// The first frame that is held is refused; all that was owed left.
    Frame(FrameError),
    /// There is no memory for what was read, which is lost; or for a response, and all that was owed left.
    OutOfMemory,
}

impl Seat {
    /// A connection that was just opened. Nothing is read before something is known to have come.
    pub fn new() -> Seat
        ensures { result ≡ record {
          may_read = false;
          may_write = true;
          at_end = false;
          is_closing = false;
        } }
    {
        Seat {
            may_read: false,
            may_write: true,
            at_end: false,
            is_closing: false,
        }
    }
}

/// What is to be done where a call of the system failed.
#[derive(Drop)]
enum Failure {
    /// The call is to be made again.
    Again,
    /// It would have waited.
    Wait,
    /// All else.
    Fault(ErrorKind),
}

/// What is to be done for a failure of this kind.
fn failure_of(kind: ErrorKind) -> Failure
    ensures { IsFailure kind result }
{
    match kind {
        ErrorKind::Interrupted => Failure::Again,
        ErrorKind::WouldBlock => Failure::Wait,
        fault => Failure::Fault(fault),
    }
}

// ---- how a session goes on

/// What is to be done with a session that holds no complete frame.
fn after_short<A: Allocator + Copy>(seat: &Seat, session: &Session<A>) -> Then
    ensures goes_on { (at : Moment) → (es : List Exchange) → IsIncomplete session.now.held
        → GoesOn at seat.now es session.now result }
    ensures reads_nothing { IsNoRead result }
    ensures puts_off { then_place result ≡ None }
{
    if seat.at_end {
        return if session.owed() == 0 {
            Then::Over(Why::End)
        } else {
            Then::Idle
        };
    }
    if seat.may_read && session.owed() < MOST_OWED {
        return Then::Again;
    }
    Then::Idle
}

/// What is to be done with a session whose first frame isn't answered.
fn after_stop<A: Allocator + Copy>(why: NextError, session: &Session<A>) -> Then
    ensures goes_on { (at : Moment) → (seat : Seat) → (es : List Exchange)
        → StopsNext session.now why → GoesOn at seat es session.now result }
    ensures reads_nothing { IsNoRead result }
    ensures puts_off { then_place result ≡ next_place why }
    ensures idles { result ≡ Then.Idle → 0 < length session.now.owed }
{
    match why {
        NextError::PutOff(place) => Then::PutOff(place),
        NextError::Frame(why) => {
            if session.owed() > 0 {
                Then::Idle
            } else {
                Then::Over(Why::Frame(why))
            }
        }
        NextError::OutOfMemory => {
            if session.owed() > 0 {
                Then::Idle
            } else {
                Then::Over(Why::OutOfMemory)
            }
        }
    }
}

/// What is to be done with a session whose turn stopped so.
fn what_then<A: Allocator + Copy>(seat: &Seat, session: &Session<A>, stop: Stop) -> Then
    ensures goes_on { (at : Moment) → (es : List Exchange)
        → StopsTurn MOST_OWED at.clock (has_ended seat.now) at.state es session.now stop
        → GoesOn at seat.now es session.now result }
    ensures reads_nothing { IsNoRead result }
    ensures puts_off { then_place result ≡ stop_place stop }
    ensures idles { result ≡ Then.Idle → MayIdle session.now.owed stop }
    ensures dear { stop ≡ Stop.Dear → result ≡ Then.Dear }
{
    match stop {
        Stop::Full => Then::Idle,
        Stop::Dear => Then::Dear,
        Stop::Short => after_short(seat, session),
        Stop::Waits => Then::Idle,
        Stop::Over(why) => after_stop(why, session),
    }
}

// ---- reads and writes

/// Whether the input has ended, or the client is known to send nothing more.
fn has_ended(seat: &Seat) -> bool
    ensures { result ≡ has_ended seat.now }
{
    seat.at_end || seat.is_closing
}

/// Whether no complete frame is held, not too much is owed, and more may be read.
fn wants_more<A: Allocator + Copy>(seat: &Seat, session: &Session<A>) -> bool
    ensures wants { result ≡ true → WantsMore session.now
        × ((seat.now.may_read ≡ true) × (seat.now.at_end ≡ false)) }
    ensures wants_none { result ≡ false → WantsMore session.now → seat.now.may_read ≡ true
        → seat.now.at_end ≡ true }
{
    seat.may_read && !seat.at_end && session.owed() < MOST_OWED && session.is_short()
}

/// Makes one read, if one may be made, where no complete frame is held and not too much is owed. Gives whether
/// it was interrupted.
#[tactic(auto, using(crate::proofs::Passing::nothing_comes, crate::proofs::Passing::something_comes, crate::proofs::Passing::no_change, crate::proofs::Passing::has_got, crate::proofs::Passing::not_due))]
fn read_once<A: Allocator + Copy, R: Read>(
    session: &mut Session<A>,
    seat: &mut Seat,
    from: &mut R,
    piece: &mut [u8],
) -> Result<bool, Why>
    ensures gets { IfOk result (λ was_interrupted. WantsMore session.old → seat.old.may_read ≡ true
        → seat.old.at_end ≡ false → was_interrupted ≡ false
        → HasGot session.old seat.new session.new) }
    ensures comes { length piece.old ≡ READ_PIECE
        → OnOk result (ComesIn seat.old seat.new session.old session.new
        (R.remaining from.old) (R.remaining from.new)) }
    ensures fails { IfErr result (FailsToRead seat.new session.old session.new
        (R.remaining from.old) (R.remaining from.new)) }
    ensures reads { seat.new.may_read ≡ true → seat.old.may_read ≡ true }
    ensures writes { seat.new.may_write ≡ seat.old.may_write }
    ensures ended { seat.old.at_end ≡ true → seat.new.at_end ≡ true }
    ensures fault_is_no_end { OnErr result (seat.new ≡ seat.old) }
    ensures closing { seat.new.is_closing ≡ seat.old.is_closing }
{
    if !wants_more(seat, session) {
        return Ok(false);
    }
    match session.receive(from, piece) {
        Ok(count) => {
            seat.at_end = count == 0;
            Ok(false)
        }
        Err(ReceiveError::OutOfMemory) => Err(Why::OutOfMemory),
        Err(ReceiveError::Read(kind)) => match failure_of(kind) {
            Failure::Again => Ok(true),
            Failure::Wait => {
                seat.may_read = false;
                Ok(false)
            }
            Failure::Fault(kind) => Err(Why::Read(kind)),
        },
    }
}

/// Makes one write of what is owed.
#[tactic(auto, using(crate::proofs::Passing::none_sent))]
fn write_once<A: Allocator + Copy, W: Write>(
    session: &mut Session<A>,
    may_write: &mut bool,
    to: &mut W,
) -> Result<(), Why>
    ensures goes { GoesOut session.old session.new (W.contents to.old) (W.contents to.new) }
    ensures fails { 0 < length session.old.owed → IfErr result (WriteFault session.new) }
    ensures stays { OnErr result (may_write.new ≡ may_write.old) }
    ensures writes { may_write.new ≡ true → may_write.old ≡ true }
    ensures waits { may_write.new ≡ false → (may_write.old ≡ false)
        ⊎ (session.new ≡ session.old) }
{
    match session.send(to) {
        Ok(0) => Err(Why::Write(ErrorKind::WriteZero)),
        Ok(_) => Ok(()),
        Err(why) => match failure_of(why.kind()) {
            Failure::Again => Ok(()),
            Failure::Wait => {
                *may_write = false;
                Ok(())
            }
            Failure::Fault(kind) => Err(Why::Write(kind)),
        },
    }
}

/// Writes what is owed, at most four times.
#[tactic(auto, using(crate::proofs::Passing::nothing_written))]
fn write_some<A: Allocator + Copy, W: Write>(
    session: &mut Session<A>,
    may_write: &mut bool,
    to: &mut W,
) -> Result<(), Why>
    ensures goes { Writes may_write.old may_write.new session.old session.new
        (W.contents to.old) (W.contents to.new) }
    ensures fails { IfErr result (λ why. WriteFault session.new why × (may_write.new ≡ true)) }
{
    for _ in 0..MOST_WRITES {
        if !*may_write || session.owed() == 0 {
            return Ok(());
        }
        write_once(session, may_write, to)?;
    }
    Ok(())
}

/// Whether what was owed kept a visit from something, and what is owed does so no more.
fn frees(owing: usize, owed: usize) -> bool
    ensures { result ≡ frees owing owed }
{
    (owing >= MOST_OWED && owed < MOST_OWED) || (owing > 0 && owed == 0)
}

/// Whether a visit may have something to do, where so many bytes were owed before some of them left.
#[tactic(auto, using(crate::proofs::Going::stays_idle, crate::proofs::Going::quiet_idle, crate::proofs::Going::ready))]
fn is_ready<A: Allocator + Copy>(seat: &Seat, session: &Session<A>, owing: usize) -> bool
    ensures { (old : SessionState) → length old.owed ≡ owing
        → session.now ≡ record old { owed = session.now.owed }
        → MatchBool result (IsReady old seat.now session.now) (StaysIdle old seat.now session.now) }
{
    if !frees(owing, session.owed()) {
        return false;
    }
    if seat.at_end || seat.may_read {
        return true;
    }
    !session.is_short()
}

/// Whether nothing left of what was owed, though something was, and a write may be made.
fn is_stuck(may_write: bool, owing: usize, owed: usize) -> bool
    ensures { result ≡ false → may_write ≡ true → 0 < owing → owed ≢ owing }
{
    may_write && owing > 0 && owed == owing
}

/// Sends a session what it is owed, by at most four writes; nothing is read or answered.
#[tactic(auto, using(crate::proofs::Sending::sent_to, crate::proofs::Sending::gets_on))]
pub(crate) fn send_session<A: Allocator + Copy, W: Write>(
    session: &mut Session<A>,
    seat: &mut Seat,
    to: &mut W,
) -> Result<Flushed, Why>
    ensures { SendsTo seat.old session.old seat.new session.new
        (W.contents to.old) (W.contents to.new) result }
{
    let owing = session.owed();
    write_some(session, &mut seat.may_write, to)?;
    session.release();
    Ok(Flushed {
        bytes: owing - session.owed(),
        was_interrupted: is_stuck(seat.may_write, owing, session.owed()),
        is_ready: is_ready(seat, session, owing),
    })
}

/// Visits the session with a number, when the clock says so many milliseconds: reads once, and answers.
pub(crate) fn visit_session<S: BatchStore, H: Handler<S>, A: Allocator + Copy, R: Read>(
    node: &mut Node<S>,
    handler: &mut H,
    waiting: &mut Waiting<A>,
    number: u64,
    clock: u64,
    session: &mut Session<A>,
    seat: &mut Seat,
    from: &mut R,
    piece: &mut [u8],
) -> Visit
    ensures visits { length piece.old ≡ READ_PIECE
        → VisitsSession clock node.old seat.old session.old node.new seat.new session.new
        (R.remaining from.old) (R.remaining from.new) result }
    ensures puts_off { IfSome (then_place result.then) (H.puts_off handler.new) }
    ensures keeps { H.keeps handler.old node.old handler.new node.new }
    ensures watches { length piece.old ≡ READ_PIECE
        → KeepsWatch number node.old waiting.old session.old node.new waiting.new session.new }
    ensures others { OthersWait number waiting.old.waits waiting.new.waits }
    ensures sleeps { length piece.old ≡ READ_PIECE → result.then ≡ Then.Idle → (most : ℕ) → WaitsFirst node.new session.new.held most
        → session.new.owed ≡ [] → IsSome (unnamed_at waiting.new.waits number) }
{
    let was_interrupted = match read_once(session, seat, from, piece) {
        Ok(was_interrupted) => was_interrupted,
        Err(why) => {
            return Visit {
                answered: 0,
                was_interrupted: false,
                then: Then::Over(why),
            };
        }
    };
    let before = session.answered();
    let now = Now {
        number,
        clock,
        has_ended: has_ended(seat),
    };
    let stop = session.turn(node, handler, waiting, now, MOST_OWED);
    session.release();
    Visit {
        answered: session.answered() - before,
        was_interrupted,
        then: what_then(seat, session, stop),
    }
}
