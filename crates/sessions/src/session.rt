//! The session of one client.

ghost use Rattle.std.specs.Prelude.{◌≡◌, ◌⊎◌, ◌<◌, ◌≤◌, ◌&&◌, ℕ, None, length, not, drop, MatchBool, MatchOption, IfOk, IfErr, IfSome, IsSome, OnErr};
ghost use Rattle.std.specs.Io.KnownBytes.{Keeps, IsAtEnd};
ghost use Rattle.frame_fields.specs.Frames.{IsIncomplete};
ghost use Rattle.request_frames.specs.Requests.{key_of, version_of};
ghost use Rattle.sessions.specs.Turns.{HasFirst, StopsNext, WaitsFirst, is_over, new_session, next_place};
ghost use Rattle.sessions.specs.Waiting.{unnamed_at};
ghost use Rattle.sessions.specs.Asleep.{KeepsWatch, OthersWait};
ghost use Rattle.sessions.specs.Steps.{AnswersNext, FailsToReceive, IsLeftOff, MatchCame, Receives, Sends, TurnsUntil, WaitsNext, stop_place};

use crate::handler::Handler;
use crate::outbox::{Outbox, is_small_part};
use crate::replying::{Came, NextError};
use crate::waiting::Waiting;
use broker_node::Node;
use bytes::BytesMut;
use frame_fields::first_frame;
use segment::BatchStore;
use std::alloc::Allocator;
use std::io::{ErrorKind, Read, Result as IoResult, Write};
use std::marker::Model;

/// A client's session: the bytes that came and aren't answered, the replies that are owed and aren't sent,
/// how many frames were answered, and until when the first one that is held waits.
#[derive(Drop)]
pub struct Session<A: Allocator + Copy> {
    alloc: A,
    held: BytesMut<A>,
    /// How many bytes the buffer of what is held had room for at the most.
    room: usize,
    owed: Outbox<A>,
    answered: u64,
    due: Option<u128>,
}

/// What a turn is told of its session and of the time.
#[derive(Clone, Copy)]
pub(crate) struct Now {
    /// The number of the session.
    pub(crate) number: u64,
    /// What the clock says, in milliseconds.
    pub(crate) clock: u64,
    /// Whether the input has ended.
    pub(crate) has_ended: bool,
}

/// Why a turn stopped.
#[derive(Drop)]
pub(crate) enum Stop {
    /// No complete frame is held.
    Short,
    /// As much is owed as may be.
    Full,
    /// The last frame that was answered is dear, and another is held.
    Dear,
    /// The first frame that is held waits.
    Waits,
    /// The first frame that is held isn't answered.
    Over(NextError),
}

/// Why nothing was received.
#[derive(Drop)]
pub(crate) enum ReceiveError {
    /// The read failed.
    Read(ErrorKind),
    /// There is no memory for what came.
    OutOfMemory,
}

impl<A: Allocator + Copy> Model for Session<A> {
    ghost use Rattle.sessions.specs.Turns.{SessionState};

    ghost Value = { SessionState };

    ghost view = { λ s. record {
      held = s.held.items;
      owed = s.owed;
      answered = s.answered;
      due = s.due;
    } };
}

impl<A: Allocator + Copy> Session<A> {
    /// A new session. It takes no memory.
    pub(crate) fn new(alloc: A) -> Session<A>
        ensures { result ≡ new_session }
    {
        Session {
            alloc,
            held: BytesMut::new(alloc),
            room: 0,
            owed: Outbox::new(alloc),
            answered: 0,
            due: None,
        }
    }

    /// How many bytes came and aren't answered.
    pub fn held(&self) -> usize
        ensures { result ≡ length self.now.held }
    {
        self.held.len()
    }

    /// How many bytes are owed.
    pub fn owed(&self) -> usize
        ensures { result ≡ length self.now.owed }
    {
        self.owed.len()
    }

    /// How many bytes of memory are kept for what is held and owed: behind a visit or a send less than four times as much, or no
    /// more than 131,072 bytes for either, unless memory lacked.
    pub fn kept(&self) -> usize
        ensures held { length self.now.held ≤ result }
        ensures owed { length self.now.owed ≤ result }
    {
        let held = self.room.max(self.held.len());
        held.saturating_add(self.owed.room())
    }

    /// How many frames were answered: the number of the first one that is held, from 0.
    pub fn answered(&self) -> u64
        ensures { result ≡ self.now.answered }
    {
        self.answered
    }

    /// Until when the first frame that is held waits, in milliseconds, once it was found to.
    pub fn due(&self) -> Option<u128>
        ensures { result ≡ self.now.due }
    {
        self.due
    }

    /// Whether the first frame that is held may wait: the input hasn't ended, and no time is over.
    fn may_wait(&self, now: Now) -> bool
        ensures { result ≡ (not now.has_ended && not (is_over now.clock self.now.due)) }
    {
        let is_over = match self.due {
            Some(due) => due <= u128::from(now.clock),
            None => false,
        };
        !now.has_ended && !is_over
    }

    /// The key and the version of the first frame that is held, if they are there.
    pub fn header(&self) -> Option<(i16, i16)>
        ensures { MatchOption result (length self.now.held < 8) (λ header. (8 ≤ length self.now.held)
            × (key_of (drop 4 self.now.held) ≡ header.0)
            × (version_of (drop 4 self.now.held) ≡ header.1)) }
    {
        let numbers = self.held.as_slice().first_chunk::<8>()?;
        let [_, _, _, _, key, more_key, version, more_version] = *numbers;
        Some((
            i16::from_be_bytes([key, more_key]),
            i16::from_be_bytes([version, more_version]),
        ))
    }

    /// Whether no complete frame is held, so that more has to come.
    pub(crate) fn is_short(&self) -> bool
        ensures { MatchBool result (IsIncomplete self.now.held) (HasFirst self.now.held) }
    {
        matches!(first_frame(self.held.as_slice()), Ok(None))
    }

    /// Makes one read into a piece, which isn't empty, puts what came behind what is held, and gives how many
    /// bytes that were: 0 only at the end of input.
    ///
    /// # Errors
    ///
    /// The reader's; out of memory for what came, which is lost. The session is as it was.
    pub(crate) fn receive<R: Read>(
        &mut self,
        from: &mut R,
        piece: &mut [u8],
    ) -> Result<usize, ReceiveError>
        ensures receives { IfOk result (Receives self.old self.new
            (R.remaining from.old) (R.remaining from.new)) }
        ensures bound { IfOk result (λ n. n ≤ length piece.old) }
        ensures none_only_at_end { IfOk result (λ n. 0 < length piece.old → n ≡ 0
            → IsAtEnd (R.remaining from.new)) }
        ensures fails { IfErr result
            (FailsToReceive (R.remaining from.old) (R.remaining from.new)) }
        ensures unchanged_on_error { OnErr result (self.new ≡ self.old) }
    {
        let count = match from.read(piece) {
            Ok(count) => count,
            Err(why) => return Err(ReceiveError::Read(why.kind())),
        };
        match self.held.extend_from_slice(&piece[..count]) {
            Ok(()) => {
                self.room = self.room.max(self.held.capacity());
                Ok(count)
            }
            Err(_) => Err(ReceiveError::OutOfMemory),
        }
    }

    /// Answers complete frames in order, until none is left, the first one waits, so many bytes are
    /// owed, or one was dear.
    #[tactic(auto, using(crate::proofs::Turning::turning_none, crate::proofs::Turning::turning_then, crate::proofs::Turning::turn_stops, crate::proofs::Turning::less_is_held, crate::proofs::Turning::not_put_off, crate::proofs::Turning::none_put_off))]
    pub(crate) fn turn<S: BatchStore, H: Handler<S>>(
        &mut self,
        node: &mut Node<S>,
        handler: &mut H,
        waiting: &mut Waiting<A>,
        now: Now,
        most_owed: usize,
    ) -> Stop
        ensures turns { TurnsUntil most_owed now.clock now.has_ended node.old self.old node.new
            self.new result }
        ensures puts_off { IfSome (stop_place result) (H.puts_off handler.new) }
        ensures keeps { H.keeps handler.old node.old handler.new node.new }
        ensures watches { KeepsWatch now.number node.old waiting.old self.old node.new waiting.new self.new }
        ensures others { OthersWait now.number waiting.old.waits waiting.new.waits }
        ensures sleeps { result ≡ Stop.Waits → IsSome (unnamed_at waiting.new.waits now.number) }
    {
        while self.owed.len() < most_owed {
            // Called for its contract alone: of a sound broker it is known what a request leaves.
            node.state().know_sound();
            let noted = waiting.note(node, self.held.as_slice());
            match self.answer_next(node, handler, now) {
                Ok(Came::Answered(is_dear)) => {
                    waiting.pass(node, now.number, noted);
                    if is_dear {
                        return self.leave_off(most_owed);
                    }
                }
                Ok(Came::Short) => return Stop::Short,
                Ok(Came::Waits(_)) => return self.wait(node, waiting, now.number),
                Err(why) => return Stop::Over(why),
            }
        }
        Stop::Full
    }

    /// Why a turn stops behind a frame that is dear.
    fn leave_off(&self, most_owed: usize) -> Stop
        ensures stops { IsLeftOff most_owed self.now result }
        ensures puts_off { stop_place result ≡ None }
    {
        if self.owed.len() >= most_owed {
            return Stop::Full;
        }
        if self.is_short() {
            return Stop::Short;
        }
        Stop::Dear
    }

    /// Has the first frame that is held wait for its partitions. Without memory for that it can't be
    /// answered.
    fn wait<S: BatchStore>(&self, node: &Node<S>, waiting: &mut Waiting<A>, number: u64) -> Stop
        ensures stops { (result ≡ Stop.Waits) ⊎ (result ≡ Stop.Over NextError.OutOfMemory) }
        ensures watches { (most : ℕ) → WaitsFirst node.now self.now.held most
            → KeepsWatch number node.now waiting.old self.now node.now waiting.new self.now }
        ensures others { OthersWait number waiting.old.waits waiting.new.waits }
        ensures sleeps { result ≡ Stop.Waits → IsSome (unnamed_at waiting.new.waits number) }
    {
        let Some(due) = self.due else {
            return Stop::Over(NextError::OutOfMemory);
        };
        match waiting.join(node, number, due, self.held.as_slice()) {
            Ok(()) => Stop::Waits,
            Err(_) => Stop::Over(NextError::OutOfMemory),
        }
    }

    /// Answers the first frame that is held, if it is complete and doesn't wait.
    #[tactic(auto, using(crate::proofs::Turning::turn_first, crate::proofs::Turning::waits_next))]
    fn answer_next<S: BatchStore, H: Handler<S>>(
        &mut self,
        node: &mut Node<S>,
        handler: &mut H,
        now: Now,
    ) -> Result<Came, NextError>
        ensures answers { IfOk result (λ came. MatchCame came
            (λ dear. AnswersNext dear now.has_ended (is_over now.clock self.old.due)
            node.old self.old node.new self.new)
            ((node.new ≡ node.old) × (self.new ≡ self.old) × IsIncomplete self.new.held)
            (WaitsNext now.clock now.has_ended node.old self.old node.new self.new)) }
        ensures stops { IfErr result (StopsNext self.old) }
        ensures unchanged_on_error { OnErr result
            ((node.new ≡ node.old) × (self.new ≡ self.old)) }
        ensures puts_off { IfErr result (λ why. IfSome (next_place why) (H.puts_off handler.new)) }
        ensures keeps { H.keeps handler.old node.old handler.new node.new }
    {
        let Some(answered) = self.answered.checked_add(1) else {
            return Err(NextError::OutOfMemory);
        };
        let may_wait = self.may_wait(now);
        let came = self.owed.answer(node, handler, &mut self.held, may_wait)?;
        match came {
            Came::Answered(_) => {
                self.answered = answered;
                self.due = None;
            }
            Came::Short => {}
            Came::Waits(most) => {
                let until = u128::from(now.clock) + u128::from(most);
                self.due = Some(self.due.unwrap_or(until));
            }
        }
        Ok(came)
    }

    /// Makes one write, of the front of what is owed, and gives how many bytes left.
    ///
    /// # Errors
    ///
    /// The writer's: all is owed that was.
    pub(crate) fn send<W: Write>(&mut self, to: &mut W) -> IoResult<usize>
        ensures sends { IfOk result (Sends self.old self.new
            (W.contents to.old) (W.contents to.new)) }
        ensures unchanged_on_error { OnErr result ((self.new ≡ self.old)
            × Keeps (W.contents to.old) (W.contents to.new)) }
    {
        self.owed.send(to)
    }

    /// Gives back room of which little is used by what is held and owed. Where memory lacks for a smaller buffer, it stays.
    pub(crate) fn release(&mut self)
        ensures { self.new ≡ self.old }
    {
        self.owed.release();
        if self.held.is_empty() {
            self.held = BytesMut::new(self.alloc);
            self.room = 0;
        } else if is_small_part(self.held.len(), self.room) {
            self.hold_anew();
        }
    }

    /// Moves what is held to a buffer of its size, if there is memory for one.
    fn hold_anew(&mut self)
        ensures { self.new ≡ self.old }
    {
        if let Ok(held) = BytesMut::copy_from_slice(self.alloc, self.held.as_slice()) {
            self.held = held;
            self.room = self.held.capacity();
        }
    }
}
