//! The bytes that are owed to a client.

ghost use Rattle.std.specs.Prelude.{◌≡◌, ◌<◌, ◌≤◌, true, [], length, take, drop, IfOk, IfErr, IfSome, OnErr};
ghost use Rattle.std.specs.Io.KnownBytes.{Appends, Keeps};
ghost use Rattle.frame_fields.specs.Frames.{IsIncomplete};
ghost use Rattle.sessions.specs.Turns.{StopsFirst, WaitsFirst, next_place};
ghost use Rattle.sessions.specs.Steps.{AnswersDear, MatchCame};

use crate::handler::Handler;
use crate::replying::{Came, NextError, answer_held};
use broker_node::Node;
use bytes::BytesMut;
use segment::BatchStore;
use std::alloc::Allocator;
use std::io::{Result as IoResult, Write};
use std::marker::Model;
use std::mem::swap;

/// The room that an empty buffer keeps, in bytes; what it has beyond goes back.
const KEPT_ROOM: usize = 4_096;

/// The room that any buffer keeps, in bytes, however little of it is used.
const SPARE_ROOM: usize = 131_072;

/// Whether some bytes take so little of a buffer's room that they are put into a buffer of their own size.
pub(crate) fn is_small_part(bytes: usize, room: usize) -> bool {
    room > SPARE_ROOM && bytes < room / 4
}

/// Replies that are owed: what is being sent, how much of it is, and what follows. Where all was sent the
/// two change places, so no byte is moved.
#[derive(Drop)]
pub(crate) struct Outbox<A: Allocator + Copy> {
    alloc: A,
    sending: Vec<u8, A>,
    sent: usize,
    behind: Vec<u8, A>,
}

impl<A: Allocator + Copy> Model for Outbox<A> {
    ghost use Rattle.std.specs.Prelude.{ℕ, ◌≤◌, List, ◌++◌, length, drop};

    ghost Value = { List ℕ };

    ghost view = { λ o. drop o.sent o.sending.items ++ o.behind.items };

    ghost invariant = { λ o. o.sent ≤ length o.sending.items };
}

impl<A: Allocator + Copy> Outbox<A> {
    /// One in which nothing is owed. It takes no memory.
    pub(crate) fn new(alloc: A) -> Outbox<A>
        ensures { result ≡ [] }
    {
        Outbox {
            alloc,
            sending: Vec::new(alloc),
            sent: 0,
            behind: Vec::new(alloc),
        }
    }

    /// How many bytes are owed.
    pub(crate) fn len(&self) -> usize
        ensures { result ≡ length self.now }
    {
        self.sending.len() - self.sent + self.behind.len()
    }

    /// How many bytes of memory its buffers take. What was sent of a buffer is still there.
    pub(crate) fn room(&self) -> usize
        ensures { length self.now ≤ result }
    {
        self.sending.len().saturating_add(self.behind.len())
    }

    /// Answers the first frame that is held, as [`answer_held`] does: its reply is owed behind what was.
    pub(crate) fn answer<S: BatchStore, H: Handler<S>>(
        &mut self,
        node: &mut Node<S>,
        handler: &mut H,
        held: &mut BytesMut<A>,
        may_wait: bool,
    ) -> Result<Came, NextError>
        ensures answers { IfOk result (λ came. MatchCame came
            (λ dear. AnswersDear dear may_wait node.old node.new held.old.items held.new.items
            self.old self.new)
            ((node.new ≡ node.old) × (held.new ≡ held.old) × (self.new ≡ self.old)
            × IsIncomplete held.new.items)
            (λ most. (node.new ≡ node.old) × (held.new ≡ held.old) × (self.new ≡ self.old)
            × ((may_wait ≡ true) × ((0 < most)
            × WaitsFirst node.old held.old.items most)))) }
        ensures stops { IfErr result (StopsFirst held.old.items) }
        ensures unchanged_on_error { OnErr result ((node.new ≡ node.old)
            × (held.new ≡ held.old) × (self.new ≡ self.old)) }
        ensures puts_off { IfErr result (λ why. IfSome (next_place why) (H.puts_off handler.new)) }
        ensures keeps { H.keeps handler.old node.old handler.new node.new }
    {
        answer_held(node, handler, held, &mut self.behind, may_wait)
    }

    /// Makes one write, of the front of what is owed, and gives how many bytes left.
    ///
    /// # Errors
    ///
    /// The writer's: all is owed that was.
    pub(crate) fn send<W: Write>(&mut self, to: &mut W) -> IoResult<usize>
        ensures sends { IfOk result (λ count. (count ≤ length self.old)
            × Appends (W.contents to.old) (W.contents to.new) (take count self.old)
            × (self.new ≡ drop count self.old)) }
        ensures unchanged_on_error { OnErr result ((self.new ≡ self.old)
            × Keeps (W.contents to.old) (W.contents to.new)) }
    {
        self.turn_over();
        let count = to.write(&self.sending[self.sent..])?;
        self.sent += count;
        Ok(count)
    }

    /// Where all was sent, what follows is what is sent next, and the room of what was sent is kept only
    /// where it is small.
    pub(crate) fn turn_over(&mut self)
        ensures { self.new ≡ self.old }
    {
        if self.sent < self.sending.len() {
            return;
        }
        swap(&mut self.sending, &mut self.behind);
        self.sent = 0;
        self.behind.clear();
        if self.behind.capacity() > KEPT_ROOM {
            self.behind = Vec::new(self.alloc);
        }
    }

    /// Gives back room of which little is used. Where memory lacks for a smaller buffer, it stays.
    pub(crate) fn release(&mut self)
        ensures { self.new ≡ self.old }
    {
        self.turn_over();
        let left = self.sending.len() - self.sent;
        if is_small_part(left, self.sending.len()) {
            self.drop_sent();
        }
    }

    /// Moves what is being sent, without its front that was, to a buffer of its size, if there is memory for one.
    fn drop_sent(&mut self)
        ensures { self.new ≡ self.old }
    {
        if let Ok(sending) = Vec::from_slice(self.alloc, &self.sending[self.sent..]) {
            self.sending = sending;
            self.sent = 0;
        }
    }
}
