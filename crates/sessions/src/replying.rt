//! The first frame that is held, answered.

ghost use Rattle.std.specs.Prelude.{◌≡◌, ◌<◌, true, false, pos, length, IfOk, IfErr, IfNone, IfSome, OnErr};
ghost use Rattle.frame_fields.specs.Frames.{IsIncomplete, IsWithinLimit};
ghost use Rattle.request_frames.specs.Views.{request_value};
ghost use Rattle.sessions.specs.Turns.{AnswersFirst, MatchNext, StopsFirst, WaitsFirst, next_place};
ghost use Rattle.fetch_waits.specs.Waiting.{body_waits};
ghost use Rattle.sessions.specs.Steps.{AnswersDear, AnswersFrame, BodyWaits, FrameWaits, MatchCame, MatchHandled, StopsAnswer};

use crate::handler::{Handler, Unhandled};
use broker_node::{Node, is_dear};
use broker_state::Place;
use bytes::BytesMut;
use fetch_waits::fetch_waits;
use frame_fields::{FrameError, SIZE_BYTES, first_frame};
use request_frames::{Request, RequestBody, parse};
use segment::BatchStore;
use std::alloc::Allocator;

/// What came of the first frame that is held.
#[derive(Drop)]
pub enum Next {
    /// It was answered, and left.
    Answered,
    /// It isn't complete.
    Short,
    /// It is a Fetch that waits, for so many milliseconds at the most.
    Waits(u32),
}

/// What came of the first frame that is held, where it counts whether it is dear.
#[derive(Drop)]
pub(crate) enum Came {
    /// It was answered, and left; and whether it is dear.
    Answered(bool),
    /// It isn't complete.
    Short,
    /// It is a Fetch that waits, for so many milliseconds at the most.
    Waits(u32),
}

/// What came of a frame.
#[derive(Drop)]
enum Handled {
    /// It was answered; and whether it is dear.
    Answered(bool),
    /// It is a Fetch that waits, for so many milliseconds at the most.
    Waits(u32),
}

/// Why the first frame that is held isn't answered.
#[derive(Drop)]
pub enum NextError {
    /// It is refused: its size, or what stands in it.
    Frame(FrameError),
    /// There is no memory for its response.
    OutOfMemory,
    /// It is put off: it may change the partition at this place, which may not change yet.
    PutOff(Place),
}

/// Handles the first frame that is held, if it is complete: it leaves what is held, and its reply, if it
/// has one, stands behind the output. Where it may wait, and is a Fetch that waits in what the broker holds
/// now, nothing is done. The handler is asked for each request that is handled.
///
/// # Errors
///
/// The frame is refused, there is no memory for its response, or the handler puts it off. Then nothing was
/// done: the broker, what is held and the output are as before.
#[tactic(auto, using(crate::proofs::Turning::first_waits))]
pub fn answer_first<S: BatchStore, H: Handler<S>, A: Allocator + Copy, B: Allocator + Copy>(
    node: &mut Node<S>,
    handler: &mut H,
    held: &mut BytesMut<A>,
    out: &mut Vec<u8, B>,
    may_wait: bool,
) -> Result<Next, NextError>
    ensures answers { IfOk result (λ next. MatchNext next
        (AnswersFirst may_wait node.old node.new held.old.items held.new.items
        out.old.items out.new.items)
        ((node.new ≡ node.old) × (held.new ≡ held.old) × (out.new ≡ out.old)
        × IsIncomplete held.new.items)
        (λ most. (node.new ≡ node.old) × (held.new ≡ held.old) × (out.new ≡ out.old)
        × ((may_wait ≡ true) × ((0 < most) × WaitsFirst node.old held.old.items most)))) }
    ensures stops { IfErr result (StopsFirst held.old.items) }
    ensures unchanged_on_error { OnErr result ((node.new ≡ node.old) × (held.new ≡ held.old)
        × (out.new.items ≡ out.old.items)) }
    ensures puts_off { IfErr result (λ why. IfSome (next_place why) (H.puts_off handler.new)) }
    ensures keeps { H.keeps handler.old node.old handler.new node.new }
{
    match answer_held(node, handler, held, out, may_wait)? {
        Came::Answered(_) => Ok(Next::Answered),
        Came::Short => Ok(Next::Short),
        Came::Waits(most) => Ok(Next::Waits(most)),
    }
}

/// Handles the first frame that is held, if it is complete, as [`answer_first`] does, and tells whether it is dear.
#[tactic(auto, using(crate::proofs::Turning::first_waits))]
pub(crate) fn answer_held<S: BatchStore, H: Handler<S>, A: Allocator + Copy, B: Allocator + Copy>(
    node: &mut Node<S>,
    handler: &mut H,
    held: &mut BytesMut<A>,
    out: &mut Vec<u8, B>,
    may_wait: bool,
) -> Result<Came, NextError>
    ensures answers { IfOk result (λ came. MatchCame came
        (λ dear. AnswersDear dear may_wait node.old node.new held.old.items held.new.items
        out.old.items out.new.items)
        ((node.new ≡ node.old) × (held.new ≡ held.old) × (out.new ≡ out.old)
        × IsIncomplete held.new.items)
        (λ most. (node.new ≡ node.old) × (held.new ≡ held.old) × (out.new ≡ out.old)
        × ((may_wait ≡ true) × ((0 < most) × WaitsFirst node.old held.old.items most)))) }
    ensures stops { IfErr result (StopsFirst held.old.items) }
    ensures unchanged_on_error { OnErr result ((node.new ≡ node.old) × (held.new ≡ held.old)
        × (out.new.items ≡ out.old.items)) }
    ensures puts_off { IfErr result (λ why. IfSome (next_place why) (H.puts_off handler.new)) }
    ensures keeps { H.keeps handler.old node.old handler.new node.new }
{
    let frame = match first_frame(held.as_slice()) {
        Ok(Some(frame)) => frame,
        Ok(None) => return Ok(Came::Short),
        Err(why) => return Err(NextError::Frame(why)),
    };
    let whole = SIZE_BYTES + frame.len();
    let is_dear = match answer(node, handler, frame, out, may_wait)? {
        Handled::Answered(is_dear) => is_dear,
        Handled::Waits(most) => return Ok(Came::Waits(most)),
    };
    held.advance(whole);
    Ok(Came::Answered(is_dear))
}

/// How long a request waits at the most, in milliseconds, if it may, and is a Fetch that waits.
fn wait_of<S: BatchStore>(node: &Node<S>, request: &Request<'_>, may_wait: bool) -> Option<u32>
    ensures waits { IfSome result (λ most. (may_wait ≡ true) × ((0 < most)
        × BodyWaits node.now (request_value request.now).body most)) }
    ensures waits_not { IfNone result (may_wait ≡ true
        → body_waits node.now (request_value request.now).body ≡ false) }
{
    match &request.body {
        RequestBody::Fetch(asked) if may_wait && fetch_waits(node.state(), asked) => {
            Some(asked.max_wait_ms.unsigned_abs())
        }
        _ => None,
    }
}

/// Handles a frame, and puts its reply, if it has one, behind the output. Where it may wait, and does,
/// nothing is done.
fn answer<S: BatchStore, H: Handler<S>, B: Allocator + Copy>(
    node: &mut Node<S>,
    handler: &mut H,
    frame: &[u8],
    out: &mut Vec<u8, B>,
    may_wait: bool,
) -> Result<Handled, NextError>
    ensures answers { IfOk result (λ handled. MatchHandled handled
        (λ dear. AnswersFrame dear may_wait node.old node.new frame.now
        out.old.items out.new.items)
        (λ most. (node.new ≡ node.old) × (out.new ≡ out.old) × ((may_wait ≡ true)
        × ((0 < most) × FrameWaits node.old frame.now most)))) }
    ensures stops { IfErr result (StopsAnswer frame.now) }
    ensures unchanged_on_error { OnErr result
        ((node.new ≡ node.old) × (out.new.items ≡ out.old.items)) }
    ensures puts_off { IfErr result (λ why. IfSome (next_place why) (H.puts_off handler.new)) }
    ensures keeps { IsWithinLimit (pos (length frame.now))
        → H.keeps handler.old node.old handler.new node.new }
{
    let request = match parse(frame) {
        Ok(request) => request,
        Err(why) => return Err(NextError::Frame(why)),
    };
    if let Some(most) = wait_of(node, &request, may_wait) {
        return Ok(Handled::Waits(most));
    }
    match handler.handle(node, frame, &request, out) {
        Ok(_) => Ok(Handled::Answered(is_dear(&request.body))),
        Err(Unhandled::OutOfMemory) => Err(NextError::OutOfMemory),
        Err(Unhandled::PutOff(place)) => Err(NextError::PutOff(place)),
    }
}
