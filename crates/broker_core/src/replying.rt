//! The complete frames among the bytes that a session holds, answered in turn.

ghost use Rattle.std.specs.Prelude.{◌≡◌, ◌+◌, ◌^◌, ◌<◌, length, MatchBool, IfOk, IfErr, OnOk};
ghost use Rattle.frame_fields.specs.Frames.{IsIncomplete};
ghost use Rattle.broker_core.specs.SessionSteps.{AnswersFront, StopsNext, StopsWithin};

use crate::session::SessionError;
use bytes::BytesMut;
use segment::BatchStore;
use sessions::{Next, NextError, Node, Plainly, answer_first};
use std::alloc::Allocator;
use std::io::Write;
use streams::Sink;

/// Answers the first frame, which has the number `index`, and tells whether it was complete.
#[tactic(auto, using(crate::proofs::ServedFrames::first_answered, crate::proofs::ServedFrames::frame_stops, crate::proofs::ServedFrames::memory_stops, crate::proofs::ServedFrames::write_stops))]
fn answer_next<S: BatchStore, W: Write, A: Allocator + Copy>(
    node: &mut Node<S>,
    buffer: &mut BytesMut<A>,
    index: u64,
    sink: &mut Sink<W>,
    out: &mut Vec<u8, A>,
) -> Result<bool, SessionError>
    ensures answers { IfOk result (λ more. MatchBool more
        (AnswersFront node.old node.new sink.old sink.new
        buffer.old.items buffer.new.items index (index + 1))
        ((node.new ≡ node.old) × (sink.new ≡ sink.old)
        × (buffer.new ≡ buffer.old) × IsIncomplete buffer.new.items)) }
    ensures stops { IfErr result (StopsNext node.old node.new sink.old sink.new
        buffer.old.items index) }
{
    out.clear();
    match answer_first(node, &mut Plainly, buffer, out, false) {
        Ok(Next::Answered) => {}
        Ok(Next::Short) => return Ok(false),
        // None may wait.
        Ok(Next::Waits(_)) => return Ok(false),
        Err(NextError::Frame(why)) => return Err(SessionError::Frame { index, why }),
        // None is put off.
        Err(NextError::OutOfMemory | NextError::PutOff(_)) => {
            return Err(SessionError::OutOfMemory);
        }
    }
    let Ok(()) = sink.send(out) else {
        return Err(SessionError::Write);
    };
    Ok(true)
}

/// Answers each complete frame, the first of which has the number `first`. Gives the number of the
/// incomplete one that is left.
#[tactic(auto, using(crate::proofs::ServedFrames::front_none, crate::proofs::ServedFrames::front_then, crate::proofs::ServedFrames::less_is_held, crate::proofs::ServedFrames::stops_then))]
pub(crate) fn answer_held<S: BatchStore, W: Write, A: Allocator + Copy>(
    node: &mut Node<S>,
    buffer: &mut BytesMut<A>,
    first: u64,
    sink: &mut Sink<W>,
    out: &mut Vec<u8, A>,
) -> Result<u64, SessionError>
    requires fits { first + length buffer.old.items < 2 ^ 64 }
    ensures answers { IfOk result (λ index. AnswersFront node.old node.new sink.old sink.new
        buffer.old.items buffer.new.items first index) }
    ensures incomplete { OnOk result (IsIncomplete buffer.new.items) }
    ensures stops { IfErr result (StopsWithin node.old node.new sink.old sink.new
        buffer.old.items first) }
{
    let mut index = first;
    while answer_next(node, buffer, index, sink, out)? {
        index += 1;
    }
    Ok(index)
}
