//! How the requests of sessions are handled.

use broker_node::Node;
use broker_state::Place;
use request_frames::Request;
use segment::BatchStore;
use std::alloc::Allocator;

/// Why a request isn't handled. Nothing was done.
#[derive(Clone, Copy)]
pub enum Unhandled {
    /// There is no memory for its response, or for a note.
    OutOfMemory,
    /// It is put off: it may change the partition at this place, which may not change yet.
    PutOff(Place),
}

/// Who handles the requests of sessions: the broker alone ([`Plainly`]), or one that notes what was handled.
pub trait Handler<S: BatchStore> {
    ghost use Rattle.std.specs.Prelude.{◌≡◌, pos, length, IfErr, IfSome, OnOk, OnErr};
    ghost use Rattle.frame_fields.specs.Frames.{IsWithinLimit};
    ghost use Rattle.request_frames.specs.Requests.{IsRequest};
    ghost use Rattle.request_frames.specs.Views.{request_value};
    ghost use Rattle.broker_state.specs.declared.place.Place.{Place};
    ghost use Rattle.broker_state.specs.State.{State};
    ghost use Rattle.broker_node.specs.Answers.{RespondsTo};
    ghost use Rattle.sessions.specs.Turns.{unhandled_place};

    /// What may have become of it and of the broker by requests that were handled.
    ghost keeps: { Self → State → Self → State → Type 0 };

    /// What holds of the place of a partition for which it puts a request off.
    ghost puts_off: { Self → Place → Type 0 };

    /// Handles a request, which a frame says, as [`Node::handle`](broker_node::Node::handle) does.
    ///
    /// # Errors
    ///
    /// Those of [`Unhandled`]. Then nothing was done.
    fn handle<A: Allocator + Copy>(
        &mut self,
        node: &mut Node<S>,
        frame: &[u8],
        request: &Request<'_>,
        out: &mut Vec<u8, A>,
    ) -> Result<(), Unhandled>
        ensures responds { OnOk result (RespondsTo node.old (request_value request.now)
            out.old.items out.new.items node.new) }
        ensures unchanged_on_error { OnErr result
            ((node.new ≡ node.old) × (out.new.items ≡ out.old.items)) }
        ensures puts_off { IfErr result (λ why. IfSome (unhandled_place why) (puts_off self.new)) }
        ensures keeps { IsRequest frame.now (request_value request.now)
            → IsWithinLimit (pos (length frame.now))
            → keeps self.old node.old self.new node.new };

    /// By no request nothing does.
    ghost none_handled: { (h : Self) (s : State) → keeps h s h s };

    /// By some requests, and others behind them, what by all of them does.
    ghost others_handled: { (h i j : Self) (s mid after : State)
        → keeps h s i mid → keeps i mid j after → keeps h s j after };
}

/// The broker alone handles requests. Nothing is noted, and none is put off.
#[derive(Clone, Copy, PartialEq, Eq)]
pub struct Plainly;

impl<S: BatchStore> Handler<S> for Plainly {
    ghost use Rattle.std.specs.Prelude.{⊤};

    ghost keeps = { λ h s i after. ⊤ };

    ghost puts_off = { λ h place. ⊥ };

    ghost none_handled = { λ h s. tt };

    ghost others_handled = { λ h i j s mid after first others. tt };

    fn handle<A: Allocator + Copy>(
        &mut self,
        node: &mut Node<S>,
        _frame: &[u8],
        request: &Request<'_>,
        out: &mut Vec<u8, A>,
    ) -> Result<(), Unhandled> {
        match node.handle(request, out) {
            Ok(_) => Ok(()),
            Err(_) => Err(Unhandled::OutOfMemory),
        }
    }
}
