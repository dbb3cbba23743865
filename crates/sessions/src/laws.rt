//! The law of one order.

ghost use Rattle.broker_state.specs.State.{State};
ghost use Rattle.std.specs.Prelude.{List};
ghost use Rattle.sessions.specs.Orders.{Event, World, Run, IsOneOrder, new_world};

/// Whatever sessions are opened, visited and closed, in whatever order: all frames that were answered are
/// one list, answered one after the other; of it each client has its own frames, what it was sent and is
/// owed is the replies to them, and what came of it is those frames and what is held.
pub fn many_clients_are_one_list()
    ensures { (s : State) (events : List Event) (now : World)
        → Run (new_world s) events now → IsOneOrder s events now }
{}
