//! Each request has one reply.

ghost use Rattle.std.specs.Prelude.{◌≡◌, ◌≤◌, ◌+◌, ◌∷◌, ◌++◌, ℕ, List, Some, false};
ghost use Rattle.group_coordinator.specs.declared.values.Settings.{Settings};
ghost use Rattle.group_coordinator.specs.Coordinators.{Groups, gone};
ghost use Rattle.group_coordinator.specs.Groups.{JoinReply};
ghost use Rattle.group_coordinator.specs.Requests.Reply.{Joined};
ghost use Rattle.group_coordinator.specs.Runs.{Act, after, replied, behind_all};
ghost use Rattle.coordinator_laws.specs.Telling.{AllInTurn, TellsOf, TellAlike};
ghost use Rattle.coordinator_laws.specs.Replies.{AllAskWhileFree, count_asked, count_replied, count_waiting, is_end};

/// Where who waits asks nothing: in a session at most one request waits, or has a reply that is ready, over all
/// members and refusals.
pub fn a_request_waits_once()
    ensures { (o : Settings) (acts : List Act) → AllAskWhileFree o acts → (session : ℕ)
        → count_waiting session (behind_all o acts) ≤ 1 }
{}

/// Where who waits asks nothing: what waits in a session behind an act and what was replied by it add up to what
/// waited before it and what was asked by it, but for the end of the session itself. So each request has one reply,
/// none is lost, and nobody else gets it.
pub fn each_request_has_one_reply()
    ensures { (o : Settings) (a : Act) (before : List Act) → AllAskWhileFree o (a ∷ before) → (session : ℕ)
        → is_end session a ≡ false
        → count_waiting session (after a (behind_all o before)) + count_replied session a (behind_all o before)
        ≡ count_waiting session (behind_all o before) + count_asked session a }
{}

/// Behind its end nothing waits in a session.
pub fn an_end_leaves_nothing()
    ensures { (session : ℕ) (v : Groups) → count_waiting session (gone session v) ≡ 0 }
{}

/// Where nothing is ready when something is asked or expires: a reply to a join tells of the generation that stands, by
/// its number, its protocol and its leader.
pub fn joins_tell_of_a_generation()
    ensures { (o : Settings) (a : Act) (before : List Act) → AllInTurn o (a ∷ before) → (r : JoinReply)
        → replied a (behind_all o before) ≡ Some (Joined r) → TellsOf r (behind_all o (a ∷ before)) }
{}

/// Two replies that tell of one generation tell the same protocol and the same leader, whenever they do.
pub fn all_are_told_the_same()
    ensures { (o : Settings) (later before : List Act) (r s : JoinReply)
        → TellsOf r (behind_all o before) → TellsOf s (behind_all o (later ++ before))
        → s.generation ≡ r.generation → TellAlike r s }
{}
