//! Who is told that nothing happens, and whose commits are admitted.

ghost use Rattle.std.specs.Prelude.{◌≡◌, ◌↔◌, ℕ, ℤ, List, Some, None};
ghost use Rattle.group_coordinator.specs.Coordinators.{Groups, asked, commit_fault};
ghost use Rattle.group_coordinator.specs.Requests.Reply.{Done};
ghost use Rattle.group_coordinator.specs.Requests.Request.{Heartbeat};
ghost use Rattle.coordinator_laws.specs.Standing.{IsServed, IsUndisturbed, IsAdmissible};

/// A heartbeat is told that nothing happens just where it is of a member that was told of its group's generation, by
/// its number, and nobody joins anew: nobody sleeps through a rebalance.
pub fn heartbeats_are_done()
    ensures { (session : ℕ) (client name : List ℕ) (generation : ℤ) (id : List ℕ) (v : Groups)
        → (asked session client (Heartbeat name generation id) v).reply ≡ Some Done
        ↔ (IsServed v name × IsUndisturbed v name generation id) }
{}

/// A commit is admitted just where it names no generation, and the group has no members; or where it is of a member
/// that was told of its group's generation, by its number, and the leader has given the parts.
pub fn commits_are_admitted()
    ensures { (name : List ℕ) (generation : ℤ) (id : List ℕ) (v : Groups) → IsServed v name
        → commit_fault name generation id v ≡ None ↔ IsAdmissible v name generation id }
{}
