//! What time does.

ghost use Rattle.std.specs.Prelude.{◌≡◌};
ghost use Rattle.std.specs.List.{AllByRecursion};
ghost use Rattle.group_coordinator.specs.Coordinators.{Groups};
ghost use Rattle.group_coordinator.specs.Times.{expire};
ghost use Rattle.coordinator_laws.specs.Soundness.{AreSound};
ghost use Rattle.coordinator_laws.specs.Waiting.{WaitsIn, IsBeforeNext};

/// Once what is over has expired, nobody waits beyond the end of a phase: who waits for the others, or for the leader,
/// does so in a phase that ends later than now.
pub fn nobody_waits_too_long()
    ensures { (v : Groups) → AreSound v → AllByRecursion (λ g. WaitsIn v.now g g.phase) (expire v).groups }
{}

/// Before the next time that is given nothing expires.
pub fn nothing_expires_before()
    ensures { (v : Groups) → AreSound v → IsBeforeNext v → expire v ≡ v }
{}
