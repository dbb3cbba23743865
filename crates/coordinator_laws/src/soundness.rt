//! Groups are sound.

ghost use Rattle.std.specs.Prelude.{List};
ghost use Rattle.group_coordinator.specs.declared.values.Settings.{Settings};
ghost use Rattle.group_coordinator.specs.Runs.{Act, behind_all};
ghost use Rattle.coordinator_laws.specs.Soundness.{AreSound};

/// Behind any acts: no group is without members, and no two groups have one name. Some protocol is known to all
/// members of a group. Where a generation stands, all members were told of it, none joins, its leader is a member,
/// and all know the protocol that it follows; who waits for the leader does so while it gives the parts, and the
/// leader doesn't. Where members join, not all have joined, but before the first generation.
pub fn groups_are_sound()
    ensures { (o : Settings) (acts : List Act) → AreSound (behind_all o acts) }
{}
