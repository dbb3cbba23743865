//! An id is one member's.

ghost use Rattle.std.specs.Prelude.{◌≡◌, ◌≤◌, ◌++◌, ℕ, ℤ, negsuc, List, None};
ghost use Rattle.group_coordinator.specs.declared.values.Settings.{Settings};
ghost use Rattle.group_coordinator.specs.Coordinators.{commit_fault};
ghost use Rattle.group_coordinator.specs.Members.{has_id};
ghost use Rattle.group_coordinator.specs.Runs.{Act, behind_all};
ghost use Rattle.coordinator_laws.specs.Ids.{tally_all, IsNobodys, WasGiven};
ghost use Rattle.coordinator_laws.specs.Standing.{IsServed};

/// Behind any acts: of all members of all groups at most one has this id.
pub fn an_id_is_one_members()
    ensures { (o : Settings) (acts : List Act) (id : List ℕ) → tally_all (has_id id) (behind_all o acts).groups ≤ 1 }
{}

/// An id that was given, and is nobody's behind some acts, is nobody's behind further ones: who left doesn't come back.
pub fn who_left_stays_gone()
    ensures { (o : Settings) (id : List ℕ) (later before : List Act)
        → WasGiven id (behind_all o before) → IsNobodys id (behind_all o before) → IsNobodys id (behind_all o (later ++ before)) }
{}

/// Of who left no commit is admitted that names a generation.
pub fn who_left_commits_nothing()
    ensures { (o : Settings) (id : List ℕ) (later before : List Act) (name : List ℕ) (generation : ℤ)
        → WasGiven id (behind_all o before) → IsNobodys id (behind_all o before)
        → IsServed (behind_all o (later ++ before)) name
        → commit_fault name generation id (behind_all o (later ++ before)) ≡ None → generation ≡ negsuc 0 }
{}
