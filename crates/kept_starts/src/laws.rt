//! Laws of starts, over the definitions alone. The functions do nothing: what they ensure is the law.

ghost use Rattle.std.specs.Prelude.{◌≡◌, List, Some, length};
ghost use Rattle.broker_state.specs.State.{ConfigValue, State, new_state};
ghost use Rattle.broker_state.specs.Sound.{IsSound};
ghost use Rattle.exact_replies.specs.SameHeld.{AskForTheSame, HoldTheSame};
ghost use Rattle.snapshots.specs.declared.writing.SnapshotId.{SnapshotId};
ghost use Rattle.snapshots.specs.Heads.{snapshot_said};
ghost use Rattle.state_snapshots.specs.Snapshots.{AreCounted, snapshot_bytes, state_head, state_said};
ghost use Rattle.state_snapshots.specs.Restoring.{IsRestored};
ghost use Rattle.kept_starts.specs.Growth.{HoldsMore};

/// What was written of a broker is restored in a broker that was set up otherwise, but for the same role: that holds the same where
/// the same topics and partitions are asked for, in whatever order, wherever clients reach it; and where more of them are asked
/// for it holds all of it, and what it has beside that is empty.
pub fn what_was_written_is_restored_elsewhere()
    ensures same { (id : SnapshotId) (s after : State) (g : ConfigValue) → IsSound s → AreCounted s
        → AskForTheSame g s.config
        → IsRestored (snapshot_said (state_said id.number s)) (Some (snapshot_bytes id s))
        (length (state_head id s)) (new_state g) after → HoldTheSame s after }
    ensures more { (id : SnapshotId) (s after : State) (g : ConfigValue) → IsSound s → AreCounted s
        → s.config.role ≡ g.role
        → IsRestored (snapshot_said (state_said id.number s)) (Some (snapshot_bytes id s))
        (length (state_head id s)) (new_state g) after → HoldsMore s after }
{}
