//! Laws of snapshots, over the definitions alone. The functions do nothing: what they ensure is the law.

ghost use Rattle.std.specs.Prelude.{◌≡◌, ◌+◌, ◌++◌, ℕ, ℤ, List, length, Option, Some};
ghost use Rattle.broker_state.specs.State.{State};
ghost use Rattle.broker_state.specs.Sound.{IsSound};
ghost use Rattle.snapshots.specs.declared.writing.SnapshotId.{SnapshotId};
ghost use Rattle.snapshots.specs.Heads.{SnapshotValue, StartsWithHead, snapshot_said};
ghost use Rattle.state_snapshots.specs.Snapshots.{AreCounted, IsReadable, images_of, snapshot_bytes, state_head, state_said};
ghost use Rattle.state_snapshots.specs.Restoring.{IsRestored};

/// The head that is read of a snapshot, from a front of its bytes, is the one that was written, and the images
/// follow it.
pub fn the_head_of_a_snapshot()
    ensures says { (id : SnapshotId) (s : State) (h : SnapshotValue) (key : Option ℤ) (front rest more : List ℕ)
        → IsReadable id s → StartsWithHead h key front rest
        → front ++ more ≡ snapshot_bytes id s → h ≡ snapshot_said (state_said id.number s) }
    ensures keyed { (id : SnapshotId) (s : State) (h : SnapshotValue) (key : Option ℤ) (front rest more : List ℕ)
        → IsReadable id s → StartsWithHead h key front rest
        → front ++ more ≡ snapshot_bytes id s → key ≡ Some id.key }
    ensures ends { (id : SnapshotId) (s : State) (h : SnapshotValue) (key : Option ℤ) (front rest more : List ℕ)
        → IsReadable id s → StartsWithHead h key front rest
        → front ++ more ≡ snapshot_bytes id s
        → length front ≡ length (state_head id s) + length rest }
{}

/// What was written of a broker is read back: from the images behind its head, in any broker of the same
/// configuration, comes what it held.
pub fn what_was_written_is_restored()
    ensures { (id : SnapshotId) (s before after : State) → IsSound s → AreCounted s → IsSound before
        → before.config ≡ s.config
        → IsRestored (snapshot_said (state_said id.number s)) (Some (snapshot_bytes id s))
        (length (state_head id s)) before after → after ≡ s }
{}

/// The same of the head that is read of the snapshot, and of the offset that follows it there.
pub fn a_snapshot_is_read_back()
    ensures { (id : SnapshotId) (s before after : State) (h : SnapshotValue) (key : Option ℤ) (front rest more : List ℕ)
        (at : ℕ) → IsSound s → AreCounted s → IsReadable id s → IsSound before
        → before.config ≡ s.config → StartsWithHead h key front rest
        → front ++ more ≡ snapshot_bytes id s → at + length rest ≡ length front
        → IsRestored h (Some (snapshot_bytes id s)) at before after → after ≡ s }
{}
