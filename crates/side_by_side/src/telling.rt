//! What tells a copy of the batches of another.

use delta_bytes::entries::EntryView;

/// What a copy is told of batches that another keeps: entries, one after another, by rising base offset.
pub trait Telling: Sized + Drop {
    ghost use Rattle.std.specs.Prelude.{◌≡◌, ◌<◌, ℕ, List, drop, length, is_some, IfSome};
    ghost use Rattle.std.specs.Option.{option_map};
    ghost use Rattle.deltas.specs.Entries.{Entry};
    ghost use Rattle.delta_bytes.specs.EntryViews.{IsValidEntry, entry_of};
    ghost use Rattle.side_by_side.specs.Steps.{first_entry};

    /// These entries are left.
    ghost tells: { Self → List Entry → Type 0 };

    /// A number that gets less with each entry that is passed.
    ghost left: { Self → ℕ };

    /// Whether an entry is left. Takes no memory.
    fn has_entry(&self) -> bool
        requires { (entries : List Entry) × tells self.now entries }
        ensures { (entries : List Entry) → tells self.now entries
            → result ≡ is_some (first_entry entries) };

    /// The entry that comes next, if there is one. Takes no memory.
    fn first(&self) -> Option<EntryView<'_>>
        requires { (entries : List Entry) × tells self.now entries }
        ensures first { (entries : List Entry) → tells self.now entries
            → option_map entry_of result ≡ first_entry entries }
        ensures valid { IfSome result (λ e. IsValidEntry (entry_of e)) };

    /// Passes the entry that comes next. Takes no memory.
    fn pass(&mut self)
        requires { (entries : List Entry) × tells self.old entries × (0 < length entries) }
        ensures passes { (entries : List Entry) → tells self.old entries
            → tells self.new (drop 1 entries) }
        ensures shorter { left self.new < left self.old };
}
