//! Laws of deltas in bytes, over the definitions alone. The functions do nothing: what they ensure is the
//! law.

ghost use Rattle.std.specs.Prelude.{◌≡◌, ℕ, ◌≤◌, ℤ, pos, List, [], ◌∷◌, length, Some};
ghost use Rattle.cover_ranges.specs.Runs.{Runs};
ghost use Rattle.copy_images.specs.declared.layout.TheConstants.{MAX_COUNT};
ghost use Rattle.copy_images.specs.Reading.{IsBytes};
ghost use Rattle.deltas.specs.Entries.{Entry};
ghost use Rattle.deltas.specs.Entries.Entry.{Listed};
ghost use Rattle.deltas.specs.Deltas.{Delta, IsDelta};
ghost use Rattle.delta_bytes.specs.declared.error.BodyError.{BodyError};
ghost use Rattle.delta_bytes.specs.declared.error.DeltaError.{DeltaError};
ghost use Rattle.delta_bytes.specs.Deltas.{delta_encoding, first_encoding, delta_with, IsDeltaOf};
ghost use Rattle.delta_bytes.specs.Fronts.{Refuses};
ghost use Rattle.delta_bytes.specs.Reading.{delta_at};
ghost use Rattle.delta_bytes.specs.EntryBytes.{entry_bytes, IsNext};
ghost use Rattle.delta_bytes.specs.RangeLists.{IsRangeList};
ghost use Rattle.delta_bytes.specs.Faults.{HasBody, BodyFault};

/// At most one entry stands at the front of bytes, and so one rest.
pub fn one_entry()
    ensures { (low high : ℤ) (x y : Entry) (bytes : List ℕ) → (at : IsNext low x bytes)
        → (other : IsNext high y bytes) → (x ≡ y) × (at.rest ≡ other.rest) }
{}

/// At most one list of ranges does.
pub fn one_list_of_ranges()
    ensures { (behind after : ℕ) (bytes : List ℕ) (a b : Runs) (rest other : List ℕ)
        → IsRangeList behind bytes a rest → IsRangeList after bytes b other
        → (a ≡ b) × (rest ≡ other) }
{}

/// Bytes are the body of at most one delta: the same ranges, the same asked ones, the same entries.
pub fn one_body()
    ensures { (start : ℤ) (bytes : List ℕ) (runs asked others other_asked : Runs)
        (more other : List ℕ) (xs ys : List Entry) → HasBody start bytes runs asked more xs
        → HasBody start bytes others other_asked other ys
        → (runs ≡ others) × (asked ≡ other_asked) × (xs ≡ ys) }
{}

/// Bytes have one first fault, and none where they are a body.
pub fn one_fault()
    ensures one { (start : ℤ) (bytes : List ℕ) (e f : BodyError) → BodyFault start bytes e
        → BodyFault start bytes f → e ≡ f }
    ensures none { (start : ℤ) (bytes : List ℕ) (runs asked : Runs) (more : List ℕ)
        (entries : List Entry) (e : BodyError) → HasBody start bytes runs asked more entries
        → BodyFault start bytes e → ⊥ }
{}

/// A valid delta whose ranges and entries can be counted has bytes.
pub fn every_delta_has_bytes()
    ensures { (e : Delta) → IsDelta e → length e.cover ≤ MAX_COUNT → length e.asked ≤ MAX_COUNT
        → length e.entries ≤ MAX_COUNT → IsDeltaOf (delta_encoding e) e }
{}

/// Such a delta whose sender starts at 0 has bytes of version 0 beside them.
pub fn a_delta_from_0_has_bytes_of_version_0()
    ensures { (e : Delta) → IsDelta e → e.start ≡ pos 0 → length e.cover ≤ MAX_COUNT
        → length e.asked ≤ MAX_COUNT → length e.entries ≤ MAX_COUNT → IsDeltaOf (first_encoding e) e }
{}

/// The delta that says nothing, byte for byte.
pub fn the_bytes_of_an_empty_delta()
    ensures { delta_encoding (delta_with (pos 0) [] [] [])
        ≡ 75 ∷ 68 ∷ 76 ∷ 84 ∷ 0 ∷ 1 ∷ 0 ∷ 0 ∷ 0 ∷ 0 ∷ 0 ∷ 0 ∷ 0 ∷ 0 ∷ 0 ∷ 0 ∷ 0 ∷ 0 ∷ 0 ∷ 0 ∷
        0 ∷ 0 ∷ 0 ∷ 0 ∷ 0 ∷ 0 ∷ 35 ∷ 27 ∷ 152 ∷ 109 ∷ [] }
{}

/// Its bytes of version 0, of which no delta has fewer.
pub fn the_bytes_of_version_0_of_an_empty_delta()
    ensures { first_encoding (delta_with (pos 0) [] [] [])
        ≡ 75 ∷ 68 ∷ 76 ∷ 84 ∷ 0 ∷ 0 ∷ 0 ∷ 0 ∷ 0 ∷ 0 ∷ 0 ∷ 0 ∷ 0 ∷ 0 ∷ 0 ∷ 0 ∷ 0 ∷ 0 ∷ 204 ∷ 119 ∷
        95 ∷ 130 ∷ [] }
{}

/// An entry that lists the offsets 5 and 7 of a batch with base 5, byte for byte.
pub fn an_entry_of_two_offsets()
    ensures { entry_bytes (Listed (pos 5) (pos 5 ∷ pos 7 ∷ []))
        ≡ 0 ∷ 0 ∷ 0 ∷ 0 ∷ 0 ∷ 0 ∷ 0 ∷ 0 ∷ 5 ∷ 0 ∷ 0 ∷ 0 ∷ 2 ∷ 0 ∷ 0 ∷ 0 ∷ 0 ∷ 0 ∷ 0 ∷ 0 ∷ 5 ∷
        0 ∷ 0 ∷ 0 ∷ 0 ∷ 0 ∷ 0 ∷ 0 ∷ 7 ∷ [] }
{}

/// Bytes are one delta at most.
pub fn one_delta()
    ensures { (bytes : List ℕ) (e f : Delta) → IsDeltaOf bytes e → IsDeltaOf bytes f → e ≡ f }
{}

/// Bytes are refused for one first fault.
pub fn one_refusal()
    ensures { (bytes : List ℕ) (e f : DeltaError) → Refuses bytes e → Refuses bytes f → e ≡ f }
{}

/// No fault stands in a delta.
pub fn a_delta_is_not_refused()
    ensures { (bytes : List ℕ) (e : Delta) (f : DeltaError) → IsDeltaOf bytes e
        → Refuses bytes f → ⊥ }
{}

/// What is read of bytes is the delta of which they are an encoding; of other bytes it is nothing.
pub fn reading_is_exact()
    ensures reads { (bytes : List ℕ) (e : Delta) → IsDeltaOf bytes e → delta_at bytes ≡ Some e }
    ensures reads_only_deltas { (bytes : List ℕ) (e : Delta) → IsBytes bytes
        → delta_at bytes ≡ Some e → IsDeltaOf bytes e }
{}
