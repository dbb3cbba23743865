//! Laws of the records of a patch, by any valid delta that the copy may take.

ghost use Rattle.std.specs.Prelude.{◌≡◌, ◌⊎◌, ℤ, List, true, Some};
ghost use Rattle.std.specs.List.{list_any};
ghost use Rattle.std.specs.Ordering.{int_eq};
ghost use Rattle.batch_codec.specs.Values.{RecordValue};
ghost use Rattle.cover_ranges.specs.Runs.{covers};
ghost use Rattle.content.specs.Records.{record_at};
ghost use Rattle.content.specs.Content.{Content, IsContent};
ghost use Rattle.content.specs.Joins.{slot_at};
ghost use Rattle.content.specs.Joins.Slot.{Gone};
ghost use Rattle.deltas.specs.Entries.{sent};
ghost use Rattle.deltas.specs.Deltas.{Delta, IsDelta};
ghost use Rattle.deltas.specs.Patches.{said_at, patch};
ghost use Rattle.deltas.specs.Patches.Said.{Lists};
ghost use Rattle.deltas.specs.Accepting.{IsKnown, HasListed, Accepts};

/// No record comes back that a side has seen and dropped: a record of the patch at an offset that the
/// copy has seen is the copy's, and one at an offset that the sender has seen is sent or listed.
pub fn no_dropped_record_comes_back()
    ensures receiver { (c : Content) (e : Delta) (o : ℤ) (r : RecordValue)
        → IsContent c → IsDelta e → Accepts c e → record_at (patch c e).kept o ≡ Some r
        → covers c.cover o ≡ true → record_at c.kept o ≡ Some r }
    ensures sender { (c : Content) (e : Delta) (o : ℤ) (r : RecordValue)
        → IsContent c → IsDelta e → Accepts c e → record_at (patch c e).kept o ≡ Some r
        → covers e.cover o ≡ true → HasListed e o ⊎ (record_at (sent e.entries) o ≡ Some r) }
{}

/// A record that is sent is held after, unless its offset was known. An offset that is listed was known,
/// unless the copy has dropped the batch that lists it.
pub fn nothing_is_lost()
    ensures sent_is_held { (c : Content) (e : Delta) (o : ℤ) (r : RecordValue)
        → IsContent c → IsDelta e → Accepts c e → record_at (sent e.entries) o ≡ Some r
        → ¬ IsKnown c o → record_at (patch c e).kept o ≡ Some r }
    ensures listed_is_known { (c : Content) (e : Delta) (base o : ℤ) (offsets : List ℤ)
        → IsContent c → IsDelta e → Accepts c e → said_at e base ≡ Lists offsets
        → list_any (λ q. int_eq q o) offsets ≡ true → ¬ (slot_at c base ≡ Gone) → IsKnown c o }
{}
