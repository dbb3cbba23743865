//! Laws of what a copy knows: the offsets that it has seen, and those below its start.

ghost use Rattle.std.specs.Prelude.{◌≡◌, ◌↔◌, ℤ, ◌≤ℤ◌, false, IsTrue};
ghost use Rattle.cover_ranges.specs.Runs.{Runs};
ghost use Rattle.batch_codec.specs.Values.{BatchValue};
ghost use Rattle.content.specs.Content.{Content, IsContent, add, cut};
ghost use Rattle.content.specs.declared.part.CleaningPart.{CleaningPart};
ghost use Rattle.content.specs.Cleaning.{clean};
ghost use Rattle.content.specs.Parts.{clean_part};
ghost use Rattle.content.specs.Joins.{join};
ghost use Rattle.deltas.specs.Deltas.{Delta};
ghost use Rattle.deltas.specs.Patches.{patch};
ghost use Rattle.deltas.specs.Accepting.{IsKnown, IsFor, HasUnknown, is_for};

/// What a copy knows it knows after anything that may happen to it. So an answer to what it asked
/// earlier is for it later, too.
pub fn what_is_known_stays_known()
    ensures adding { (c : Content) (b : BatchValue) (o : ℤ) → IsKnown c o → IsKnown (add c b) o }
    ensures cleaning { (upto tomb_before : ℤ) (c : Content) (o : ℤ) → IsKnown c o
        → IsKnown (clean upto tomb_before c) o }
    ensures cleaning_a_part { (p : CleaningPart) (c : Content) (o : ℤ) → IsKnown c o
        → IsKnown (clean_part p c) o }
    ensures cutting { (c : Content) (start o : ℤ) → c.start ≤ℤ start → IsKnown c o
        → IsKnown (cut start c) o }
    ensures merging { (a b : Content) (o : ℤ) → IsKnown a o → IsKnown (join a b) o }
    ensures merging_in_other_order { (a b : Content) (o : ℤ) → IsKnown b o → IsKnown (join a b) o }
    ensures patching { (c : Content) (e : Delta) (o : ℤ) → IsKnown c o → IsKnown (patch c e) o }
{}

/// Whether all that was asked is known is decided by the runs of what the copy has seen, one asked range
/// after another. Where it isn't, there is an offset that was asked and is not known.
pub fn what_is_asked_is_judged_by_runs()
    ensures known { (c : Content) (asked : Runs) → IsContent c → IsTrue (is_for c asked) ↔ IsFor c asked }
    ensures unknown { (c : Content) (asked : Runs) → IsContent c → is_for c asked ≡ false
        → HasUnknown c asked }
{}
