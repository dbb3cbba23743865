//! Laws of exchange: a copy that knows what was asked takes the delta of a copy that it agrees with, and
//! ends as if it had been merged with it.

ghost use Rattle.std.specs.Prelude.{◌≡◌, ◌↔◌, ℤ, []};
ghost use Rattle.cover_ranges.specs.Runs.{Runs, IsCanonical};
ghost use Rattle.content.specs.Content.{Content, IsContent};
ghost use Rattle.content.specs.Joins.{greater_start, join, FitsAt, Agree};
ghost use Rattle.deltas.specs.Deltas.{delta_of};
ghost use Rattle.deltas.specs.Patches.{patch};
ghost use Rattle.deltas.specs.Accepting.{sent_part, IsFor, Accepts};

/// The delta of x leaves of y their merge, if y knows what was asked. It is enough that the batches of x
/// fit y.
pub fn a_delta_is_a_merge()
    ensures fitting { (x y : Content) (asked : Runs) → IsContent x → IsCanonical asked → IsFor y asked
        → ((base : ℤ) → FitsAt (greater_start y x) x y base) → patch y (delta_of x asked) ≡ join y x }
    ensures agreeing { (x y : Content) (asked : Runs) → IsContent x → IsCanonical asked → IsFor y asked
        → Agree y x → patch y (delta_of x asked) ≡ join y x }
{}

/// A copy that agrees with x and knows what was asked may take the delta of x.
pub fn a_delta_of_one_that_agrees_is_accepted()
    ensures { (x y : Content) (asked : Runs) → IsContent x → IsCanonical asked → IsFor y asked
        → Agree y x → Accepts y (delta_of x asked) }
{}

/// The delta for which nothing was asked is all of x: any y may take it that may be merged with x, and
/// ends as that merge.
pub fn a_delta_for_which_nothing_was_asked_is_a_merge()
    ensures all_is_sent { (x : Content) → sent_part (delta_of x []) ≡ x }
    ensures merge { (x y : Content) → patch y (delta_of x []) ≡ join y x }
    ensures accepted { (x y : Content) → Accepts y (delta_of x []) ↔ Agree y x }
{}
