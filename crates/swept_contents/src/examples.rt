//! The definitions worked out on a small content: a=1, b=2, a deleted, at offsets 0, 1, 2. The functions do nothing:
//! each clause is an example whose outcome was found by hand.
#![tactic(auto, unfolding(content::specs::ByOffset::put, cover_ranges::specs::Runs::with_range))]

ghost use Rattle.std.specs.Prelude.{◌≡◌, pos, true, false, Some, None};
ghost use Rattle.content.specs.Examples.{key_a, key_b, copy_of_three, cleaned_three};
ghost use Rattle.swept_contents.specs.Swept.{IsSwept, IsSettled, is_before, newest_dirty};

/// Below 2 nothing is superseded by what lies below 2. Below 3 a=1 is, until the copy is cleaned.
pub fn settled_below_2()
    ensures below_2 { IsSettled (pos 2) copy_of_three }
    ensures not_below_3 { ¬ IsSettled (pos 3) copy_of_three }
    ensures nor_swept_below_1_for_3 { ¬ IsSwept (pos 1) (pos 3) copy_of_three }
    ensures below_3_when_cleaned { IsSettled (pos 3) cleaned_three }
{}

/// A map of what is dirty, from 2 on below 3, has a at 2 and no b: so a=1 is superseded, and b=2 and the deletion aren't.
pub fn a_map_of_what_is_dirty()
    ensures has_a { newest_dirty (pos 2) (pos 3) copy_of_three (Some key_a) ≡ Some (pos 2) }
    ensures has_no_b { newest_dirty (pos 2) (pos 3) copy_of_three (Some key_b) ≡ None }
    ensures a_is_superseded { is_before (pos 0) (newest_dirty (pos 2) (pos 3) copy_of_three (Some key_a)) ≡ true }
    ensures b_is_not { is_before (pos 1) (newest_dirty (pos 2) (pos 3) copy_of_three (Some key_b)) ≡ false }
    ensures the_deletion_is_not { is_before (pos 2) (newest_dirty (pos 2) (pos 3) copy_of_three (Some key_a)) ≡ false }
{}
