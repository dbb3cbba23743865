//! The definitions worked out on small contents. The functions do nothing: each clause is an example
//! whose outcome was found by hand.
#![tactic(auto, unfolding(content::specs::ByOffset::put, cover_ranges::specs::Runs::with_range, content::specs::Table::table_of, content::specs::Joins::join, crate::specs::Patches::patch))]

ghost use Rattle.std.specs.Prelude.{◌≡◌, pos, true, false, [], ◌∷◌};
ghost use Rattle.std.specs.FinMap.{get};
ghost use Rattle.content.specs.Content.{empty, add, cut, shown_table};
ghost use Rattle.content.specs.Joins.{join};
ghost use Rattle.content.specs.Examples.{key_a, key_b, two, batch_0, batch_1, batch_2, batch_3, copy_of_three, copy_of_four};
ghost use Rattle.deltas.specs.Entries.{sent};
ghost use Rattle.deltas.specs.Entries.Entry.{Listed, Sent};
ghost use Rattle.deltas.specs.Deltas.{delta_of};
ghost use Rattle.deltas.specs.Patches.{patch};
ghost use Rattle.deltas.specs.Accepting.{IsFor, is_for, AcceptsAt};
ghost use Rattle.deltas.specs.Examples.{zero_and_one, copy_of_two, delta_of_four, delta_of_cleaned, wrong_delta, later_copy};

/// A copy has offsets 0 and 1 and asks for these; then it takes batch 2 too.
pub fn the_newer_half()
    ensures lists_what_was_asked { delta_of_four.entries
        ≡ Listed (pos 0) (pos 0 ∷ []) ∷ Listed (pos 1) (pos 1 ∷ []) ∷ Sent batch_2 ∷ Sent batch_3 ∷ [] }
    ensures sends_the_others { sent delta_of_four.entries ≡ batch_2 ∷ batch_3 ∷ [] }
    ensures is_a_merge { patch copy_of_two delta_of_four ≡ join copy_of_two copy_of_four }
    ensures is_a_merge_later { patch copy_of_three delta_of_four ≡ join copy_of_three copy_of_four }
    ensures not_for_one_that_lacks_1 { ¬ IsFor (add empty batch_0) zero_and_one }
{}

/// What the sender has cleaned away goes, also where it was asked.
pub fn a_cleaned_sender()
    ensures has_one_entry { delta_of_cleaned.entries ≡ Listed (pos 1) (pos 1 ∷ []) ∷ [] }
    ensures only_1_is_held { (patch copy_of_two delta_of_cleaned).kept ≡ batch_1 ∷ [] }
    ensures sees_0_to_2 { (patch copy_of_two delta_of_cleaned).cover ≡ (pos 0, pos 2) ∷ [] }
    ensures b_is_2 { get (shown_table (patch copy_of_two delta_of_cleaned)) key_b ≡ two }
{}

/// A list that goes past the batch that the receiver keeps is refused, with its base.
pub fn a_list_past_its_batch()
    ensures is_at_fault { ¬ AcceptsAt copy_of_two wrong_delta (pos 0) }
    ensures also_later { ¬ AcceptsAt copy_of_three wrong_delta (pos 0) }
{}

/// Offsets below a copy's start are known, whoever asked for them. The greater start counts.
pub fn starts()
    ensures below_the_receivers_start_is_known { is_for later_copy zero_and_one ≡ true }
    ensures nothing_below_it_returns { patch later_copy delta_of_four ≡ later_copy }
    ensures a_later_sender_drops_what_lies_below { patch copy_of_two (delta_of later_copy zero_and_one)
        ≡ later_copy }
    // Nothing of offset 0 would be sent; still it isn't known.
    ensures below_the_senders_start_is_not { is_for empty zero_and_one ≡ false }
    ensures a_list_across_the_start_is_at_fault { ¬ AcceptsAt (cut (pos 1) copy_of_four) wrong_delta (pos 0) }
{}
