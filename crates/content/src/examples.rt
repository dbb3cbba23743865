//! The definitions worked out on small contents. The functions do nothing: each clause is an example
//! whose outcome was found by hand.
#![tactic(auto, unfolding(crate::specs::ByOffset::put, cover_ranges::specs::Runs::with_range, crate::specs::Table::table_of, crate::specs::Joins::join, crate::specs::Verdicts::verdict))]

ghost use Rattle.std.specs.Prelude.{◌≡◌, ◌^◌, pos, [], ◌∷◌, true, Some, None};
ghost use Rattle.std.specs.FinMap.{get};
ghost use Rattle.batch_codec.specs.Offsets.{IsWhole};
ghost use Rattle.content.specs.declared.verdict.Verdict.TheVariants.{New, Repeat, OldEpoch, OutOfOrder};
ghost use Rattle.content.specs.Content.{empty, add, end, has_seen_all, shown_table, IsAcceptedStart};
ghost use Rattle.content.specs.Windows.{heads, producer_window};
ghost use Rattle.content.specs.Verdicts.{verdict};
ghost use Rattle.content.specs.Joins.{join, AgreeAt};
ghost use Rattle.content.specs.Cleaning.{clean, clean_report};
ghost use Rattle.content.specs.Parts.{part_of, clean_part, part_report};
ghost use Rattle.content.specs.Examples.{key_a, key_b, two, three, entry, batch_0, batch_1, batch_2, batch_3, other_0, only_0_seen, three_then_one, copy_of_three, cleaned_three, part_below_2, deleted_a, first_part_cleaned, cut_at_2, twice_a, thin_a, cleaned_twice_a, a_b_a_b, latest_a_b, five_and_one, sixth, copy_of_four, last_possible};

/// Deliveries in any order, and one that comes again.
pub fn deliveries()
    ensures sees_1_and_3 { three_then_one.cover ≡ (pos 1, pos 1) ∷ (pos 3, pos 3) ∷ [] }
    ensures keeps_both { three_then_one.kept ≡ batch_1 ∷ batch_3 ∷ [] }
    ensures knows_a_repeat { has_seen_all three_then_one batch_3 ≡ true }
    ensures b_is_3 { get (shown_table three_then_one) key_b ≡ three }
    ensures ends_at_4 { end three_then_one ≡ pos 4 }
{}

/// A tombstone stays where some offset before it was not seen.
pub fn cleaning_with_a_gap()
    ensures tombstone_stays { clean (pos 4) (pos 4) (add empty batch_2) ≡ add empty batch_2 }
    ensures report { clean_report (pos 4) (pos 4) (add empty batch_2)
        ≡ record { records = 0; tombstones = 0; batches = 0 } }
    ensures late_a_stays_deleted { get
        (shown_table (add (clean (pos 4) (pos 4) (add empty batch_2)) batch_0)) key_a ≡ None }
{}

/// A cleaned copy merged with one that holds what the cleaning took away.
pub fn a_deleted_key_stays_deleted()
    ensures only_b_stays { cleaned_three.kept ≡ batch_1 ∷ [] }
    ensures report { clean_report (pos 3) (pos 3) copy_of_three
        ≡ record { records = 1; tombstones = 1; batches = 2 } }
    ensures old_copy_brings_nothing_back { join cleaned_three (add empty batch_0) ≡ cleaned_three }
    ensures nor_in_other_order { join (add empty batch_0) cleaned_three ≡ cleaned_three }
    ensures a_is_deleted { get (shown_table cleaned_three) key_a ≡ None }
    ensures b_is_2 { get (shown_table cleaned_three) key_b ≡ two }
{}

/// A copy merged with itself stays as it is.
pub fn a_merge_with_itself()
    ensures same { join copy_of_three copy_of_three ≡ copy_of_three }
    ensures sees_all { copy_of_three.cover ≡ (pos 0, pos 2) ∷ [] }
{}

/// A batch of which a part is cleaned away keeps its head, and reaches another copy only by a merge.
pub fn a_thinned_batch()
    ensures report { clean_report (pos 2) (pos 0) (add empty twice_a)
        ≡ record { records = 1; tombstones = 0; batches = 0 } }
    ensures latest_record_stays { cleaned_twice_a.kept ≡ thin_a ∷ [] }
    ensures cannot_be_delivered { ¬ IsWhole thin_a }
    ensures merge_carries_it { join empty cleaned_twice_a ≡ cleaned_twice_a }
    ensures whole_copy_brings_nothing_back { join (add empty twice_a) cleaned_twice_a
        ≡ cleaned_twice_a }
    ensures a_is_2 { get (shown_table cleaned_twice_a) key_a ≡ two }
{}

/// A part keeps a tombstone while an older record of its key stands before the part. Otherwise that
/// record would show again.
pub fn a_tombstone_in_a_part()
    ensures tombstone_stays { clean_part (part_below_2 (pos 1) (pos 2)) deleted_a ≡ deleted_a }
    ensures reports_nothing { part_report (part_below_2 (pos 1) (pos 2)) deleted_a
        ≡ record { records = 0; tombstones = 0; batches = 0 } }
    ensures both_go_from_the_start { (clean_part (part_below_2 (pos 0) (pos 2)) deleted_a).kept ≡ [] }
    ensures report_from_the_start { part_report (part_below_2 (pos 0) (pos 2)) deleted_a
        ≡ record { records = 1; tombstones = 1; batches = 2 } }
    // Cleaned from 0 on, and then from 1 on: by then the older record is gone.
    ensures both_go_part_by_part { (clean_part (part_below_2 (pos 1) (pos 2)) first_part_cleaned).kept
        ≡ [] }
    ensures first_report { part_report (part_below_2 (pos 0) (pos 1)) deleted_a
        ≡ record { records = 1; tombstones = 0; batches = 1 } }
    ensures second_report { part_report (part_below_2 (pos 1) (pos 2)) first_part_cleaned
        ≡ record { records = 0; tombstones = 1; batches = 1 } }
{}

/// A batch is cleaned as a whole, or not at all.
pub fn reach()
    ensures bound_at_last_offset_cleans_nothing { clean (pos 3) (pos 0) (add empty a_b_a_b)
        ≡ add empty a_b_a_b }
    ensures reports_nothing { clean_report (pos 3) (pos 0) (add empty a_b_a_b)
        ≡ record { records = 0; tombstones = 0; batches = 0 } }
    ensures head_stays { (clean (pos 4) (pos 0) (add empty a_b_a_b)).kept ≡ latest_a_b ∷ [] }
    ensures report { clean_report (pos 4) (pos 0) (add empty a_b_a_b)
        ≡ record { records = 2; tombstones = 0; batches = 0 } }
    ensures offsets_stay_seen { (clean (pos 4) (pos 0) (add empty a_b_a_b)).cover
        ≡ (pos 0, pos 3) ∷ [] }
    ensures part_from_within_it_cleans_nothing { clean_part (part_of (pos 4) (pos 0) (pos 1) (pos 4))
        (add empty a_b_a_b) ≡ add empty a_b_a_b }
    ensures part_to_within_it_cleans_nothing { clean_part (part_of (pos 4) (pos 0) (pos 0) (pos 3))
        (add empty a_b_a_b) ≡ add empty a_b_a_b }
{}

/// A producer's newest five batches stay when they are empty, so that a retry is recognised.
pub fn retries()
    ensures report { clean_report (pos 6) (pos 0) five_and_one
        ≡ record { records = 5; tombstones = 0; batches = 0 } }
    // So these are also the heads of the cleaned copy, by which the verdicts below go.
    ensures empty_batches_stay { heads (clean (pos 6) (pos 0) five_and_one).kept
        ≡ heads five_and_one.kept }
    // A batch of producer 7 and epoch 0 with sequence number 0 comes again.
    ensures retry_is_recognised { verdict
        (producer_window (heads five_and_one.kept) (pos 7)) (pos 0) (pos 0) (pos 0)
        ≡ Repeat (pos 0) }
    ensures next_is_new { verdict
        (producer_window (heads five_and_one.kept) (pos 7)) (pos 0) (pos 5) (pos 0)
        ≡ New }
    // Sequence number 0 comes again after a sixth batch.
    ensures too_old_is_out_of_order { verdict
        (producer_window (heads (add five_and_one sixth).kept) (pos 7))
        (pos 0) (pos 0) (pos 0) ≡ OutOfOrder }
{}

/// Sequence numbers wrap, and an epoch begins with 0. The three numbers of an entry are a batch's
/// base, epoch and first sequence number; those of a verdict are its epoch, first sequence number
/// and last offset delta.
pub fn sequences()
    ensures any_first_sequence { verdict
        [] (pos 0) (pos 2147483647) (pos 0) ≡ New }
    ensures wraps_to_0 { verdict
        (entry (pos 0) (pos 0) (pos 2147483647) ∷ []) (pos 0) (pos 0) (pos 0) ≡ New }
    ensures new_epoch_must_begin_with_0 { verdict
        (entry (pos 1) (pos 0) (pos 0) ∷ []) (pos 1) (pos 3) (pos 0) ≡ OutOfOrder }
    ensures new_epoch { verdict
        (entry (pos 1) (pos 0) (pos 0) ∷ []) (pos 1) (pos 0) (pos 0) ≡ New }
    ensures old_epoch { verdict
        (entry (pos 2) (pos 1) (pos 0) ∷ []) (pos 0) (pos 0) (pos 0) ≡ OldEpoch }
{}

/// Copies of different logs may disagree: in a record, or in a batch's span, also where one of them
/// keeps no batch at all.
pub fn disagreement()
    ensures records { ¬ AgreeAt (add empty batch_0) (add empty other_0) (pos 0) }
    ensures span { ¬ AgreeAt (add empty twice_a) (add empty batch_0) (pos 0) }
    ensures span_alone { ¬ AgreeAt (add empty twice_a) only_0_seen (pos 0) }
    ensures span_alone_in_other_order { ¬ AgreeAt only_0_seen (add empty twice_a) (pos 0) }
{}

/// Where a copy's start may move to: not into a batch, and to the end, also past the last offset.
pub fn accepted_starts()
    ensures at_a_kept_batch { IsAcceptedStart (clean (pos 3) (pos 3) copy_of_four) (pos 3) }
    ensures not_where_none_is_kept { ¬ IsAcceptedStart
        (clean (pos 3) (pos 3) copy_of_four) (pos 2) }
    ensures not_into_a_batch { ¬ IsAcceptedStart (add empty a_b_a_b) (pos 2) }
    ensures ends_after_the_last_offset { end (add empty last_possible) ≡ pos (2 ^ 62) }
{}

/// After a cut at offset 2 nothing below it counts or comes back.
pub fn a_later_start()
    ensures sees_2_and_3 { cut_at_2.cover ≡ (pos 2, pos 3) ∷ [] }
    ensures b_is_3 { get (shown_table cut_at_2) key_b ≡ three }
    ensures tombstone_goes { clean_report (pos 4) (pos 4) cut_at_2
        ≡ record { records = 0; tombstones = 1; batches = 1 } }
    ensures nothing_below_2_returns { join (add empty batch_0) cut_at_2 ≡ cut_at_2 }
    ensures nor_in_other_order { join cut_at_2 (add empty batch_0) ≡ cut_at_2 }
{}
