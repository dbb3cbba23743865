//! Laws of copies: what may happen to a copy of a log leaves it a copy of that log.

ghost use Rattle.std.specs.Prelude.{◌≡◌, ◌^◌, ℤ, pos, ◌≤ℤ◌, List, [], ◌∷◌, ◌++◌, Some};
ghost use Rattle.batch_codec.specs.Values.{BatchValue};
ghost use Rattle.batch_codec.specs.Offsets.{first_offset};
ghost use Rattle.content.specs.ByOffset.{look_up};
ghost use Rattle.content.specs.Content.{Content, IsContent, IsAcceptedStart, empty, add, cut};
ghost use Rattle.content.specs.declared.part.CleaningPart.{CleaningPart};
ghost use Rattle.content.specs.Cleaning.{clean};
ghost use Rattle.content.specs.Parts.{clean_part};
ghost use Rattle.content.specs.Joins.{join, Agree};
ghost use Rattle.content.specs.Logs.{IsPlainLog, IsBoundary};
ghost use Rattle.content.specs.Copies.{IsCopy};

/// A copy that has seen nothing is a copy of each log.
pub fn an_empty_copy_is_a_copy()
    ensures content { IsContent empty }
    ensures copy { (log : List BatchValue) → IsPlainLog log → IsCopy empty log }
{}

/// A copy that a batch of its log is delivered to stays a copy of that log.
pub fn adding_leaves_a_copy()
    ensures { (c : Content) (b : BatchValue) (log : List BatchValue)
        → IsContent c → IsPlainLog log → IsCopy c log
        → look_up first_offset (first_offset b) log ≡ Some b → IsCopy (add c b) log }
{}

/// A copy that is cleaned, with any bounds, stays a copy of its log.
pub fn cleaning_leaves_a_copy()
    ensures { (upto tomb_before : ℤ) (c : Content) (log : List BatchValue)
        → IsContent c → IsPlainLog log → IsCopy c log → IsCopy (clean upto tomb_before c) log }
{}

/// A copy of which a part is cleaned, with any bounds, stays a copy of its log.
pub fn cleaning_a_part_leaves_a_copy()
    ensures { (p : CleaningPart) (c : Content) (log : List BatchValue)
        → IsContent c → IsPlainLog log → IsCopy c log → IsCopy (clean_part p c) log }
{}

/// A copy whose start moves to where its log may start, or to any start that is accepted of it, stays
/// a copy of its log.
pub fn cutting_leaves_a_copy()
    ensures at_a_boundary { (c : Content) (start : ℤ) (log : List BatchValue)
        → IsContent c → IsPlainLog log → IsCopy c log → IsBoundary log start
        → c.start ≤ℤ start → start ≤ℤ pos (2 ^ 62) → IsCopy (cut start c) log }
    ensures at_an_accepted_start { (c : Content) (start : ℤ) (log : List BatchValue)
        → IsContent c → IsPlainLog log → IsCopy c log → IsAcceptedStart c start
        → IsCopy (cut start c) log }
{}

/// A copy of a log is a copy of the log with one batch more at its end.
pub fn a_growing_log_keeps_its_copies()
    ensures { (c : Content) (log : List BatchValue) (b : BatchValue)
        → IsContent c → IsPlainLog (log ++ b ∷ []) → IsCopy c log → IsCopy c (log ++ b ∷ []) }
{}

/// Two copies of one log can be merged: they agree.
pub fn copies_of_one_log_agree()
    ensures { (a b : Content) (log : List BatchValue) → IsContent a → IsContent b → IsPlainLog log
        → IsCopy a log → IsCopy b log → Agree a b }
{}

/// The merge of two copies of a log is a copy of that log.
pub fn merging_leaves_a_copy()
    ensures { (a b : Content) (log : List BatchValue) → IsContent a → IsContent b → IsPlainLog log
        → IsCopy a log → IsCopy b log → IsCopy (join a b) log }
{}
