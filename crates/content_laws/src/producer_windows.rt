//! Laws of producers' windows.

ghost use Rattle.std.specs.Prelude.{◌≡◌, ℤ, pos, ◌+ℤ◌, ◌≤ℤ◌, Bool, true, List, [], ◌∷◌, ◌++◌, if◌then◌else◌};
ghost use Rattle.std.specs.List.{filter, fold, list_all};
ghost use Rattle.std.specs.Ordering.{int_eq};
ghost use Rattle.batch_codec.specs.declared.head.BatchHead.{BatchHead};
ghost use Rattle.batch_codec.specs.Values.{BatchValue};
ghost use Rattle.cover_ranges.specs.Runs.{Runs, covers, IsCanonical};
ghost use Rattle.content.specs.ByOffset.{Rises};
ghost use Rattle.content.specs.Content.{Content, IsContent, add, cut, IsAcceptedStart};
ghost use Rattle.content.specs.declared.part.CleaningPart.{CleaningPart};
ghost use Rattle.content.specs.Cleaning.{clean};
ghost use Rattle.content.specs.Parts.{clean_part};
ghost use Rattle.content.specs.Logs.{IsPlainLog, heads_inside};
ghost use Rattle.content.specs.Copies.{IsCopy};
ghost use Rattle.content.specs.Verdicts.{verdict_on};
ghost use Rattle.content.specs.LegalLogs.{IsNew, IsLeaderCopy};
ghost use Rattle.content.specs.Windows.{heads, is_in_window, window, producer_window, entry_of, with_entry, heads_from, EpochsNeverFall};

/// One batch more, behind all others, is one step of its producer's window, and none of another's.
pub fn window_of_one_more()
    ensures { (low p : ℤ) (hs : List BatchHead) (h : BatchHead)
        → Rises (λ x. x.base) low (hs ++ h ∷ []) → pos 0 ≤ℤ p
        → producer_window (hs ++ h ∷ []) p ≡ (if int_eq h.producer p
        then with_entry (producer_window hs p) (entry_of h)
        else producer_window hs p) }
{}

/// One pass over a producer's batches by rising base offset, each one entry more, gives its window.
pub fn one_pass_gives_the_window()
    ensures { (low p : ℤ) (hs : List BatchHead) → Rises (λ x. x.base) low hs → pos 0 ≤ℤ p
        → fold (λ w h. with_entry w (entry_of h)) [] (filter (λ h. int_eq h.producer p) hs)
        ≡ producer_window hs p }
{}

/// A batch of a list's window is in the window of each part of the list that has it.
pub fn window_of_a_part()
    ensures { (hs : List BatchHead) (h : BatchHead) (test : BatchHead → Bool)
        → is_in_window hs h ≡ true → is_in_window (filter test hs) h ≡ true }
{}

/// Where a producer's epochs never fall, a part of a list that has all of its window has the same
/// window.
pub fn window_of_a_part_that_has_it()
    ensures { (low p : ℤ) (hs : List BatchHead) (test : BatchHead → Bool)
        → Rises (λ x. x.base) low hs → EpochsNeverFall p hs → list_all test (window hs p) ≡ true
        → window (filter test hs) p ≡ window hs p }
{}

/// More cover only takes batches out of a log's window, and never brings an old one in: a batch of the
/// window of what a larger set of offsets covers is in the window of what a smaller one covers.
pub fn more_cover_brings_no_old_batch_in()
    ensures { (less more : Runs) (log : List BatchValue) (h : BatchHead) → IsCanonical more
        → ((o : ℤ) → covers less o ≡ true → covers more o ≡ true)
        → is_in_window (heads_inside more log) h ≡ true
        → is_in_window (heads_inside less log) h ≡ true }
{}

/// Where a producer's epochs never fall in what a copy has seen, the batches that the copy keeps have
/// the window of what it has seen, however it was cleaned.
pub fn a_copy_keeps_the_window()
    ensures { (c : Content) (log : List BatchValue) (p : ℤ) → IsContent c → IsPlainLog log
        → IsCopy c log → pos 0 ≤ℤ p → EpochsNeverFall p (heads_inside c.cover log)
        → window (heads c.kept) p ≡ window (heads_inside c.cover log) p }
{}

/// The batches that a leader's copy keeps have the windows of its log from the start on.
pub fn a_leaders_copy_has_the_logs_window()
    ensures { (c : Content) (log : List BatchValue) (p : ℤ) → IsContent c → IsPlainLog log
        → IsLeaderCopy c log → pos 0 ≤ℤ p
        → window (heads c.kept) p ≡ window (heads_from c.start (heads log)) p }
{}

/// So the verdict over what a leader's copy keeps is the one over its log from the start on.
pub fn a_leaders_verdict_is_its_logs()
    ensures { (c : Content) (log : List BatchValue) (h : BatchHead) → IsContent c → IsPlainLog log
        → IsLeaderCopy c log
        → verdict_on (heads c.kept) h ≡ verdict_on (heads_from c.start (heads log)) h }
{}

/// A leader's copy stays one when a new batch is appended to its log and added, when it or a part of it is
/// cleaned, and when its start moves to one that is accepted.
pub fn a_leaders_copy_stays_one()
    ensures appending { (c : Content) (b : BatchValue) (log : List BatchValue) → IsContent c
        → IsPlainLog (log ++ b ∷ []) → IsLeaderCopy c log → IsNew (heads log) c.start b.head
        → IsLeaderCopy (add c b) (log ++ b ∷ []) }
    ensures cleaning { (upto tomb_before : ℤ) (c : Content) (log : List BatchValue) → IsContent c
        → IsPlainLog log → IsLeaderCopy c log → IsLeaderCopy (clean upto tomb_before c) log }
    ensures cleaning_a_part { (p : CleaningPart) (c : Content) (log : List BatchValue) → IsContent c
        → IsPlainLog log → IsLeaderCopy c log → IsLeaderCopy (clean_part p c) log }
    ensures trimming { (c : Content) (start : ℤ) (log : List BatchValue) → IsContent c
        → IsPlainLog log → IsLeaderCopy c log → IsAcceptedStart c start
        → IsLeaderCopy (cut start c) log }
{}
