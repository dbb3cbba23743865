//! Laws of logs whose leader took each numbered batch as new.

ghost use Rattle.std.specs.Prelude.{ℤ, pos, ◌≤ℤ◌, List, [], ◌∷◌, ◌++◌};
ghost use Rattle.batch_codec.specs.Values.{BatchValue};
ghost use Rattle.content.specs.Windows.{heads};
ghost use Rattle.content.specs.Logs.{IsPlainLog};
ghost use Rattle.content.specs.LegalLogs.{IsLegalLog, IsNew, EpochsNeverFallFrom};

/// From the leader's start on, no producer's epoch falls.
pub fn epochs_never_fall()
    ensures { (log : List BatchValue) (start : ℤ) → IsPlainLog log → IsLegalLog log start
        → EpochsNeverFallFrom start (heads log) }
{}

/// A batch whose verdict is New keeps the log legal.
pub fn a_new_batch_keeps_a_log_legal()
    ensures { (log : List BatchValue) (start : ℤ) (b : BatchValue) → pos 0 ≤ℤ start
        → IsLegalLog log start → IsNew (heads log) start b.head → IsLegalLog (log ++ b ∷ []) start }
{}

/// A log stays legal when its leader's start rises.
pub fn a_later_start_keeps_a_log_legal()
    ensures { (log : List BatchValue) (start later : ℤ) → start ≤ℤ later → IsLegalLog log start
        → IsLegalLog log later }
{}
