//! Marks of passes that are over.

ghost use Rattle.std.specs.Prelude.{◌≡◌};
ghost use Rattle.cleaning_policy.specs.Marking.{is_ripe, upto_of, tomb_bound, leaves_mark, with_mark, by_now};
ghost use Rattle.cleaning_policy.specs.Partitions.{no_marks};

use crate::samples::has_passed;
use crate::values::{Mark, Marks};

/// The marks of a partition without a pass.
pub(crate) fn no_marks(now: u64) -> Marks
    ensures { result ≡ no_marks now }
{
    Marks {
        older: None,
        newest: None,
        used: 0,
        reached: 0,
        began: now,
        size: 0,
    }
}

/// Whether a mark is ripe: its pass ended so long ago.
fn is_ripe(mark: Option<Mark>, keep: u64, now: u64) -> bool
    ensures { result ≡ is_ripe keep now mark }
{
    match mark {
        Some(mark) => has_passed(mark.ended, keep, now),
        None => false,
    }
}

/// Up to where its pass cleaned.
fn upto_of(mark: Option<Mark>) -> i64
    ensures { result ≡ upto_of mark }
{
    match mark {
        Some(mark) => mark.upto,
        None => 0,
    }
}

/// The offset below which deletions may go.
pub(crate) fn tomb_bound(marks: &Marks, keep: u64, now: u64) -> i64
    ensures { result ≡ tomb_bound keep now marks.now }
{
    if is_ripe(marks.newest, keep, now) {
        return upto_of(marks.newest);
    }
    if is_ripe(marks.older, keep, now) {
        return upto_of(marks.older);
    }
    0
}

/// Whether a pass up to an offset leaves a mark.
fn leaves_mark(newest: Option<Mark>, keep: u64, now: u64, upto: i64) -> bool
    ensures { result ≡ leaves_mark keep now upto newest }
{
    match newest {
        Some(mark) => has_passed(mark.ended, keep, now) && mark.upto < upto,
        None => true,
    }
}

/// The marks behind a pass that ended now.
pub(crate) fn with_mark(marks: Marks, keep: u64, now: u64, upto: i64) -> Marks
    ensures { result ≡ with_mark keep now upto marks }
{
    if !leaves_mark(marks.newest, keep, now, upto) {
        return marks;
    }
    Marks {
        older: marks.newest,
        newest: Some(Mark { upto, ended: now }),
        ..marks
    }
}

/// A mark that counts from now, if its time lies behind that.
pub(crate) fn by_now(mark: Option<Mark>, now: u64) -> Option<Mark>
    ensures { result ≡ by_now now mark }
{
    match mark {
        Some(mark) => Some(Mark {
            upto: mark.upto,
            ended: mark.ended.min(now),
        }),
        None => None,
    }
}
