//! Marks as the numbers of the file's fields.

ghost use Rattle.std.specs.Prelude.{◌≡◌};
ghost use Rattle.cleaning_marks.specs.Files.{is_mark, mark_in, mark_numbers, marks_in, numbers_of};

use cleaning_policy::{Mark, Marks};

/// A mark, or none.
#[derive(Clone, Copy)]
pub struct OneMark {
    /// Whether it is there: 1 or 0.
    pub there: i8,
    /// Up to which offset its pass cleaned.
    pub upto: i64,
    /// When it ended.
    pub ended: i64,
}

/// The marks of a partition.
#[derive(Clone, Copy)]
pub struct MarkNumbers {
    /// The mark before the newest one.
    pub older: OneMark,
    /// The newest mark.
    pub newest: OneMark,
    /// The offset below which the last pass took deletions.
    pub used: i64,
    /// The offset up to which the last pass cleaned.
    pub reached: i64,
    /// When the last pass began.
    pub began: i64,
    /// The bytes that it left.
    pub size: i64,
}

/// The numbers of a mark, or of none.
fn mark_numbers(mark: Option<Mark>) -> OneMark
    ensures { result ≡ mark_numbers mark }
{
    match mark {
        Some(mark) => OneMark {
            there: 1,
            upto: mark.upto,
            ended: mark.ended.cast_signed(),
        },
        None => OneMark {
            there: 0,
            upto: 0,
            ended: 0,
        },
    }
}

/// The numbers of a partition's marks.
pub(crate) fn numbers_of(marks: &Marks) -> MarkNumbers
    ensures { result ≡ numbers_of marks.now }
{
    MarkNumbers {
        older: mark_numbers(marks.older),
        newest: mark_numbers(marks.newest),
        used: marks.used,
        reached: marks.reached,
        began: marks.began.cast_signed(),
        size: marks.size.cast_signed(),
    }
}

/// The mark that numbers say, or none.
fn mark_in(one: &OneMark) -> Option<Mark>
    ensures { result ≡ mark_in one.now }
{
    if one.there == 1 {
        Some(Mark {
            upto: one.upto,
            ended: one.ended.cast_unsigned(),
        })
    } else {
        None
    }
}

/// Whether numbers are those of a mark, or of none.
pub(crate) fn is_mark(one: &OneMark) -> bool
    ensures { result ≡ is_mark one.now }
{
    one.there == 1 || (one.there == 0 && one.upto == 0 && one.ended == 0)
}

/// The marks that numbers say.
pub(crate) fn marks_in(numbers: &MarkNumbers) -> Marks
    ensures { result ≡ marks_in numbers.now }
{
    Marks {
        older: mark_in(&numbers.older),
        newest: mark_in(&numbers.newest),
        used: numbers.used,
        reached: numbers.reached,
        began: numbers.began.cast_unsigned(),
        size: numbers.size.cast_unsigned(),
    }
}
