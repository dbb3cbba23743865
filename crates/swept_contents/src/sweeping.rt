//! Laws of what is swept by cleaning.

ghost use Rattle.std.specs.Prelude.{ℤ, ◌≤ℤ◌};
ghost use Rattle.std.specs.List.{filter};
ghost use Rattle.content.specs.declared.part.CleaningPart.{CleaningPart};
ghost use Rattle.content.specs.Content.{Content, IsContent};
ghost use Rattle.content.specs.Cleaning.{is_cleanable, clean};
ghost use Rattle.content.specs.Parts.{clean_part, NoneIsAcross};
ghost use Rattle.swept_contents.specs.Swept.{IsSwept, IsSettled};

/// Up to its start a copy is swept, for any bound.
pub fn below_the_start_all_is_swept()
    ensures { (below upto : ℤ) (c : Content) → IsContent c → below ≤ℤ c.start → IsSwept below upto c }
{}

/// A part that begins no further than a copy is swept for its bound leaves it swept below its end, where no batch that
/// is to be cleaned lies across that.
pub fn a_part_sweeps_on()
    ensures { (p : CleaningPart) (c : Content) → IsContent c → IsSwept p.from p.upto c
        → NoneIsAcross p.to (filter (is_cleanable p.upto) c.kept)
        → IsSwept p.to p.upto (clean_part p c) }
{}

/// A cleaning leaves a copy swept below any offset for its bound; so it is settled there.
pub fn a_cleaning_sweeps_all()
    ensures swept { (below upto tomb_before : ℤ) (c : Content) → IsContent c
        → IsSwept below upto (clean upto tomb_before c) }
    ensures settled { (upto tomb_before : ℤ) (c : Content) → IsContent c
        → IsSettled upto (clean upto tomb_before c) }
{}
