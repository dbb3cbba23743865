//! Laws of parts of a cleaning: together they are the cleaning.

ghost use Rattle.std.specs.Prelude.{◌≡◌, ℤ, ◌≤ℤ◌, List};
ghost use Rattle.std.specs.List.{filter};
ghost use Rattle.content.specs.declared.part.CleaningPart.{CleaningPart};
ghost use Rattle.content.specs.Content.{Content, IsContent};
ghost use Rattle.content.specs.Cleaning.{is_cleanable, clean, clean_report};
ghost use Rattle.content.specs.Parts.{clean_part, part_report, part_of, sum_of_reports, clean_in_parts, report_in_parts, NoneIsAcross, AreEnds};

/// A part from the start on, or from below it, up to the bound or further is the cleaning.
pub fn a_part_of_all_is_the_cleaning()
    ensures content { (p : CleaningPart) (c : Content) → IsContent c → p.from ≤ℤ c.start → p.upto ≤ℤ p.to
        → clean_part p c ≡ clean p.upto p.tomb_before c }
    ensures report { (p : CleaningPart) (c : Content) → IsContent c → p.from ≤ℤ c.start → p.upto ≤ℤ p.to
        → part_report p c ≡ clean_report p.upto p.tomb_before c }
{}

/// Two parts, one behind the other, are one, where no batch that is to be cleaned lies across the place between
/// them; and their reports add up to its report.
pub fn two_parts_that_meet_are_one()
    ensures content { (upto tomb_before from mid to : ℤ) (c : Content) → IsContent c
        → from ≤ℤ mid → mid ≤ℤ to → NoneIsAcross mid (filter (is_cleanable upto) c.kept)
        → clean_part (part_of upto tomb_before mid to) (clean_part (part_of upto tomb_before from mid) c)
        ≡ clean_part (part_of upto tomb_before from to) c }
    ensures report { (upto tomb_before from mid to : ℤ) (c : Content) → IsContent c
        → from ≤ℤ mid → mid ≤ℤ to → NoneIsAcross mid (filter (is_cleanable upto) c.kept)
        → part_report (part_of upto tomb_before from to) c
        ≡ sum_of_reports (part_report (part_of upto tomb_before from mid) c)
        (part_report (part_of upto tomb_before mid to) (clean_part (part_of upto tomb_before from mid) c)) }
{}

/// Parts one after another, from the start on up to the bound or further, are the cleaning, where each begins where
/// the one before ended, and no batch that is to be cleaned lies across an end. Their reports add up to its report.
pub fn parts_are_the_cleaning()
    ensures content { (upto tomb_before from : ℤ) (ends : List ℤ) (c : Content) → IsContent c
        → from ≤ℤ c.start → AreEnds upto from ends c
        → clean_in_parts upto tomb_before from ends c ≡ clean upto tomb_before c }
    ensures report { (upto tomb_before from : ℤ) (ends : List ℤ) (c : Content) → IsContent c
        → from ≤ℤ c.start → AreEnds upto from ends c
        → report_in_parts upto tomb_before from ends c ≡ clean_report upto tomb_before c }
{}
