//! How far a copy was cleaned, as three offsets.

ghost use Rattle.std.specs.Prelude.{◌≡◌};
ghost use Rattle.cleaning_progress.specs.Progress.{first_marks, marks_below, are_swept, marks_swept, marks_after};

use content::CleaningPart;

/// How far a copy was cleaned.
#[derive(Clone, Copy)]
pub(crate) struct Marks {
    /// Below this no record is superseded by another one there.
    pub(crate) settled: i64,
    /// No record of a batch that begins below this ..
    pub(crate) swept: i64,
    /// .. is superseded by one of a batch that lies wholly below this.
    pub(crate) swept_for: i64,
}

impl Marks {
    /// Those of a copy with this start.
    pub(crate) fn new(start: i64) -> Marks
        ensures { result ≡ first_marks start }
    {
        Marks {
            settled: start,
            swept: start,
            swept_for: start,
        }
    }

    /// None is above an offset.
    pub(crate) fn below(self, offset: i64) -> Marks
        ensures { result ≡ marks_below offset self }
    {
        Marks {
            settled: self.settled.min(offset),
            swept: self.swept.min(offset),
            swept_for: self.swept_for.min(offset),
        }
    }

    /// Whether the copy is swept up to a part for its bound.
    pub(crate) fn are_swept(&self, part: &CleaningPart) -> bool
        ensures { result ≡ are_swept part.now self.now }
    {
        part.from <= self.swept && part.upto <= self.swept_for
    }

    /// The offset below which the copy is settled behind a part that sweeps on.
    fn settled_by(&self, part: &CleaningPart) -> i64
        ensures { result ≡ (marks_swept part.now self.now).settled }
    {
        if part.upto <= part.to {
            self.settled.max(part.upto)
        } else {
            self.settled
        }
    }

    /// A part sweeps on.
    fn swept_by(self, part: &CleaningPart) -> Marks
        ensures { result ≡ marks_swept part.now self }
    {
        Marks {
            settled: self.settled_by(part),
            swept: part.to,
            swept_for: part.upto,
        }
    }

    /// Those behind a part, of a copy with this start. `is_clear` says that no batch lies across its end.
    pub(crate) fn after(self, part: &CleaningPart, start: i64, is_clear: bool) -> Marks
        ensures { result ≡ marks_after part.now start is_clear self }
    {
        if is_clear && (part.from <= start || self.are_swept(part)) {
            self.swept_by(part)
        } else {
            self
        }
    }
}
