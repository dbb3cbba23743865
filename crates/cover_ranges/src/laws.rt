//! Laws of sets of offsets. The functions do nothing: what they ensure is the law.
ghost use Rattle.std.specs.Prelude.{◌≡◌, ◌^◌, ◌||◌, ◌&&◌, ◌↔◌, ℤ, pos, ◌+ℤ◌, ◌-ℤ◌, ◌<ℤ◌, ◌≤ℤ◌, int_le, IsTrue, false};
ghost use Rattle.std.specs.List.{Contains};
ghost use Rattle.cover_ranges.specs.declared.TheConstants.{OFFSETS_END};
ghost use Rattle.cover_ranges.specs.Runs.{Runs, is_within, covers, IsCanonical, with_range, union_of, cut_below, end_of, has_all, CoversAll};

/// Equal members make equal lists: a set of offsets has one list of maximal runs.
pub fn equal_members_make_equal_lists()
    ensures { (xs ys : Runs) → IsCanonical xs → IsCanonical ys
        → ((o : ℤ) → covers xs o ≡ covers ys o) → xs ≡ ys }
{}

/// A range more covers its own offsets besides, whatever the runs.
pub fn range_covers()
    ensures { (first last : ℤ) (runs : Runs) (o : ℤ)
        → covers (with_range first last runs) o ≡ (covers runs o || is_within o (first, last)) }
{}

/// With a range more, maximal runs stay maximal.
pub fn range_canonical()
    ensures { (first last : ℤ) (runs : Runs) → pos 0 ≤ℤ first → first ≤ℤ last → last <ℤ OFFSETS_END
        → IsCanonical runs → IsCanonical (with_range first last runs) }
{}

/// A union covers what either side covers, whatever the runs.
pub fn union_covers()
    ensures { (a b : Runs) (o : ℤ) → covers (union_of a b) o ≡ (covers a o || covers b o) }
{}

/// The union of maximal runs is of maximal runs.
pub fn union_canonical()
    ensures { (a b : Runs) → IsCanonical a → IsCanonical b → IsCanonical (union_of a b) }
{}

/// What is left from an offset on covers the offsets from there on, whatever the runs.
pub fn cut_covers()
    ensures { (start : ℤ) (runs : Runs) (o : ℤ)
        → covers (cut_below start runs) o ≡ (covers runs o && int_le start o) }
{}

/// What is left of maximal runs is of maximal runs.
pub fn cut_canonical()
    ensures { (start : ℤ) (runs : Runs) → IsCanonical runs → IsCanonical (cut_below start runs) }
{}

/// Where runs are maximal, one run holds all of some offsets exactly if each of them is covered.
pub fn has_all_is()
    ensures { (runs : Runs) (first last : ℤ) → IsCanonical runs
        → (IsTrue (has_all runs first last) ↔ CoversAll runs first last) }
{}

/// A maximal run has a gap before it and a gap after it, and lies below the end of the runs.
pub fn run_ends()
    ensures gap_before { (runs : Runs) (run : ℤ × ℤ) → IsCanonical runs → Contains runs run
        → covers runs (run.0 -ℤ pos 1) ≡ false }
    ensures gap_after { (runs : Runs) (run : ℤ × ℤ) → IsCanonical runs → Contains runs run
        → covers runs (run.1 +ℤ pos 1) ≡ false }
    ensures below_end { (start : ℤ) (runs : Runs) (run : ℤ × ℤ) → IsCanonical runs
        → Contains runs run → run.1 <ℤ end_of start runs }
{}
