//! Whether a list of ranges is that of a cover.
ghost use Rattle.std.specs.Prelude.{◌≡◌, ◌<◌, ◌+◌, pos, ◌+ℤ◌, ◌<ℤ◌, length, take, MatchBool, MatchResult};
ghost use Rattle.std.specs.List.{All, HoldsAt};
ghost use Rattle.cover_ranges.specs.Runs.{IsCanonical};
ghost use Rattle.cover_ranges.specs.Refusal.{MeetsOneOf, HasFault, IsFirstFault};

use crate::OFFSETS_END;
use crate::error::CoverError;

/// Whether `first` is at most one past the end of an earlier range, where these are maximal runs:
/// the last of them decides.
fn meets_last(ranges: &[(i64, i64)], at: usize, first: i64) -> bool
    requires is_there { at < length ranges.now }
    requires earlier { IsCanonical (take at ranges.now) }
    ensures { MatchBool result
        (MeetsOneOf (take at ranges.now) first)
        (All (λ run. (run.1 +ℤ pos 1) <ℤ first) (take at ranges.now)) }
{
    at > 0 && first <= ranges[at - 1].1 + 1
}

/// Judges one range, where those before it are maximal runs.
fn judge_at(ranges: &[(i64, i64)], at: usize) -> Result<(), CoverError>
    requires is_there { at < length ranges.now }
    requires earlier { IsCanonical (take at ranges.now) }
    ensures { MatchResult result
        (λ _. IsCanonical (take (at + 1) ranges.now))
        (λ error. HoldsAt (HasFault error (take at ranges.now)) ranges.now at) }
{
    let (first, last) = ranges[at];
    if last < first {
        return Err(CoverError::EmptyRange);
    }
    if meets_last(ranges, at, first) {
        return Err(CoverError::NotRising);
    }
    if first < 0 || last >= OFFSETS_END {
        return Err(CoverError::OutOfBounds);
    }
    Ok(())
}

/// Judges the ranges from the first on, and takes no memory.
pub(crate) fn judge(ranges: &[(i64, i64)]) -> Result<(), CoverError>
    ensures { MatchResult result
        (λ _. IsCanonical ranges.now)
        (λ error. IsFirstFault error ranges.now) }
{
    for at in 0..ranges.len() {
        judge_at(ranges, at)?;
    }
    Ok(())
}
