//! The index of an offset among maximal runs, and the questions that it answers.
ghost use Rattle.std.specs.Prelude.{◌≡◌, ◌<◌, ◌≤◌, ℤ, ◌<ℤ◌, ◌≤ℤ◌, ◌↔◌, ◌⊎◌, length, IsTrue, MatchBool};
ghost use Rattle.std.specs.List.{AllWithin};
ghost use Rattle.cover_ranges.specs.Runs.{covers, IsCanonical, CoversAll, CoversAny, IsSubset};
ghost use Rattle.cover_ranges.specs.Index.{IsIndexOf, StartsBy, StartsPast};

/// Finds the first range that ends at `offset` or later; the length where there is none. At the end
/// at once, else by a binary search.
pub(crate) fn index_of(ranges: &[(i64, i64)], offset: i64) -> usize
    requires { IsCanonical ranges.now }
    ensures { IsIndexOf offset ranges.now result }
{
    let len = ranges.len();
    if len == 0 {
        return 0;
    }
    let (first, last) = ranges[len - 1];
    if last < offset {
        return len;
    }
    if first - 1 <= offset {
        return len - 1;
    }
    ranges.partition_point(|range| range.1 < offset)
}

/// Whether there is a range at `at`, and it starts at `offset` or before.
fn starts_by(ranges: &[(i64, i64)], at: usize, offset: i64) -> bool
    ensures { MatchBool result (StartsBy offset ranges.now at) (StartsPast offset ranges.now at) }
{
    at < ranges.len() && ranges[at].0 <= offset
}

/// Counts the ranges that start at `offset` or before.
pub(crate) fn count_started(ranges: &[(i64, i64)], offset: i64) -> usize
    requires { IsCanonical ranges.now }
    ensures within { result ≤ length ranges.now }
    ensures started { AllWithin (λ run. run.0 ≤ℤ offset) ranges.now 0 result }
    ensures later { AllWithin (λ run. offset <ℤ run.0) ranges.now result (length ranges.now) }
{
    let at = index_of(ranges, offset);
    if starts_by(ranges, at, offset) {
        at + 1
    } else {
        at
    }
}

/// Finds the first range from `from` on that ends at `offset` or later, one after another.
fn index_after(ranges: &[(i64, i64)], from: usize, offset: i64) -> usize
    requires within { from ≤ length ranges.now }
    requires passed { AllWithin (λ run. run.1 <ℤ offset) ranges.now 0 from }
    ensures { IsIndexOf offset ranges.now result }
{
    let mut at = from;
    while at < ranges.len() && ranges[at].1 < offset {
        at += 1;
    }
    at
}

/// Whether the offset is in a range.
pub(crate) fn contains(ranges: &[(i64, i64)], offset: i64) -> bool
    requires { IsCanonical ranges.now }
    ensures { result ≡ covers ranges.now offset }
{
    let at = index_of(ranges, offset);
    starts_by(ranges, at, offset)
}

/// Whether the range at `at` holds all offsets from `first` to `last`, where it is the first that
/// ends at `first` or later.
fn holds_all(ranges: &[(i64, i64)], at: usize, first: i64, last: i64) -> bool
    requires canonical { IsCanonical ranges.now }
    requires index { IsIndexOf first ranges.now at }
    requires some { first ≤ℤ last }
    ensures { IsTrue result ↔ CoversAll ranges.now first last }
{
    if !starts_by(ranges, at, first) {
        return false;
    }
    last <= ranges[at].1
}

/// Whether all offsets from `first` to `last` are in a range.
pub(crate) fn has_all(ranges: &[(i64, i64)], first: i64, last: i64) -> bool
    requires { IsCanonical ranges.now }
    ensures { IsTrue result ↔ CoversAll ranges.now first last }
{
    if last < first {
        return true;
    }
    let at = index_of(ranges, first);
    holds_all(ranges, at, first, last)
}

/// Whether some offset from `first` to `last` is in a range.
pub(crate) fn has_any(ranges: &[(i64, i64)], first: i64, last: i64) -> bool
    requires { IsCanonical ranges.now }
    ensures { IsTrue result ↔ CoversAny ranges.now first last }
{
    if last < first {
        return false;
    }
    let at = index_of(ranges, first);
    starts_by(ranges, at, last)
}

/// Finds the least offset from `from` on that is in no range.
pub(crate) fn first_gap(ranges: &[(i64, i64)], from: i64) -> i64
    requires { IsCanonical ranges.now }
    ensures missing { ¬ IsTrue (covers ranges.now result) }
    ensures from_on { from ≤ℤ result }
    ensures least { (o : ℤ) → from ≤ℤ o → o <ℤ result → IsTrue (covers ranges.now o) }
{
    let at = index_of(ranges, from);
    if starts_by(ranges, at, from) {
        return ranges[at].1 + 1;
    }
    from
}

/// Whether all offsets of the one set are in the other, in one pass over both.
pub(crate) fn is_subset(inner: &[(i64, i64)], outer: &[(i64, i64)]) -> bool
    requires inner_canonical { IsCanonical inner.now }
    requires outer_canonical { IsCanonical outer.now }
    ensures { IsTrue result ↔ IsSubset inner.now outer.now }
{
    let mut at = 0;
    for range in inner {
        at = index_after(outer, at, range.0);
        if !holds_all(outer, at, range.0, range.1) {
            return false;
        }
    }
    true
}

/// Whether the next range by its start is that of the first list, at `i`, and not that of the
/// second one, at `j`.
pub(crate) fn comes_next(mine: &[(i64, i64)], i: usize, theirs: &[(i64, i64)], j: usize) -> bool
    ensures { MatchBool result
        (i < length mine.now)
        ((length mine.now ≤ i) ⊎ (j < length theirs.now)) }
{
    i < mine.len() && (theirs.len() <= j || mine[i].0 <= theirs[j].0)
}
