//! The ways in which copies keep their batches, and how many allocations they do without.

/// How a copy keeps its batches.
#[derive(Clone, Copy, Debug)]
pub(crate) enum Kept {
    /// Each in memory of its own.
    Apart,
    /// End to end, in segments.
    EndToEnd,
}

/// Both ways.
pub(crate) static BOTH: [Kept; 2] = [Kept::Apart, Kept::EndToEnd];

/// How many allocations fail that a segment of batches does without: of its two lists of marked batches.
const OF_THE_MARKS: u64 = 2;

/// How many allocations fail that copies do without where so many segments are begun in all: batches in memory of their
/// own need each.
pub(crate) fn without(kept: Kept, segments: u64) -> u64 {
    match kept {
        Kept::Apart => 0,
        Kept::EndToEnd => segments.saturating_mul(OF_THE_MARKS),
    }
}
