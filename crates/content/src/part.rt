//! A part of a cleaning.

/// The bounds of a part of a cleaning. Any numbers may stand here.
#[derive(Clone, Copy, PartialEq, Eq)]
pub struct CleaningPart {
    /// The part begins at this offset.
    pub from: i64,
    /// The part ends below this offset.
    pub to: i64,
    /// Only batches whose last offset is below it are compacted, and only these supersede.
    pub upto: i64,
    /// Only tombstones whose offset is below it are removed.
    pub tomb_before: i64,
}
