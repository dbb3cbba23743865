//! Why bytes are refused as part of a delta.

/// Why bytes do not begin with a list of ranges: the first fault.
#[derive(Clone, Copy, Drop)]
pub enum RangesError {
    /// There are fewer bytes than the count, the ranges and what has to follow them take.
    Short,
    /// The count is negative, or the ranges are not the maximal ranges of a set of offsets, none of them
    /// below the least that may be there.
    BadCover,
}

/// Why bytes are not the entries that should stand there: the first fault.
#[derive(Clone, Copy, Drop)]
pub enum EntriesError {
    /// There is no valid entry at this index, from 0: its kind is another, it is cut, its offsets do not
    /// rise from its base on, its batch is refused, has a null key or offsets below 0 or above 2^62 - 1, or it
    /// does not lie behind the entry before it. A negative count is a bad entry 0.
    BadBatch(u32),
    /// An entry tells of an offset that the sender has not seen, or sends a batch whose span has an asked
    /// one.
    Outside,
    /// Bytes follow the last entry.
    Extra,
}

/// Why bytes are not what stands between the front of a delta and its crc: the first fault.
#[derive(Clone, Copy, Drop)]
pub enum BodyError {
    /// In the sender's ranges, or in the asked ones, which come after them.
    InRanges(RangesError),
    /// In the entries, which come last.
    InEntries(EntriesError),
}

/// Why bytes do not begin as a delta does, or do not end in their crc: the first fault.
#[derive(Clone, Copy, Drop)]
pub enum FrontError {
    /// There are under 22 bytes.
    Short,
    /// The first four bytes are not `KDLT`.
    BadMark,
    /// The version is neither 0 nor 1.
    BadVersion,
    /// The last four bytes are not the crc of those before them.
    BadCrc,
    /// The sender's log start lies below 0 or above 2^62.
    BadStart,
}

/// Why bytes are not a delta: the first fault.
#[derive(Clone, Copy, Drop)]
pub enum DeltaError {
    /// In the front, or in the crc.
    InFront(FrontError),
    /// Between the two.
    InBody(BodyError),
}
