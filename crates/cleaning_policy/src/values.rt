//! What a policy is told, what it gives, and what it keeps of a partition.

/// So many bytes at least came since the last pass, before a partition's share of them counts.
pub const LEAST_DIRTY: u64 = 65_536;

/// So many samples at the most are kept of a partition.
pub const MOST_SAMPLES: usize = 12;

/// So long after a pass was given up the next one of its partition comes, in milliseconds.
pub const RETRY: u64 = 60_000;

/// When partitions are cleaned. Times are milliseconds.
#[derive(Clone, Copy)]
pub struct Settings {
    /// A partition is cleaned where so many hundredths of it came since its last pass.
    pub percent: u64,
    /// What came within this time stays whole.
    pub lag: u64,
    /// So long after the last pass began the next one does, however little came.
    pub within: u64,
    /// So long behind the last sight of what it deletes a deletion stays.
    pub keep_deletes: u64,
}

/// What a partition has.
#[derive(Clone, Copy)]
pub struct Extent {
    /// The offset at which it starts.
    pub start: i64,
    /// The offset at which it ends.
    pub end: i64,
    /// The bytes of its batches.
    pub bytes: u64,
}

/// What was told of a partition at a time.
#[derive(Clone, Copy)]
pub struct Sample {
    /// The time.
    pub time: u64,
    /// The offset at which the partition ended.
    pub end: i64,
    /// How many bytes had come by then.
    pub came: u64,
}

/// A pass that is over.
#[derive(Clone, Copy)]
pub struct Mark {
    /// The offset up to which it cleaned.
    pub upto: i64,
    /// When it ended.
    pub ended: u64,
}

/// What is kept of a partition's passes over a restart.
#[derive(Clone, Copy)]
pub struct Marks {
    /// The mark before the newest one, if there is one.
    pub older: Option<Mark>,
    /// The newest mark, if there is one.
    pub newest: Option<Mark>,
    /// The offset below which the last pass took deletions.
    pub used: i64,
    /// The offset up to which the last pass cleaned.
    pub reached: i64,
    /// When the last pass began.
    pub began: u64,
    /// The bytes that it left below the offset up to which it cleaned.
    pub size: u64,
}

/// A cleaning of a whole partition.
#[derive(Clone, Copy)]
pub struct Frame {
    /// The partition's index.
    pub partition: usize,
    /// Only batches wholly below this offset are cleaned.
    pub upto: i64,
    /// Of these only deletions below this offset go.
    pub tomb_before: i64,
}

/// A frame that was given and has no reply yet.
#[derive(Clone, Copy)]
pub struct Pass {
    /// The frame.
    pub frame: Frame,
    /// The bytes that had come when the offset up to which it cleans was the end.
    pub came: u64,
}
