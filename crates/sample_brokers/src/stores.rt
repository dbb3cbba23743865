//! The ways in which brokers keep their batches.

/// How a broker keeps its batches.
#[derive(Clone, Copy, Debug)]
pub enum Kept {
    /// Each in memory of its own.
    Apart,
    /// End to end, in segments.
    EndToEnd,
}

/// Both ways.
pub static BOTH: [Kept; 2] = [Kept::Apart, Kept::EndToEnd];
