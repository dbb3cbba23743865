//! What a cleaning took away.

/// What a cleaning took away.
#[derive(Clone, Copy, PartialEq, Eq)]
pub struct CleanReport {
    /// Records removed because a later one has their key, tombstones among them.
    pub records: u64,
    /// Tombstones removed that no later record supersedes.
    pub tombstones: u64,
    /// Batches removed.
    pub batches: u64,
}
