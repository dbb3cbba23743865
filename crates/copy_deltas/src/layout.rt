//! Sizes of a delta as it is written.

/// How many bytes the delta of an empty copy has as it is written, where nothing was asked.
pub const EMPTY_SIZE: usize = 30;
/// How many bytes an entry has that lists no offset: its kind, its base and the count.
pub const EMPTY_LIST_SIZE: usize = 13;
