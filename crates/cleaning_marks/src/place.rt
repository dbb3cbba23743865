//! Places in journals, and what is seen there.

/// A border between groups of a journal, and the group below it.
#[derive(Clone, Copy)]
pub struct JournalPlace {
    /// The journal's number.
    pub number: u64,
    /// The key of its groups, as the INT64 of the same bytes.
    pub key: i64,
    /// The border: a byte offset behind a group, or behind the head.
    pub size: u64,
    /// The byte offset of the group below it. Where there is none, 0: the head stands for it.
    pub group_at: u64,
    /// The crc of that group, or of the head.
    pub group_crc: u32,
}

/// A group that was seen in a journal, or its head.
#[derive(Clone, Copy)]
pub struct GroupSeen {
    /// The byte offset at which it begins.
    pub at: u64,
    /// The byte offset behind it.
    pub end: u64,
    /// Its crc.
    pub crc: u32,
}

/// What was seen of a journal.
#[derive(Clone, Copy)]
pub struct JournalSeen {
    /// Its number.
    pub number: u64,
    /// The key of its groups, as the INT64 of the same bytes.
    pub key: i64,
    /// The byte offset behind the groups that were read.
    pub read: u64,
    /// What stands at the byte offset at which a place has its group, if a group begins there.
    pub group: Option<GroupSeen>,
}
