//! Byte offsets in a snapshot's head, of which version 1 has a key before its fields.

use snapshots::SnapshotHead;
use snapshots::layout::{OLD_VERSION, VERSION};

/// Byte offset of the version.
const VERSION_AT: usize = 8;

/// How many bytes a key takes.
const KEY_SIZE: u64 = 8;

/// What stands in a snapshot, by its byte offset in a head of version 0.
#[derive(Clone, Copy, PartialEq, Eq)]
pub(crate) enum Field {
    /// The size of the fields.
    Size,
    /// The number, and with it all fields.
    Number,
    /// The role.
    Role,
    /// The next producer id.
    NextProducer,
    /// The topics.
    Topics,
}

impl Field {
    /// Its byte offset in a head of this version.
    pub(crate) fn at(self, version: i16) -> u64 {
        let at: u64 = match self {
            Field::Size => 10,
            Field::Number => 14,
            Field::Role => 22,
            Field::NextProducer => 32,
            Field::Topics => 40,
        };
        if version == OLD_VERSION {
            return at;
        }
        at.saturating_add(KEY_SIZE)
    }
}

/// The version of a head that was judged.
pub(crate) fn version_of(head: &SnapshotHead<'_>) -> i16 {
    match head.journal_key {
        Some(_) => VERSION,
        None => OLD_VERSION,
    }
}

/// The version that stands in a snapshot's first bytes, whose head wasn't judged sound; 0 where they end before it.
pub(crate) fn version_in(bytes: &[u8]) -> i16 {
    match (bytes.get(VERSION_AT), bytes.get(VERSION_AT + 1)) {
        (Some(high), Some(low)) => i16::from_be_bytes([*high, *low]),
        _ => OLD_VERSION,
    }
}
