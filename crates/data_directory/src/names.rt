//! The names of the files of a data directory.

use std::fmt;

/// What the name of a snapshot begins with; its number follows.
const SNAPSHOT: &str = "snapshot.";

/// What the name of a journal begins with; its number follows.
const JOURNAL: &str = "journal.";

/// The name of a snapshot in the making.
const MAKING: &str = "snapshot.tmp";

/// The name of a file that a broker keeps in its directory. All other names are left alone.
#[derive(Clone, Copy, PartialEq, Eq)]
pub enum Name {
    /// A snapshot, by its number from 1 on.
    Snapshot(u64),
    /// The journal behind the snapshot of this number.
    Journal(u64),
    /// A snapshot that is being written.
    Making,
}

impl Name {
    /// The name that a text is, if a broker keeps such a file.
    pub fn of(text: &str) -> Option<Name> {
        if text == MAKING {
            return Some(Name::Making);
        }
        if let Some(digits) = text.strip_prefix(SNAPSHOT) {
            return Some(Name::Snapshot(number_of(digits)?));
        }
        Some(Name::Journal(number_of(text.strip_prefix(JOURNAL)?)?))
    }
}

/// The number from 1 on that decimal digits say, of which the first is no 0.
fn number_of(digits: &str) -> Option<u64> {
    let bytes = digits.as_bytes();
    if bytes.is_empty() || bytes[0] == b'0' || !bytes.iter().all(u8::is_ascii_digit) {
        return None;
    }
    digits.parse::<u64>().ok()
}

impl fmt::Display for Name {
    fn fmt<W: fmt::Write>(&self, f: &mut fmt::Formatter<W>) -> fmt::Result {
        match self {
            Name::Snapshot(number) => write!(f, "{SNAPSHOT}{number}"),
            Name::Journal(number) => write!(f, "{JOURNAL}{number}"),
            Name::Making => f.write_str(MAKING),
        }
    }
}
