//! Whether the marks of a file may be taken.

ghost use Rattle.std.specs.Prelude.{◌≡◌};
ghost use Rattle.cleaning_marks.specs.Believing.{belief, is_group_of};

use crate::place::{GroupSeen, JournalPlace, JournalSeen};
use thiserror::Error;

/// Why the marks of a file aren't taken. The variants come in the order of the checks.
#[derive(Clone, Copy, Debug, Drop, Error, PartialEq, Eq)]
pub enum Unbelieved {
    /// They hold behind another journal.
    #[error("OfAnotherJournal")]
    OfAnotherJournal,
    /// The journal has fewer bytes of groups than it had.
    #[error("NotReached")]
    NotReached,
    /// The group below the border is another one, or none.
    #[error("OfAnotherGroup")]
    OfAnotherGroup,
}

/// Whether a group that was seen is the one below a place.
fn is_group_of(place: &JournalPlace, group: Option<GroupSeen>) -> bool
    ensures { result ≡ is_group_of place.now group }
{
    match group {
        Some(seen) => {
            seen.at == place.group_at && seen.end == place.size && seen.crc == place.group_crc
        }
        None => false,
    }
}

/// Whether the journal behind which marks hold is there as it was: it has its number and its key, its groups were read up to
/// the border at least, and the group below that is the one that stood there.
///
/// # Errors
///
/// The first difference, in the order of [`Unbelieved`].
pub fn believe(place: &JournalPlace, seen: &JournalSeen) -> Result<(), Unbelieved>
    ensures { result ≡ belief place.now seen.now }
{
    if seen.number != place.number || seen.key != place.key {
        return Err(Unbelieved::OfAnotherJournal);
    }
    if seen.read < place.size {
        return Err(Unbelieved::NotReached);
    }
    if is_group_of(place, seen.group) {
        Ok(())
    } else {
        Err(Unbelieved::OfAnotherGroup)
    }
}
