//! What is ready for a session.

use crate::values::GroupError;

/// What is ready for a session, and where it stands: the index of a group, by age, and of a member of it, by age.
#[derive(Clone, Copy)]
pub enum Ready {
    /// Its request is refused.
    Refuses(GroupError),
    /// The member is told of the generation.
    Tells(usize, usize),
    /// The member has its part.
    Gives(usize, usize),
}
