//! Which members of a group are meant.

/// Members that go, or are refused.
#[derive(Clone, Copy)]
pub(crate) enum Who {
    /// All of them.
    Everyone,
    /// Whoever hasn't joined.
    Unjoined,
    /// Whoever waits for the leader.
    Syncing,
    /// Whoever doesn't wait, and wasn't heard of until this time, or whatever was heard where the leader is overdue.
    Silent(u64, bool),
}
