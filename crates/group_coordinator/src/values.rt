//! What a coordinator is told once, what a member waits for, and why a request is refused.

/// Ids, names, metadata and parts of all groups take so many bytes at most, with those that are counted for each
/// member and each protocol.
pub const MOST_BYTES: u64 = 67_108_864;

/// So many bytes are counted for a member beside those of its strings.
pub const MEMBER_BYTES: u64 = 256;

/// So many bytes are counted for a protocol beside those of its name and its metadata.
pub const PROTOCOL_BYTES: u64 = 192;

/// The shortest session timeout that a member may ask for, in milliseconds.
pub const LEAST_SESSION: i32 = 1_000;

/// The longest session timeout that a member may ask for, in milliseconds.
pub const MOST_SESSION: i32 = 1_800_000;

/// A rebalance timeout that is shorter counts as this, in milliseconds.
pub const LEAST_REBALANCE: i32 = 1_000;

/// The last generation: a response has 31 bits for it.
pub const MOST_GENERATION: u64 = 2_147_483_647;

/// So many ids are given at most.
pub const MOST_IDS: u64 = 18_446_744_073_709_551_615;

/// A clock that shows more counts as this, so that no timeout behind it overflows.
pub const MOST_TIME: u64 = 9_223_372_036_854_775_808;

/// What a coordinator is told once.
#[derive(Clone, Copy)]
pub struct Settings {
    /// A number of this start, which each id has in it: ids of another start are none of this one's.
    pub start: u64,
    /// So long the first generation of a group waits for further members, in milliseconds.
    pub join_delay: u32,
    /// It follows another broker: members are told to look for their coordinator there.
    pub follows: bool,
}

/// What a member waits for, and in which session.
#[derive(Clone, Copy)]
pub enum Wait {
    /// It waits for nothing.
    No,
    /// It has joined, and waits for the others.
    Joins(u64),
    /// It waits for what the leader gives it.
    Syncs(u64),
    /// The reply to its join is ready.
    Told(u64),
    /// The reply to its sync is ready.
    Assigned(u64),
}

/// What a group is about. Times are those at which it ends at the latest.
#[derive(Clone, Copy)]
pub enum Phase {
    /// Members join.
    Preparing(u64),
    /// All members are told of the generation, and the leader gives them their parts.
    Completing(u64),
    /// The members have their parts.
    Stable,
}

/// Why a request is refused. Kafka's documentation, "Protocol Guide", section "Error Codes".
#[derive(Clone, Copy)]
pub enum GroupError {
    /// No room is left, or no memory (15).
    NotAvailable,
    /// This broker follows another one (16).
    NotCoordinator,
    /// It names another generation than the group's (22).
    IllegalGeneration,
    /// It doesn't fit the kind of the group, or has no protocol that all members support (23).
    InconsistentProtocol,
    /// The group has no name (24).
    InvalidGroup,
    /// It names a member that is none of the group's (25).
    UnknownMember,
    /// The session timeout is out of range (26).
    InvalidSession,
    /// Members are joining anew (27).
    Rebalancing,
}

/// A request that waited and is refused now.
#[derive(Clone, Copy)]
pub struct Refusal {
    /// The session in which it waited.
    pub session: u64,
    /// Why.
    pub error: GroupError,
}
