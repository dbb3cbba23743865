//! Lists of requests that a leader and a follower are sent: about groups and copies, to store, and what clients ask first.

use broker_node::Role;
use sample_brokers::brokers::CONFIGURED;
use sample_brokers::exchanges::{
    CLEAN, CLEAN_PART, COMMIT, COORDINATOR, DELIVER, DELTA, Exchange, FORGET, IMAGE, MERGE,
    NEXT_PRODUCER_ID, PATCH, POSITION, PRODUCER_ID, SEEN, SILENT, STORE, TAKE, TRIM, VALUE,
    VERSIONS,
};

/// What a broker is asked, in this order, and the ends of partition 0 of `t`, of `u` and of the topic of groups then.
pub(crate) struct Run {
    pub(crate) role: Role,
    pub(crate) exchanges: &'static [Exchange],
    pub(crate) ends: (i64, i64, i64),
}

pub(crate) static OF_A_LEADER: Run = Run {
    role: Role::Leader,
    exchanges: &[
        STORE,
        COMMIT,
        POSITION,
        VALUE,
        SEEN,
        IMAGE,
        DELTA,
        CLEAN_PART,
        CLEAN,
        TRIM,
        SILENT,
        FORGET,
        TAKE,
        VERSIONS,
        COORDINATOR,
        PRODUCER_ID,
        NEXT_PRODUCER_ID,
    ],
    ends: (2, 1, 2),
};

pub(crate) static OF_A_FOLLOWER: Run = Run {
    role: Role::Follower,
    exchanges: &[DELIVER, MERGE, PATCH, TRIM],
    ends: (3, 0, 0),
};

/// More allocations than all requests of a run ask for.
pub(crate) const MOST: u64 = 200;

/// How many bytes the broker of a run is made of and given.
pub(crate) fn given(run: &Run) -> usize {
    let mut bytes = CONFIGURED;
    for exchange in run.exchanges {
        bytes = bytes.saturating_add(exchange.request.len());
    }
    bytes
}
