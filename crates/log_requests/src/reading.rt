//! Requests that only read what a broker holds.

use broker_state::BrokerState;
use segment::BatchStore;

/// What a broker holds, for the entries of a request that changes nothing of it.
#[derive(Drop)]
pub(crate) struct Reading<'n, S: BatchStore> {
    pub(crate) state: &'n BrokerState<S>,
}
