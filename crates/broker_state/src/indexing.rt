//! The indexes of a partition, completed before it is asked for keys or times. Nothing that is seen of it
//! changes.

ghost use Rattle.std.specs.Prelude.{◌≡◌};
ghost use Rattle.broker_state.specs.Places.{IsPlace};

use crate::change::Change;
use crate::place::Place;
use crate::state::BrokerState;
use partition_log::{LeaderLog, PartitionLog};
use segment::BatchStore;

/// The index by key is completed.
#[derive(Clone, Copy)]
struct IndexKeys;

impl<S: BatchStore> Change<S, ()> for IndexKeys {
    ghost use Rattle.std.specs.Prelude.{◌≡◌};

    ghost changes = { λ change role result c after. after ≡ c };

    fn make_in_log(self, log: &mut LeaderLog<S>) {
        log.index_keys();
    }

    fn make_in_copy(self, copy: &mut PartitionLog<S>) {
        copy.index_keys();
    }
}

/// The index by time is completed.
#[derive(Clone, Copy)]
struct IndexTimes;

impl<S: BatchStore> Change<S, ()> for IndexTimes {
    ghost use Rattle.std.specs.Prelude.{◌≡◌};

    ghost changes = { λ change role result c after. after ≡ c };

    fn make_in_log(self, log: &mut LeaderLog<S>) {
        log.index_times();
    }

    fn make_in_copy(self, copy: &mut PartitionLog<S>) {
        copy.index_times();
    }
}

impl<S: BatchStore> BrokerState<S> {
    /// Completes the index by key of the partition at a place, as `PartitionLog::index_keys` does.
    pub fn index_keys(&mut self, place: Place)
        requires { IsPlace self.old place }
        ensures unchanged { self.new ≡ self.old }
    {
        self.change_at(place, IndexKeys);
    }

    /// Completes the index by time of the partition at a place, as `PartitionLog::index_times` does.
    pub fn index_times(&mut self, place: Place)
        requires { IsPlace self.old place }
        ensures unchanged { self.new ≡ self.old }
    {
        self.change_at(place, IndexTimes);
    }
}
