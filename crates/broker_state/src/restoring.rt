//! What a broker held before, put back: the copies of its partitions, and the ids that it gives out.

ghost use Rattle.std.specs.Prelude.{◌≡◌, OnOk, OnErr, IfErr};
ghost use Rattle.broker_state.specs.State.{with_content};
ghost use Rattle.broker_state.specs.Restoring.{CanRestore, RefusesRestore, Restores};
ghost use Rattle.broker_state.specs.declared.config.Role.TheVariants.{Leader, Follower};

use crate::change::Change;
use crate::state::BrokerState;
use partition_log::{LeaderLog, PartitionLog};
use segment::BatchStore;
use thiserror::Error;

/// Why a copy isn't put in the place of what a partition holds: the first of these that applies.
#[derive(Clone, Copy, Debug, PartialEq, Eq, Error)]
pub enum RestoreError {
    /// The topic isn't configured, or it has no such partition.
    #[error("UnknownPartition")]
    UnknownPartition,
    /// The broker leads, and the copy hasn't seen every offset from its start on and below its end.
    #[error("Gapped")]
    Gapped,
}

/// A producer id below the first one that the broker was set up to give out.
#[derive(Clone, Copy, Debug, PartialEq, Eq, Error)]
#[error("EarlyProducer")]
pub struct EarlyProducer;

/// A copy that is to stand in the place of what a partition holds.
#[derive(Drop)]
struct Restore<S: BatchStore> {
    copy: PartitionLog<S>,
}

/// Makes a copy the log that is led.
fn lead<S: BatchStore>(log: &mut LeaderLog<S>, copy: PartitionLog<S>) -> Result<(), RestoreError>
    ensures { Restores Leader copy result log.old log.new }
{
    match LeaderLog::from_copy(copy) {
        Ok(led) => {
            *log = led;
            Ok(())
        }
        Err(_) => Err(RestoreError::Gapped),
    }
}

impl<S: BatchStore> Change<S, Result<(), RestoreError>> for Restore<S> {
    ghost use Rattle.broker_state.specs.Restoring.{Restores};

    ghost changes = { λ restore role result c after. Restores role restore.copy result c after };

    fn make_in_log(self, log: &mut LeaderLog<S>) -> Result<(), RestoreError> {
        lead(log, self.copy)
    }

    fn make_in_copy(self, copy: &mut PartitionLog<S>) -> Result<(), RestoreError> {
        *copy = self.copy;
        Ok(())
    }
}

impl<S: BatchStore> BrokerState<S> {
    /// Puts a copy in the place of what a topic's partition holds. It takes no memory.
    ///
    /// # Errors
    ///
    /// The first that applies, in the order of `RestoreError`; then nothing changes.
    pub fn restore(
        &mut self,
        topic: &[u8],
        partition: i32,
        copy: PartitionLog<S>,
    ) -> Result<(), RestoreError>
        ensures accepts { OnOk result (CanRestore self.old topic.now partition copy) }
        ensures restores { OnOk result
            (self.new ≡ with_content self.old topic.now partition copy) }
        ensures refuses { IfErr result (RefusesRestore self.old topic.now partition copy) }
        ensures unchanged_on_error { OnErr result (self.new ≡ self.old) }
    {
        let Some(place) = self.place_of(topic, partition) else {
            return Err(RestoreError::UnknownPartition);
        };
        self.change_at(place, Restore { copy })
    }
}
