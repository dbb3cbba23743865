//! What may be done to a partition.

use partition_log::{LeaderLog, PartitionLog};
use segment::BatchStore;

/// Something that is done to one partition of a broker, once its place was looked up. `R` says what
/// came of it.
pub trait Change<S: BatchStore, R>: Sized {
    ghost use Rattle.content.specs.Content.{Content};
    ghost use Rattle.broker_state.specs.declared.config.Role.{Role};
    ghost use Rattle.broker_state.specs.declared.config.Role.TheVariants.{Leader, Follower};

    /// What comes of it: what the broker is to the partition, the answer, the content before, and the
    /// content after.
    ghost changes: { Self → Role → R → Content → Content → Type 0 };

    /// Makes it in a log that the broker leads.
    fn make_in_log(self, log: &mut LeaderLog<S>) -> R
        ensures { changes self Leader result log.old log.new };

    /// Makes it in a copy that follows.
    fn make_in_copy(self, copy: &mut PartitionLog<S>) -> R
        ensures { changes self Follower result copy.old copy.new };
}
