//! Deliveries of appended batches to followers.

ghost use Rattle.std.specs.Prelude.{◌≡◌, ◌+◌, ◌<◌, List, length, IfOk, IfErr, Some};
ghost use Rattle.batch_codec.specs.Values.{BatchValue};
ghost use Rattle.batch_codec.specs.Offsets.{first_offset};
ghost use Rattle.content.specs.ByOffset.{look_up};
ghost use Rattle.content.specs.Logs.{IsPlainLog};
ghost use Rattle.cluster.specs.Headline.{IsCopyOf};
ghost use Rattle.cluster.specs.Events.{Delivers, RefusesFollower};
ghost use Rattle.cluster.specs.Parts.{DeliversTo};

use crate::archived::archived_at;
use crate::cluster::Cluster;
use crate::event::{EventError, Outcome};
use batch_codec::BatchView;
use content::DeliverError;
use partition_log::PartitionLog;
use segment::BatchStore;

/// Delivers a batch of a log to a copy of it, which can only lack memory.
#[tactic(auto, using(crate::proofs::EventSteps::never_overlaps, crate::proofs::EventSteps::never_partial, crate::proofs::EventSteps::never_without_key, crate::proofs::EventSteps::never_out_of_range))]
fn deliver_to<S: BatchStore>(
    copy: &mut PartitionLog<S>,
    batch: &BatchView<'_>,
) -> Result<Outcome, EventError>
    requires { (log : List BatchValue) × IsPlainLog log × IsCopyOf log copy.old
        × (look_up first_offset (first_offset batch.now) log ≡ Some batch.now) }
    ensures { DeliversTo copy.old batch.now copy.new result }
{
    match copy.deliver(batch) {
        Ok(delivered) => Ok(Outcome::Delivered(delivered)),
        Err(DeliverError::OutOfMemory) => Err(EventError::OutOfMemory),
        Err(DeliverError::NotWhole) => unreachable!(),
        Err(DeliverError::NoKey) => unreachable!(),
        Err(DeliverError::BadOffset) => unreachable!(),
        Err(DeliverError::Overlap) => unreachable!(),
    }
}

impl<S: BatchStore> Cluster<S> {
    /// A follower's index among the followers.
    pub(crate) fn follower(&self, copy: usize) -> Result<usize, EventError>
        ensures follows { IfOk result (λ i.
            (copy ≡ i + 1) × (i < length self.now.followers)) }
        ensures refuses { IfErr result (RefusesFollower self.now copy) }
    {
        if self.followers.len() < copy {
            return Err(EventError::NoCopy);
        }
        copy.checked_sub(1).ok_or(EventError::LeaderCopy)
    }

    /// Delivers an appended batch to a follower.
    pub(crate) fn deliver(&mut self, copy: usize, batch: usize) -> Result<Outcome, EventError>
        ensures { Delivers self.old copy batch self.new result }
    {
        let follower = self.follower(copy)?;
        match archived_at(&self.archive, batch) {
            Some(batch) => deliver_to(&mut self.followers[follower], &batch),
            None => Err(EventError::NoBatch),
        }
    }
}
