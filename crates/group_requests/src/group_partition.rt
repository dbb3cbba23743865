//! The partition in which groups keep their offsets.

ghost use Rattle.std.specs.Prelude.{◌≡◌, IfOk};
ghost use Rattle.batch_codec.specs.Grammar.{Writable, batch_encoding};
ghost use Rattle.broker_state.specs.declared.config.Role.TheVariants.{Leader};
ghost use Rattle.group_requests.specs.GroupPartition.{group_content};
ghost use Rattle.group_requests.specs.Appending.{AppendsToGroups};

use answering::Refused;
use batch_codec::{Batch, BatchView, encode, one_encoding};
use broker_state::{Append, BrokerState, append_refused};
use partition_log::PartitionLog;
use segment::BatchStore;
use std::alloc::{AllocError, Allocator};

/// The copy of the partition.
pub(crate) fn group_copy<S: BatchStore>(state: &BrokerState<S>) -> &PartitionLog<S>
    ensures { result.now ≡ group_content state.now }
{
    state.copy_at(state.group_place())
}

/// Appends a batch that is borrowed.
fn append_view<S: BatchStore>(
    state: &mut BrokerState<S>,
    batch: &BatchView<'_>,
) -> Result<(), Refused>
    requires { state.old.config.role ≡ Leader }
    ensures { AppendsToGroups state.old batch.now result state.new }
{
    let place = state.group_place();
    match state.change_at(place, Append { batch }) {
        Ok(_) => Ok(()),
        Err(fault) => Err(append_refused(fault)),
    }
}

/// The encoding of a batch that has one, in memory of the batch's allocator.
fn encoded<A: Allocator + Copy>(batch: &Batch<A>) -> Result<Vec<u8, A>, AllocError>
    requires { Writable batch.now }
    ensures { IfOk result (λ bytes. bytes.items ≡ batch_encoding batch.now) }
{
    let mut bytes = Vec::new(*batch.recs.allocator());
    match encode(batch, &mut bytes) {
        Ok(()) => Ok(bytes),
        Err(_) => Err(AllocError),
    }
}

/// Appends a batch to the partition, which the broker leads.
pub(crate) fn append_to_groups<S: BatchStore>(
    state: &mut BrokerState<S>,
    batch: &Batch<S::Alloc>,
) -> Result<(), Refused>
    requires leads { state.old.config.role ≡ Leader }
    requires writable { Writable batch.now }
    ensures { AppendsToGroups state.old batch.now result state.new }
{
    // Called for its contract alone: what is encoded is read again as this batch.
    one_encoding();
    match encoded(batch) {
        Ok(bytes) => append_view(state, &BatchView::open(&bytes)),
        Err(_) => Err(Refused::OutOfMemory),
    }
}
