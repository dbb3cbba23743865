//! A snapshot that is written at once.

ghost use Rattle.std.specs.Prelude.{◌≡◌, [], IfOk, IfSome};
ghost use Rattle.std.specs.Option.{option_map};
ghost use Rattle.state_snapshots.specs.Snapshots.{snapshot_bytes};
ghost use Rattle.snapshot_drafts.specs.Drafts.{content_in};
ghost use Rattle.kept_rotations.specs.Moments.{id_of};

use broker_state::{BrokerState, Place};
use journal::layout::KEY_SIZE;
use partition_log::PartitionLog;
use segment::BatchStore;
use snapshot_drafts::{Draft, DraftError, DraftFile};
use snapshots::SnapshotId;
use std::alloc::Allocator;

/// Which snapshot it is: that of a number, beside the journal with this key.
pub fn id_of(number: u64, key: &[u8; KEY_SIZE]) -> SnapshotId
    ensures { result ≡ id_of number key.now }
{
    SnapshotId {
        number: number.cast_signed(),
        key: i64::from_be_bytes(*key),
    }
}

/// The copy at a place.
pub(crate) fn copy_at<S: BatchStore>(
    state: &BrokerState<S>,
    place: Place,
) -> Option<&PartitionLog<S>>
    ensures { option_map (λ copy. copy.now) result ≡ content_in state.now place }
{
    let topic = state.topics().get(place.topic)?;
    if place.partition < topic.partition_count() {
        return Some(topic.partition_copy(place.partition));
    }
    None
}

/// Writes the snapshot of what a broker holds into a file without bytes, syncs it, and gives it back.
///
/// # Errors
///
/// Those of the calls of [`Draft`].
pub fn write_whole<S: BatchStore, F: DraftFile + Drop, A: Allocator + Copy>(
    alloc: A,
    file: F,
    id: SnapshotId,
    state: &BrokerState<S>,
) -> Result<F, DraftError>
    ensures is_the_snapshot { IfSome (F.seen file) (λ bytes. bytes ≡ [])
        → IfOk result (λ whole. IfSome (F.seen whole)
        (λ bytes. bytes ≡ snapshot_bytes id state.now)) }
    ensures is_synced { IfOk result (λ whole. F.synced whole ≡ F.seen whole) }
    ensures is_the_one { IfOk result (λ whole. F.number whole ≡ F.number file) }
{
    let mut draft = Draft::begin(alloc, file, id, state)?;
    let mut buffer = Vec::new(alloc);
    for _ in 0..u64::MAX {
        let Some(place) = draft.next() else {
            break;
        };
        let Some(copy) = copy_at(state, place) else {
            break;
        };
        draft.write(place, copy, &mut buffer)?;
    }
    draft.finish()
}
