//! A draft is begun.

ghost use Rattle.std.specs.Prelude.{◌≡◌, ◌+◌, [], is_some, length, map, IfOk, IfSome};
ghost use Rattle.std.specs.List.{concat, flat_map};
ghost use Rattle.broker_state.specs.Parts.{topic_contents};
ghost use Rattle.broker_state.specs.declared.place.Place.{Place};
ghost use Rattle.copy_images.specs.Images.{image_of};
ghost use Rattle.state_snapshots.specs.Snapshots.{snapshot_bytes};
ghost use Rattle.snapshot_drafts.specs.Slots.{new_slots, new_topics};
ghost use Rattle.snapshot_drafts.specs.Parts.{is_missing};
ghost use Rattle.snapshot_drafts.specs.Drafts.{IsDraftOf, content_in, partition_images};

use crate::draft::Draft;
use crate::draft_file::DraftFile;
use crate::error::DraftError;
use crate::slots::{Slot, TopicSlots};
use broker_state::{BrokerState, TopicLogs};
use copy_images::{PartitionLog, image_size};
use segment::BatchStore;
use snapshots::SnapshotId;
use state_snapshots::head_of;
use std::alloc::{AllocError, Allocator};

/// How many bytes the image of a copy has.
fn size_of_image<S: BatchStore>(copy: &PartitionLog<S>) -> Result<u64, AllocError>
    ensures { IfOk result (λ size. size ≡ length (image_of copy.now)) }
{
    Ok(image_size(copy)? as u64)
}

/// The byte offset behind so many bytes at one.
fn end_of(at: u64, size: u64) -> Result<u64, AllocError>
    ensures { IfOk result (λ end. end ≡ at + size) }
{
    at.checked_add(size).ok_or(AllocError)
}

/// The slots of a topic whose images belong from a byte offset on, and the byte offset behind them.
fn slots_of<S: BatchStore, A: Allocator + Copy>(
    alloc: A,
    topic: &TopicLogs<S>,
    start: u64,
) -> Result<(TopicSlots<A>, u64), AllocError>
    ensures slots { IfOk result (λ new.
        new.0 ≡ new_slots start (partition_images (topic_contents topic.now))) }
    ensures end { IfOk result (λ new.
        new.1 ≡ start + length (concat (partition_images (topic_contents topic.now)))) }
{
    let mut slots = Vec::new(alloc);
    let mut at = start;
    for index in 0..topic.partition_count() {
        let size = size_of_image(topic.partition_copy(index))?;
        slots.push(Slot {
            at,
            size,
            missing: true,
        })?;
        at = end_of(at, size)?;
    }
    Ok((TopicSlots::new(slots), at))
}

/// Those of all topics, and the byte offset behind them.
fn slots_of_all<S: BatchStore, A: Allocator + Copy>(
    alloc: A,
    topics: &[TopicLogs<S>],
    start: u64,
) -> Result<(Vec<TopicSlots<A>, A>, u64), AllocError>
    ensures slots { IfOk result (λ new. new.0.items
        ≡ new_topics start (map (λ t. partition_images (topic_contents t)) topics.now)) }
    ensures end { IfOk result (λ new. new.1 ≡ start
        + length (flat_map concat (map (λ t. partition_images (topic_contents t)) topics.now))) }
{
    let mut all = Vec::new(alloc);
    let mut at = start;
    for topic in topics {
        let (slots, end) = slots_of(alloc, topic, at)?;
        all.push(slots)?;
        at = end;
    }
    Ok((all, at))
}

/// How many bytes the snapshot of what a broker holds has. All partitions are looked at, and no image is made; memory for a few
/// numbers of each is taken and given back.
///
/// # Errors
///
/// Out of memory.
pub fn snapshot_size<S: BatchStore, A: Allocator + Copy>(
    alloc: A,
    id: SnapshotId,
    state: &BrokerState<S>,
) -> Result<u64, AllocError>
    ensures { IfOk result (λ size. size ≡ length (snapshot_bytes id state.now)) }
{
    let head = head_of(alloc, id, state)?;
    let (_slots, size) = slots_of_all(alloc, state.topics(), head.len() as u64)?;
    Ok(size)
}

impl<F: DraftFile + Drop, A: Allocator + Copy> Draft<F, A> {
    /// Begins the snapshot of what a broker holds now, in a file without bytes: writes its head. All images are
    /// missing then.
    ///
    /// # Errors
    ///
    /// `OutOfMemory`, before anything is written; `OnDisk`.
    pub fn begin<S: BatchStore>(
        alloc: A,
        mut file: F,
        id: SnapshotId,
        state: &BrokerState<S>,
    ) -> Result<Draft<F, A>, DraftError>
        ensures begins { IfOk result (λ draft. IfSome (F.seen file) (λ bytes. bytes ≡ [])
            → IsDraftOf F.seen id state.now draft) }
        ensures misses_all { IfOk result (λ draft. (place : Place)
            → is_missing draft place ≡ is_some (content_in state.now place)) }
        ensures is_the_one { IfOk result (λ draft. F.number draft.file ≡ F.number file) }
    {
        let head = head_of(alloc, id, state)?;
        let (topics, size) = slots_of_all(alloc, state.topics(), head.len() as u64)?;
        file.write_at(0, &head)?;
        Ok(Draft::new(file, topics, size))
    }
}
