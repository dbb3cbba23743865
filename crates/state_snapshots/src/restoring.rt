//! A broker's snapshot, read from its file and put in place image by image.

ghost use Rattle.std.specs.Prelude.{◌≡◌, ◌+◌, ◌≤◌, ◌<◌, ◌^◌, pos, length, IfOk, IfErr, OnOk, OnErr, IfSome};
ghost use Rattle.broker_state.specs.State.{with_content};
ghost use Rattle.broker_state.specs.Restoring.{CanRestore};
ghost use Rattle.snapshots.specs.Heads.{snapshot_view};
ghost use Rattle.state_snapshots.specs.Restoring.{announced, numbered, HasImageAt, IsRestored, RestoresAll};
ghost use Rattle.state_snapshots.specs.RestoredParts.{sizes_in, topics_in};
ghost use Rattle.state_snapshots.specs.Faults.{SizeFault, CopyFault, PutFault, EndFault, image_fault, StopsFor, RestoreFails};

use crate::fault::{ImageFault, RestoreFault};
use broker_state::{BrokerState, RestoreError};
use copy_images::{ImageError, PartitionLog, read_image};
use frame_fields::{Array, Topic, Topics};
use journal::{Disk, read_bytes};
use segment::BatchStore;
use snapshots::{SnapshotHead, SnapshotPartition};

/// Who is told how far the images of a snapshot were put in place.
pub trait ImageWatch {
    /// Another image was put in place: the file has `size` bytes, and up to the offset `at` it was read.
    fn restored(&mut self, at: u64, size: u64);
}

/// How many bytes the image has that should stand at an offset, where a file with this end has them all.
fn image_length(size: i64, at: u64, end: u64) -> Result<usize, RestoreFault>
    ensures sized { IfOk result (λ count. size ≡ pos count) }
    ensures within { IfOk result (λ count. at + count ≤ end) }
    ensures refuses { IfErr result (SizeFault size at end) }
{
    let Ok(count) = usize::try_from(size) else {
        return Err(RestoreFault::Damaged {
            at,
            why: ImageFault::BadSize,
        });
    };
    if end < at || end - at < count as u64 {
        return Err(RestoreFault::Damaged {
            at: end,
            why: ImageFault::Short,
        });
    }
    Ok(count)
}

/// What it is called that the bytes at an offset are refused as an image.
fn image_fault(at: u64, why: ImageError) -> RestoreFault
    ensures { result ≡ image_fault at why }
{
    match why {
        ImageError::OutOfMemory => RestoreFault::OutOfMemory,
        _ => RestoreFault::Damaged {
            at,
            why: ImageFault::Image(why),
        },
    }
}

/// The copy of the image that so many bytes at an offset are. They are read into the buffer.
fn copy_at<D: Disk, S: BatchStore>(
    alloc: S::Alloc,
    disk: &D,
    at: u64,
    count: usize,
    buffer: &mut Vec<u8, S::Alloc>,
) -> Result<PartitionLog<S>, RestoreFault>
    requires { at + count < 2 ^ 64 }
    ensures reads { IfOk result (λ copy. HasImageAt (D.seen disk.now) at (pos count) copy) }
    ensures refuses { IfErr result (CopyFault (D.seen disk.now) (D.may_fail disk.now) at count) }
{
    read_bytes(disk, at, count, buffer)?;
    match read_image(alloc, buffer) {
        Ok(copy) => Ok(copy),
        Err(why) => Err(image_fault(at, why)),
    }
}

/// Puts the copy of the image at an offset in the place of what a topic's partition holds.
fn put_copy<S: BatchStore>(
    at: u64,
    topic: &[u8],
    index: u32,
    copy: PartitionLog<S>,
    state: &mut BrokerState<S>,
) -> Result<(), RestoreFault>
    ensures accepts { OnOk result (CanRestore state.old topic.now (pos index) copy) }
    ensures puts { OnOk result
        (state.new ≡ with_content state.old topic.now (pos index) copy) }
    ensures numbered { OnOk result (index < 2 ^ 31) }
    ensures refuses { IfErr result (PutFault state.old topic.now index at copy) }
    ensures unchanged_on_error { OnErr result (state.new ≡ state.old) }
{
    // Called for its contract alone: no topic has so many partitions that one of them is no `i32`.
    state.know_sound();
    let Ok(partition) = i32::try_from(index) else {
        return Err(RestoreFault::Refused {
            at,
            why: RestoreError::UnknownPartition,
        });
    };
    match state.restore(topic, partition, copy) {
        Ok(()) => Ok(()),
        Err(why) => Err(RestoreFault::Refused { at, why }),
    }
}

/// Puts the images of a topic's partitions in place, from an offset on, and gives the offset behind them.
fn restore_topic<D: Disk, S: BatchStore, W: ImageWatch>(
    alloc: S::Alloc,
    disk: &D,
    topic: Topic<'_, SnapshotPartition>,
    at: u64,
    end: u64,
    buffer: &mut Vec<u8, S::Alloc>,
    state: &mut BrokerState<S>,
    watch: &mut W,
) -> Result<u64, RestoreFault>
    requires { IfSome (D.seen disk.now) (λ file. end ≡ length file) }
    ensures restores { IfOk result (λ behind. RestoresAll (D.seen disk.now)
        (numbered topic.entry.name.now 0 (sizes_in topic.entry.partitions))
        at behind state.old state.new) }
    ensures stops { IfErr result (StopsFor (D.seen disk.now) (D.may_fail disk.now)
        (numbered topic.entry.name.now 0 (sizes_in topic.entry.partitions))
        at state.old state.new) }
{
    let mut behind = at;
    let mut index: u32 = 0;
    for partition in topic.partitions {
        let count = image_length(partition.size, behind, end)?;
        let copy = copy_at(alloc, disk, behind, count, buffer)?;
        put_copy(behind, topic.name, index, copy, state)?;
        behind += count as u64;
        index += 1;
        watch.restored(behind, end);
    }
    Ok(behind)
}

/// Puts the images of all topics' partitions in place.
fn restore_topics<'a, D: Disk, S: BatchStore, W: ImageWatch>(
    alloc: S::Alloc,
    disk: &D,
    topics: &Array<'a, Topic<'a, SnapshotPartition>>,
    at: u64,
    end: u64,
    state: &mut BrokerState<S>,
    watch: &mut W,
) -> Result<u64, RestoreFault>
    requires { IfSome (D.seen disk.now) (λ file. end ≡ length file) }
    ensures restores { IfOk result (λ behind. RestoresAll (D.seen disk.now)
        (announced (topics_in topics.now)) at behind state.old state.new) }
    ensures stops { IfErr result (StopsFor (D.seen disk.now) (D.may_fail disk.now)
        (announced (topics_in topics.now)) at state.old state.new) }
{
    let mut buffer = Vec::new(alloc);
    let mut behind = at;
    for topic in Topics::of(topics) {
        behind = restore_topic(alloc, disk, topic, behind, end, &mut buffer, state, watch)?;
    }
    Ok(behind)
}

/// Refuses a file that doesn't end behind the last image.
fn check_end(behind: u64, end: u64) -> Result<(), RestoreFault>
    ensures ends { OnOk result (end ≤ behind) }
    ensures refuses { IfErr result (EndFault behind end) }
{
    if behind < end {
        return Err(RestoreFault::Damaged {
            at: behind,
            why: ImageFault::Behind,
        });
    }
    Ok(())
}

/// The producer id that a head says is given out next.
fn next_producer(head: &SnapshotHead<'_>) -> i64
    ensures { result ≡ head.now.next_producer }
{
    head.next_producer
}

/// Puts what a snapshot holds in the place of what a broker holds. `head` is the head of the snapshot, and
/// from the offset `at` on there should be the images that it announces, up to the end of the file. There is
/// memory for one image at a time, beside the copies; partitions that the head doesn't name stay as they are.
/// The number, the role and the first producer id of the head aren't looked at. Behind each image `watch` is told.
///
/// # Errors
///
/// The first fault, in the order that [`RestoreFault`] says. Some first partitions hold their images' copies
/// then, so the state is to be thrown away.
pub fn restore_snapshot<D: Disk, S: BatchStore, W: ImageWatch>(
    alloc: S::Alloc,
    disk: &D,
    head: &SnapshotHead<'_>,
    at: u64,
    state: &mut BrokerState<S>,
    watch: &mut W,
) -> Result<(), RestoreFault>
    ensures restores { OnOk result
        (IsRestored (snapshot_view head.now) (D.seen disk.now) at state.old state.new) }
    ensures refuses { IfErr result (RestoreFails (snapshot_view head.now) (D.seen disk.now)
        (D.may_fail disk.now) at state.old state.new) }
{
    let end = disk.len()?;
    let behind = restore_topics(alloc, disk, &head.topics, at, end, state, watch)?;
    check_end(behind, end)?;
    match state.give_ids_from(next_producer(head)) {
        Ok(()) => Ok(()),
        Err(_) => Err(RestoreFault::EarlyProducer),
    }
}
