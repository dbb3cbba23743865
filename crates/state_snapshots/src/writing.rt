//! A broker's snapshot, written into a file.

ghost use Rattle.std.specs.Prelude.{◌≡◌, IfErr, OnOk, map};
ghost use Rattle.std.specs.List.{AllByRecursion};
ghost use Rattle.std.specs.Io.KnownBytes.{append_known};
ghost use Rattle.broker_state.specs.Parts.{topic_contents};
ghost use Rattle.state_snapshots.specs.Snapshots.{topic_images, images_of, snapshot_bytes, IsCountedTopic, AreCounted, IsReadable};
ghost use Rattle.state_snapshots.specs.Writing.{StopsWriting};

use crate::error::WriteError;
use crate::head::head_of;
use broker_state::{BrokerState, TopicLogs};
use copy_images::image_into;
use journal::Disk;
use segment::BatchStore;
use snapshots::SnapshotId;
use std::alloc::Allocator;

/// Appends the images of a topic's partitions, one after the other, each made in the same buffer.
fn append_topic<D: Disk, S: BatchStore, A: Allocator + Copy>(
    topic: &TopicLogs<S>,
    buffer: &mut Vec<u8, A>,
    disk: &mut D,
) -> Result<(), WriteError>
    ensures writes { OnOk result (D.seen disk.new
        ≡ append_known (D.seen disk.old) (topic_images (topic_contents topic.now))) }
    ensures counts { OnOk result (IsCountedTopic (topic_contents topic.now)) }
    ensures stops { IfErr result (StopsWriting (D.seen disk.old) (D.seen disk.new)
        (D.has_failed disk.new) (topic_images (topic_contents topic.now))) }
{
    for index in 0..topic.partition_count() {
        image_into(topic.partition_copy(index), buffer)?;
        disk.append(buffer)?;
    }
    Ok(())
}

/// Appends the images of all topics' partitions.
fn append_images<D: Disk, S: BatchStore, A: Allocator + Copy>(
    topics: &[TopicLogs<S>],
    buffer: &mut Vec<u8, A>,
    disk: &mut D,
) -> Result<(), WriteError>
    ensures writes { OnOk result (D.seen disk.new
        ≡ append_known (D.seen disk.old) (images_of (map topic_contents topics.now))) }
    ensures counts { OnOk result
        (AllByRecursion IsCountedTopic (map topic_contents topics.now)) }
    ensures stops { IfErr result (StopsWriting (D.seen disk.old) (D.seen disk.new)
        (D.has_failed disk.new) (images_of (map topic_contents topics.now))) }
{
    for topic in topics {
        append_topic(topic, buffer, disk)?;
    }
    Ok(())
}

/// Appends the snapshot of what a broker holds to a file: the head, and then image after image. There is memory for
/// one image at a time. What was appended isn't synced.
///
/// # Errors
///
/// `OutOfMemory`, and the first bytes of the snapshot stand in the file, or none; or else the disk failed.
pub fn write_snapshot<D: Disk, S: BatchStore, A: Allocator + Copy>(
    alloc: A,
    id: SnapshotId,
    state: &BrokerState<S>,
    disk: &mut D,
) -> Result<(), WriteError>
    ensures writes { OnOk result (D.seen disk.new
        ≡ append_known (D.seen disk.old) (snapshot_bytes id state.now)) }
    ensures counts { OnOk result (AreCounted state.now) }
    ensures readable { OnOk result (IsReadable id state.now) }
    ensures stops { IfErr result (StopsWriting (D.seen disk.old) (D.seen disk.new)
        (D.has_failed disk.new) (snapshot_bytes id state.now)) }
{
    let mut buffer = head_of(alloc, id, state)?;
    disk.append(&buffer)?;
    append_images(state.topics(), &mut buffer, disk)
}
