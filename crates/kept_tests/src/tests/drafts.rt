//! Snapshots that are written image by image while the broker changes: as they are written at once, with each call of the
//! file failing in turn, and with each allocation.

use broker_node::{Node, Role};
use broker_state::Place;
use journal::MemoryDisk;
use refusing_alloc::Refusing;
use sample_brokers::exchanges::{COMMIT, STORE, TRIM};
use sample_brokers::small::{new_node, request_in};
use segment::{BatchStore, SegStore};
use snapshot_drafts::{Draft, DraftError, MemoryDraft};
use snapshots::SnapshotId;
use state_snapshots::write_snapshot;
use std::alloc::Allocator;

/// Which snapshot it is: its number, and a key.
const ID: SnapshotId = SnapshotId {
    number: 7,
    key: 0x0123_4567_89ab_cdef,
};

/// More images, calls of a file or allocations than there are.
const MOST: u64 = 60;

/// The partition that changes.
const CHANGED: Place = Place {
    topic: 0,
    partition: 0,
};

/// Sends a request, whatever comes of it.
fn send<S: BatchStore, A: Allocator + Copy>(alloc: A, node: &mut Node<S>, frame: &'static [u8]) {
    let mut out = Vec::new(alloc);
    if let Some(request) = request_in(frame) {
        let _answer = node.handle(&request, &mut out);
    }
}

/// A broker that holds a record of `t` and one of the topic of groups.
fn filled<S: BatchStore, A: Allocator + Copy>(heap: S::Alloc, alloc: A) -> Option<Node<S>> {
    let mut node = new_node::<S>(heap, Role::Leader)?;
    send(alloc, &mut node, STORE.request);
    send(alloc, &mut node, COMMIT.request);
    Some(node)
}

/// The snapshot of what a broker holds, written at once; none where memory lacks.
fn whole_of<S: BatchStore, A: Allocator + Copy>(alloc: A, node: &Node<S>) -> Option<MemoryDisk<A>> {
    let mut disk = MemoryDisk::new(alloc, b"").ok()?;
    write_snapshot(alloc, ID, node.state(), &mut disk).ok()?;
    Some(disk)
}

/// Writes the image of what the broker holds at a place now.
fn write_one<S: BatchStore, A: Allocator + Copy>(
    draft: &mut Draft<MemoryDraft<A>, A>,
    node: &Node<S>,
    place: Place,
    buffer: &mut Vec<u8, A>,
) -> Result<(), DraftError> {
    let topics = node.state().topics();
    if place.topic >= topics.len() {
        return Err(DraftError::Unfinished);
    }
    let topic = &topics[place.topic];
    if place.partition >= topic.partition_count() {
        return Err(DraftError::Unfinished);
    }
    draft.write(place, topic.partition_copy(place.partition), buffer)
}

/// Writes the images that are missing.
fn write_rest<S: BatchStore, A: Allocator + Copy>(
    draft: &mut Draft<MemoryDraft<A>, A>,
    node: &Node<S>,
    buffer: &mut Vec<u8, A>,
) -> Result<(), DraftError> {
    for _ in 0..MOST {
        match draft.next() {
            Some(place) => write_one(draft, node, place, buffer)?,
            None => return Ok(()),
        }
    }
    Err(DraftError::Unfinished)
}

/// Writes the image of the topic of groups, that of the partition that changes, and, once it has changed, the others.
fn write_all<S: BatchStore, A: Allocator + Copy, B: Allocator + Copy>(
    draft: &mut Draft<MemoryDraft<A>, A>,
    node: &mut Node<S>,
    buffer: &mut Vec<u8, A>,
    alloc: B,
) -> Result<(), DraftError> {
    let groups = node.state().group_place();
    write_one(draft, node, groups, buffer)?;
    write_one(draft, node, CHANGED, buffer)?;
    send(alloc, node, STORE.request);
    write_one(draft, node, CHANGED, buffer)?;
    write_rest(draft, node, buffer)
}

/// A snapshot that is written so, where the call of this number fails.
fn drafted<S: BatchStore, A: Allocator + Copy, B: Allocator + Copy>(
    heap: A,
    node: &mut Node<S>,
    failing: u64,
    alloc: B,
) -> Result<MemoryDraft<A>, DraftError> {
    let mut file = MemoryDraft::new(heap);
    file.fail_at(failing);
    let mut buffer = Vec::new(heap);
    let mut draft = Draft::begin(heap, file, ID, node.state())?;
    write_all(&mut draft, node, &mut buffer, alloc)?;
    draft.finish()
}

/// What came of it.
#[derive(Clone, Copy, Debug, PartialEq, Eq)]
enum Came {
    /// The file is the snapshot that was written at once, before.
    Whole,
    /// It is another one, or isn't synced.
    Other,
    /// Memory lacked.
    Lacked,
    /// The file failed.
    Failed,
    /// An image had another size, or was missing.
    Refused,
}

/// What came of a snapshot, compared with these bytes.
fn came_of<A: Allocator + Copy>(drafted: Result<MemoryDraft<A>, DraftError>, whole: &[u8]) -> Came {
    match drafted {
        Ok(file) if file.bytes() == whole && file.is_synced() => Came::Whole,
        Ok(_) => Came::Other,
        Err(DraftError::OutOfMemory) => Came::Lacked,
        Err(DraftError::OnDisk(_)) => Came::Failed,
        Err(DraftError::OtherSize | DraftError::Unfinished) => Came::Refused,
    }
}

/// What comes of a snapshot that is drafted in this heap, where the call of this number fails, compared with one that
/// is written at once.
fn compared<S: BatchStore, A: Allocator + Copy, B: Allocator + Copy>(
    heap: A,
    store: S::Alloc,
    alloc: B,
    failing: u64,
) -> Option<Came> {
    let mut node = filled::<S, B>(store, alloc)?;
    let whole = whole_of(alloc, &node)?;
    let draft = drafted(heap, &mut node, failing, alloc);
    Some(came_of(draft, whole.bytes()))
}

/// How many calls of the file a snapshot takes: each of them failed in turn, and was told.
fn calls<B: Allocator + Copy>(alloc: B) -> Option<u64> {
    for failing in 1..MOST {
        match compared::<SegStore<_>, B, B>(alloc, alloc, alloc, failing)? {
            Came::Failed => {}
            Came::Whole => return failing.checked_sub(1),
            _ => return None,
        }
    }
    None
}

/// What comes of one where this allocation fails, and whether it is asked for.
fn came_without<B: Allocator + Copy>(inner: B, refused: u64) -> (Option<Came>, bool) {
    let heap = Refusing::new(inner, refused);
    let came = compared::<SegStore<_>, _, B>(&heap, inner, inner, 0);
    (came, heap.calls() >= refused)
}

/// Whether a snapshot takes memory, and each lack of it is told.
fn is_each_told<B: Allocator + Copy>(inner: B) -> bool {
    for refused in 1..MOST {
        match came_without(inner, refused) {
            // the file takes memory too
            (Some(Came::Lacked | Came::Failed), true) => {}
            (Some(Came::Whole), false) => return refused > 1,
            _ => return false,
        }
    }
    false
}

/// What comes of writing an image of a partition that a request has changed before, and of finishing then.
fn late<S: BatchStore, B: Allocator + Copy>(
    store: S::Alloc,
    alloc: B,
    request: &'static [u8],
) -> Option<(bool, bool)> {
    let mut node = filled::<S, B>(store, alloc)?;
    let mut draft = Draft::begin(alloc, MemoryDraft::new(alloc), ID, node.state()).ok()?;
    let mut buffer = Vec::new(alloc);
    send(alloc, &mut node, request);
    let written = write_one(&mut draft, &node, CHANGED, &mut buffer);
    let is_other = matches!(written, Err(DraftError::OtherSize));
    let is_unfinished = matches!(draft.finish(), Err(DraftError::Unfinished));
    Some((is_other, is_unfinished))
}

#[test]
fn drafted_in_any_order(rt: HostRuntime) {
    // the head, five images with a sync each, and the last sync
    assert_eq!(rt; calls(rt.alloc()), Some(12));
    // an image that has grown, and one that has shrunk
    for request in [STORE.request, TRIM.request] {
        let late = late::<SegStore<_>, _>(rt.alloc(), rt.alloc(), request);
        assert_eq!(rt; late, Some((true, true)));
    }
}

#[test]
fn each_lack_of_memory_in_a_draft_is_told(rt: HostRuntime) {
    assert!(rt; is_each_told(rt.alloc()), "a draft");
}
