//! OffsetFetch: the offsets that a group committed last.

ghost use Rattle.std.specs.Prelude.{◌≡◌, nat_lt, IfOk, OnOk, OnErr};
ghost use Rattle.content.specs.Content.{shown_table};
ghost use Rattle.request_frames.specs.OffsetFetch.{offset_fetch_view};
ghost use Rattle.answering.specs.Responding.{RespondsBy};
ghost use Rattle.group_requests.specs.GroupPartition.{group_content};
ghost use Rattle.group_requests.specs.OffsetFetch.{partition_count, offset_fetch_plan};
ghost use Rattle.group_requests.specs.OffsetFetch.Walks.{HasNone, Knows};

mod entry;
mod walk;

use crate::group_partition::group_copy;
use crate::offset_fetch::entry::Fetching;
use crate::offset_fetch::walk::CommitWalk;
use answering::{Answers, Memory, respond};
use broker_state::BrokerState;
use frame_fields::{Topic, Topics};
use group_offsets::{GroupError, put_key};
use partition_log::PartitionLog;
use request_frames::{OffsetFetchPartition, OffsetFetchRequest};
use responses::offset_fetch::put_fetched_offset;
use segment::BatchStore;
use std::alloc::{AllocError, Allocator};

/// The most partitions that a request may name, in all, and still be answered with offsets.
pub const MAX_FETCHED_OFFSETS: usize = 8_192;

/// The most partitions that are each looked up by an index of keys: of more a walk finds all at once, however
/// long a look-up takes, as where keys share a hash.
const MOST_LOOKED_UP: usize = 8;

/// The bytes of a group's key behind those of the group, where the topic has no name: the name's length,
/// and the partition.
const KEY_END_BYTES: usize = 6;

impl<'n, 'q, S: BatchStore> Answers<OffsetFetchPartition, ()> for Fetching<'n, 'q, S> {
    ghost use Rattle.std.specs.Prelude.{None};
    ghost use Rattle.responses.specs.OffsetFetch.{FetchedOffset, fetched_offset_bytes};
    ghost use Rattle.answering.specs.Work.{MayAnswer};
    ghost use Rattle.group_requests.specs.OffsetFetch.{offset_fetch_work};
    ghost use Rattle.group_requests.specs.OffsetFetch.Entries.{HasWalked};

    ghost Answered = { FetchedOffset };

    ghost bytes = { fetched_offset_bytes };

    ghost answers = { λ asked before name e r after. HasWalked asked → MayAnswer (offset_fetch_work
        asked.state.now asked.group.now asked.too_many name (record { partition = e.partition }))
        asked.state.now r asked.state.now };

    ghost size = { None };

    fn put<A: Allocator + Copy>(
        &self,
        _shared: &mut (),
        _memory: &mut Option<Memory>,
        topic: &[u8],
        entry: OffsetFetchPartition,
        out: &mut Vec<u8, A>,
    ) -> Result<(), AllocError> {
        let partition = entry.partition;
        let found = self.fetch(topic, partition);
        put_fetched_offset(out, partition, found.offset, found.metadata, found.code)
    }
}

/// Whether a request names more than `most` partitions, in all.
fn names_more_than(request: &OffsetFetchRequest<'_>, most: usize) -> bool
    ensures { result ≡ nat_lt most (partition_count (offset_fetch_view request.now).topics) }
{
    let mut count = 0;
    for topic in Topics::of(&request.topics) {
        let more = topic.partitions.len() as usize;
        if more > most - count {
            return true;
        }
        count += more;
    }
    false
}

/// The bytes of a key, empty where a name is too long.
fn key_of<A: Allocator + Copy>(
    alloc: A,
    group: &[u8],
    topic: &[u8],
    partition: i32,
) -> Result<Vec<u8, A>, AllocError> {
    match put_key(alloc, group, topic, partition) {
        Ok(key) => Ok(key),
        Err(GroupError::OutOfMemory) => Err(AllocError),
        Err(GroupError::NameTooLong | GroupError::BadValue) => Ok(Vec::new(alloc)),
    }
}

/// Looks for the offsets of a topic's partitions too, of those that the broker has.
fn want_topic<'n, S: BatchStore>(
    walk: &mut CommitWalk<'n, S::Alloc>,
    state: &BrokerState<S>,
    group: &[u8],
    topic: Topic<'_, OffsetFetchPartition>,
) -> Result<(), AllocError>
    ensures { OnOk result (HasNone walk.old → HasNone walk.new) }
{
    let alloc = group_copy(state).allocator();
    for entry in topic.partitions {
        if state.place_of(topic.name, entry.partition).is_some() {
            walk.want(&key_of(alloc, group, topic.name, entry.partition)?)?;
        }
    }
    Ok(())
}

/// The bytes with which a group's keys begin.
fn key_front<A: Allocator + Copy>(alloc: A, group: &[u8]) -> Result<Vec<u8, A>, AllocError> {
    let mut key = key_of(alloc, group, &[], 0)?;
    key.truncate(key.len().saturating_sub(KEY_END_BYTES));
    Ok(key)
}

/// A walk for the offsets of all partitions that a request names, and that the broker has.
fn walk_for<'n, S: BatchStore>(
    state: &'n BrokerState<S>,
    request: &OffsetFetchRequest<'_>,
) -> Result<CommitWalk<'n, S::Alloc>, AllocError>
    ensures { IfOk result (Knows (shown_table (group_content state.now))) }
{
    let copy = group_copy(state);
    let front = key_front(copy.allocator(), request.group)?;
    let mut walk = CommitWalk::new(copy.allocator(), front);
    for topic in Topics::of(&request.topics) {
        want_topic(&mut walk, state, request.group, topic)?;
    }
    walk.run(copy);
    Ok(walk)
}

/// Completes the index by key of the partition in which groups keep their offsets, where an OffsetFetch
/// request is answered by it. Nothing that is seen of the broker changes.
pub fn index_asked_commits<S: BatchStore>(
    state: &mut BrokerState<S>,
    request: &OffsetFetchRequest<'_>,
)
    ensures unchanged { state.new ≡ state.old }
{
    if request.group.is_empty() || names_more_than(request, MOST_LOOKED_UP) {
        return;
    }
    let place = state.group_place();
    state.index_keys(place);
}

/// How many partitions are each looked up by themselves.
fn most_looked_up<S: BatchStore>(copy: &PartitionLog<S>) -> usize {
    if copy.has_key_index() {
        MOST_LOOKED_UP
    } else {
        1
    }
}

/// A walk for the partitions of a request, where it names some that are looked for together.
fn walk_if_many<'n, S: BatchStore>(
    state: &'n BrokerState<S>,
    request: &OffsetFetchRequest<'_>,
    too_many: bool,
) -> Result<CommitWalk<'n, S::Alloc>, AllocError>
    ensures { IfOk result (Knows (shown_table (group_content state.now))) }
{
    let copy = group_copy(state);
    if !too_many && names_more_than(request, most_looked_up(copy)) {
        return walk_for(state, request);
    }
    let alloc = copy.allocator();
    Ok(CommitWalk::new(alloc, Vec::new(alloc)))
}

/// Appends the response to an OffsetFetch request. It changes nothing else.
///
/// The offsets of up to eight partitions are each looked up by the index by key of the group partition, those
/// of more, or where it has no index, in one walk over it. Where there is no memory for that, or for a
/// look-up, the partition's own answer is the error code of a storage error.
///
/// # Errors
///
/// `AllocError` where there is no memory for the response; the output is then as before.
pub fn reply_to_offset_fetch<S: BatchStore, A: Allocator + Copy>(
    state: &BrokerState<S>,
    correlation: i32,
    request: &OffsetFetchRequest<'_>,
    out: &mut Vec<u8, A>,
) -> Result<(), AllocError>
    ensures responds { OnOk result (RespondsBy
        (offset_fetch_plan state.now correlation (offset_fetch_view request.now))
        out.old.items out.new.items state.now) }
    ensures unchanged_on_error { OnErr result (out.new.items ≡ out.old.items) }
{
    let too_many = names_more_than(request, MAX_FETCHED_OFFSETS);
    let asked = Fetching {
        state,
        group: request.group,
        too_many,
        walk: walk_if_many(state, request, too_many),
    };
    respond(
        &asked,
        &mut (),
        &mut None,
        correlation,
        &[],
        &request.topics,
        &[],
        out,
    )
}
