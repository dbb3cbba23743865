//! Whether a Fetch waits.

ghost use Rattle.std.specs.Prelude.{◌≡◌, ◌≤◌, ◌+◌, ◌&&◌, min, not, true, false, length, drop, map, nat_le, nat_lt, IfOk, OnOk, OnErr};
ghost use Rattle.std.specs.List.{flat_map};
ghost use Rattle.batch_codec.specs.Grammar.{batch_encoding};
ghost use Rattle.segment.specs.BatchLists.{first_from};
ghost use Rattle.partition_log.specs.Lookups.{fetched};
ghost use Rattle.frame_fields.specs.Arrays.{values};
ghost use Rattle.request_frames.specs.Fetch.{fetch_partition, fetch_partition_value, fetch_view};
ghost use Rattle.log_requests.specs.Fetch.{fetch_limit, is_out_of_range};
ghost use Rattle.log_requests.specs.Fetch.Entries.{between, fetch_entry_value};
ghost use Rattle.fetch_waits.specs.Waiting.{asks_for_some, awaited_bytes, entries_of, fetch_waits, lacks_bytes};
ghost use Rattle.fetch_waits.specs.Waiting.Entries.{left_by_entries, left_by_entry, left_of};

use broker_state::BrokerState;
use frame_fields::{Topic, Topics};
use log_requests::MAX_FETCH_BYTES;
use partition_log::{OutOfRange, PartitionLog};
use request_frames::{FetchPartition, FetchRequest};
use segment::BatchStore;
use std::ops::Range;

/// The most topics and the most entries of a Fetch that waits: as many as a broker can have partitions.
/// This limit is the project's own.
pub const MOST_ENTRIES: usize = 4_097;

/// Whether a Fetch waits for records, in what a broker holds now: it would be given all that is there, and
/// that is too little. It takes no memory, and walks no more batches of a partition than would be given of
/// it, and one.
#[tactic(auto, unfolding(crate::specs::Waiting::fetch_waits))]
pub fn fetch_waits<S: BatchStore>(state: &BrokerState<S>, request: &FetchRequest<'_>) -> bool
    ensures { result ≡ fetch_waits state.now (fetch_view request.now) }
{
    request.max_wait_ms > 0 && asks_for_some(request) && lacks_bytes(state, request)
}

/// Whether a Fetch names some topics and partitions, and no more of either than there can be partitions.
fn asks_for_some(request: &FetchRequest<'_>) -> bool
    ensures { result ≡ asks_for_some (fetch_view request.now) }
{
    request.topics.len() as usize <= MOST_ENTRIES && has_some_entries(request)
}

/// Whether a Fetch asks for some partitions, and for no more than there can be.
fn has_some_entries(request: &FetchRequest<'_>) -> bool
    ensures { result ≡ (nat_lt 0 (length (entries_of (fetch_view request.now)))
        && nat_le (length (entries_of (fetch_view request.now))) MOST_ENTRIES) }
{
    let mut count = 0;
    for topic in Topics::of(&request.topics) {
        let more = topic.partitions.len() as usize;
        if more > MOST_ENTRIES - count {
            return false;
        }
        count += more;
    }
    count > 0
}

/// How many bytes a limit allows. A negative limit allows none.
pub(crate) fn bytes_within(limit: i32) -> usize
    ensures { result ≡ fetch_limit limit }
{
    limit.max(0) as usize
}

/// For how many bytes of records a Fetch waits.
pub fn awaited_bytes(request: &FetchRequest<'_>) -> usize
    ensures { result ≡ awaited_bytes (fetch_view request.now) }
{
    let least = bytes_within(request.min_bytes);
    let most = bytes_within(request.max_bytes);
    least.min(most.min(MAX_FETCH_BYTES))
}

/// Whether no partition has an error code, all that is there is given, and it has fewer bytes of records
/// than are awaited.
fn lacks_bytes<S: BatchStore>(state: &BrokerState<S>, request: &FetchRequest<'_>) -> bool
    ensures { result ≡ lacks_bytes state.now (fetch_view request.now) }
{
    let awaited = awaited_bytes(request);
    if awaited == 0 {
        return false;
    }
    let mut missing = awaited;
    for topic in Topics::of(&request.topics) {
        match left_by_entries(state, topic, awaited, missing) {
            Some(left) => missing = left,
            None => return false,
        }
    }
    true
}

/// How many of the bytes that are awaited are still missing behind a topic's entries, where so many were
/// before; none where an entry has an error code, leaves out a batch that is there, or nothing is missing
/// any more.
fn left_by_entries<S: BatchStore>(
    state: &BrokerState<S>,
    topic: Topic<'_, FetchPartition>,
    awaited: usize,
    missing: usize,
) -> Option<usize>
    ensures { result ≡ left_by_entries state.now topic.entry.name.now awaited missing
        (map fetch_partition_value (values fetch_partition topic.entry.partitions)) }
{
    let mut left = missing;
    for entry in topic.partitions {
        left = left_by_entry(state, topic.name, entry, awaited, left)?;
    }
    Some(left)
}

/// How many of the bytes that are awaited are still missing behind an entry, where so many were before;
/// none where it has an error code, leaves out a batch that is there, or nothing is missing any more.
fn left_by_entry<S: BatchStore>(
    state: &BrokerState<S>,
    topic: &[u8],
    entry: FetchPartition,
    awaited: usize,
    missing: usize,
) -> Option<usize>
    ensures { result
        ≡ left_by_entry state.now topic.now awaited missing (fetch_entry_value entry) }
{
    let Ok(copy) = state.led_copy(topic, entry.partition) else {
        return None;
    };
    let Ok(run) = run_within(copy, entry, awaited, missing) else {
        return None;
    };
    let kept = copy.len();
    if run.end < kept {
        return None;
    }
    left_by_run(copy, run, missing)
}

/// The indices of the batches of a copy, from the offset that is asked for on, that fit into the entry's
/// limit and into the bytes that are missing of those that are awaited. The response has room for at least
/// as many, and where more are there it doesn't wait. Its first batch is given in any case.
///
/// # Errors
///
/// The offset lies outside the copy.
fn run_within<S: BatchStore>(
    copy: &PartitionLog<S>,
    entry: FetchPartition,
    awaited: usize,
    missing: usize,
) -> Result<Range<usize>, OutOfRange>
    ensures starts { IfOk result (λ run. run.start ≡ first_from entry.offset copy.now.kept) }
    ensures ends { IfOk result (λ run. run.end ≡ run.start + fetched (not (nat_lt missing awaited))
        (min (fetch_limit entry.max_bytes) missing) (drop run.start copy.now.kept)) }
    ensures within { IfOk result (λ run. run.end ≤ length copy.now.kept) }
    ensures in_range { OnOk result (is_out_of_range copy.now entry.offset ≡ false) }
    ensures out_of_range { OnErr result (is_out_of_range copy.now entry.offset ≡ true) }
{
    // Each batch has bytes, so the response has one where fewer are missing than are awaited.
    let has_batch = missing < awaited;
    let limit = bytes_within(entry.max_bytes).min(missing);
    copy.fetch(entry.offset, limit, !has_batch)
}

/// How many bytes are still missing behind some batches, where so many were before; none where nothing
/// is.
fn left_by_run<S: BatchStore>(
    copy: &PartitionLog<S>,
    run: Range<usize>,
    missing: usize,
) -> Option<usize>
    requires within { run.end ≤ length copy.now.kept }
    ensures { result ≡ left_of missing
        (length (flat_map batch_encoding (between run.start run.end copy.now.kept))) }
{
    let mut start = run.start;
    let mut left = missing;
    while start < run.end && left > 0 {
        let (piece, next) = copy.piece(start, run.end);
        left = left.saturating_sub(piece.len());
        start = next;
    }
    if left > 0 { Some(left) } else { None }
}
