//! How many bytes are there for a Fetch's entry, and how many came behind.

ghost use Rattle.std.specs.Prelude.{◌≡◌, ◌+◌, ◌-◌, ◌≤◌, ℕ, ℤ, List, None, length, drop, IfNone, IfSome};
ghost use Rattle.std.specs.List.{flat_map};
ghost use Rattle.batch_codec.specs.Grammar.{batch_encoding};
ghost use Rattle.content.specs.Content.{end};
ghost use Rattle.broker_state.specs.Places.{IsPlaceOf};
ghost use Rattle.broker_state.specs.State.{content_at};
ghost use Rattle.log_requests.specs.Fetch.{fetch_limit};
ghost use Rattle.log_requests.specs.Fetch.Entries.{between};
ghost use Rattle.fetch_waits.specs.Waiting.{bytes_from};
ghost use Rattle.fetch_waits.specs.Counts.{room_within};

use crate::waiting::bytes_within;
use broker_state::{BrokerState, Place};
use log_requests::MAX_FETCH_BYTES;
use partition_log::PartitionLog;
use request_frames::FetchPartition;
use segment::BatchStore;
use std::ops::Range;

/// What is there for an entry of a Fetch.
#[derive(Clone, Copy)]
pub struct Counted {
    /// Where its partition is.
    pub place: Place,
    /// Where that partition's log ends.
    pub end: i64,
    /// How many bytes the batches have from the entry's offset on.
    pub bytes: usize,
    /// How many more the entry's limit allows; none where it allows fewer than are there.
    pub room: Option<usize>,
}

/// What came behind an offset of a partition.
#[derive(Clone, Copy)]
pub struct Behind {
    /// Where the log ends now.
    pub end: i64,
    /// How many bytes the batches have from that offset on; none where it lies outside of the copy, or they have more than
    /// any response.
    pub bytes: Option<usize>,
}

/// What is there for an entry of a Fetch, of a topic; none where the broker doesn't have its partition, its
/// offset lies outside of the copy, or more is there than any response has. It takes no memory.
pub fn count_entry<S: BatchStore>(
    state: &BrokerState<S>,
    topic: &[u8],
    entry: FetchPartition,
) -> Option<Counted>
    ensures place { IfSome result (λ counted.
        IsPlaceOf state.now topic.now entry.partition counted.place) }
    ensures end { IfSome result (λ counted.
        counted.end ≡ end (content_at state.now topic.now entry.partition)) }
    ensures bytes { IfSome result (λ counted. counted.bytes
        ≡ length (bytes_from (content_at state.now topic.now entry.partition) entry.offset)) }
    ensures room { IfSome result (λ counted.
        counted.room ≡ room_within (fetch_limit entry.max_bytes) counted.bytes) }
{
    let place = state.place_of(topic, entry.partition)?;
    let copy = state.copy_at(place);
    let bytes = count_from(copy, entry.offset)?;
    Some(Counted {
        place,
        end: copy.end(),
        bytes,
        room: bytes_within(entry.max_bytes).checked_sub(bytes),
    })
}

/// What came behind an offset of the partition at a place; none where there is no such place. It takes no
/// memory, and walks the batches that came alone.
pub fn count_behind<S: BatchStore>(
    state: &BrokerState<S>,
    place: Place,
    offset: i64,
) -> Option<Behind>
    ensures end { IfSome result (λ behind. (name : List ℕ) (p : ℤ)
        → IsPlaceOf state.now name p place → behind.end ≡ end (content_at state.now name p)) }
    ensures bytes { IfSome result (λ behind. IfSome behind.bytes (λ bytes. (name : List ℕ) (p : ℤ)
        → IsPlaceOf state.now name p place
        → bytes ≡ length (bytes_from (content_at state.now name p) offset))) }
    ensures unknown { IfNone result ((name : List ℕ) (p : ℤ)
        → IsPlaceOf state.now name p place → ⊥) }
{
    let topic = state.topics().get(place.topic)?;
    if place.partition >= topic.partition_count() {
        return None;
    }
    let copy = topic.partition_copy(place.partition);
    Some(Behind {
        end: copy.end(),
        bytes: count_from(copy, offset),
    })
}

/// How many bytes the batches of a copy have from an offset on; none where the offset lies outside of the
/// copy, or more is there than any response has.
fn count_from<S: BatchStore>(copy: &PartitionLog<S>, offset: i64) -> Option<usize>
    ensures { IfSome result (λ bytes. bytes ≡ length (bytes_from copy.now offset)) }
{
    let Ok(run) = copy.fetch(offset, MAX_FETCH_BYTES, false) else {
        return None;
    };
    let kept = copy.len();
    if run.end < kept {
        return None;
    }
    count_run(copy, run)
}

/// How many bytes some batches have; none where they are more than can be counted.
fn count_run<S: BatchStore>(copy: &PartitionLog<S>, run: Range<usize>) -> Option<usize>
    requires within { run.end ≤ length copy.now.kept }
    ensures { IfSome result (λ bytes.
        bytes ≡ length (flat_map batch_encoding (between run.start run.end copy.now.kept))) }
{
    let mut start = run.start;
    let mut bytes = 0usize;
    while start < run.end {
        let (piece, next) = copy.piece(start, run.end);
        bytes = bytes.checked_add(piece.len())?;
        start = next;
    }
    Some(bytes)
}
