//! The room that a Fetch response has for records.

ghost use Rattle.std.specs.Prelude.{◌≡◌, ◌≤◌, ◌<◌, ◌-◌, ◌^◌, ◌||◌, true, false, length, IfOk, OnOk, OnErr};
ghost use Rattle.std.specs.List.{flat_map};
ghost use Rattle.batch_codec.specs.Grammar.{batch_encoding};
ghost use Rattle.content.specs.Content.{IsContent};
ghost use Rattle.log_requests.specs.Fetch.{fetch_limit, fetch_room, fetch_run_within, is_out_of_range};
ghost use Rattle.log_requests.specs.Fetch.Entries.{between, fetch_entry_value};

use partition_log::{OutOfRange, PartitionLog};
use request_frames::FetchPartition;
use segment::BatchStore;
use std::marker::Model;
use std::ops::Range;

/// The most bytes of records in one Fetch response, apart from a first batch that is larger. This limit
/// is the project's own.
pub const MAX_FETCH_BYTES: usize = 8_388_608;

/// What is left of the room that a Fetch response has for records, and whether the response has a
/// batch yet.
#[derive(Drop)]
pub struct FetchRoom {
    left: usize,
    given: bool,
}

impl Model for FetchRoom {
    ghost use Rattle.log_requests.specs.Fetch.{FetchRoom as Room};

    ghost Value = { Room };

    ghost view = { λ r. record { left = r.left; given = r.given } };
}

/// How many bytes a limit allows. A negative limit allows none.
fn fetch_limit(limit: i32) -> usize
    ensures { result ≡ fetch_limit limit }
{
    if limit < 0 {
        return 0;
    }
    limit as usize
}

impl FetchRoom {
    /// The room of a response of at most so many bytes of records. A negative number counts as 0.
    pub fn new(max_bytes: i32) -> FetchRoom
        ensures { result ≡ fetch_room max_bytes }
    {
        FetchRoom {
            left: fetch_limit(max_bytes).min(MAX_FETCH_BYTES),
            given: false,
        }
    }

    /// The indices of the batches that are given of a copy.
    ///
    /// # Errors
    ///
    /// The offset that is asked for lies outside the copy.
    pub fn run_within<S: BatchStore>(
        &self,
        copy: &PartitionLog<S>,
        entry: FetchPartition,
    ) -> Result<Range<usize>, OutOfRange>
        ensures gives { IfOk result (λ run. between run.start run.end copy.now.kept
            ≡ fetch_run_within self.now copy.now (fetch_entry_value entry)) }
        ensures within { IfOk result (λ run. run.end ≤ length copy.now.kept) }
        ensures in_range { OnOk result (is_out_of_range copy.now entry.offset ≡ false) }
        ensures out_of_range { OnErr result (is_out_of_range copy.now entry.offset ≡ true) }
        ensures small { IfOk result (λ run. IsContent copy.now
            → length (flat_map batch_encoding (between run.start run.end copy.now.kept)) < 2 ^ 32) }
    {
        let limit = fetch_limit(entry.max_bytes).min(self.left);
        copy.fetch(entry.offset, limit, !self.given)
    }

    /// Takes the room of so many bytes of records. `has_batch` says whether they have a batch.
    pub fn take(&mut self, bytes: usize, has_batch: bool)
        ensures { self.new ≡ record {
          left = self.old.left - bytes;
          given = self.old.given || has_batch;
        } }
    {
        self.left = self.left.saturating_sub(bytes);
        self.given = self.given || has_batch;
    }
}
