//! An entry of an OffsetFetch request: the offset that a group committed last in a partition.

ghost use Rattle.std.specs.Prelude.{◌≡◌, [], ◌∷◌, Ok, IfSome};
ghost use Rattle.std.specs.Option.{option_map};
ghost use Rattle.content.specs.Content.{shown_table};
ghost use Rattle.group_offsets.specs.CommittedValues.{committed_value};
ghost use Rattle.partition_log.specs.Newest.{value_of};
ghost use Rattle.answering.specs.declared.codes.ErrorCode.TheVariants.{InvalidRequest};
ghost use Rattle.answering.specs.Lists.{first_some, fault_if};
ghost use Rattle.answering.specs.Work.{MayAnswer};
ghost use Rattle.answering.specs.Doing.{DoesWork};
ghost use Rattle.broker_state.specs.Checks.{no_group, unknown};
ghost use Rattle.group_requests.specs.GroupPartition.{group_content};
ghost use Rattle.group_requests.specs.OffsetFetch.{offset_fetch_result, offset_fetch_work};
ghost use Rattle.group_requests.specs.OffsetFetch.Walks.{Knows};
ghost use Rattle.group_requests.specs.OffsetFetch.Entries.{HasWalked, LooksUpAt, ShowsAt, ReadsAs, fetched_offset};

use crate::group_partition::group_copy;
use crate::offset_fetch::walk::CommitWalk;
use answering::ErrorCode;
use broker_state::BrokerState;
use group_offsets::{Committed, GroupError, lookup, put_key, read_value};
use segment::BatchStore;
use std::alloc::AllocError;

/// What a broker holds, and a group whose offsets are asked for.
#[derive(Drop)]
pub(crate) struct Fetching<'n, 'q, S: BatchStore> {
    pub(crate) state: &'n BrokerState<S>,
    pub(crate) group: &'q [u8],
    /// Whether the request names more partitions than are answered.
    pub(crate) too_many: bool,
    /// What one walk for all partitions found, if there was memory for it.
    pub(crate) walk: Result<CommitWalk<'n, S::Alloc>, AllocError>,
}

/// What is answered of a partition.
#[derive(Clone, Copy)]
pub(crate) struct Fetched<'n> {
    /// The offset, -1 where there is none.
    pub(crate) offset: i64,
    /// What was committed with the offset, empty where there is none.
    pub(crate) metadata: Option<&'n [u8]>,
    /// The error code, 0 for none.
    pub(crate) code: i16,
}

/// The committed offset that a value is, if there is one.
fn committed(value: Option<&[u8]>) -> Result<Option<Committed<'_>>, ErrorCode>
    ensures { ReadsAs (value_of value.entry) result }
{
    match value {
        None => Ok(None),
        Some(bytes) => match read_value(bytes) {
            Ok(found) => Ok(Some(found)),
            Err(_) => Err(ErrorCode::UnknownServerError),
        },
    }
}

impl<'n, 'q, S: BatchStore> Fetching<'n, 'q, S> {
    /// The first fault of an entry that is found before its group's offset is looked up.
    fn fault(&self, topic: &[u8], partition: i32) -> Option<ErrorCode>
        ensures { result ≡ first_some (fault_if self.now.too_many InvalidRequest
            ∷ no_group self.now.group.now ∷ unknown self.now.state.now topic.now partition ∷ []) }
    {
        if self.too_many {
            return Some(ErrorCode::InvalidRequest);
        }
        if self.group.is_empty() {
            return Some(ErrorCode::InvalidGroupId);
        }
        match self.state.place_of(topic, partition) {
            Some(_) => None,
            None => Some(ErrorCode::UnknownTopicOrPartition),
        }
    }

    /// What the walk found of a partition; `None` where it doesn't tell.
    fn walked(
        &self,
        walk: &CommitWalk<'n, S::Alloc>,
        topic: &[u8],
        partition: i32,
    ) -> Option<Option<&'n [u8]>>
        ensures { Knows (shown_table (group_content self.now.state.now)) walk.now
            → IfSome result (λ value. ShowsAt self.now.state.now self.now.group.now topic.now
            partition (value_of value)) }
    {
        let alloc = group_copy(self.state).allocator();
        match put_key(alloc, self.group, topic, partition) {
            Ok(key) => walk.shown(&key),
            Err(_) => None,
        }
    }

    /// What the group topic shows of a partition, by a look-up of its own.
    fn look_up(&self, topic: &[u8], partition: i32) -> Result<Option<Committed<'n>>, ErrorCode>
        ensures { LooksUpAt self.now.state.now self.now.group.now topic.now partition result }
    {
        match lookup(group_copy(self.state), self.group, topic, partition) {
            Ok(found) => Ok(found),
            Err(GroupError::OutOfMemory) => Err(ErrorCode::StorageError),
            Err(GroupError::NameTooLong | GroupError::BadValue) => {
                Err(ErrorCode::UnknownServerError)
            }
        }
    }

    /// What the group topic shows of a partition.
    fn find(&self, topic: &[u8], partition: i32) -> Result<Option<Committed<'n>>, ErrorCode>
        ensures { HasWalked self.now
            → LooksUpAt self.now.state.now self.now.group.now topic.now partition result }
    {
        let Ok(walk) = &self.walk else {
            return Err(ErrorCode::StorageError);
        };
        match self.walked(walk, topic, partition) {
            Some(value) => committed(value),
            None => self.look_up(topic, partition),
        }
    }

    /// Does what an entry asks for, or finds its first fault.
    fn try_fetch(&self, topic: &[u8], partition: i32) -> Result<Option<Committed<'n>>, ErrorCode>
        ensures { HasWalked self.now → DoesWork (offset_fetch_work self.now.state.now
            self.now.group.now self.now.too_many topic.now (record { partition = partition }))
            (λ found. offset_fetch_result partition (Ok (option_map committed_value found)))
            result self.now.state.now self.now.state.now }
    {
        match self.fault(topic, partition) {
            Some(fault) => Err(fault),
            None => self.find(topic, partition),
        }
    }

    /// What is answered to an entry of an OffsetFetch request.
    pub(crate) fn fetch(&self, topic: &[u8], partition: i32) -> Fetched<'n>
        ensures { HasWalked self.now → MayAnswer (offset_fetch_work self.now.state.now
            self.now.group.now self.now.too_many topic.now (record { partition = partition }))
            self.now.state.now (fetched_offset partition result) self.now.state.now }
    {
        match self.try_fetch(topic, partition) {
            Ok(Some(found)) => Fetched {
                offset: found.offset,
                metadata: found.metadata,
                code: 0,
            },
            Ok(None) => Fetched {
                offset: -1,
                metadata: Some(&[]),
                code: 0,
            },
            Err(fault) => Fetched {
                offset: -1,
                metadata: Some(&[]),
                code: fault.number(),
            },
        }
    }
}
