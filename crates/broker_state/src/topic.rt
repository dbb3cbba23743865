//! A topic of a broker: its name, and its partitions by their numbers.

ghost use Rattle.std.specs.Prelude.{◌≡◌, ◌<◌, pos, IfOk, IfSome, IfNone, Some, None, replicate, length, position, bytes_eq};
ghost use Rattle.content.specs.Content.{empty};
ghost use Rattle.broker_state.specs.State.{partition_of};
ghost use Rattle.broker_state.specs.declared.config.Role.{Role};
ghost use Rattle.broker_state.specs.Changes.{ChangesIn};
ghost use Rattle.broker_state.specs.Parts.{new_parts, topic_contents, topic_shape, HasRole};
ghost use Rattle.broker_state.specs.Sound.{HoldsContents};

use crate::change::Change;
use crate::config::Role;
use crate::partition::Partition;
use partition_log::PartitionLog;
use segment::BatchStore;
use std::alloc::AllocError;
use std::marker::Model;

/// A topic's partitions, from 0 on.
#[derive(Drop)]
pub struct TopicLogs<S: BatchStore> {
    name: Vec<u8, S::Alloc>,
    partitions: Vec<Partition<S>, S::Alloc>,
}

impl<S: BatchStore> Model for TopicLogs<S> {
    ghost use Rattle.broker_state.specs.Parts.{TopicParts};

    ghost Value = { TopicParts };

    ghost view = { λ t. record { name = t.name.items; partitions = t.partitions.items } };
}

fn new_partitions<S: BatchStore>(
    alloc: S::Alloc,
    role: Role,
    count: u32,
) -> Result<Vec<Partition<S>, S::Alloc>, AllocError>
    ensures { IfOk result (λ partitions. partitions.items
        ≡ replicate count (record { role = role; content = empty })) }
{
    let mut partitions = Vec::new(alloc);
    for _ in 0..count {
        partitions.push(Partition::new(alloc, role))?;
    }
    Ok(partitions)
}

impl<S: BatchStore> TopicLogs<S> {
    /// A topic of this name, whose partitions are empty.
    pub(crate) fn new(
        alloc: S::Alloc,
        role: Role,
        name: &[u8],
        count: u32,
    ) -> Result<TopicLogs<S>, AllocError>
        ensures { IfOk result (λ topic. topic
            ≡ new_parts role (record { name = name.now; partitions = count })) }
    {
        Ok(TopicLogs {
            name: Vec::from_slice(alloc, name)?,
            partitions: new_partitions(alloc, role, count)?,
        })
    }

    /// The index of the partition of a number.
    pub(crate) fn partition_index(&self, number: i32) -> Option<usize>
        ensures found { IfSome result (λ index. (number ≡ pos index)
            × (index < length self.now.partitions)) }
        ensures unknown { IfNone result (partition_of number (topic_contents self.now) ≡ None) }
    {
        if number < 0 {
            return None;
        }
        let index = number as usize;
        if index < self.partitions.len() {
            Some(index)
        } else {
            None
        }
    }

    /// The copy of the partition of an index.
    pub fn partition_copy(&self, index: usize) -> &PartitionLog<S>
        requires { index < length self.now.partitions }
        ensures { partition_of (pos index) (topic_contents self.now) ≡ Some result.now }
    {
        self.partitions[index].copy()
    }

    /// Makes a change in the partition of an index.
    pub(crate) fn update_partition<R, C: Change<S, R>>(&mut self, index: usize, change: C) -> R
        requires { index < length self.old.partitions }
        ensures changes { (role : Role) → HasRole role self.old
            → ChangesIn (C.changes change role result) (topic_contents self.old) (pos index)
            (topic_contents self.new) }
        ensures shape { topic_shape self.new ≡ topic_shape self.old }
        ensures roles { (role : Role) → HasRole role self.old → HasRole role self.new }
        ensures contents { HoldsContents (topic_contents self.old)
            → HoldsContents (topic_contents self.new) }
    {
        self.partitions[index].apply(change)
    }

    /// The topic's name.
    pub fn name(&self) -> &[u8]
        ensures { result.now ≡ self.now.name }
    {
        &self.name
    }

    /// How many partitions there are.
    pub fn partition_count(&self) -> usize
        ensures { result ≡ length self.now.partitions }
    {
        self.partitions.len()
    }
}

/// The index of the topic of a name.
pub(crate) fn topic_index<S: BatchStore>(topics: &[TopicLogs<S>], name: &[u8]) -> Option<usize>
    ensures { result ≡ position (λ t. bytes_eq t.name name.now) topics.now }
{
    topics
        .iter()
        .position(|topic| topic.name.as_slice() == name)
}
