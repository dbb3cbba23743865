//! A walk over a partition from its newest batch back, which looks for the latest values of some keys.

ghost use Rattle.std.specs.Prelude.{◌≡◌, ◌≤◌, [], ◌∷◌, length, OnOk, IfSome};
ghost use Rattle.std.specs.FinMap as finite;
ghost use Rattle.batch_codec.specs.Views.{record_value};
ghost use Rattle.content.specs.Content.{shown_table};
ghost use Rattle.content.specs.Table.{Table};
ghost use Rattle.partition_log.specs.Newest.{value_of};
ghost use Rattle.group_requests.specs.OffsetFetch.Walks.{slot_value, filled_with, stretch_records, Fills, HasNone, Knows};

use batch_codec::{BatchView, RecordView};
use indexmap::IndexMap;
use partition_log::PartitionLog;
use segment::BatchStore;
use std::alloc::{AllocError, Allocator};
use std::hash::{BuildHasherDefault, FoldHasher};

/// The latest value of a key, and the index at which the stretch of batches starts that has it.
#[derive(Clone, Copy)]
pub(crate) struct Latest<'n> {
    pub(crate) stretch: usize,
    pub(crate) value: Option<&'n [u8]>,
}

/// The keys that are looked for, behind the bytes with which all of them begin, each with what was found.
type Slots<'n, A> = IndexMap<Vec<u8, A>, Option<Latest<'n>>, BuildHasherDefault<FoldHasher>, A>;

/// A walk over what groups committed, and what it found.
#[derive(Drop)]
pub(crate) struct CommitWalk<'n, A: Allocator + Copy> {
    /// The bytes with which the keys begin.
    front: Vec<u8, A>,
    slots: Slots<'n, A>,
    /// How many keys were not found yet.
    left: usize,
    /// Whether the oldest batch was reached.
    is_whole: bool,
}

/// Takes what was found in a batch for the latest value, unless a newer stretch has one. Whether it is the
/// first that was found.
fn fill<'n>(slot: &mut Option<Latest<'n>>, found: Latest<'n>) -> bool
    ensures { slot_value slot.new ≡ filled_with found.entry.stretch (value_of found.entry.value) (slot_value slot.old) }
{
    match *slot {
        None => {
            *slot = Some(found);
            true
        }
        Some(newer) => {
            if newer.stretch == found.stretch {
                *slot = Some(found);
            }
            false
        }
    }
}

impl<'n, A: Allocator + Copy> CommitWalk<'n, A> {
    /// A walk for no keys yet.
    pub(crate) fn new(alloc: A, front: Vec<u8, A>) -> CommitWalk<'n, A>
        ensures none { HasNone result }
        ensures knows { (t : Table) → Knows t result }
    {
        CommitWalk {
            front,
            slots: IndexMap::new(alloc),
            left: 0,
            is_whole: false,
        }
    }

    /// Looks for a key too, if it begins as the others.
    pub(crate) fn want(&mut self, key: &[u8]) -> Result<(), AllocError>
        ensures { OnOk result (HasNone self.old → HasNone self.new) }
    {
        let Some(rest) = key.strip_prefix(&self.front) else {
            return Ok(());
        };
        let rest = rest.to_vec(*self.front.allocator())?;
        if self.slots.insert(rest, None)?.is_none() {
            self.left = self.left.saturating_add(1);
        }
        Ok(())
    }

    /// Looks at a record of a batch, whose stretch starts at that index.
    fn note(&mut self, rec: &RecordView<'n>, stretch: usize)
        ensures { Fills stretch (record_value rec.now ∷ []) self.old self.new }
    {
        let Some(key) = rec.key else {
            return;
        };
        let Some(rest) = key.strip_prefix(&self.front) else {
            return;
        };
        let value = rec.value;
        match self.slots.get_mut(rest) {
            Some(slot) => {
                if fill(slot, Latest { stretch, value }) {
                    self.left = self.left.saturating_sub(1);
                }
            }
            None => {}
        }
    }

    /// Looks at the records of a batch, whose stretch starts at that index.
    fn note_batch(&mut self, batch: &BatchView<'n>, index: usize)
        ensures { Fills index batch.now.recs self.old self.new }
    {
        for rec in batch.recs() {
            self.note(&rec, index);
        }
    }

    /// Looks at the records of the batches from one index to before another. What is found in any of them
    /// counts as found at the first, so that a later one among them has the latest value.
    fn note_stretch<S: BatchStore>(&mut self, log: &'n PartitionLog<S>, start: usize, end: usize)
        requires rising { start ≤ end }
        requires within { end ≤ length log.now.kept }
        ensures { Fills start (stretch_records start end log.now.kept) self.old self.new }
    {
        let mut walk = log.walk(start);
        for _passed in 0..end - start {
            match walk.next() {
                Some(batch) => self.note_batch(&batch, start),
                None => return,
            }
        }
    }

    /// Walks from the newest batch back, by stretches that are walked forward, until each key was found.
    pub(crate) fn run<S: BatchStore>(&mut self, log: &'n PartitionLog<S>)
        ensures { HasNone self.old → Knows (shown_table log.now) self.new }
    {
        let mut end = log.len();
        while end > 0 && self.left > 0 {
            let start = log.stretch_start(end - 1);
            self.note_stretch(log, start, end);
            end = start;
        }
        self.is_whole = end == 0;
    }

    /// The value that the partition shows of a key; `None` where the walk doesn't tell.
    pub(crate) fn shown(&self, key: &[u8]) -> Option<Option<&'n [u8]>>
        ensures { (t : Table) → Knows t self.now
            → IfSome result (λ value. value_of value ≡ finite.get t key.now) }
    {
        let rest = key.strip_prefix(&self.front)?;
        match self.slots.get(rest)? {
            Some(found) => Some(found.value),
            None if self.is_whole => Some(None),
            None => None,
        }
    }
}
