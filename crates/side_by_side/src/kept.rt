//! The batches that a copy keeps, one after another.

ghost use Rattle.std.specs.Prelude.{◌≡◌, drop, is_some, IfSome};
ghost use Rattle.content.specs.Content.{IsContent};
ghost use Rattle.content.specs.Records.{IsKeepable};
ghost use Rattle.side_by_side.specs.Steps.{first_batch, HasSpan};

use crate::telling::Telling;
use batch_codec::BatchView;
use delta_bytes::entries::EntryView;
use delta_bytes::{KeptWalk, PartitionLog};
use segment::BatchStore;
use std::marker::Model;

/// A copy's content is a valid one: this is known behind the call, which does nothing.
pub fn know_content<S: BatchStore>(copy: &PartitionLog<S>)
    ensures { IsContent copy.now }
{
    let _ = copy.end();
}

/// The batches that a copy keeps, from one of them on, by rising base offset.
#[derive(Drop)]
pub struct KeptBatches<'a, S: BatchStore> {
    /// The batch that comes next, which the walk has passed.
    first: Option<BatchView<'a>>,
    walk: KeptWalk<'a, S>,
}

impl<'a, S: BatchStore> Model for KeptBatches<'a, S> {
    ghost use Rattle.std.specs.Prelude.{◌≡◌, List, [], ◌++◌, None, option_to_list};
    ghost use Rattle.std.specs.List.{AllByRecursion};
    ghost use Rattle.batch_codec.specs.Values.{BatchValue};
    ghost use Rattle.content.specs.Records.{IsKeepable};
    ghost use Rattle.side_by_side.specs.Steps.{HasSpan};

    ghost Value = { List BatchValue };

    ghost view = { λ k. option_to_list k.first ++ k.walk };

    ghost invariant = { λ k. (k.first ≡ None → k.walk ≡ [])
        × AllByRecursion HasSpan (option_to_list k.first ++ k.walk)
        × AllByRecursion IsKeepable (option_to_list k.first ++ k.walk) };
}

impl<'a, S: BatchStore> KeptBatches<'a, S> {
    /// All batches that the copy keeps.
    pub fn new(copy: &'a PartitionLog<S>) -> KeptBatches<'a, S>
        ensures all { result ≡ copy.now.kept }
        ensures is_content { IsContent copy.now }
    {
        let mut walk = copy.walk(0);
        let first = walk.next();
        KeptBatches { first, walk }
    }

    /// Whether a batch is left.
    #[tactic(auto, using(crate::proofs::KeptRange::some_first))]
    pub(crate) fn has_batch(&self) -> bool
        ensures { result ≡ is_some (first_batch self.now) }
    {
        self.first.is_some()
    }

    /// The batch that comes next, if there is one.
    pub(crate) fn first_batch(&self) -> Option<BatchView<'_>>
        ensures first { result ≡ first_batch self.now }
        ensures span { IfSome result HasSpan }
        ensures keepable { IfSome result IsKeepable }
    {
        match &self.first {
            Some(batch) => Some(BatchView::open(batch.bytes())),
            None => None,
        }
    }

    /// Passes a batch, if there is one.
    fn pass_batch(&mut self)
        ensures { self.new ≡ drop 1 self.old }
    {
        self.first = self.walk.next();
    }

    /// Passes that many batches; all where there are no more.
    pub(crate) fn pass_batches(&mut self, count: usize)
        ensures { self.new ≡ drop count self.old }
    {
        for _passed in 0..count {
            self.pass_batch();
        }
    }
}

impl<'a, S: BatchStore> Telling for KeptBatches<'a, S> {
    ghost use Rattle.std.specs.Prelude.{◌≡◌, length, map};
    ghost use Rattle.deltas.specs.Entries.Entry.{Sent};

    /// Each batch is told as a whole.
    ghost tells = { λ k entries. entries ≡ map Sent k };

    ghost left = { λ k. length k };

    fn has_entry(&self) -> bool {
        self.has_batch()
    }

    fn first(&self) -> Option<EntryView<'_>> {
        match self.first_batch() {
            Some(batch) => Some(EntryView::Sent(batch)),
            None => None,
        }
    }

    fn pass(&mut self) {
        self.pass_batches(1);
    }
}
