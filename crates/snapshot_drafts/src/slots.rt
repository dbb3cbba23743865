//! Where the images of a topic's partitions belong in a snapshot, and which of them are still missing.

ghost use Rattle.snapshot_drafts.specs.declared.slots.Slot.{Slot};
ghost use Rattle.std.specs.Prelude.{◌≡◌, ◌<◌, ℕ, length, set, slice_get, Some, true, false, IfSome, IfNone};
ghost use Rattle.snapshot_drafts.specs.Slots.{has_missing};

use std::alloc::Allocator;
use std::marker::Model;

/// Where an image belongs, how many bytes it has, and whether it is still missing.
#[derive(Clone, Copy)]
pub(crate) struct Slot {
    pub(crate) at: u64,
    pub(crate) size: u64,
    pub(crate) missing: bool,
}

/// Those of a topic's partitions, from 0 on.
#[derive(Drop)]
pub(crate) struct TopicSlots<A: Allocator + Copy> {
    slots: Vec<Slot, A>,
}

impl<A: Allocator + Copy> Model for TopicSlots<A> {
    ghost use Rattle.std.specs.Prelude.{List};
    ghost use Rattle.snapshot_drafts.specs.declared.slots.Slot.{Slot};

    ghost Value = { List Slot };

    ghost view = { λ t. t.slots.items };
}

impl<A: Allocator + Copy> TopicSlots<A> {
    /// These slots.
    pub(crate) fn new(slots: Vec<Slot, A>) -> TopicSlots<A>
        ensures { result ≡ slots.items }
    {
        TopicSlots { slots }
    }

    /// The slot of a partition whose image is still missing.
    pub(crate) fn missing(&self, index: usize) -> Option<Slot>
        ensures found { IfSome result (λ slot. slice_get self.now index ≡ Some slot) }
        ensures is_missing { IfSome result (λ slot. slot.missing ≡ true) }
        ensures none { IfNone result (has_missing (slice_get self.now index) ≡ false) }
    {
        if index >= self.slots.len() {
            return None;
        }
        let slot = self.slots[index];
        if slot.missing { Some(slot) } else { None }
    }

    /// The first partition whose image is still missing.
    pub(crate) fn first_missing(&self) -> Option<usize>
        ensures missing { IfSome result (λ index. has_missing (slice_get self.now index) ≡ true) }
        ensures first { IfSome result (λ index. (k : ℕ) → k < index
            → has_missing (slice_get self.now k) ≡ false) }
        ensures none { IfNone result ((k : ℕ) → has_missing (slice_get self.now k) ≡ false) }
    {
        self.slots.iter().position(|slot| slot.missing)
    }

    /// Marks an image as written.
    pub(crate) fn mark(&mut self, index: usize)
        requires { index < length self.old }
        ensures { (slot : Slot) → slice_get self.old index ≡ Some slot
            → self.new ≡ set self.old index (record slot { missing = false }) }
    {
        self.slots[index].missing = false;
    }
}
