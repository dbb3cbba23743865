//! A snapshot in the making.

ghost use Rattle.std.specs.Prelude.{◌≡◌, ◌<◌, ◌⊎◌, ℕ, List, Some, true, false, length, IfOk, IfSome, IfNone, IsErrOf, OnOk};
ghost use Rattle.broker_state.specs.declared.place.Place.{Place};
ghost use Rattle.snapshot_drafts.specs.Slots.{IsBefore, part_in};
ghost use Rattle.snapshot_drafts.specs.Parts.{HasParts, PutsImage, is_missing, whole_of};

use crate::draft_file::DraftFile;
use crate::error::DraftError;
use crate::slots::{Slot, TopicSlots};
use broker_state::Place;
use std::alloc::Allocator;
use std::io;
use std::marker::Model;

/// A snapshot in the making: its file, which images are still missing, and where each belongs.
#[derive(Drop)]
pub struct Draft<F: DraftFile, A: Allocator + Copy> {
    file: F,
    topics: Vec<TopicSlots<A>, A>,
    size: u64,
}

impl<F: DraftFile, A: Allocator + Copy> Model for Draft<F, A> {
    ghost use Rattle.snapshot_drafts.specs.Parts.{DraftState};

    ghost Value = { DraftState F };

    ghost view = { λ d. record { file = d.file; topics = d.topics.items; size = d.size } };
}

impl<F: DraftFile + Drop, A: Allocator + Copy> Draft<F, A> {
    /// A draft of these parts.
    pub(crate) fn new(file: F, topics: Vec<TopicSlots<A>, A>, size: u64) -> Draft<F, A>
        ensures { result ≡ record { file = file; topics = topics.items; size = size } }
    {
        Draft { file, topics, size }
    }

    /// The slot of a partition whose image is still missing.
    pub(crate) fn missing_slot(&self, place: Place) -> Option<Slot>
        ensures found { IfSome result (λ slot. part_in self.now.topics place ≡ Some slot) }
        ensures is_missing { IfSome result (λ slot. slot.missing ≡ true) }
        ensures none { IfNone result (is_missing self.now place ≡ false) }
    {
        if place.topic >= self.topics.len() {
            return None;
        }
        self.topics[place.topic].missing(place.partition)
    }

    /// Whether the image of a partition is still missing.
    pub fn is_missing(&self, place: Place) -> bool
        ensures { result ≡ is_missing self.now place }
    {
        self.missing_slot(place).is_some()
    }

    /// The first partition, in the order of the file, whose image is still missing.
    pub fn next(&self) -> Option<Place>
        ensures missing { IfSome result (λ place. is_missing self.now place ≡ true) }
        ensures first { IfSome result (λ place. (other : Place) → IsBefore other place
            → is_missing self.now other ≡ false) }
        ensures none { IfNone result ((place : Place) → is_missing self.now place ≡ false) }
    {
        for topic in 0..self.topics.len() {
            match self.topics[topic].first_missing() {
                Some(partition) => return Some(Place { topic, partition }),
                None => {}
            }
        }
        None
    }

    /// Writes an image where its slot says, syncs the file, and marks it as written.
    pub(crate) fn put_image(&mut self, place: Place, slot: Slot, image: &[u8]) -> io::Result<()>
        requires { part_in self.old.topics place ≡ Some slot }
        ensures puts { OnOk result (PutsImage F.seen self.old place slot image.now self.new) }
        ensures syncs { OnOk result (F.synced self.new.file ≡ F.seen self.new.file) }
        ensures is_the_one { F.number self.new.file ≡ F.number self.old.file }
    {
        self.file.write_at(slot.at, image)?;
        self.file.sync()?;
        self.topics[place.topic].mark(place.partition);
        Ok(())
    }

    /// How many bytes the whole file will have.
    pub fn size(&self) -> u64
        ensures { result ≡ self.now.size }
    {
        self.size
    }

    /// Gives back the file, which is synced, once no image is missing.
    pub(crate) fn close(self) -> Result<F, DraftError>
        ensures whole { (head : List ℕ) (topics : List (List (List ℕ))) → HasParts F.seen head topics self
            → IfOk result (λ file. IfSome (F.seen file) (λ bytes. bytes ≡ whole_of head topics)) }
        ensures syncs { IfOk result (λ file. F.synced file ≡ F.seen file) }
        ensures none { OnOk result ((place : Place) → is_missing self place ≡ false) }
        ensures is_the_one { IfOk result (λ file. F.number file ≡ F.number self.file) }
        ensures refuses { IsErrOf result DraftError.Unfinished
            → (place : Place) × (is_missing self place ≡ true) }
    {
        if self.next().is_some() {
            return Err(DraftError::Unfinished);
        }
        let mut file = self.file;
        file.sync()?;
        Ok(file)
    }
}
