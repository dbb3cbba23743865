//! Images are written into a draft, and it is finished.

ghost use Rattle.std.specs.Prelude.{◌≡◌, ◌≢◌, Some, true, false, length, IfOk, IfErr, IfSome, IsErrOf, OnOk};
ghost use Rattle.broker_state.specs.State.{State};
ghost use Rattle.broker_state.specs.declared.place.Place.{Place};
ghost use Rattle.copy_images.specs.Images.{image_of};
ghost use Rattle.snapshots.specs.declared.writing.SnapshotId.{SnapshotId};
ghost use Rattle.state_snapshots.specs.Snapshots.{snapshot_bytes};
ghost use Rattle.snapshot_drafts.specs.Slots.{part_in};
ghost use Rattle.snapshot_drafts.specs.Parts.{is_missing};
ghost use Rattle.snapshot_drafts.specs.Drafts.{IsDraftOf, RefusesImage, content_in};

use crate::draft::Draft;
use crate::draft_file::DraftFile;
use crate::error::DraftError;
use broker_state::Place;
use copy_images::{PartitionLog, image_into};
use segment::BatchStore;
use std::alloc::Allocator;

impl<F: DraftFile + Drop, A: Allocator + Copy> Draft<F, A> {
    /// Writes the image of a partition, where it is still missing: it is made in the buffer, written where it belongs,
    /// and the file is synced. It isn't missing then. Where it isn't missing, nothing is done.
    ///
    /// # Errors
    ///
    /// `OutOfMemory`; `OtherSize`, both before anything is written; `OnDisk`.
    pub fn write<S: BatchStore>(
        &mut self,
        place: Place,
        copy: &PartitionLog<S>,
        buffer: &mut Vec<u8, A>,
    ) -> Result<(), DraftError>
        ensures writes { (id : SnapshotId) (base : State) → IsDraftOf F.seen id base self.old
            → (is_missing self.old place ≡ true → content_in base place ≡ Some copy.now)
            → OnOk result (IsDraftOf F.seen id base self.new) }
        ensures fits { (id : SnapshotId) (base : State) → IsDraftOf F.seen id base self.old
            → (is_missing self.old place ≡ true → content_in base place ≡ Some copy.now)
            → IsErrOf result DraftError.OtherSize → ⊥ }
        ensures fits_its_slot { OnOk result (is_missing self.old place ≡ true
            → IfSome (part_in self.old.topics place)
            (λ slot. slot.size ≡ length (image_of copy.now))) }
        ensures marks { OnOk result (is_missing self.new place ≡ false) }
        ensures syncs { is_missing self.old place ≡ true
            → OnOk result (F.synced self.new.file ≡ F.seen self.new.file) }
        ensures keeps_others { OnOk result ((other : Place) → other ≢ place
            → is_missing self.new other ≡ is_missing self.old other) }
        ensures is_the_one { F.number self.new.file ≡ F.number self.old.file }
        ensures refuses { IfErr result (RefusesImage self.old place (image_of copy.now)) }
        ensures unchanged_at_other_size { IsErrOf result DraftError.OtherSize
            → self.new ≡ self.old }
    {
        let Some(slot) = self.missing_slot(place) else {
            return Ok(());
        };
        image_into(copy, buffer)?;
        if buffer.len() as u64 != slot.size {
            return Err(DraftError::OtherSize);
        }
        self.put_image(place, slot, buffer)?;
        Ok(())
    }

    /// Gives back the file, which is synced, once no image is missing: it is the snapshot then.
    ///
    /// # Errors
    ///
    /// `Unfinished`, where an image is missing; `OnDisk`.
    pub fn finish(self) -> Result<F, DraftError>
        ensures is_the_snapshot { (id : SnapshotId) (base : State) → IsDraftOf F.seen id base self
            → IfOk result (λ file. IfSome (F.seen file)
            (λ bytes. bytes ≡ snapshot_bytes id base)) }
        ensures is_synced { IfOk result (λ file. F.synced file ≡ F.seen file) }
        ensures misses_none { OnOk result ((place : Place) → is_missing self place ≡ false) }
        ensures is_the_one { IfOk result (λ file. F.number file ≡ F.number self.file) }
        ensures refuses { IsErrOf result DraftError.Unfinished
            → (place : Place) × (is_missing self place ≡ true) }
    {
        self.close()
    }
}
