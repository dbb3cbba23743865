//! Laws of what a part need not look at.

ghost use Rattle.std.specs.Prelude.{◌≡◌, ℤ, ◌<ℤ◌, int_lt, false};
ghost use Rattle.std.specs.List.{filter, AllByRecursion};
ghost use Rattle.batch_codec.specs.Offsets.{last_offset};
ghost use Rattle.content.specs.declared.part.CleaningPart.{CleaningPart};
ghost use Rattle.content.specs.Records.{log_records};
ghost use Rattle.content.specs.Content.{Content, IsContent};
ghost use Rattle.content.specs.Cleaning.{is_superseded};
ghost use Rattle.content.specs.Parts.{part_records, has_older};
ghost use Rattle.swept_contents.specs.Swept.{IsSwept, IsSettled, has_dirty, newest_dirty, is_before};

/// Where a copy is swept below a part for its bound, no older record of a key of the part stands before it.
pub fn no_older_record_stands_before()
    ensures { (p : CleaningPart) (c : Content) → IsContent c → IsSwept p.from p.upto c
        → AllByRecursion (λ x. has_older c p.from x ≡ false) (part_records p c) }
{}

/// Where a copy is settled below an offset, a record of a batch that lies wholly below that is superseded exactly where
/// a record of a dirty batch has its key.
pub fn the_dirty_batches_tell_what_is_superseded()
    ensures { (w upto : ℤ) (c : Content) → IsContent c → IsSettled w c
        → AllByRecursion (λ x. is_superseded c upto x ≡ has_dirty w upto c x)
        (log_records (filter (λ b. int_lt (last_offset b) w) c.kept)) }
{}

/// So a map of the latest offset of each key in the dirty batches tells of each record whether it is superseded.
pub fn the_newest_dirty_records_tell_what_is_superseded()
    ensures { (w upto : ℤ) (c : Content) → IsContent c → IsSettled w c
        → AllByRecursion (λ x. is_superseded c upto x ≡ is_before x.0 (newest_dirty w upto c x.1.key))
        (log_records c.kept) }
{}
