//! Laws of what stays superseded: a map that was made for a pass stays right while the pass goes on.

ghost use Rattle.std.specs.Prelude.{◌≡◌, ◌⊎◌, ◌^◌, ℤ, pos, ◌≤ℤ◌, true};
ghost use Rattle.std.specs.List.{AllByRecursion};
ghost use Rattle.batch_codec.specs.Values.{BatchValue};
ghost use Rattle.batch_codec.specs.Offsets.{first_offset};
ghost use Rattle.content.specs.declared.part.CleaningPart.{CleaningPart};
ghost use Rattle.content.specs.Records.{LogRecord, log_records};
ghost use Rattle.content.specs.Content.{Content, IsContent, IsLogBatch, has_seen_all, HasSeenNone, add, cut};
ghost use Rattle.content.specs.Cleaning.{is_superseded};
ghost use Rattle.content.specs.Parts.{clean_part};

/// Behind a part up to the same bound, or less far, each record that is left is superseded where it was before.
pub fn parts_leave_it_superseded()
    ensures { (upto : ℤ) (p : CleaningPart) (c : Content) → IsContent c → p.upto ≤ℤ upto
        → AllByRecursion (λ x. is_superseded (clean_part p c) upto x ≡ is_superseded c upto x)
        (log_records (clean_part p c).kept) }
{}

/// So is each record that is left where the start moves.
pub fn later_starts_leave_it_superseded()
    ensures { (upto start : ℤ) (c : Content) → IsContent c → c.start ≤ℤ start → start ≤ℤ pos (2 ^ 62)
        → AllByRecursion (λ x. is_superseded (cut start c) upto x ≡ is_superseded c upto x)
        (log_records (cut start c).kept) }
{}

/// A batch from the bound on supersedes nothing, and is superseded by nothing.
pub fn batches_behind_leave_it_superseded()
    ensures { (upto : ℤ) (c : Content) (b : BatchValue) (x : LogRecord) → IsContent c → IsLogBatch b
        → (has_seen_all c b ≡ true) ⊎ HasSeenNone c b → upto ≤ℤ first_offset b
        → is_superseded (add c b) upto x ≡ is_superseded c upto x }
{}
