//! Laws of contents: what a copy may do leaves its content a valid one.

ghost use Rattle.std.specs.Prelude.{◌≡◌, ◌⊎◌, ◌^◌, ℤ, pos, ◌≤ℤ◌, true};
ghost use Rattle.batch_codec.specs.Values.{BatchValue};
ghost use Rattle.content.specs.Content.{Content, IsContent, IsLogBatch, has_seen_all, HasSeenNone, add, cut};
ghost use Rattle.content.specs.declared.part.CleaningPart.{CleaningPart};
ghost use Rattle.content.specs.Cleaning.{clean};
ghost use Rattle.content.specs.Parts.{clean_part};
ghost use Rattle.content.specs.Joins.{join};

/// A content stays one when a log batch is added of whose offsets it has seen all or none.
pub fn adding_leaves_a_content()
    ensures { (c : Content) (b : BatchValue) → IsContent c → IsLogBatch b
        → (has_seen_all c b ≡ true) ⊎ HasSeenNone c b → IsContent (add c b) }
{}

/// A content stays one when its start moves to any later offset.
pub fn cutting_leaves_a_content()
    ensures { (c : Content) (start : ℤ) → IsContent c → c.start ≤ℤ start → start ≤ℤ pos (2 ^ 62)
        → IsContent (cut start c) }
{}

/// A content stays one when it is cleaned, with any bounds.
pub fn cleaning_leaves_a_content()
    ensures { (upto tomb_before : ℤ) (c : Content) → IsContent c
        → IsContent (clean upto tomb_before c) }
{}

/// A content stays one when a part of it is cleaned, with any bounds.
pub fn cleaning_a_part_leaves_a_content()
    ensures { (p : CleaningPart) (c : Content) → IsContent c → IsContent (clean_part p c) }
{}

/// Any two contents merge into a content, whether they agree or not.
pub fn merging_leaves_a_content()
    ensures { (a b : Content) → IsContent a → IsContent b → IsContent (join a b) }
{}
