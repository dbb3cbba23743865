//! Laws of what stays swept, whatever happens.

ghost use Rattle.std.specs.Prelude.{◌≡◌, ◌⊎◌, ◌^◌, ℤ, pos, ◌≤ℤ◌, true};
ghost use Rattle.std.specs.Int.{int_min};
ghost use Rattle.batch_codec.specs.Values.{BatchValue};
ghost use Rattle.batch_codec.specs.Offsets.{first_offset};
ghost use Rattle.content.specs.declared.part.CleaningPart.{CleaningPart};
ghost use Rattle.content.specs.Content.{Content, IsContent, IsLogBatch, has_seen_all, HasSeenNone, add, cut};
ghost use Rattle.content.specs.Cleaning.{clean};
ghost use Rattle.content.specs.Parts.{clean_part};
ghost use Rattle.swept_contents.specs.Swept.{IsSwept};

/// What is swept below an offset for a bound is so below any lesser one for any lesser one.
pub fn less_is_swept_too()
    ensures { (below upto less lower : ℤ) (c : Content) → IsContent c → IsSwept below upto c
        → less ≤ℤ below → lower ≤ℤ upto → IsSwept less lower c }
{}

/// It stays so behind any cleaning, whole or of a part, with any numbers.
pub fn cleanings_keep_it_swept()
    ensures whole { (below upto to_upto tomb_before : ℤ) (c : Content) → IsContent c → IsSwept below upto c
        → IsSwept below upto (clean to_upto tomb_before c) }
    ensures part { (below upto : ℤ) (p : CleaningPart) (c : Content) → IsContent c → IsSwept below upto c
        → IsSwept below upto (clean_part p c) }
{}

/// It stays so when the start moves.
pub fn a_later_start_keeps_it_swept()
    ensures { (below upto start : ℤ) (c : Content) → IsContent c → c.start ≤ℤ start
        → start ≤ℤ pos (2 ^ 62) → IsSwept below upto c → IsSwept below upto (cut start c) }
{}

/// It stays so when a batch comes behind both offsets. Where one comes late it stays so up to where that begins.
pub fn batches_keep_it_swept()
    ensures behind { (below upto : ℤ) (c : Content) (b : BatchValue) → IsContent c → IsLogBatch b
        → (has_seen_all c b ≡ true) ⊎ HasSeenNone c b → below ≤ℤ first_offset b
        → upto ≤ℤ first_offset b → IsSwept below upto c → IsSwept below upto (add c b) }
    ensures late { (below upto : ℤ) (c : Content) (b : BatchValue) → IsContent c → IsLogBatch b
        → (has_seen_all c b ≡ true) ⊎ HasSeenNone c b → IsSwept below upto c
        → IsSwept (int_min below (first_offset b)) (int_min upto (first_offset b)) (add c b) }
{}
