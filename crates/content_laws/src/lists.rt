//! Laws of lists by rising offset.

ghost use Rattle.std.specs.Prelude.{◌≡◌, ℤ, List};
ghost use Rattle.content.specs.ByOffset.{look_up, Rises};

/// Rising lists with equal look-ups are equal.
pub fn equal_look_ups_make_equal_lists<T>()
    ensures { (offset : T → ℤ) (low from : ℤ) (xs ys : List T)
        → Rises offset low xs → Rises offset from ys
        → ((k : ℤ) → look_up offset k xs ≡ look_up offset k ys) → xs ≡ ys }
{}
