//! The laws of encodings.

ghost use Rattle.std.specs.Prelude.{◌≡◌, ◌++◌, ℕ, ℤ, List, FitsSigned};
ghost use Rattle.std.specs.Int.{w64};
ghost use Rattle.varint.specs.Encoding.{encoding, zigzag, digits_value, IsShortest};

/// Each number of 64 bits has one encoding, and no encoding begins another.
///
/// The function does nothing: its clauses are laws about the definitions.
pub fn one_encoding()
    // An encoding is in the shortest form, and its digits are those of the zigzag number.
    ensures is_shortest { (v : ℤ) → FitsSigned w64 v
        → IsShortest (encoding v) × (digits_value (encoding v) ≡ zigzag v) }
    // No other bytes in the shortest form have these digits.
    ensures has_no_other { (v : ℤ) (bytes : List ℕ) → FitsSigned w64 v → IsShortest bytes
        → digits_value bytes ≡ zigzag v → bytes ≡ encoding v }
    // No encoding begins another.
    ensures begins_no_other { (v w : ℤ) (x y : List ℕ) → FitsSigned w64 v → FitsSigned w64 w
        → encoding v ++ x ≡ encoding w ++ y → (v ≡ w) × (x ≡ y) }
{}
