//! Decimal numbers.

ghost use Rattle.std.specs.Prelude.{◌≡◌, ◌<◌, ◌^◌, ◌↔◌, ℕ, ℤ, pos, IsTrue, FitsSigned, MatchOption, slice_index};
ghost use Rattle.std.specs.Int.{w64, w128};
ghost use Rattle.script_words.specs.Numbers.{IsNumber};

/// Whether a `+` stands first.
fn starts_with_plus(word: &[u8]) -> bool
    ensures { IsTrue result ↔ (slice_index word.now 0 ≡ 0x2b) }
{
    matches!(word, [b'+', ..])
}

/// The number that decimal digits say, behind a `-` or not, where it is of 128 bits.
#[tactic(auto, using(crate::proofs::Numerals::number_of, crate::proofs::Numerals::no_number))]
fn parse_number(word: &[u8]) -> Option<i128>
    ensures { MatchOption result ((n : ℤ) → FitsSigned w128 n → ¬ IsNumber word.now n)
        (IsNumber word.now) }
{
    if starts_with_plus(word) {
        return None;
    }
    match str::from_utf8(word) {
        Ok(text) => text.parse::<i128>().ok(),
        Err(_) => None,
    }
}

/// The number that decimal digits say, behind a `-` or not; none where there are no digits or other
/// bytes, or where the number isn't of 64 bits. Leading zeros don't matter, and `-0` is 0.
#[tactic(auto, using(crate::proofs::Numerals::one_number))]
pub fn parse_signed(word: &[u8]) -> Option<i64>
    ensures { MatchOption result ((n : ℤ) → FitsSigned w64 n → ¬ IsNumber word.now n)
        (IsNumber word.now) }
{
    match parse_number(word) {
        Some(number) => i64::try_from(number).ok(),
        None => None,
    }
}

/// The number that decimal digits say, where it is a `usize`; a `-` may stand before a 0.
#[tactic(auto, using(crate::proofs::Numerals::one_number))]
pub fn parse_index(word: &[u8]) -> Option<usize>
    ensures { MatchOption result ((n : ℕ) → n < 2 ^ 64 → ¬ IsNumber word.now (pos n))
        (λ n. IsNumber word.now (pos n)) }
{
    match parse_number(word) {
        Some(number) => usize::try_from(number).ok(),
        None => None,
    }
}
