//! Laws of the merge of two contents. Equality is of whole contents: starts, runs and kept batches.

ghost use Rattle.std.specs.Prelude.{◌≡◌, ℤ, ◌≤ℤ◌};
ghost use Rattle.content.specs.Content.{Content, IsContent, cut};
ghost use Rattle.content.specs.Joins.{greater_start, join, AreAlikeAt, Agree};

/// A content merged with itself is that content.
pub fn merging_is_idempotent()
    ensures { (c : Content) → IsContent c → join c c ≡ c }
{}

/// The order of two contents makes no difference if they agree. It is enough that the batches that
/// both keep at one base offset are alike.
pub fn merging_is_commutative()
    ensures alike { (a b : Content) → IsContent a → IsContent b
        → ((base : ℤ) → AreAlikeAt (greater_start a b) a b base) → join a b ≡ join b a }
    ensures agreeing { (a b : Content) → IsContent a → IsContent b → Agree a b
        → join a b ≡ join b a }
{}

/// The grouping of any three contents makes no difference, whether they agree or not.
pub fn merging_is_associative()
    ensures { (a b c : Content) → IsContent a → IsContent b → IsContent c
        → join (join a b) c ≡ join a (join b c) }
{}

/// Two contents agree in either order.
pub fn agreement_is_symmetric()
    ensures { (a b : Content) → Agree a b → Agree b a }
{}

/// A merge agrees with a third content that both agree with, so that the third can be merged too, in
/// either grouping of the three.
pub fn a_merge_agrees_with_a_third()
    ensures behind { (a b c : Content) → IsContent a → IsContent b → IsContent c → Agree a c → Agree b c
        → Agree (join a b) c }
    ensures before { (a b c : Content) → IsContent a → IsContent b → IsContent c → Agree a b → Agree a c
        → Agree a (join b c) }
{}

/// A merge cut at an offset from both starts on is the merge of both, cut there.
pub fn merging_commutes_with_cutting()
    ensures { (a b : Content) (start : ℤ) → IsContent a → IsContent b
        → a.start ≤ℤ start → b.start ≤ℤ start
        → cut start (join a b) ≡ join (cut start a) (cut start b) }
{}
