//! Laws of any valid delta, whoever sent it. Equality is of whole contents.

ghost use Rattle.std.specs.Prelude.{◌≡◌, ◌^◌, ℤ, pos, ◌≤ℤ◌};
ghost use Rattle.content.specs.Content.{Content, IsContent, cut};
ghost use Rattle.deltas.specs.Deltas.{Delta, IsDelta};
ghost use Rattle.deltas.specs.Patches.{patch};
ghost use Rattle.deltas.specs.Accepting.{Accepts};

/// A delta that comes twice does no more than once.
pub fn patching_is_idempotent()
    ensures { (c : Content) (e : Delta) → IsContent c → IsDelta e → patch (patch c e) e ≡ patch c e }
{}

/// A delta that a copy may take it may take again, once it has.
pub fn what_was_accepted_is_accepted_again()
    ensures { (c : Content) (e : Delta) → IsContent c → IsDelta e → Accepts c e
        → Accepts (patch c e) e }
{}

/// A patch cut at an offset from both starts on is the patch of the content cut there.
pub fn patching_commutes_with_cutting()
    ensures { (c : Content) (e : Delta) (start : ℤ) → IsContent c → IsDelta e
        → c.start ≤ℤ start → e.start ≤ℤ start → start ≤ℤ pos (2 ^ 62)
        → cut start (patch c e) ≡ patch (cut start c) e }
{}
