//! Laws of merges, over the definitions alone. The functions do nothing: what they ensure is the law.

ghost use Rattle.std.specs.Prelude.{◌≡◌, ◌↔◌, true};
ghost use Rattle.content.specs.Content.{Content, IsContent};
ghost use Rattle.content.specs.Joins.{Agree};
ghost use Rattle.copy_merge.specs.Agreeing.{agree};

/// Whether two copies agree can be found out batch by batch.
pub fn agreement_is_decided()
    ensures { (a b : Content) → IsContent a → IsContent b → (agree a b ≡ true) ↔ Agree a b }
{}
