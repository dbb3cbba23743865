//! What the sender has seen of what a copy keeps.

ghost use Rattle.std.specs.Prelude.{◌↔◌, IsTrue};
ghost use Rattle.content.specs.Content.{IsInRange};
ghost use Rattle.side_by_side.specs.Agreement.{CoversAllOrNone};

use batch_codec::BatchView;
use cover_ranges::Cover;
use std::alloc::Allocator;

/// The offsets that a sender has seen, asked for by rising offset.
pub trait Seen: Sized + Drop {
    ghost use Rattle.std.specs.Prelude.{ℤ, ◌≤ℤ◌, ◌↔◌, IsTrue};
    ghost use Rattle.batch_codec.specs.Offsets.{first_offset};
    ghost use Rattle.cover_ranges.specs.Runs.{Runs};
    ghost use Rattle.side_by_side.specs.Agreement.{CoversAllOrNone};
    ghost use Rattle.side_by_side.specs.Steps.{HasSpan};

    /// From this offset on, these are the offsets seen.
    ghost has_seen: { Self → ℤ → Runs → Type 0 };

    /// Passes the offsets below this one: they are asked for no more. Takes no memory.
    fn pass_below(&mut self, offset: i64)
        ensures { (low : ℤ) (runs : Runs) → low ≤ℤ offset → has_seen self.old low runs
            → has_seen self.new offset runs };

    /// Whether all of a batch's span was seen, or none of it. Takes no memory.
    fn has_all_or_none(&self, batch: &BatchView<'_>) -> bool
        requires seen { (runs : Runs) × has_seen self.now (first_offset batch.now) runs }
        requires span { HasSpan batch.now }
        ensures { (runs : Runs) → has_seen self.now (first_offset batch.now) runs
            → IsTrue result ↔ CoversAllOrNone runs batch.now };
}

/// Whether all of a batch's span was seen, or none of it.
pub(crate) fn has_all_or_none<A: Allocator + Copy>(seen: &Cover<A>, batch: &BatchView<'_>) -> bool
    requires { IsInRange batch.now }
    ensures { IsTrue result ↔ CoversAllOrNone seen.now.runs batch.now }
{
    let (first, last) = (batch.base(), batch.last_offset());
    seen.has_all(first, last) || !seen.has_any(first, last)
}

/// What another copy has seen.
#[derive(Drop)]
pub struct SeenCover<'a, A: Allocator + Copy> {
    /// The offsets.
    pub cover: &'a Cover<A>,
}

impl<'a, A: Allocator + Copy> Seen for SeenCover<'a, A> {
    ghost use Rattle.std.specs.Prelude.{◌≡◌};

    ghost has_seen = { λ s low runs. s.cover.now.runs ≡ runs };

    fn pass_below(&mut self, _offset: i64) {}

    fn has_all_or_none(&self, batch: &BatchView<'_>) -> bool {
        has_all_or_none(self.cover, batch)
    }
}
