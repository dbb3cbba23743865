//! Whether a copy may take what it is told.

ghost use Rattle.std.specs.Prelude.{◌↔◌, ℤ, pos, IsTrue, OnOk, IfErr};
ghost use Rattle.cover_ranges.specs.Runs.{Runs};
ghost use Rattle.deltas.specs.Deltas.{Delta};
ghost use Rattle.deltas.specs.Accepting.{Accepts, IsFirstFault};
ghost use Rattle.batch_codec.specs.Offsets.{first_offset};
ghost use Rattle.delta_bytes.specs.EntryViews.{IsValidEntry, entry_of};
ghost use Rattle.side_by_side.specs.Telling.{IsTold};
ghost use Rattle.side_by_side.specs.Steps.{step_of, base_of, HasSpan, IsSound};
ghost use Rattle.side_by_side.specs.Steps.Step.{Told, Both};
ghost use Rattle.side_by_side.specs.Fitting.{CanHave, Fits};

use crate::alike::are_alike;
use crate::kept::KeptBatches;
use crate::next::{Next, has_next, next_of, pass_told};
use crate::planning::later_start;
use crate::seen::{Seen, has_all_or_none};
use crate::telling::Telling;
use batch_codec::BatchView;
use cover_ranges::Cover;
use delta_bytes::PartitionLog;
use delta_bytes::entries::EntryView;
use segment::BatchStore;
use std::alloc::Allocator;

/// Whether a copy that has seen these offsets can have what an entry tells at a base at which it keeps
/// nothing.
fn can_be_told<A: Allocator + Copy>(copy: &Cover<A>, entry: &EntryView<'_>) -> bool
    requires { IsValidEntry (entry_of entry.now) }
    ensures { (sender : Runs)
        → IsTrue result ↔ CanHave copy.now.runs sender (Told (entry_of entry.now)) }
{
    match entry {
        EntryView::Listed(list) => copy.contains(list.base),
        EntryView::Sent(batch) => has_all_or_none(copy, batch),
    }
}

/// Whether a batch and an entry of one base can be of one log.
fn can_have_both<V: Seen>(seen: &V, x: &BatchView<'_>, entry: &EntryView<'_>) -> bool
    requires seen { (sender : Runs) × V.has_seen seen.now (first_offset x.now) sender }
    requires span { HasSpan x.now }
    requires valid { IsValidEntry (entry_of entry.now) }
    ensures { (copy sender : Runs) → V.has_seen seen.now (first_offset x.now) sender
        → IsTrue result ↔ CanHave copy sender (Both x.now (entry_of entry.now)) }
{
    match entry {
        EntryView::Listed(_) => seen.has_all_or_none(x) && entry.last() <= x.last_offset(),
        EntryView::Sent(batch) => are_alike(x, batch),
    }
}

/// Whether a copy that has seen these offsets can have what comes next, beside what the sender has seen.
fn can_have<A: Allocator + Copy, V: Seen>(copy: &Cover<A>, seen: &V, next: &Next<'_>) -> bool
    requires seen { (sender : Runs) × V.has_seen seen.now (base_of (step_of next.now)) sender }
    requires sound { IsSound (step_of next.now) }
    ensures { (sender : Runs) → V.has_seen seen.now (base_of (step_of next.now)) sender
        → IsTrue result ↔ CanHave copy.now.runs sender (step_of next.now) }
{
    match next {
        Next::Done => true,
        Next::Kept(batch) => seen.has_all_or_none(batch),
        Next::Told(entry) => can_be_told(copy, entry),
        Next::Both(batch, entry) => can_have_both(seen, batch, entry),
    }
}

/// Whether a copy may have what comes next, where all is judged: what begins below the later start has to end
/// below it, and isn't compared.
fn fits<A: Allocator + Copy, V: Seen>(
    start: i64,
    copy: &Cover<A>,
    seen: &V,
    next: &Next<'_>,
) -> bool
    requires seen { (sender : Runs) × V.has_seen seen.now (base_of (step_of next.now)) sender }
    requires sound { IsSound (step_of next.now) }
    ensures { (sender : Runs) → V.has_seen seen.now (base_of (step_of next.now)) sender
        → IsTrue result ↔ Fits start copy.now.runs sender (step_of next.now) }
{
    if next.base() < start {
        return next.ends_below(start);
    }
    can_have(copy, seen, next)
}

/// Whether a copy may take what it is told by a sender that starts at `start`. Takes no memory.
///
/// # Errors
///
/// The least base offset at which it may not.
pub fn judge<S: BatchStore, T: Telling, V: Seen>(
    copy: &PartitionLog<S>,
    start: i64,
    mut told: T,
    mut seen: V,
) -> Result<(), i64>
    requires { (e : Delta) × IsTold start (T.tells told) (V.has_seen seen (pos 0)) e }
    ensures accepts { OnOk result ((e : Delta)
        → IsTold start (T.tells told) (V.has_seen seen (pos 0)) e → Accepts copy.now e) }
    ensures refuses { IfErr result (λ base. (e : Delta)
        → IsTold start (T.tells told) (V.has_seen seen (pos 0)) e
        → IsFirstFault copy.now e base) }
{
    let later = later_start(copy, start);
    let mut kept = KeptBatches::new(copy);
    while has_next(&kept, &told) {
        let next = next_of(&kept, &told);
        let base = next.base();
        seen.pass_below(base);
        if !fits(later, copy.cover(), &seen, &next) {
            return Err(base);
        }
        let (of_kept, of_told) = (next.of_kept(), next.of_told());
        kept.pass_batches(of_kept);
        pass_told(&mut told, of_told);
    }
    Ok(())
}
