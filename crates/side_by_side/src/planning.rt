//! What becomes of each batch that a copy keeps where it takes what it is told.

ghost use Rattle.std.specs.Prelude.{◌≡◌, ◌++◌, ◌∷◌, [], false, None, Some, OnOk, IfOk, ℤ, length, if◌then◌else◌};
ghost use Rattle.std.specs.Int.{int_max};
ghost use Rattle.batch_codec.specs.Offsets.{first_offset};
ghost use Rattle.batch_codec.specs.Thinning.{thinned};
ghost use Rattle.batch_codec.specs.Values.{BatchValue};
ghost use Rattle.cover_ranges.specs.Runs.{Runs, covers};
ghost use Rattle.content.specs.Content.{IsInRange};
ghost use Rattle.content.specs.Records.{with_common_records};
ghost use Rattle.segment.specs.Weaving.{woven};
ghost use Rattle.segment.specs.declared.turn.Turn.TheVariants.{Come};
ghost use Rattle.deltas.specs.Deltas.{Delta};
ghost use Rattle.deltas.specs.Entries.{OffsetsRise};
ghost use Rattle.deltas.specs.Patches.{patch, with_listed};
ghost use Rattle.delta_bytes.specs.EntryViews.{entry_of, IsValidEntry};
ghost use Rattle.delta_bytes.specs.Judging.{offsets_of};
ghost use Rattle.side_by_side.specs.Telling.{IsTold};
ghost use Rattle.side_by_side.specs.Steps.{kept_of, left_over, patched_next, step_of, HasSpan, IsSound};
ghost use Rattle.side_by_side.specs.Steps.Step.{Told, Both};
ghost use Rattle.side_by_side.specs.Plans.{EndBefore, Adds};

use crate::common::{common_flags, has_all_of};
use crate::kept::KeptBatches;
use crate::listed::{flag_listed, has_all_listed};
use crate::next::{Next, has_next, next_of, pass_told};
use crate::telling::Telling;
use batch_codec::{BatchView, one_encoding, put_thinned};
use cover_ranges::Cover;
use delta_bytes::PartitionLog;
use delta_bytes::entries::EntryView;
use delta_bytes::lists::OffsetBytes;
use segment::{BatchStore, Turn};
use std::alloc::{AllocError, Allocator};

/// What becomes of the batches that a copy keeps, and of those that it is told.
#[derive(Drop)]
pub(crate) struct WeavePlan<S: BatchStore> {
    /// For each batch of the copy whether it stays or goes, and where others come in.
    pub turns: Vec<Turn, S::Alloc>,
    /// The batches that come in.
    pub more: S,
}

/// Adds a turn to a plan.
fn add_turn<S: BatchStore>(plan: &mut WeavePlan<S>, turn: Turn) -> Result<(), AllocError>
    ensures turns { OnOk result (plan.new.turns.items ≡ plan.old.turns.items ++ turn ∷ []) }
    ensures more { S.batches plan.new.more ≡ S.batches plan.old.more }
{
    plan.turns.push(turn)?;
    Ok(())
}

/// Adds a batch behind those that come in.
fn bring<S: BatchStore>(plan: &mut WeavePlan<S>, batch: &BatchView<'_>) -> Result<(), AllocError>
    requires in_range { IsInRange batch.now }
    requires behind { EndBefore (first_offset batch.now) (S.batches plan.old.more) }
    ensures turns { OnOk result (plan.new.turns.items ≡ plan.old.turns.items ++ Come ∷ []) }
    ensures more { OnOk result
        (S.batches plan.new.more ≡ S.batches plan.old.more ++ batch.now ∷ []) }
{
    add_turn(plan, Turn::Come)?;
    plan.more.insert(batch)?;
    Ok(())
}

/// Adds a batch with the records that are flagged behind those that come in.
fn bring_thinned<S: BatchStore, A: Allocator + Copy>(
    plan: &mut WeavePlan<S>,
    alloc: A,
    batch: &BatchView<'_>,
    keep: &[bool],
) -> Result<(), AllocError>
    requires flags { length keep.now ≡ length batch.now.recs }
    requires in_range { IsInRange batch.now }
    requires behind { EndBefore (first_offset batch.now) (S.batches plan.old.more) }
    ensures turns { OnOk result (plan.new.turns.items ≡ plan.old.turns.items ++ Come ∷ []) }
    ensures more { OnOk result
        (S.batches plan.new.more ≡ S.batches plan.old.more ++ thinned keep.now batch.now ∷ []) }
{
    // For its contract: a batch has one encoding.
    one_encoding();
    let mut bytes = Vec::new(alloc);
    put_thinned(batch, keep, &mut bytes)?;
    bring(plan, &BatchView::open(&bytes))
}

/// Lets the copy's next batch go, and brings it in again with the records that are flagged.
fn replace<S: BatchStore, A: Allocator + Copy>(
    plan: &mut WeavePlan<S>,
    alloc: A,
    batch: &BatchView<'_>,
    keep: &[bool],
) -> Result<(), AllocError>
    requires flags { length keep.now ≡ length batch.now.recs }
    requires in_range { IsInRange batch.now }
    requires behind { EndBefore (first_offset batch.now) (S.batches plan.old.more) }
    ensures { OnOk result ((x : BatchValue) → Adds (Some x) (Some (thinned keep.now batch.now))
        plan.old.turns.items plan.new.turns.items
        (S.batches plan.old.more) (S.batches plan.new.more)) }
{
    add_turn(plan, Turn::Go)?;
    bring_thinned(plan, alloc, batch, keep)
}

/// What becomes of a batch that the copy keeps alone: it goes if the sender has seen it.
fn plan_kept<S: BatchStore>(
    plan: &mut WeavePlan<S>,
    batch: &BatchView<'_>,
    seen: &Cover<S::Alloc>,
) -> Result<(), AllocError>
    ensures { OnOk result (Adds (Some batch.now)
        (if covers seen.now.runs (first_offset batch.now) then None else Some batch.now)
        plan.old.turns.items plan.new.turns.items
        (S.batches plan.old.more) (S.batches plan.new.more)) }
{
    if seen.contains(batch.base()) {
        return add_turn(plan, Turn::Go);
    }
    add_turn(plan, Turn::Stay)
}

/// What becomes of a batch that the sender keeps alone: it comes in if the copy has not seen it.
fn plan_sent<S: BatchStore>(
    plan: &mut WeavePlan<S>,
    batch: &BatchView<'_>,
    seen: &Cover<S::Alloc>,
) -> Result<(), AllocError>
    requires in_range { IsInRange batch.now }
    requires behind { covers seen.now.runs (first_offset batch.now) ≡ false
        → EndBefore (first_offset batch.now) (S.batches plan.old.more) }
    ensures { OnOk result (Adds None
        (if covers seen.now.runs (first_offset batch.now) then None else Some batch.now)
        plan.old.turns.items plan.new.turns.items
        (S.batches plan.old.more) (S.batches plan.new.more)) }
{
    if seen.contains(batch.base()) {
        return Ok(());
    }
    bring(plan, batch)
}

/// What becomes of a batch that both keep: it stays if each of its records is in both, else it comes
/// in with the common ones.
fn plan_both<'a, S: BatchStore>(
    plan: &mut WeavePlan<S>,
    alloc: S::Alloc,
    x: &BatchView<'a>,
    y: &BatchView<'a>,
) -> Result<(), AllocError>
    requires in_range { IsInRange x.now }
    requires behind { EndBefore (first_offset x.now) (S.batches plan.old.more) }
    ensures { OnOk result (Adds (Some x.now) (Some (with_common_records x.now y.now))
        plan.old.turns.items plan.new.turns.items
        (S.batches plan.old.more) (S.batches plan.new.more)) }
{
    if has_all_of(x, y) {
        return add_turn(plan, Turn::Stay);
    }
    let keep = common_flags(alloc, x, y)?;
    replace(plan, alloc, x, &keep)
}

/// What becomes of a batch of which offsets are listed: it stays if each of its records is at one of
/// them, else it comes in with those that are.
fn plan_listed<S: BatchStore>(
    plan: &mut WeavePlan<S>,
    alloc: S::Alloc,
    batch: &BatchView<'_>,
    offsets: &[OffsetBytes],
) -> Result<(), AllocError>
    requires span { HasSpan batch.now }
    requires rising { (low : ℤ) × OffsetsRise low (offsets_of offsets.now) }
    requires behind { EndBefore (first_offset batch.now) (S.batches plan.old.more) }
    ensures { OnOk result (Adds (Some batch.now) (Some (with_listed (offsets_of offsets.now) batch.now))
        plan.old.turns.items plan.new.turns.items
        (S.batches plan.old.more) (S.batches plan.new.more)) }
{
    if has_all_listed(batch, offsets) {
        return add_turn(plan, Turn::Stay);
    }
    let keep = flag_listed(alloc, batch, offsets)?;
    replace(plan, alloc, batch, &keep)
}

/// What becomes of what is told of a base where the copy, which has seen these offsets, keeps no batch.
fn plan_told<S: BatchStore>(
    plan: &mut WeavePlan<S>,
    entry: &EntryView<'_>,
    seen: &Cover<S::Alloc>,
) -> Result<(), AllocError>
    requires room { (sender : Runs) (z : BatchValue)
        → left_over seen.now.runs sender (Told (entry_of entry.now)) ≡ Some z
        → IsInRange z × EndBefore (first_offset z) (S.batches plan.old.more) }
    requires valid { IsValidEntry (entry_of entry.now) }
    ensures { OnOk result ((sender : Runs) → Adds None
        (left_over seen.now.runs sender (Told (entry_of entry.now)))
        plan.old.turns.items plan.new.turns.items
        (S.batches plan.old.more) (S.batches plan.new.more)) }
{
    match entry {
        EntryView::Listed(_) => Ok(()),
        EntryView::Sent(batch) => plan_sent(plan, batch, seen),
    }
}

/// What becomes of a batch that the copy keeps and that an entry tells of.
fn plan_kept_and_told<'a, S: BatchStore>(
    plan: &mut WeavePlan<S>,
    alloc: S::Alloc,
    batch: &BatchView<'a>,
    entry: &EntryView<'a>,
) -> Result<(), AllocError>
    requires span { HasSpan batch.now }
    requires behind { EndBefore (first_offset batch.now) (S.batches plan.old.more) }
    requires valid { IsValidEntry (entry_of entry.now) }
    ensures { OnOk result ((sender copy : Runs) → Adds (Some batch.now)
        (left_over copy sender (Both batch.now (entry_of entry.now)))
        plan.old.turns.items plan.new.turns.items
        (S.batches plan.old.more) (S.batches plan.new.more)) }
{
    match entry {
        EntryView::Listed(list) => plan_listed(plan, alloc, batch, list.offsets),
        EntryView::Sent(sent) => plan_both(plan, alloc, batch, sent),
    }
}

/// What becomes of what begins below the later start: it goes.
fn let_go<S: BatchStore>(plan: &mut WeavePlan<S>, next: &Next<'_>) -> Result<(), AllocError>
    ensures { OnOk result (Adds (kept_of (step_of next.now)) None
        plan.old.turns.items plan.new.turns.items
        (S.batches plan.old.more) (S.batches plan.new.more)) }
{
    match next {
        Next::Done => Ok(()),
        Next::Kept(_) => add_turn(plan, Turn::Go),
        Next::Told(_) => Ok(()),
        Next::Both(_, _) => add_turn(plan, Turn::Go),
    }
}

/// What becomes of what begins from the later start on.
fn plan_from_start<'a, S: BatchStore>(
    plan: &mut WeavePlan<S>,
    alloc: S::Alloc,
    next: &Next<'a>,
    copy: &Cover<S::Alloc>,
    sender: &Cover<S::Alloc>,
) -> Result<(), AllocError>
    requires room { (z : BatchValue)
        → left_over copy.now.runs sender.now.runs (step_of next.now) ≡ Some z
        → IsInRange z × EndBefore (first_offset z) (S.batches plan.old.more) }
    requires sound { IsSound (step_of next.now) }
    ensures { OnOk result (Adds (kept_of (step_of next.now))
        (left_over copy.now.runs sender.now.runs (step_of next.now))
        plan.old.turns.items plan.new.turns.items
        (S.batches plan.old.more) (S.batches plan.new.more)) }
{
    match next {
        Next::Done => Ok(()),
        Next::Kept(batch) => plan_kept(plan, batch, sender),
        Next::Told(entry) => plan_told(plan, entry, copy),
        Next::Both(batch, entry) => plan_kept_and_told(plan, alloc, batch, entry),
    }
}

/// What becomes of what comes next.
fn plan_next<'a, S: BatchStore>(
    plan: &mut WeavePlan<S>,
    alloc: S::Alloc,
    start: i64,
    next: &Next<'a>,
    copy: &Cover<S::Alloc>,
    sender: &Cover<S::Alloc>,
) -> Result<(), AllocError>
    requires room { (z : BatchValue)
        → patched_next start copy.now.runs sender.now.runs (step_of next.now) ≡ Some z
        → IsInRange z × EndBefore (first_offset z) (S.batches plan.old.more) }
    requires sound { IsSound (step_of next.now) }
    ensures { OnOk result (Adds (kept_of (step_of next.now))
        (patched_next start copy.now.runs sender.now.runs (step_of next.now))
        plan.old.turns.items plan.new.turns.items
        (S.batches plan.old.more) (S.batches plan.new.more)) }
{
    if next.base() < start {
        return let_go(plan, next);
    }
    plan_from_start(plan, alloc, next, copy, sender)
}

/// The later of a copy's start and a sender's.
pub(crate) fn later_start<S: BatchStore>(copy: &PartitionLog<S>, sender: i64) -> i64
    ensures { result ≡ int_max copy.now.start sender }
{
    copy.start().max(sender)
}

/// What becomes of all batches that a copy keeps where it takes what it is told by a sender that starts at
/// `start` and has seen these offsets. Changes nothing.
pub(crate) fn make_plan<S: BatchStore, T: Telling>(
    copy: &PartitionLog<S>,
    start: i64,
    mut told: T,
    seen: &Cover<S::Alloc>,
) -> Result<WeavePlan<S>, AllocError>
    requires { (e : Delta) × IsTold start (T.tells told) (λ runs. seen.now.runs ≡ runs) e }
    ensures { IfOk result (λ plan. (e : Delta)
        → IsTold start (T.tells told) (λ runs. seen.now.runs ≡ runs) e
        → woven plan.turns.items copy.now.kept (S.batches plan.more) ≡ (patch copy.now e).kept) }
{
    let alloc = copy.allocator();
    let mut plan = WeavePlan {
        turns: Vec::new(alloc),
        more: S::new(alloc),
    };
    let later = later_start(copy, start);
    let mut kept = KeptBatches::new(copy);
    while has_next(&kept, &told) {
        let next = next_of(&kept, &told);
        plan_next(&mut plan, alloc, later, &next, copy.cover(), seen)?;
        let (of_kept, of_told) = (next.of_kept(), next.of_told());
        kept.pass_batches(of_kept);
        pass_told(&mut told, of_told);
    }
    Ok(plan)
}
