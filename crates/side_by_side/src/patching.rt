//! What a copy is told, taken into it.

ghost use Rattle.std.specs.Prelude.{◌≡◌, OnOk, OnErr, IfOk};
ghost use Rattle.cover_ranges.specs.Runs.{union_of, cut_below};
ghost use Rattle.deltas.specs.Deltas.{Delta};
ghost use Rattle.deltas.specs.Patches.{patch};
ghost use Rattle.side_by_side.specs.Telling.{IsTold};

use crate::kept::know_content;
use crate::planning::{WeavePlan, later_start, make_plan};
use crate::telling::Telling;
use cover_ranges::Cover;
use delta_bytes::PartitionLog;
use segment::BatchStore;
use std::alloc::AllocError;

/// The offsets that the copy or the sender has seen, from a start on.
fn cover_from<S: BatchStore>(
    copy: &PartitionLog<S>,
    seen: &Cover<S::Alloc>,
    start: i64,
) -> Result<Cover<S::Alloc>, AllocError>
    ensures { IfOk result (λ cover.
        cover.runs ≡ cut_below start (union_of copy.now.cover seen.now.runs)) }
{
    let mut cover = copy.cover().union(seen)?;
    cover.cut_below(start);
    Ok(cover)
}

/// Takes into a copy what it is told by a sender that starts at `start` and has seen these offsets, whether
/// it may or not. All memory is taken before anything changes, and the bytes of batches that stay are not
/// copied.
///
/// # Errors
///
/// Out of memory: the copy is as it was.
pub fn patch<S: BatchStore, T: Telling>(
    copy: &mut PartitionLog<S>,
    start: i64,
    told: T,
    seen: &Cover<S::Alloc>,
) -> Result<(), AllocError>
    requires { (e : Delta) × IsTold start (T.tells told) (λ runs. seen.now.runs ≡ runs) e }
    ensures patches { OnOk result ((e : Delta)
        → IsTold start (T.tells told) (λ runs. seen.now.runs ≡ runs) e
        → copy.new ≡ patch copy.old e) }
    ensures unchanged_on_error { OnErr result (copy.new ≡ copy.old) }
{
    // For its contract: the content is valid.
    know_content(copy);
    let WeavePlan { turns, more } = make_plan(copy, start, told, seen)?;
    let later = later_start(copy, start);
    let cover = cover_from(copy, seen, later)?;
    copy.weave(cover, later, &turns, more)
}
