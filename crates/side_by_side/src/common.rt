//! The records that two batches have in common.

ghost use Rattle.std.specs.Prelude.{◌≡◌, IsTrue, IfOk, length};
ghost use Rattle.batch_codec.specs.Grammar.{Writable};
ghost use Rattle.batch_codec.specs.Thinning.{thinned};
ghost use Rattle.content.specs.Records.{with_common_records};
ghost use Rattle.side_by_side.specs.RecordWalks.{walk_has_all, walk_flags};

use crate::alike::have_equal_bytes;
use crate::record_walk::RecordWalk;
use batch_codec::BatchView;
use std::alloc::{AllocError, Allocator};

/// Whether `y` has a record at the delta of each of x's.
fn walk_has_all<'a>(x: &BatchView<'a>, y: &BatchView<'a>) -> bool
    ensures { result ≡ walk_has_all x.now.recs y.now.recs }
{
    let mut walk = RecordWalk::new(y);
    for rec in x.recs() {
        if walk.at(rec.delta).is_none() {
            return false;
        }
    }
    true
}

/// Whether `y` has a record at each offset at which `x` has one.
#[tactic(auto, using(crate::proofs::CommonRecords::all_of, crate::proofs::CommonRecords::all_of_same))]
pub(crate) fn has_all_of<'a>(x: &BatchView<'a>, y: &BatchView<'a>) -> bool
    ensures has_all { IsTrue result → with_common_records x.now y.now ≡ x.now }
    ensures left_writable { Writable x.now }
    ensures right_writable { Writable y.now }
{
    have_equal_bytes(x, y) || walk_has_all(x, y)
}

/// Of each of x's records, whether a walk over those of `y` meets one of its delta.
fn walk_flags<'a, A: Allocator + Copy>(
    alloc: A,
    x: &BatchView<'a>,
    y: &BatchView<'a>,
) -> Result<Vec<bool, A>, AllocError>
    ensures { IfOk result (λ keep. keep.items ≡ walk_flags x.now.recs y.now.recs) }
{
    let mut walk = RecordWalk::new(y);
    let mut keep = Vec::new(alloc);
    for rec in x.recs() {
        keep.push(walk.at(rec.delta).is_some())?;
    }
    Ok(keep)
}

/// Of each of x's records, whether `y` has one at its offset.
#[tactic(auto, using(crate::proofs::CommonRecords::flags_length, crate::proofs::CommonRecords::flags_common))]
pub(crate) fn common_flags<'a, A: Allocator + Copy>(
    alloc: A,
    x: &BatchView<'a>,
    y: &BatchView<'a>,
) -> Result<Vec<bool, A>, AllocError>
    requires left_writable { Writable x.now }
    requires right_writable { Writable y.now }
    ensures as_many { IfOk result (λ keep. length keep.items ≡ length x.now.recs) }
    ensures common { IfOk result (λ keep.
        thinned keep.items x.now ≡ with_common_records x.now y.now) }
{
    walk_flags(alloc, x, y)
}
