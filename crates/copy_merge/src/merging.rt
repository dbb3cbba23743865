//! Two copies merged.

ghost use Rattle.std.specs.Prelude.{◌≡◌, OnOk, OnErr, IfOk, IfErr};
ghost use Rattle.content.specs.Joins.{join, Agree};
ghost use Rattle.copy_merge.specs.Merges.{IsFirstDisagreement, RefusesMerge};

use crate::error::MergeError;
use segment::BatchStore;
use side_by_side::{KeptBatches, PartitionLog, SeenCover, judge, patch};
use std::alloc::AllocError;

/// Whether two copies agree; if not, the least base offset at which they don't. Takes no memory.
fn agree<S: BatchStore>(a: &PartitionLog<S>, b: &PartitionLog<S>) -> Result<(), i64>
    ensures agrees { OnOk result (Agree a.now b.now) }
    ensures disagrees { IfErr result (λ base. IsFirstDisagreement a.now b.now base) }
{
    let seen = SeenCover { cover: b.cover() };
    judge(a, b.start(), KeptBatches::new(b), seen)
}

/// Merges a copy into another. All memory is taken before anything changes.
fn unite<S: BatchStore>(a: &mut PartitionLog<S>, b: &PartitionLog<S>) -> Result<(), AllocError>
    ensures merges { OnOk result (a.new ≡ join a.old b.now) }
    ensures unchanged_on_error { OnErr result (a.new ≡ a.old) }
{
    patch(a, b.start(), KeptBatches::new(b), b.cover())
}

/// The merge of two copies, in memory of its own.
fn united<S: BatchStore>(
    a: &PartitionLog<S>,
    b: &PartitionLog<S>,
) -> Result<PartitionLog<S>, AllocError>
    ensures { IfOk result (λ merged. merged ≡ join a.now b.now) }
{
    let mut merged = a.try_clone()?;
    unite(&mut merged, b)?;
    Ok(merged)
}

/// Two copies of a partition merged into a third, in memory of its own. It starts at the greater of
/// the two starts, and has seen the offsets from there on that either has seen. At each base offset
/// from there on, a batch that only one copy has seen is taken over; one that either has dropped is
/// gone; and of one that both keep, the records stay that both have.
///
/// ```
/// let both = merge(&left, &right)?;
/// ```
///
/// # Errors
///
/// The first that applies, in the order of the variants of [`MergeError`]. Whether the copies agree
/// is found out without memory.
pub fn merge<S: BatchStore>(
    a: &PartitionLog<S>,
    b: &PartitionLog<S>,
) -> Result<PartitionLog<S>, MergeError>
    ensures merges { IfOk result (λ merged. merged ≡ join a.now b.now) }
    ensures agrees { OnOk result (Agree a.now b.now) }
    ensures refuses { IfErr result (RefusesMerge a.now b.now) }
{
    match agree(a, b) {
        Ok(()) => match united(a, b) {
            Ok(merged) => Ok(merged),
            Err(_) => Err(MergeError::OutOfMemory),
        },
        Err(base) => Err(MergeError::Disagree { base }),
    }
}

/// Merges the copy `b` into `a`, as [`merge`] does. The bytes of batches that stay are not copied.
///
/// ```
/// merge_into(&mut left, &right)?;
/// ```
///
/// # Errors
///
/// As [`merge`]; `a` is as it was.
pub fn merge_into<S: BatchStore>(
    a: &mut PartitionLog<S>,
    b: &PartitionLog<S>,
) -> Result<(), MergeError>
    ensures merges { OnOk result (a.new ≡ join a.old b.now) }
    ensures agrees { OnOk result (Agree a.old b.now) }
    ensures refuses { IfErr result (RefusesMerge a.old b.now) }
    ensures unchanged_on_error { OnErr result (a.new ≡ a.old) }
{
    match agree(a, b) {
        Ok(()) => match unite(a, b) {
            Ok(()) => Ok(()),
            Err(_) => Err(MergeError::OutOfMemory),
        },
        Err(base) => Err(MergeError::Disagree { base }),
    }
}
