//! A delta taken into a copy.

ghost use Rattle.std.specs.Prelude.{◌≡◌, ◌≢◌, ℕ, List, OnOk, OnErr, IfOk, IfErr};
ghost use Rattle.deltas.specs.Deltas.{Delta};
ghost use Rattle.deltas.specs.Patches.{patch};
ghost use Rattle.deltas.specs.Accepting.{Accepts, IsFirstFault};
ghost use Rattle.delta_bytes.specs.declared.error.DeltaError.TheVariants.{InFront, InBody};
ghost use Rattle.delta_bytes.specs.Fronts.{Refuses};
ghost use Rattle.copy_deltas.specs.declared.error.PatchError.TheVariants.{OutOfMemory};
ghost use Rattle.copy_deltas.specs.Applying.{TakesDelta, BytesFault, RefusesDelta};
ghost use Rattle.copy_deltas.specs.DeltaParts.{AreParts};

use crate::error::PatchError;
use crate::knowing::knows_all;
use crate::told::{RangesLeft, entries_of};
use copy_images::ranges::build_cover;
use delta_bytes::{
    BodyError, DeltaBytes, DeltaError, EntriesError, FrontError, RangesError, judge_delta,
};
use partition_log::PartitionLog;
use segment::BatchStore;
use side_by_side::{judge, patch};
use std::alloc::AllocError;

/// A fault in the front of a delta.
fn fault_in_front(fault: FrontError) -> PatchError
    ensures { (bytes : List ℕ) → Refuses bytes (InFront fault) → BytesFault bytes result }
{
    match fault {
        FrontError::Short => PatchError::Short,
        FrontError::BadMark => PatchError::BadMark,
        FrontError::BadVersion => PatchError::BadVersion,
        FrontError::BadCrc => PatchError::BadCrc,
        FrontError::BadStart => PatchError::BadCover,
    }
}

/// A fault between the front of a delta and its crc.
fn fault_in_body(fault: BodyError) -> PatchError
    ensures { (bytes : List ℕ) → Refuses bytes (InBody fault) → BytesFault bytes result }
{
    match fault {
        BodyError::InRanges(RangesError::Short) => PatchError::Short,
        BodyError::InRanges(RangesError::BadCover) => PatchError::BadCover,
        BodyError::InEntries(EntriesError::BadBatch(index)) => PatchError::BadBatch(index),
        BodyError::InEntries(EntriesError::Outside) => PatchError::Outside,
        BodyError::InEntries(EntriesError::Extra) => PatchError::Extra,
    }
}

/// Why a copy does not take bytes that are no delta.
fn fault_of(fault: DeltaError) -> PatchError
    ensures { (bytes : List ℕ) → Refuses bytes fault → BytesFault bytes result }
{
    match fault {
        DeltaError::InFront(front) => fault_in_front(front),
        DeltaError::InBody(body) => fault_in_body(body),
    }
}

/// Takes the delta of these parts into a copy. All memory is taken before anything changes.
fn patch_copy<S: BatchStore>(
    copy: &mut PartitionLog<S>,
    delta: &DeltaBytes<'_>,
) -> Result<(), AllocError>
    requires { (e : Delta) × AreParts delta.now e }
    ensures patches { OnOk result ((e : Delta) → AreParts delta.now e → copy.new ≡ patch copy.old e) }
    ensures unchanged_on_error { OnErr result (copy.new ≡ copy.old) }
{
    let seen = build_cover(copy.allocator(), delta.ranges)?;
    patch(copy, delta.start, entries_of(delta), &seen)
}

/// Whether a copy may take the delta of these parts; if not, the least base offset at which it may not.
/// Takes no memory.
fn judge_parts<S: BatchStore>(copy: &PartitionLog<S>, delta: &DeltaBytes<'_>) -> Result<(), i64>
    requires { (e : Delta) × AreParts delta.now e }
    ensures accepts { OnOk result ((e : Delta) → AreParts delta.now e → Accepts copy.now e) }
    ensures refuses { IfErr result (λ base. (e : Delta) → AreParts delta.now e
        → IsFirstFault copy.now e base) }
{
    let seen = RangesLeft {
        ranges: delta.ranges,
    };
    judge(copy, delta.start, entries_of(delta), seen)
}

/// Judges bytes as a delta that the copy may take, and gives its parts. It takes no memory.
fn judge_bytes<'a, S: BatchStore>(
    copy: &PartitionLog<S>,
    bytes: &'a [u8],
) -> Result<DeltaBytes<'a>, PatchError>
    ensures accepts { IfOk result (λ delta. (e : Delta) × TakesDelta copy.now bytes.now e
        × AreParts delta e) }
    ensures refuses { IfErr result (RefusesDelta copy.now bytes.now) }
    ensures takes_no_memory { IfErr result (λ e. e ≢ OutOfMemory) }
{
    let delta = match judge_delta(bytes) {
        Ok(delta) => delta,
        Err(fault) => return Err(fault_of(fault)),
    };
    if !knows_all(copy, delta.asked) {
        return Err(PatchError::NotFor);
    }
    match judge_parts(copy, &delta) {
        Ok(()) => Ok(delta),
        Err(base) => Err(PatchError::Disagree { base }),
    }
}

/// Whether a copy may take a delta: what [`apply_delta`] answers where there is memory. It takes none.
///
/// # Errors
///
/// The first that applies, as [`PatchError`] says, and never a lack of memory.
pub fn check_delta<S: BatchStore>(copy: &PartitionLog<S>, bytes: &[u8]) -> Result<(), PatchError>
    ensures accepts { OnOk result ((e : Delta) × TakesDelta copy.now bytes.now e) }
    ensures refuses { IfErr result (RefusesDelta copy.now bytes.now) }
    ensures takes_no_memory { IfErr result (λ e. e ≢ OutOfMemory) }
{
    match judge_bytes(copy, bytes) {
        Ok(_) => Ok(()),
        Err(fault) => Err(fault),
    }
}

/// Takes a delta into a copy: afterwards the copy is what the delta leaves of it. All is judged before
/// anything changes, without memory, and the bytes of batches that stay are not copied.
///
/// ```
/// apply_delta(&mut copy, &delta)?;
/// ```
///
/// # Errors
///
/// The first that applies, as [`PatchError`] says; the copy is as it was.
pub fn apply_delta<S: BatchStore>(
    copy: &mut PartitionLog<S>,
    bytes: &[u8],
) -> Result<(), PatchError>
    ensures takes_a_delta { OnOk result ((e : Delta) × TakesDelta copy.old bytes.now e
        × (copy.new ≡ patch copy.old e)) }
    ensures refuses { IfErr result (RefusesDelta copy.old bytes.now) }
    ensures unchanged_on_error { OnErr result (copy.new ≡ copy.old) }
{
    let delta = judge_bytes(copy, bytes)?;
    match patch_copy(copy, &delta) {
        Ok(()) => Ok(()),
        Err(_) => Err(PatchError::OutOfMemory),
    }
}
