//! The records of a batch that a delta lists.

ghost use Rattle.std.specs.Prelude.{◌≡◌, ℤ, IsTrue, IfOk, length};
ghost use Rattle.batch_codec.specs.Grammar.{Writable};
ghost use Rattle.batch_codec.specs.Thinning.{thinned};
ghost use Rattle.deltas.specs.Entries.{OffsetsRise};
ghost use Rattle.deltas.specs.Patches.{with_listed};
ghost use Rattle.delta_bytes.specs.Judging.{offsets_of};
ghost use Rattle.side_by_side.specs.Steps.{HasSpan};
ghost use Rattle.side_by_side.specs.ListWalks.{offsets_from, begins_with, offset_in, walk_all_listed, listed_flags};

use batch_codec::BatchView;
use delta_bytes::lists::{OffsetBytes, offset_at};
use std::alloc::{AllocError, Allocator};

/// A batch's fields are valid: this is known behind the call, which does nothing.
#[tactic(auto, using(crate::proofs::CommonRecords::opened_writable))]
fn know_batch(batch: &BatchView<'_>)
    ensures { Writable batch.now }
{
    let _ = batch.bytes();
}

/// The offset of a batch's record that has this delta.
fn offset_in(batch: &BatchView<'_>, delta: i32) -> i64
    requires { HasSpan batch.now }
    ensures { result ≡ offset_in batch.now delta }
{
    batch.base() + i64::from(delta)
}

/// The offsets from the first on that is not below this one.
fn from_offset(offsets: &[OffsetBytes], offset: i64) -> &[OffsetBytes]
    ensures { offsets_of result.now ≡ offsets_from offset (offsets_of offsets.now) }
{
    for at in 0..offsets.len() {
        if offset <= offset_at(&offsets[at]) {
            return &offsets[at..];
        }
    }
    &[]
}

/// Whether the first of the offsets is this one.
#[tactic(auto, unfolding(crate::specs::ListWalks::begins_with))]
fn begins_with(offsets: &[OffsetBytes], offset: i64) -> bool
    ensures { result ≡ begins_with offset (offsets_of offsets.now) }
{
    match offsets.first() {
        Some(bytes) => offset_at(bytes) == offset,
        None => false,
    }
}

/// The offsets from the first on that is not below that of a batch's record.
fn from_record<'a>(
    offsets: &'a [OffsetBytes],
    batch: &BatchView<'_>,
    delta: i32,
) -> &'a [OffsetBytes]
    requires { HasSpan batch.now }
    ensures { offsets_of result.now
        ≡ offsets_from (offset_in batch.now delta) (offsets_of offsets.entry.now) }
{
    from_offset(offsets, offset_in(batch, delta))
}

/// Whether the first of the offsets is that of a batch's record.
fn begins_at(offsets: &[OffsetBytes], batch: &BatchView<'_>, delta: i32) -> bool
    requires { HasSpan batch.now }
    ensures { result ≡ begins_with (offset_in batch.now delta) (offsets_of offsets.now) }
{
    begins_with(offsets, offset_in(batch, delta))
}

/// Whether each of a batch's records is met on a walk over the offsets.
fn walk_all_listed(batch: &BatchView<'_>, offsets: &[OffsetBytes]) -> bool
    requires { HasSpan batch.now }
    ensures { result ≡ walk_all_listed batch.now batch.now.recs (offsets_of offsets.now) }
{
    let mut left = offsets;
    for rec in batch.recs() {
        left = from_record(left, batch, rec.delta);
        if !begins_at(left, batch, rec.delta) {
            return false;
        }
    }
    true
}

/// Whether each of a batch's records is at one of the offsets, which rise.
#[tactic(auto, using(crate::proofs::ListedRecords::all_listed))]
pub(crate) fn has_all_listed(batch: &BatchView<'_>, offsets: &[OffsetBytes]) -> bool
    requires span { HasSpan batch.now }
    requires rising { (low : ℤ) × OffsetsRise low (offsets_of offsets.now) }
    ensures { IsTrue result → with_listed (offsets_of offsets.now) batch.now ≡ batch.now }
{
    // For its contract: the batch's fields are valid.
    know_batch(batch);
    walk_all_listed(batch, offsets)
}

/// Of each of a batch's records, whether it is met on a walk over the offsets.
fn walk_flags<A: Allocator + Copy>(
    alloc: A,
    batch: &BatchView<'_>,
    offsets: &[OffsetBytes],
) -> Result<Vec<bool, A>, AllocError>
    requires { HasSpan batch.now }
    ensures { IfOk result (λ keep. keep.items
        ≡ listed_flags batch.now batch.now.recs (offsets_of offsets.now)) }
{
    let mut left = offsets;
    let mut keep = Vec::new(alloc);
    for rec in batch.recs() {
        left = from_record(left, batch, rec.delta);
        keep.push(begins_at(left, batch, rec.delta))?;
    }
    Ok(keep)
}

/// Of each of a batch's records, whether it is at one of the offsets, which rise.
#[tactic(auto, using(crate::proofs::ListedRecords::flags_length, crate::proofs::ListedRecords::flags_listed))]
pub(crate) fn flag_listed<A: Allocator + Copy>(
    alloc: A,
    batch: &BatchView<'_>,
    offsets: &[OffsetBytes],
) -> Result<Vec<bool, A>, AllocError>
    requires span { HasSpan batch.now }
    requires rising { (low : ℤ) × OffsetsRise low (offsets_of offsets.now) }
    ensures as_many { IfOk result (λ keep. length keep.items ≡ length batch.now.recs) }
    ensures listed { IfOk result (λ keep.
        thinned keep.items batch.now ≡ with_listed (offsets_of offsets.now) batch.now) }
{
    // For its contract: the batch's fields are valid.
    know_batch(batch);
    walk_flags(alloc, batch, offsets)
}
