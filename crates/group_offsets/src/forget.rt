//! The batch that forgets keys.

ghost use Rattle.std.specs.Prelude.{◌≡◌, ◌<◌, ◌≤◌, ◌^◌, length, map, IfOk};
ghost use Rattle.group_offsets.specs.Batches.{null_records, forget_batch};

use crate::commit::{offsets_head, offsets_record};
use batch_codec::{Batch, MAX_BATCH_BYTES, Rec};
use std::alloc::{AllocError, Allocator};

/// The most keys that a batch forgets: no more records fit, however small.
pub const MAX_FORGOTTEN: usize = MAX_BATCH_BYTES;

/// A null record for each key.
fn null_records<A: Allocator + Copy>(alloc: A, keys: &[&[u8]]) -> Result<Vec<Rec<A>, A>, AllocError>
    requires { length keys.now < 2 ^ 31 }
    ensures { IfOk result (λ recs. recs.items ≡ null_records 0 (map (λ key. key.now) keys.now)) }
{
    let mut recs = Vec::with_capacity(alloc, keys.len())?;
    for i in 0..keys.len() {
        let key = Vec::from_slice(alloc, keys[i])?;
        recs.push(offsets_record(alloc, i as i32, key, None))?;
    }
    Ok(recs)
}

/// The batch that forgets these keys, 1 to `MAX_FORGOTTEN` of them: a null record for each, in their
/// order. It has no times and no producer. Whether it is within the size of a batch says
/// [`crate::fits_a_batch`].
///
/// # Errors
///
/// Out of memory.
#[tactic(auto, unfolding(crate::specs::Batches::forget_batch))]
pub fn forget_batch<A: Allocator + Copy>(alloc: A, keys: &[&[u8]]) -> Result<Batch<A>, AllocError>
    requires some { 1 ≤ length keys.now }
    requires few { length keys.now ≤ MAX_FORGOTTEN }
    ensures forgets { IfOk result
        (λ batch. batch ≡ forget_batch (map (λ key. key.now) keys.now)) }
{
    let recs = null_records(alloc, keys)?;
    Ok(Batch {
        head: offsets_head((keys.len() - 1) as i32),
        recs,
    })
}
