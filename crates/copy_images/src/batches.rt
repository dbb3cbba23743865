//! The batches of an image, where they stand in its bytes: judged, and taken one after the other.

ghost use Rattle.std.specs.Prelude.{◌≡◌, ℕ, ◌≤ℤ◌, pos, ◌↔◌, List, ◌++◌, IsTrue, OnOk, IfErr, IfSome, MatchOption};
ghost use Rattle.checksum.specs.Crc.{feed_bytes};
ghost use Rattle.batch_codec.specs.Values.{BatchValue};
ghost use Rattle.batch_codec.specs.Grammar.{Writable, batch_encoding};
ghost use Rattle.batch_codec.specs.Offsets.{first_offset, HasKeys};
ghost use Rattle.content.specs.Content.{IsInRange};
ghost use Rattle.cover_ranges.specs.Runs.{IsCanonical};
ghost use Rattle.copy_images.specs.Refusals.{IsNext};
ghost use Rattle.copy_images.specs.Judging.{ranges_of, HoldsBatches, BatchesFault};

use crate::error::ImageError;
use crate::ranges::{RangeBytes, ending_from, first_holds};
use batch_codec::numbers::be_i32_at;
use batch_codec::{BatchView, view, view_feeding};
use checksum::Crc32c;

/// Byte offset of a batch's length field, an int32: how many bytes follow it.
const LENGTH_AT: usize = 8;
/// Byte offset of the first byte that the length field counts.
const LENGTH_END: usize = 12;

/// Whether a batch may follow batches that end before `from`.
fn may_follow(batch: &BatchView<'_>, from: i64) -> bool
    ensures { IsTrue result
        ↔ (HasKeys batch.now × IsInRange batch.now × (from ≤ℤ first_offset batch.now)) }
{
    batch.has_keys() && batch.is_in_range() && from <= batch.base()
}

/// The batch at the front, if it may follow batches that end before `from`.
pub fn next_batch(bytes: &[u8], from: i64) -> Option<BatchView<'_>>
    ensures { MatchOption result
        ((b : BatchValue) → IsNext from b bytes.now → ⊥)
        (λ b. IsNext from b bytes.now) }
{
    let Ok(batch) = view(bytes) else {
        return None;
    };
    if !may_follow(&batch, from) {
        return None;
    }
    Some(batch)
}

/// The same as [`next_batch`], in one pass with a crc that goes on over the batch's bytes.
fn next_batch_feeding<'a>(bytes: &'a [u8], from: i64, crc: &mut Crc32c) -> Option<BatchView<'a>>
    ensures next { MatchOption result
        ((b : BatchValue) → IsNext from b bytes.now → ⊥)
        (λ b. IsNext from b bytes.now) }
    ensures feeds { IfSome result (λ b. crc.new ≡ feed_bytes crc.old (batch_encoding b)) }
{
    let Ok(batch) = view_feeding(bytes, crc) else {
        return None;
    };
    if !may_follow(&batch, from) {
        return None;
    }
    Some(batch)
}

/// Judges that many batches, and that nothing follows them. The crc takes in their bytes.
pub(crate) fn judge_batches(
    ranges: &[RangeBytes],
    count: u32,
    bytes: &[u8],
    crc: &mut Crc32c,
) -> Result<(), ImageError>
    requires { IsCanonical (ranges_of ranges.now) }
    ensures accepts { OnOk result (HoldsBatches (ranges_of ranges.now) (pos count) bytes.now) }
    ensures refuses { IfErr result (BatchesFault (ranges_of ranges.now) (pos count) bytes.now) }
    ensures feeds { OnOk result (crc.new ≡ feed_bytes crc.old bytes.now) }
{
    // The ranges that end at the last batch or later, and the offset after it.
    let mut left = ranges;
    let mut from = 0;
    let mut rest = bytes;
    for index in 0..count {
        let batch = match next_batch_feeding(rest, from, crc) {
            Some(batch) => batch,
            None => return Err(ImageError::BadBatch(index)),
        };
        let (first, last) = (batch.base(), batch.last_offset());
        left = ending_from(left, first);
        if !first_holds(left, first, last) {
            return Err(ImageError::Outside);
        }
        from = last + 1;
        rest = &rest[batch.bytes().len()..];
    }
    if !rest.is_empty() {
        return Err(ImageError::Extra);
    }
    Ok(())
}

/// The batch at the front, which is known to stand there, and the bytes after it.
pub fn split_batch(bytes: &[u8]) -> (BatchView<'_>, &[u8])
    requires { (b : BatchValue) × (rest : List ℕ) × Writable b
        × (bytes.now ≡ batch_encoding b ++ rest) }
    ensures { (b : BatchValue) → (rest : List ℕ) → Writable b
        → bytes.now ≡ batch_encoding b ++ rest → (result.0 ≡ b) × (result.1.now ≡ rest) }
{
    let size = be_i32_at(bytes, LENGTH_AT).unsigned_abs() as usize + LENGTH_END;
    let (batch, rest) = bytes.split_at(size);
    (BatchView::open(batch), rest)
}
