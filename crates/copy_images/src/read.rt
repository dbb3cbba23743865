//! A copy made of its image.

ghost use Rattle.std.specs.Prelude.{◌≡◌, IfOk, IfErr, OnOk};
ghost use Rattle.copy_images.specs.Images.{IsImage};
ghost use Rattle.checksum.specs.Crc.{feed_bytes};
ghost use Rattle.copy_images.specs.Refusals.{HasVersion, IsOwnCrc, HasStart, start_in, body_in, HasFront, Refuses};
ghost use Rattle.copy_images.specs.Judging.{covered, ranges_of, AreJudged};

use crate::batches::judge_batches;
use crate::build::build;
use crate::error::ImageError;
use crate::front::{ImageParts, check_crc, check_head, covered, parts_of};
use crate::ranges::is_cover;
use checksum::{Crc32c, crc32c};
use partition_log::PartitionLog;
use segment::BatchStore;

/// Judges what stands between the head of an image and its crc. A fault of it is the first where the
/// crc is right. Where there is none, `crc` takes in all bytes that the image's crc covers.
fn judge_body<'a>(bytes: &'a [u8], crc: &mut Crc32c) -> Result<ImageParts<'a>, ImageError>
    requires { HasVersion bytes.now }
    ensures start { IfOk result (λ parts. parts.start ≡ start_in bytes.now) }
    ensures front { IfOk result (λ parts.
        HasFront (body_in bytes.now) (ranges_of parts.ranges.now) parts.count parts.batches.now) }
    ensures judged { IfOk result (λ parts.
        AreJudged parts.start (ranges_of parts.ranges.now) parts.count parts.batches.now) }
    ensures feeds { OnOk result (crc.new ≡ feed_bytes crc.old (covered bytes.now)) }
    ensures refuses { IsOwnCrc bytes.now → IfErr result (Refuses bytes.now) }
{
    let parts = parts_of(bytes)?;
    if !is_cover(parts.ranges, parts.start) {
        return Err(ImageError::BadCover);
    }
    let Ok(count) = u32::try_from(parts.count) else {
        return Err(ImageError::BadBatch(0));
    };
    let all = covered(bytes);
    crc.feed(&all[..all.len() - parts.batches.len()]);
    judge_batches(parts.ranges, count, parts.batches, crc)?;
    Ok(parts)
}

/// Judges bytes as an image, in one pass over them, and takes no memory. Bytes with a fault behind the
/// head are read once more for their crc, since a wrong crc comes before that fault.
fn judge(bytes: &[u8]) -> Result<ImageParts<'_>, ImageError>
    ensures starts { OnOk result (HasStart bytes.now) }
    ensures start { IfOk result (λ parts. parts.start ≡ start_in bytes.now) }
    ensures front { IfOk result (λ parts.
        HasFront (body_in bytes.now) (ranges_of parts.ranges.now) parts.count parts.batches.now) }
    ensures judged { IfOk result (λ parts.
        AreJudged parts.start (ranges_of parts.ranges.now) parts.count parts.batches.now) }
    ensures refuses { IfErr result (Refuses bytes.now) }
{
    check_head(bytes)?;
    let mut crc = Crc32c::new();
    match judge_body(bytes, &mut crc) {
        Ok(parts) => {
            check_crc(bytes, crc.value())?;
            Ok(parts)
        }
        Err(fault) => {
            check_crc(bytes, crc32c(covered(bytes)))?;
            Err(fault)
        }
    }
}

/// Makes the copy of an image. All bytes are judged before any memory is taken, and each batch's bytes
/// are copied once.
///
/// # Errors
///
/// The first fault in the order of the checks, which [`ImageError`] gives.
pub fn read_image<S: BatchStore>(
    alloc: S::Alloc,
    bytes: &[u8],
) -> Result<PartitionLog<S>, ImageError>
    // What is accepted is the image of the copy that it gives.
    ensures accepts_an_image { IfOk result (IsImage bytes.now) }
    // A refusal is the first fault; out of memory comes only of an image.
    ensures refuses_for_the_first_fault { IfErr result (Refuses bytes.now) }
{
    let parts = judge(bytes)?;
    match build(alloc, &parts) {
        Ok(copy) => Ok(copy),
        Err(_) => Err(ImageError::OutOfMemory),
    }
}
