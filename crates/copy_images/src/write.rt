//! The image of a copy.

ghost use Rattle.std.specs.Prelude.{◌≡◌, ◌↔◌, ◌++◌, ◌≤◌, [], pos, ◌+◌, ◌*◌, min, length, IfOk, OnOk, IsTrue};
ghost use Rattle.std.specs.List.{flat_map};
ghost use Rattle.batch_codec.specs.Grammar.{batch_encoding};
ghost use Rattle.copy_images.specs.Images.{head_of, front_of, image_of};

use crate::fields::{count_field, put_crc, put_ranges};
use crate::layout::{EMPTY_SIZE, MARK, MAX_COUNT, RANGE_SIZE, VERSION};
use partition_log::PartitionLog;
use segment::BatchStore;
use std::alloc::{AllocError, Allocator};

/// How many bytes an image has beside its batches; where that is no `usize`, the greatest one.
fn fixed_size(ranges: usize) -> usize
    ensures { result ≡ min (26 + 16 * ranges) 18446744073709551615 }
{
    EMPTY_SIZE.saturating_add(ranges.saturating_mul(RANGE_SIZE))
}

/// How many bytes the image has; where that is no `usize`, the greatest one.
fn size_of<S: BatchStore>(copy: &PartitionLog<S>) -> usize
    ensures { result ≡ min (length (image_of copy.now)) 18446744073709551615 }
{
    let mut size = fixed_size(copy.cover().ranges().len());
    let mut start = 0;
    while start < copy.len() {
        let (bytes, end) = copy.piece(start, copy.len());
        size = size.saturating_add(bytes.len());
        start = end;
    }
    size
}

/// Appends what an image begins with.
#[tactic(auto, unfolding(crate::specs::Images::head_of))]
fn put_head<A: Allocator + Copy>(out: &mut Vec<u8, A>, start: i64) -> Result<(), AllocError>
    ensures { OnOk result (out.new.items ≡ out.old.items ++ head_of start) }
{
    out.extend_from_slice(&MARK.to_be_bytes())?;
    out.extend_from_slice(&VERSION.to_be_bytes())?;
    out.extend_from_slice(&start.to_be_bytes())
}

/// Appends what comes between the head and the batches.
fn put_front<A: Allocator + Copy>(
    out: &mut Vec<u8, A>,
    ranges: &[(i64, i64)],
    range_count: i32,
    batch_count: i32,
) -> Result<(), AllocError>
    requires { range_count ≡ pos (length ranges.now) }
    ensures { OnOk result (out.new.items ≡ out.old.items ++ front_of ranges.now batch_count) }
{
    out.extend_from_slice(&range_count.to_be_bytes())?;
    put_ranges(out, ranges)?;
    out.extend_from_slice(&batch_count.to_be_bytes())
}

/// Appends an image to nothing.
fn put_image<A: Allocator + Copy, S: BatchStore>(
    out: &mut Vec<u8, A>,
    copy: &PartitionLog<S>,
    range_count: i32,
    batch_count: i32,
) -> Result<(), AllocError>
    requires nothing { out.old.items ≡ [] }
    requires ranges { range_count ≡ pos (length copy.now.cover) }
    requires batches { batch_count ≡ pos (length copy.now.kept) }
    ensures { OnOk result (out.new.items ≡ image_of copy.now) }
{
    put_head(out, copy.start())?;
    put_front(out, copy.cover().ranges(), range_count, batch_count)?;
    copy.put_bytes(0..copy.len(), out)?;
    put_crc(out)
}

/// A copy's image, given its counts, in memory that is taken at once.
fn new_image<A: Allocator + Copy, S: BatchStore>(
    alloc: A,
    copy: &PartitionLog<S>,
    range_count: i32,
    batch_count: i32,
) -> Result<Vec<u8, A>, AllocError>
    requires ranges { range_count ≡ pos (length copy.now.cover) }
    requires batches { batch_count ≡ pos (length copy.now.kept) }
    ensures { IfOk result (λ image. image.items ≡ image_of copy.now) }
{
    let mut out = Vec::with_capacity(alloc, size_of(copy))?;
    put_image(&mut out, copy, range_count, batch_count)?;
    Ok(out)
}

/// Makes the image of a copy. Its memory is taken at once, and each batch's bytes are copied once.
///
/// # Errors
///
/// Out of memory; so it is also of a copy with more than `MAX_COUNT` ranges, or more batches than that.
pub fn write_image<A: Allocator + Copy, S: BatchStore>(
    alloc: A,
    copy: &PartitionLog<S>,
) -> Result<Vec<u8, A>, AllocError>
    ensures gives_the_image { IfOk result (λ image. image.items ≡ image_of copy.now) }
    ensures counts_the_ranges { OnOk result (length copy.now.cover ≤ MAX_COUNT) }
    ensures counts_the_batches { OnOk result (length copy.now.kept ≤ MAX_COUNT) }
{
    let range_count = count_field(copy.cover().ranges().len())?;
    let batch_count = count_field(copy.len())?;
    new_image(alloc, copy, range_count, batch_count)
}

/// Makes the image of a copy in the place of what a buffer holds, whose memory is used again.
///
/// # Errors
///
/// As of [`write_image`]; what the buffer holds then is not said.
pub fn image_into<A: Allocator + Copy, S: BatchStore>(
    copy: &PartitionLog<S>,
    out: &mut Vec<u8, A>,
) -> Result<(), AllocError>
    ensures gives_the_image { OnOk result (out.new.items ≡ image_of copy.now) }
    ensures counts_the_ranges { OnOk result (length copy.now.cover ≤ MAX_COUNT) }
    ensures counts_the_batches { OnOk result (length copy.now.kept ≤ MAX_COUNT) }
{
    let range_count = count_field(copy.cover().ranges().len())?;
    let batch_count = count_field(copy.len())?;
    out.clear();
    out.reserve(size_of(copy))?;
    put_image(out, copy, range_count, batch_count)
}

/// How many bytes the image of a copy has. Takes no memory.
///
/// # Errors
///
/// Out of memory: 2^63 or more, since no memory holds that many.
pub fn image_size<S: BatchStore>(copy: &PartitionLog<S>) -> Result<i64, AllocError>
    ensures { IfOk result (λ size. size ≡ pos (length (image_of copy.now))) }
{
    i64::try_from(size_of(copy)).map_err(|_| AllocError)
}

/// Whether the image of a copy has at most this many bytes. Takes no memory.
pub fn has_image_within<S: BatchStore>(copy: &PartitionLog<S>, limit: u32) -> bool
    ensures { IsTrue result ↔ (length (image_of copy.now) ≤ limit) }
{
    size_of(copy) <= limit as usize
}
