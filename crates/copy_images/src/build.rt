//! A copy made of the parts of an image that were judged.

ghost use Rattle.std.specs.Prelude.{List, IfOk};
ghost use Rattle.batch_codec.specs.Values.{BatchValue};
ghost use Rattle.copy_images.specs.Judging.{ranges_of, IsEncoded, AreJudged, IsBuilt};

use crate::batches::split_batch;
use crate::front::ImageParts;
use crate::ranges::build_cover;
use partition_log::PartitionLog;
use segment::BatchStore;
use std::alloc::AllocError;

/// Keeps batches that are known to stand there.
fn build_store<S: BatchStore>(alloc: S::Alloc, bytes: &[u8]) -> Result<S, AllocError>
    requires { (batches : List BatchValue) × IsEncoded batches bytes.now }
    ensures { IfOk result (λ store. IsEncoded (S.batches store) bytes.now) }
{
    let mut store = S::new(alloc);
    let mut rest = bytes;
    while !rest.is_empty() {
        let (batch, after) = split_batch(rest);
        store.insert(&batch)?;
        rest = after;
    }
    Ok(store)
}

/// The copy of an image.
pub(crate) fn build<S: BatchStore>(
    alloc: S::Alloc,
    parts: &ImageParts<'_>,
) -> Result<PartitionLog<S>, AllocError>
    requires { AreJudged parts.now.start (ranges_of parts.now.ranges.now) parts.now.count
        parts.now.batches.now }
    ensures { IfOk result
        (IsBuilt parts.now.start (ranges_of parts.now.ranges.now) parts.now.batches.now) }
{
    let cover = build_cover(alloc, parts.ranges)?;
    let batches = build_store(alloc, parts.batches)?;
    Ok(PartitionLog::from_store(alloc, cover, parts.start, batches))
}
