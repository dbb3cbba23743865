//! `from_parts`: copies made of what was seen, of their start and of the batches kept.

ghost use Rattle.std.specs.Prelude.{◌≡◌, IfOk};
ghost use Rattle.content.specs.Content.{IsContent};

use batch_codec::Batch;
use partition_log::PartitionLog;
use segment::BatchStore;
use std::alloc::AllocError;

/// A copy's content is a valid one: this is known behind the call, which does nothing.
pub(crate) fn know_content<S: BatchStore>(copy: &PartitionLog<S>)
    ensures { IsContent copy.now }
{
    let _ = copy.end();
}

/// The batches that a copy keeps.
pub(crate) fn batches_of<S: BatchStore>(
    alloc: S::Alloc,
    copy: &PartitionLog<S>,
) -> Result<Vec<Batch<S::Alloc>, S::Alloc>, AllocError>
    ensures { IfOk result (λ batches. batches.items ≡ copy.now.kept) }
{
    let mut batches = Vec::new(alloc);
    for i in 0..copy.len() {
        batches.push(Batch::from_view(alloc, &copy.at(i))?)?;
    }
    Ok(batches)
}

/// A copy made of the parts of another one.
pub(crate) fn rebuilt<S: BatchStore>(
    alloc: S::Alloc,
    copy: &PartitionLog<S>,
) -> Result<PartitionLog<S>, AllocError> {
    know_content(copy);
    let batches = batches_of(alloc, copy)?;
    PartitionLog::from_parts(alloc, copy.cover().try_clone()?, copy.start(), batches)
}
