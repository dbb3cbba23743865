//! Copies for the tests, and what they show.

use batch_codec::view;
use copy_answers::answers_of;
use copy_images::{read_image, write_image};
use partition_log::{Delivered, PartitionLog};
use segment::BatchStore;

/// Whether a batch is delivered to a copy as a new one.
fn is_added<S: BatchStore>(copy: &mut PartitionLog<S>, bytes: &[u8]) -> bool {
    match view(bytes) {
        Ok(batch) => copy.deliver(&batch) == Ok(Delivered::Added),
        Err(_) => false,
    }
}

/// Whether these batches are delivered to a copy, each of them as a new one.
pub(crate) fn are_added<S: BatchStore>(copy: &mut PartitionLog<S>, batches: &[&[u8]]) -> bool {
    let mut are_added = true;
    for bytes in batches {
        are_added = are_added && is_added(copy, bytes);
    }
    are_added
}

/// Whether the copy has this image.
pub(crate) fn has_image<S: BatchStore>(copy: &PartitionLog<S>, image: &[u8]) -> bool {
    match write_image(copy.allocator(), copy) {
        Ok(bytes) => bytes.as_slice() == image,
        Err(_) => false,
    }
}

/// Whether a copy answers, without taking memory, as the one of this image does in that memory.
pub(crate) fn answers_as<S: BatchStore>(
    ample: S::Alloc,
    copy: &PartitionLog<S>,
    image: &[u8],
) -> bool {
    let Ok(other) = read_image::<S>(ample, image) else {
        return false;
    };
    match (answers_of(ample, copy), answers_of(ample, &other)) {
        (Ok(answers), Ok(wanted)) => answers == wanted,
        _ => false,
    }
}
