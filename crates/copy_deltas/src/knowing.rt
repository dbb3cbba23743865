//! Whether a copy knows what was asked.

ghost use Rattle.std.specs.Prelude.{◌≡◌, ◌↔◌, false, IsTrue};
ghost use Rattle.copy_images.specs.Judging.{ranges_of};
ghost use Rattle.deltas.specs.Accepting.{IsFor, HasUnknown};

use copy_images::ranges::{RangeBytes, range_at};
use partition_log::PartitionLog;
use segment::BatchStore;
use side_by_side::know_content;

/// Whether a copy knows all offsets that were asked: those from its start on it has seen.
pub(crate) fn knows_all<S: BatchStore>(copy: &PartitionLog<S>, asked: &[RangeBytes]) -> bool
    ensures known { IsTrue result ↔ IsFor copy.now (ranges_of asked.now) }
    ensures unknown { result ≡ false → HasUnknown copy.now (ranges_of asked.now) }
{
    // For its contract: the content is valid.
    know_content(copy);
    for bytes in asked {
        let (first, last) = range_at(bytes);
        if !copy.cover().has_all(copy.start().max(first), last) {
            return false;
        }
    }
    true
}
