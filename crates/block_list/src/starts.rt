//! Where the blocks start.

ghost use Rattle.std.specs.Prelude.{◌≡◌, ◌+◌, ◌-◌, ◌<◌, ◌≤◌, ◌^◌, ◌++◌, ◌↔◌, IsTrue, length, take, drop, map, slice_index};
ghost use Rattle.std.specs.List.{All};
ghost use Rattle.std.specs.List.Sorted.{IsNonDecreasing};

use crate::block::LIMIT;

/// Whether an index lies in this block: from its start to before the next.
fn is_in(starts: &[usize], k: usize, i: usize) -> bool
    ensures { IsTrue result ↔ ((k < length starts.now) × (slice_index starts.now k ≤ i)
        × (k + 1 < length starts.now → i < slice_index starts.now (k + 1))) }
{
    k < starts.len() && starts[k] <= i && (k + 1 == starts.len() || i < starts[k + 1])
}

/// The block in which an index lies; the last one for an index past all of them.
pub(crate) fn block_at(starts: &[usize], i: usize) -> usize
    requires not_empty { 0 < length starts.now }
    requires from_0 { slice_index starts.now 0 ≡ 0 }
    requires rising { IsNonDecreasing starts.now }
    ensures block { result < length starts.now }
    ensures starts_before { slice_index starts.now result ≤ i }
    ensures ends_after { result + 1 < length starts.now → i < slice_index starts.now (result + 1) }
{
    // So it is where all blocks before it are full, as after appending alone.
    let full = i / LIMIT;
    if is_in(starts, full, i) {
        return full;
    }
    starts.partition_point(|start| *start <= i) - 1
}

/// Counts one element more before each block from this one on.
pub(crate) fn count_one(starts: &mut [usize], from: usize)
    requires within { from ≤ length starts.old }
    requires fits { All (λ start. start + 1 < 2 ^ 64) starts.old }
    ensures { starts.new ≡ take from starts.old ++ map (λ start. start + 1) (drop from starts.old) }
{
    for i in from..starts.len() {
        starts[i] += 1;
    }
}

/// Counts some elements fewer before each block, and none before one that starts among them.
pub(crate) fn count_fewer(starts: &mut [usize], fewer: usize)
    ensures { starts.new ≡ map (λ start. start - fewer) starts.old }
{
    for i in 0..starts.len() {
        starts[i] = starts[i].saturating_sub(fewer);
    }
}
