//! The sums that run before each block.

ghost use Rattle.std.specs.Prelude.{◌≡◌, ◌+◌, ◌-◌, ◌<◌, ◌≤◌, ◌^◌, ◌++◌, length, take, drop, map, slice_index};
ghost use Rattle.std.specs.List.{All};
ghost use Rattle.std.specs.List.Sorted.{IsNonDecreasing};

/// The last block that starts at a number or before it.
pub(crate) fn block_at(starts: &[usize], i: usize) -> usize
    requires not_empty { 0 < length starts.now }
    requires from_0 { slice_index starts.now 0 ≡ 0 }
    requires rising { IsNonDecreasing starts.now }
    ensures block { result < length starts.now }
    ensures starts_before { slice_index starts.now result ≤ i }
    ensures ends_after { result + 1 < length starts.now → i < slice_index starts.now (result + 1) }
{
    starts.partition_point(|start| *start <= i) - 1
}

/// From some block on, takes a part off each start, or all of it, and adds to what is left.
pub(crate) fn change_from(starts: &mut [usize], from: usize, less: usize, more: usize)
    requires within { from ≤ length starts.old }
    requires fits { All (λ start. (start - less) + more < 2 ^ 64) starts.old }
    ensures { starts.new
        ≡ take from starts.old ++ map (λ start. (start - less) + more) (drop from starts.old) }
{
    for i in from..starts.len() {
        starts[i] = starts[i].saturating_sub(less) + more;
    }
}
