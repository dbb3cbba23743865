//! The lists of ranges of a delta, judged where they stand in its bytes.

ghost use Rattle.std.specs.Prelude.{◌≤◌, ℤ, pos, ◌≤ℤ◌, IfOk, IfErr};
ghost use Rattle.copy_images.specs.declared.layout.TheConstants.{COUNT_SIZE};
ghost use Rattle.copy_images.specs.Judging.{ranges_of};
ghost use Rattle.delta_bytes.specs.RangeLists.{IsRangeList, HasRanges, RangesFault};

use crate::error::RangesError;
use batch_codec::numbers::be_i32_at;
use copy_images::layout::{COUNT_SIZE, RANGE_SIZE};
use copy_images::ranges::{RangeBytes, is_cover};

/// A list of ranges, and what stands behind it, borrowed from the bytes of a delta.
#[derive(Drop)]
pub(crate) struct CutRanges<'a> {
    /// The ranges, in order.
    pub ranges: &'a [RangeBytes],
    /// The bytes behind them.
    pub rest: &'a [u8],
}

/// Cuts off the ranges in front, behind which at least so many bytes should follow.
fn cut_ranges(bytes: &[u8], behind: usize) -> Result<CutRanges<'_>, RangesError>
    requires { behind ≤ COUNT_SIZE }
    ensures cuts { IfOk result (λ cut.
        IsRangeList behind bytes.now (ranges_of cut.ranges.now) cut.rest.now) }
    ensures refuses { IfErr result (λ fault. (low : ℤ) → RangesFault low behind bytes.now fault) }
{
    if bytes.len() < COUNT_SIZE {
        return Err(RangesError::Short);
    }
    let Ok(count) = usize::try_from(be_i32_at(bytes, 0)) else {
        return Err(RangesError::BadCover);
    };
    let end = COUNT_SIZE + RANGE_SIZE * count;
    if bytes.len() < end + behind {
        return Err(RangesError::Short);
    }
    let (ranges, _) = bytes[COUNT_SIZE..end].as_chunks::<RANGE_SIZE>();
    Ok(CutRanges {
        ranges,
        rest: &bytes[end..],
    })
}

/// Cuts off the ranges in front, if they are maximal ones from `low` on.
pub(crate) fn ranges_at(bytes: &[u8], low: i64, behind: usize) -> Result<CutRanges<'_>, RangesError>
    requires low { pos 0 ≤ℤ low }
    requires behind { behind ≤ COUNT_SIZE }
    ensures cuts { IfOk result (λ cut.
        HasRanges low behind bytes.now (ranges_of cut.ranges.now) cut.rest.now) }
    ensures refuses { IfErr result (RangesFault low behind bytes.now) }
{
    let cut = cut_ranges(bytes, behind)?;
    if !is_cover(cut.ranges, low) {
        return Err(RangesError::BadCover);
    }
    Ok(cut)
}
