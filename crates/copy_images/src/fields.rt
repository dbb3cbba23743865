//! Fields that images have in common with other bytes about copies: counts, ranges, the crc at the end.

ghost use Rattle.std.specs.Prelude.{◌≡◌, ◌++◌, ◌≤◌, ◌<◌, pos, length, IfOk, OnOk, IfErr};
ghost use Rattle.std.specs.List.{flat_map};
ghost use Rattle.copy_images.specs.Images.{range_encoding, with_crc};

use crate::layout::MAX_COUNT;
use checksum::crc32c;
use std::alloc::{AllocError, Allocator};

/// A count as it stands in bytes, an int32.
///
/// # Errors
///
/// Out of memory: above `MAX_COUNT`, since no memory holds that many.
pub fn count_field(count: usize) -> Result<i32, AllocError>
    ensures same { IfOk result (λ field. field ≡ pos count) }
    ensures fits { OnOk result (count ≤ MAX_COUNT) }
    ensures too_many { IfErr result (λ _. MAX_COUNT < count) }
{
    i32::try_from(count).map_err(|_| AllocError)
}

/// Appends a range.
#[tactic(auto, unfolding(crate::specs::Images::range_encoding))]
fn put_range<A: Allocator + Copy>(
    out: &mut Vec<u8, A>,
    range: &(i64, i64),
) -> Result<(), AllocError>
    ensures { OnOk result (out.new.items ≡ out.old.items ++ range_encoding range.now) }
{
    out.extend_from_slice(&range.0.to_be_bytes())?;
    out.extend_from_slice(&range.1.to_be_bytes())
}

/// Appends ranges, each its first and its last offset.
///
/// # Errors
///
/// Out of memory. What was appended until then stays.
pub fn put_ranges<A: Allocator + Copy>(
    out: &mut Vec<u8, A>,
    ranges: &[(i64, i64)],
) -> Result<(), AllocError>
    ensures { OnOk result
        (out.new.items ≡ out.old.items ++ flat_map range_encoding ranges.now) }
{
    for range in ranges {
        put_range(out, range)?;
    }
    Ok(())
}

/// Appends the crc of what is there, its CRC-32C as a uint32.
///
/// # Errors
///
/// Out of memory. What was appended until then stays.
#[tactic(auto, unfolding(crate::specs::Images::with_crc))]
pub fn put_crc<A: Allocator + Copy>(out: &mut Vec<u8, A>) -> Result<(), AllocError>
    ensures { OnOk result (out.new.items ≡ with_crc out.old.items) }
{
    let crc = crc32c(out);
    out.extend_from_slice(&crc.to_be_bytes())
}
