//! What comes before the batches of an image.

ghost use Rattle.std.specs.Prelude.{◌≡◌, IsTrue, IfOk, IfErr, OnOk, ◌↔◌};
ghost use Rattle.checksum.specs.Crc.{crc_of};
ghost use Rattle.copy_images.specs.Refusals.{HasSize, HasVersion, IsOwnCrc, IsLogStart, has_start, start_in, body_in, HasFront, Refuses};
ghost use Rattle.copy_images.specs.Judging.{covered, ranges_of};

use crate::error::ImageError;
use crate::layout::{
    BODY_AT, COUNT_SIZE, COUNTS_SIZE, CRC_SIZE, FIRST_BODY_AT, FIRST_VERSION, LEAST_SIZE, MARK,
    RANGE_SIZE, START_AT, VERSION, VERSION_AT,
};
use crate::ranges::RangeBytes;
use batch_codec::numbers::{be_i16_at, be_i32_at, be_i64_at, be_u32_at};
use cover_ranges::OFFSETS_END;

/// The parts of an image, borrowed from its bytes.
#[derive(Drop)]
pub(crate) struct ImageParts<'a> {
    /// The log start.
    pub start: i64,
    /// The ranges, in order.
    pub ranges: &'a [RangeBytes],
    /// How many batches should follow.
    pub count: i32,
    /// The bytes from the first batch to the crc.
    pub batches: &'a [u8],
}

/// Judges the size, the mark and the version.
pub(crate) fn check_head(bytes: &[u8]) -> Result<(), ImageError>
    ensures passes { OnOk result (HasVersion bytes.now) }
    ensures refuses { IfErr result (Refuses bytes.now) }
{
    if bytes.len() < LEAST_SIZE {
        return Err(ImageError::Short);
    }
    if be_u32_at(bytes, 0) != MARK {
        return Err(ImageError::BadMark);
    }
    let version = be_i16_at(bytes, VERSION_AT);
    if version != VERSION && version != FIRST_VERSION {
        return Err(ImageError::BadVersion);
    }
    Ok(())
}

/// The bytes that the crc of an image covers.
pub(crate) fn covered(bytes: &[u8]) -> &[u8]
    requires { HasSize bytes.now }
    ensures { result.now ≡ covered bytes.now }
{
    &bytes[..bytes.len() - CRC_SIZE]
}

/// Judges the crc. That of the bytes that it covers was computed.
pub(crate) fn check_crc(bytes: &[u8], computed: u32) -> Result<(), ImageError>
    requires version { HasVersion bytes.now }
    requires computed { computed ≡ crc_of (covered bytes.now) }
    ensures passes { OnOk result (IsOwnCrc bytes.now) }
    ensures refuses { IfErr result (Refuses bytes.now) }
{
    if be_u32_at(bytes, bytes.len() - CRC_SIZE) == computed {
        Ok(())
    } else {
        Err(ImageError::BadCrc)
    }
}

/// Whether an image has a log start: in version 0 it has none.
fn has_start(bytes: &[u8]) -> bool
    requires { HasSize bytes.now }
    ensures { result ≡ has_start bytes.now }
{
    be_i16_at(bytes, VERSION_AT) == VERSION
}

/// The log start of an image, which is 0 in version 0.
pub fn start_of(bytes: &[u8]) -> i64
    requires { HasSize bytes.now }
    ensures { result ≡ start_in bytes.now }
{
    if has_start(bytes) {
        be_i64_at(bytes, START_AT)
    } else {
        0
    }
}

/// What stands between the head of an image and its crc.
pub fn body_of(bytes: &[u8]) -> &[u8]
    requires { HasSize bytes.now }
    ensures { result.now ≡ body_in bytes.now }
{
    let body_at = if has_start(bytes) {
        BODY_AT
    } else {
        FIRST_BODY_AT
    };
    &bytes[body_at..bytes.len() - CRC_SIZE]
}

/// Whether a copy may start at an offset.
pub fn is_log_start(start: i64) -> bool
    ensures { IsTrue result ↔ IsLogStart start }
{
    0 <= start && start <= OFFSETS_END
}

/// Cuts an image into its parts. A fault of theirs is the first where the crc is right.
pub(crate) fn parts_of(bytes: &[u8]) -> Result<ImageParts<'_>, ImageError>
    requires { HasVersion bytes.now }
    ensures starts { OnOk result (IsLogStart (start_in bytes.now)) }
    ensures start { IfOk result (λ parts. parts.start ≡ start_in bytes.now) }
    ensures finds { IfOk result (λ parts.
        HasFront (body_in bytes.now) (ranges_of parts.ranges.now) parts.count parts.batches.now) }
    ensures refuses { IsOwnCrc bytes.now → IfErr result (Refuses bytes.now) }
{
    let start = start_of(bytes);
    if !is_log_start(start) {
        return Err(ImageError::BadCover);
    }
    let body = body_of(bytes);
    if body.len() < COUNT_SIZE {
        return Err(ImageError::Short);
    }
    let Ok(count) = usize::try_from(be_i32_at(body, 0)) else {
        return Err(ImageError::BadCover);
    };
    let ranges_size = RANGE_SIZE * count;
    if body.len() < COUNTS_SIZE + ranges_size {
        return Err(ImageError::Short);
    }
    let ranges_end = COUNT_SIZE + ranges_size;
    let (ranges, _) = body[COUNT_SIZE..ranges_end].as_chunks::<RANGE_SIZE>();
    Ok(ImageParts {
        start,
        ranges,
        count: be_i32_at(body, ranges_end),
        batches: &body[ranges_end + COUNT_SIZE..],
    })
}
