//! Readers of fields at the front of a frame's bytes. Each answers the value and the bytes after it.

ghost use Rattle.std.specs.Option.{option_map};
ghost use Rattle.frame_fields.specs.Fields.{size16, size32, size64, number, sized, sized_or_null};
ghost use Rattle.frame_fields.specs.Reading.{Gives, read_text, read_text_or_null, read_field};

use crate::error::FieldFault;

/// The INT16 at the front.
///
/// # Errors
///
/// `ShortBody` where the bytes end before the field does.
#[inline]
#[tactic(auto, unfolding(crate::specs::Reading::read_field, crate::specs::Reading::read_number))]
pub fn int16(bytes: &[u8]) -> Result<(i16, &[u8]), FieldFault>
    ensures { Gives (λ x. (x.0, x.1.now)) result (read_field (number size16) bytes.now) }
{
    match bytes.split_first_chunk::<2>() {
        Some((first, rest)) => Ok((i16::from_be_bytes(*first), rest)),
        None => Err(FieldFault::ShortBody),
    }
}

/// The INT32 at the front.
///
/// # Errors
///
/// `ShortBody` where the bytes end before the field does.
#[inline]
#[tactic(auto, unfolding(crate::specs::Reading::read_field, crate::specs::Reading::read_number))]
pub fn int32(bytes: &[u8]) -> Result<(i32, &[u8]), FieldFault>
    ensures { Gives (λ x. (x.0, x.1.now)) result (read_field (number size32) bytes.now) }
{
    match bytes.split_first_chunk::<4>() {
        Some((first, rest)) => Ok((i32::from_be_bytes(*first), rest)),
        None => Err(FieldFault::ShortBody),
    }
}

/// The INT64 at the front.
///
/// # Errors
///
/// `ShortBody` where the bytes end before the field does.
#[inline]
#[tactic(auto, unfolding(crate::specs::Reading::read_field, crate::specs::Reading::read_number))]
pub fn int64(bytes: &[u8]) -> Result<(i64, &[u8]), FieldFault>
    ensures { Gives (λ x. (x.0, x.1.now)) result (read_field (number size64) bytes.now) }
{
    match bytes.split_first_chunk::<8>() {
        Some((first, rest)) => Ok((i64::from_be_bytes(*first), rest)),
        None => Err(FieldFault::ShortBody),
    }
}

/// That many bytes, and those after them.
#[inline]
fn text(len: i32, bytes: &[u8]) -> Result<(&[u8], &[u8]), FieldFault>
    ensures { Gives (λ x. (x.0.now, x.1.now)) result (read_text len bytes.now) }
{
    let len = usize::try_from(len).map_err(|_| FieldFault::Malformed)?;
    bytes.split_at_checked(len).ok_or(FieldFault::ShortBody)
}

/// The STRING at the front: bytes behind a length of 16 bits.
///
/// # Errors
///
/// `ShortBody` where the bytes end before the field does, `Malformed` where the length is
/// negative.
#[inline]
#[tactic(auto, unfolding(crate::specs::Reading::read_field))]
pub fn string(bytes: &[u8]) -> Result<(&[u8], &[u8]), FieldFault>
    ensures { Gives (λ x. (x.0.now, x.1.now)) result (read_field (sized size16) bytes.now) }
{
    let (len, rest) = int16(bytes)?;
    text(i32::from(len), rest)
}

/// The NULLABLE_STRING at the front: bytes behind a length of 16 bits, or `None` for null, at length
/// -1.
///
/// # Errors
///
/// `ShortBody` where the bytes end before the field does, `Malformed` where the length is below
/// -1.
#[inline]
#[tactic(auto, unfolding(crate::specs::Reading::read_field))]
pub fn nullable_string(bytes: &[u8]) -> Result<(Option<&[u8]>, &[u8]), FieldFault>
    ensures { Gives (λ x. (option_map (λ text. text.now) x.0, x.1.now)) result
        (read_field (sized_or_null size16) bytes.now) }
{
    let (len, rest) = int16(bytes)?;
    nullable_text(i32::from(len), rest)
}

/// The BYTES at the front: bytes behind a length of 32 bits.
///
/// # Errors
///
/// `ShortBody` where the bytes end before the field does, `Malformed` where the length is
/// negative.
#[inline]
#[tactic(auto, unfolding(crate::specs::Reading::read_field))]
pub fn long_bytes(bytes: &[u8]) -> Result<(&[u8], &[u8]), FieldFault>
    ensures { Gives (λ x. (x.0.now, x.1.now)) result (read_field (sized size32) bytes.now) }
{
    let (len, rest) = int32(bytes)?;
    text(len, rest)
}

/// The NULLABLE_BYTES at the front: bytes behind a length of 32 bits, or `None` for null, at length
/// -1.
///
/// # Errors
///
/// `ShortBody` where the bytes end before the field does, `Malformed` where the length is below
/// -1.
#[inline]
#[tactic(auto, unfolding(crate::specs::Reading::read_field))]
pub fn nullable_bytes(bytes: &[u8]) -> Result<(Option<&[u8]>, &[u8]), FieldFault>
    ensures { Gives (λ x. (option_map (λ text. text.now) x.0, x.1.now)) result
        (read_field (sized_or_null size32) bytes.now) }
{
    let (len, rest) = int32(bytes)?;
    nullable_text(len, rest)
}

/// That many bytes, or null at -1, and those after them.
#[inline]
fn nullable_text(len: i32, bytes: &[u8]) -> Result<(Option<&[u8]>, &[u8]), FieldFault>
    ensures { Gives (λ x. (option_map (λ text. text.now) x.0, x.1.now)) result
        (read_text_or_null len bytes.now) }
{
    if len == -1 {
        return Ok((None, bytes));
    }
    let (found, rest) = text(len, bytes)?;
    Ok((Some(found), rest))
}
