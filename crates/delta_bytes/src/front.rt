//! The front of a delta: the mark, the version and the sender's log start; and the crc.

ghost use Rattle.std.specs.Prelude.{◌≡◌, OnOk, IfOk, IfErr};
ghost use Rattle.copy_images.specs.Refusals.{start_in};
ghost use Rattle.delta_bytes.specs.Fronts.{HasCrc, HasStart, FrontFault};

use crate::error::FrontError;
use crate::layout::{LEAST_SIZE, MARK};
use batch_codec::numbers::{be_i16_at, be_u32_at};
use checksum::crc32c;
use copy_images::front::{is_log_start, start_of};
use copy_images::layout::{CRC_SIZE, FIRST_VERSION, VERSION, VERSION_AT};

/// Judges the size, the mark, the version and the crc.
fn check_frame(bytes: &[u8]) -> Result<(), FrontError>
    ensures passes { OnOk result (HasCrc bytes.now) }
    ensures refuses { IfErr result (FrontFault bytes.now) }
{
    if bytes.len() < LEAST_SIZE {
        return Err(FrontError::Short);
    }
    if be_u32_at(bytes, 0) != MARK {
        return Err(FrontError::BadMark);
    }
    let version = be_i16_at(bytes, VERSION_AT);
    if version != VERSION && version != FIRST_VERSION {
        return Err(FrontError::BadVersion);
    }
    let end = bytes.len() - CRC_SIZE;
    if be_u32_at(bytes, end) != crc32c(&bytes[..end]) {
        return Err(FrontError::BadCrc);
    }
    Ok(())
}

/// The sender's log start, behind all that is judged before it.
pub(crate) fn start_at(bytes: &[u8]) -> Result<i64, FrontError>
    ensures passes { OnOk result (HasStart bytes.now) }
    ensures start { IfOk result (λ start. start ≡ start_in bytes.now) }
    ensures refuses { IfErr result (FrontFault bytes.now) }
{
    check_frame(bytes)?;
    let start = start_of(bytes);
    if !is_log_start(start) {
        return Err(FrontError::BadStart);
    }
    Ok(start)
}
