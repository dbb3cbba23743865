//! The cutting of a stream into frames, each behind its size.

ghost use Rattle.std.specs.Prelude.{◌≡◌, ◌⊎◌, ℕ, ◌+◌, ◌≤◌, List, length, take, drop, MatchOption, MatchResult, IfSome, IfNone, IfOk, IfErr, OnErr};
ghost use Rattle.frame_fields.specs.Fields.{size32, IsCut};
ghost use Rattle.frame_fields.specs.Frames.{frame_size, IsIncomplete, SizeFault, IsFirstFrame, IsTakeFault};
ghost use Rattle.frame_fields.specs.declared.error.FrameError.{FrameError};

use crate::error::FrameError;
use bytes::{Bytes, BytesMut};
use std::alloc::Allocator;

/// The most bytes that a frame may have, its size field not counted.
pub const MAX_FRAME: i32 = 8_388_608;

/// How many bytes a size field takes.
pub const SIZE_BYTES: usize = 4;

/// Takes the first complete frame, without its size field; `None` while it is incomplete. The bytes
/// of the frame aren't copied.
///
/// ```
/// while let Some(frame) = take_frame(&mut buffer)? {
///     answer(&frame)?;
/// }
/// ```
///
/// # Errors
///
/// `NegativeSize` and `TooLarge` as soon as the four bytes of the size are there; `OutOfMemory`
/// where a complete frame stands at the front. Every refusal leaves the buffer as it was.
pub fn take_frame<A: Allocator + Copy>(
    buffer: &mut BytesMut<A>,
) -> Result<Option<Bytes<A>>, FrameError>
    // A frame is the first one in the buffer, which keeps what follows it.
    ensures frame_is_the_first { IfOk result (λ answer. IfSome answer
        (λ frame. IsFirstFrame frame buffer.old.items buffer.new.items)) }
    // A complete frame is taken, unless there is no memory.
    ensures complete_frame_is_taken { (frame rest : List ℕ)
        → IsFirstFrame frame buffer.old.items rest
        → (result ≡ Ok (Some frame)) ⊎ (result ≡ Err FrameError.OutOfMemory) }
    // `None` is answered exactly while the first frame is incomplete, and the buffer stays.
    ensures none_is_incomplete { IfOk result (λ answer. IfNone answer
        (IsIncomplete buffer.old.items)) }
    ensures incomplete_is_none { IsIncomplete buffer.old.items → result ≡ Ok None }
    ensures none_keeps_the_buffer { IfOk result (λ answer. IfNone answer (buffer.new ≡ buffer.old)) }
    // A size that no frame may have is refused, and the buffer stays.
    ensures bad_size_is_refused { (e : FrameError) → SizeFault e buffer.old.items → result ≡ Err e }
    // These are all refusals: a size, or no memory for a complete frame.
    ensures refusal_has_its_cause { IfErr result (λ e. IsTakeFault e buffer.old.items) }
    ensures refusal_keeps_the_buffer { OnErr result (buffer.new ≡ buffer.old) }
{
    let Some(size) = first_size(buffer.as_slice())? else {
        return Ok(None);
    };
    match buffer.freeze_to(SIZE_BYTES + size) {
        Ok(mut frame) => {
            frame.advance(SIZE_BYTES);
            Ok(Some(frame))
        }
        Err(_) => Err(FrameError::OutOfMemory),
    }
}

/// The first complete frame where it stands, without its size field; `None` while it is incomplete. It
/// takes no memory.
///
/// ```
/// while let Some(frame) = first_frame(buffer.as_slice())? {
///     answer(frame)?;
///     buffer.advance(SIZE_BYTES + frame.len());
/// }
/// ```
///
/// # Errors
///
/// `NegativeSize` and `TooLarge` as soon as the four bytes of the size are there.
pub fn first_frame(bytes: &[u8]) -> Result<Option<&[u8]>, FrameError>
    ensures frame_is_the_first { IfOk result (λ found. MatchOption found (IsIncomplete bytes.now)
        (λ frame. IsFirstFrame frame.now bytes.now
        (drop (SIZE_BYTES + length frame.now) bytes.now))) }
    ensures frame_is_within { IfOk result (λ found. IfSome found
        (λ frame. SIZE_BYTES + length frame.now ≤ length bytes.now)) }
    ensures bad_size_is_refused { IfErr result (λ e. SizeFault e bytes.now) }
{
    let Some(size) = first_size(bytes)? else {
        return Ok(None);
    };
    Ok(Some(&bytes[SIZE_BYTES..SIZE_BYTES + size]))
}

/// The size of the first frame, where all of it is there.
#[tactic(auto, using(crate::proofs::FramesCut::frame_read))]
fn first_size(bytes: &[u8]) -> Result<Option<usize>, FrameError>
    ensures is_first { MatchResult result
        (λ found. MatchOption found (IsIncomplete bytes.now) (λ size. IsFirstFrame
        (drop SIZE_BYTES (take (SIZE_BYTES + size) bytes.now)) bytes.now
        (drop (SIZE_BYTES + size) bytes.now)))
        (λ e. SizeFault e bytes.now) }
    ensures is_there { IfOk result (λ found. IfSome found
        (λ size. SIZE_BYTES + size ≤ length bytes.now)) }
{
    let Some(size) = read_size(bytes) else {
        return Ok(None);
    };
    if size < 0 {
        return Err(FrameError::NegativeSize);
    }
    if size > MAX_FRAME {
        return Err(FrameError::TooLarge);
    }
    let size = size as usize;
    if bytes.len() - SIZE_BYTES < size {
        return Ok(None);
    }
    Ok(Some(size))
}

/// The number in the size field, where all of the field is there.
fn read_size(bytes: &[u8]) -> Option<i32>
    ensures { MatchOption result (IsCut size32 bytes.now) (λ size.
        (SIZE_BYTES ≤ length bytes.now) × (frame_size bytes.now ≡ size)) }
{
    let field = bytes.first_chunk::<SIZE_BYTES>()?;
    Some(i32::from_be_bytes(*field))
}
