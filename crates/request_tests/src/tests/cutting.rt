//! Frames cut from a buffer under each allocation failing in turn: the buffer is as it was, and the frame
//! comes later.

use bytes::{Bytes, BytesMut};
use refusing_alloc::Refusing;
use request_frames::{FrameError, take_frame};
use std::alloc::Allocator;

/// More allocations than any run below asks for.
const MOST: u64 = 100;

/// Two frames behind their sizes, and two bytes of a third's size.
static STREAM: &[u8] = b"\0\0\0\x02ab\0\0\0\x01c\0\0";

/// What is left behind the first one, and behind both.
static LEFT: [&[u8]; 2] = [b"\0\0\0\x01c\0\0", b"\0\0"];

/// Takes a frame, again where memory lacked and the buffer is as it was.
fn take_later<A: Allocator + Copy>(
    buffer: &mut BytesMut<A>,
    before: &[u8],
) -> Result<Option<Bytes<A>>, FrameError> {
    match take_frame(buffer) {
        Err(FrameError::OutOfMemory) if buffer.as_slice() == before => take_frame(buffer),
        taken => taken,
    }
}

/// Whether this frame is taken, at once or later, and the rest is left.
fn is_taken<A: Allocator + Copy>(
    buffer: &mut BytesMut<A>,
    before: &[u8],
    frame: &[u8],
    rest: &[u8],
) -> bool {
    match take_later(buffer, before) {
        Ok(Some(taken)) => taken.as_slice() == frame && buffer.as_slice() == rest,
        _ => false,
    }
}

/// Whether both frames come in this memory, of which one allocation may fail, and no third.
fn both_come<A: Allocator + Copy>(heap: A) -> bool {
    let mut buffer = BytesMut::new(heap);
    let is_filled = buffer.extend_from_slice(STREAM).is_ok()
        || buffer.extend_from_slice(STREAM).is_ok();
    is_filled
        && is_taken(&mut buffer, STREAM, b"ab", LEFT[0])
        && is_taken(&mut buffer, LEFT[0], b"c", LEFT[1])
        && matches!(take_frame(&mut buffer), Ok(None))
}

#[test]
fn a_frame_comes_once_there_is_memory(rt: HostRuntime) {
    let mut asked = 0;
    for refused in 1..MOST {
        let heap = Refusing::new(rt.alloc(), refused);
        assert!(rt;
            both_come(&heap) && heap.is_within(STREAM.len()),
            "allocation {refused} fails"
        );
        asked = heap.calls();
        if asked < refused {
            break;
        }
    }
    // The first is for what comes in, the others are for frames.
    assert!(rt; 1 < asked && asked < MOST - 1);
}
