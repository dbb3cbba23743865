//! The response to a request of one entry, or to one without entries.

ghost use Rattle.std.specs.Prelude.{◌≡◌, ◌≤◌, ◌+◌, ◌++◌, ℕ, Some, length, IsOk, OnOk, OnErr};
ghost use Rattle.std.specs.Vec.{vec_len, vec_capacity};
ghost use Rattle.frame_fields.specs.Fields.{size32, be};
ghost use Rattle.frame_fields.specs.Frames.{framed};
ghost use Rattle.responses.specs.Responses.{response_head};
ghost use Rattle.answering.specs.Writing.{Begins};

use responses::{RESPONSE_HEAD_BYTES, begin_response, finish_response};
use std::alloc::{AllocError, Allocator};

/// What stands in a response behind the correlation id, written in any parts.
pub trait Body: Sized {
    ghost use Rattle.std.specs.Prelude.{◌≡◌, ◌≤◌, ◌+◌, ◌++◌, ℕ, List, Option, Some, IsOk, OnOk, OnErr};
    ghost use Rattle.std.specs.Vec.{vec_len, vec_capacity};
    ghost use Rattle.answering.specs.Writing.{Begins};

    /// Its bytes.
    ghost bytes: { Self → List ℕ };

    /// How many bytes of room suffice, where that is known.
    ghost size: { Self → Option ℕ };

    /// Appends the bytes.
    ///
    /// # Errors
    ///
    /// `AllocError` where there is no memory for them. What the output held still stands in front,
    /// and part of the bytes may stand behind it.
    fn put<A: Allocator + Copy>(&self, out: &mut Vec<u8, A>) -> Result<(), AllocError>
        ensures appends { OnOk result (out.new.items ≡ out.old.items ++ bytes self.now) }
        ensures begins { OnErr result (Begins out.old.items out.new.items) }
        ensures succeeds { (n : ℕ) → size self.now ≡ Some n
            → vec_len out.old + n ≤ vec_capacity out.old → IsOk result };
}

/// Appends the whole response behind its size, which is not set yet.
fn put_response<B: Body, A: Allocator + Copy>(
    correlation: i32,
    body: &B,
    out: &mut Vec<u8, A>,
) -> Result<(), AllocError>
    ensures appends { OnOk result (out.new.items
        ≡ out.old.items ++ response_head correlation ++ B.bytes body.now) }
    ensures begins { OnErr result (Begins out.old.items out.new.items) }
    ensures succeeds { (n : ℕ) → B.size body.now ≡ Some n
        → vec_len out.old + (RESPONSE_HEAD_BYTES + n) ≤ vec_capacity out.old → IsOk result }
{
    begin_response(out, correlation)?;
    body.put(out)
}

/// Appends a response with this body, behind the size and the correlation id. All or nothing. Where
/// the body's size is known and there is room for `RESPONSE_HEAD_BYTES` and the body, it is `Ok`.
///
/// # Errors
///
/// `AllocError` where there is no memory for the response; the output is then as before.
pub fn respond_with<B: Body, A: Allocator + Copy>(
    correlation: i32,
    body: &B,
    out: &mut Vec<u8, A>,
) -> Result<(), AllocError>
    ensures responds { OnOk result (out.new.items
        ≡ out.old.items ++ framed (be size32 correlation ++ B.bytes body.now)) }
    ensures unchanged_on_error { OnErr result (out.new.items ≡ out.old.items) }
    ensures succeeds { (n : ℕ) → B.size body.now ≡ Some n
        → vec_len out.old + (RESPONSE_HEAD_BYTES + n) ≤ vec_capacity out.old → IsOk result }
{
    let start = out.len();
    match put_response(correlation, body, out) {
        Ok(()) => {
            finish_response(out, start);
            Ok(())
        }
        Err(refused) => {
            out.truncate(start);
            Err(refused)
        }
    }
}

/// A body of three parts.
#[derive(Drop)]
struct ThreeParts<'b> {
    before: &'b [u8],
    middle: &'b [u8],
    after: &'b [u8],
}

impl<'b> Body for ThreeParts<'b> {
    ghost use Rattle.std.specs.Prelude.{◌++◌, ◌+◌, Some, length};

    ghost bytes = { λ p. p.before.now ++ p.middle.now ++ p.after.now };

    ghost size = { λ p. Some (length p.before.now + length p.middle.now + length p.after.now) };

    fn put<A: Allocator + Copy>(&self, out: &mut Vec<u8, A>) -> Result<(), AllocError> {
        out.extend_from_slice(self.before)?;
        out.extend_from_slice(self.middle)?;
        out.extend_from_slice(self.after)
    }
}

/// Appends a response whose fields are these bytes: `before`, `middle` and `after`, behind the size and
/// the correlation id. All or nothing. Where there is room for it, it is `Ok`: `RESPONSE_HEAD_BYTES`
/// and the bytes of the three.
///
/// # Errors
///
/// `AllocError` where there is no memory for the response; the output is then as before.
pub fn respond_once<'b, A: Allocator + Copy>(
    correlation: i32,
    before: &'b [u8],
    middle: &'b [u8],
    after: &'b [u8],
    out: &mut Vec<u8, A>,
) -> Result<(), AllocError>
    ensures responds { OnOk result (out.new.items ≡ out.old.items
        ++ framed (be size32 correlation ++ (before.now ++ middle.now ++ after.now))) }
    ensures unchanged_on_error { OnErr result (out.new.items ≡ out.old.items) }
    ensures succeeds { vec_len out.old
        + (RESPONSE_HEAD_BYTES + (length before.now + length middle.now + length after.now))
        ≤ vec_capacity out.old → IsOk result }
{
    let parts = ThreeParts {
        before,
        middle,
        after,
    };
    respond_with(correlation, &parts, out)
}
