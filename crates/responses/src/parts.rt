//! What all responses have: the size and the correlation id, topics, counts, and the limits of these.

ghost use Rattle.std.specs.Prelude.{◌≡◌, ◌≤◌, ◌+◌, ◌-◌, ◌++◌, pos, List, ℕ, ℤ, length, IsOk, OnOk, OnErr};
ghost use Rattle.std.specs.Vec.{vec_len, vec_capacity};
ghost use Rattle.frame_fields.specs.Fields.{size32, be};
ghost use Rattle.frame_fields.specs.Frames.{framed};
ghost use Rattle.responses.specs.Responses.{response_head, count_bytes, topic_head};

use byteorder::{BigEndian, ByteOrder};
use std::alloc::{AllocError, Allocator};

/// The number of bytes of the size and the correlation id.
pub const RESPONSE_HEAD_BYTES: usize = 8;

/// The number of bytes of a count.
pub const COUNT_BYTES: usize = 4;

/// The number of bytes before a topic's partitions, but for its name.
pub const TOPIC_HEAD_BYTES: usize = 6;

/// The greatest count, and the most bytes of a partition's records: what an INT32 holds.
pub const MAX_COUNT: u32 = 2_147_483_647;

/// The most bytes that a name or another STRING can have.
pub const MAX_STRING_BYTES: usize = 32_767;

/// The most bytes that can stand behind a response's size.
pub const MAX_BODY_BYTES: usize = 2_147_483_647;

/// Appends a part of fixed size.
///
/// # Errors
///
/// `AllocError` where the allocation fails; then the output is as before.
pub fn append_fixed<const N: usize, A: Allocator + Copy>(
    out: &mut Vec<u8, A>,
    part: &[u8; N],
) -> Result<(), AllocError>
    ensures appends { OnOk result (out.new.items ≡ out.old.items ++ part.now) }
    ensures unchanged_on_error { OnErr result (out.new.items ≡ out.old.items) }
    ensures len { OnOk result (vec_len out.new ≡ vec_len out.old + N) }
    ensures succeeds { vec_len out.old + N ≤ vec_capacity out.old → IsOk result }
    ensures keeps_capacity { vec_capacity out.old ≤ vec_capacity out.new }
{
    out.extend_from_slice(part)
}

/// Appends bytes, a name and more bytes, all or nothing.
pub(crate) fn append_around<A: Allocator + Copy>(
    out: &mut Vec<u8, A>,
    before: &[u8],
    name: &[u8],
    after: &[u8],
) -> Result<(), AllocError>
    requires before { length before.now ≤ 64 }
    requires after { length after.now ≤ 64 }
    ensures appends { OnOk result
        (out.new.items ≡ out.old.items ++ (before.now ++ (name.now ++ after.now))) }
    ensures unchanged_on_error { OnErr result (out.new.items ≡ out.old.items) }
    ensures len { OnOk result
        (vec_len out.new ≡ vec_len out.old + (length before.now + length name.now + length after.now)) }
    ensures succeeds { vec_len out.old + (length before.now + length name.now + length after.now)
        ≤ vec_capacity out.old → IsOk result }
    ensures keeps_capacity { vec_capacity out.old ≤ vec_capacity out.new }
{
    out.reserve(before.len() + name.len() + after.len())?;
    out.extend_from_slice(before)?;
    out.extend_from_slice(name)?;
    out.extend_from_slice(after)
}

#[tactic(auto, unfolding(crate::specs::Responses::response_head))]
fn response_head_bytes(correlation: i32) -> [u8; RESPONSE_HEAD_BYTES]
    ensures { result ≡ response_head correlation }
{
    let mut bytes = [0; RESPONSE_HEAD_BYTES];
    BigEndian::write_i32(&mut bytes[4..8], correlation);
    bytes
}

/// Begins a response: a size of 0, which `finish_response` sets, and the correlation id.
///
/// # Errors
///
/// `AllocError` where the allocation fails; then the output is as before.
pub fn begin_response<A: Allocator + Copy>(
    out: &mut Vec<u8, A>,
    correlation: i32,
) -> Result<(), AllocError>
    ensures appends { OnOk result (out.new.items ≡ out.old.items ++ response_head correlation) }
    ensures unchanged_on_error { OnErr result (out.new.items ≡ out.old.items) }
    ensures len { OnOk result (vec_len out.new ≡ vec_len out.old + RESPONSE_HEAD_BYTES) }
    ensures succeeds { vec_len out.old + RESPONSE_HEAD_BYTES ≤ vec_capacity out.old → IsOk result }
    ensures keeps_capacity { vec_capacity out.old ≤ vec_capacity out.new }
{
    append_fixed(out, &response_head_bytes(correlation))
}

/// The bytes of a count, as it stands before topics.
#[tactic(auto, unfolding(frame_fields::specs::Fields::encoded))]
pub fn count_bytes(count: u32) -> [u8; COUNT_BYTES]
    ensures { result ≡ count_bytes count }
{
    count.to_be_bytes()
}

/// Sets the INT32 at an offset.
fn set_int32(bytes: &mut [u8], at: usize, value: u32)
    requires { at + 4 ≤ length bytes.old }
    ensures { (front field rest : List ℕ) → bytes.old ≡ front ++ (field ++ rest) → length front ≡ at
        → length field ≡ 4 → bytes.new ≡ front ++ (be size32 (pos value) ++ rest) }
{
    BigEndian::write_u32(&mut bytes[at..at + 4], value);
}

/// Sets the size at an offset to the number of bytes behind it.
fn set_size(bytes: &mut [u8], start: usize)
    requires { start + 4 ≤ length bytes.old }
    ensures { (front size body : List ℕ) → bytes.old ≡ front ++ (size ++ body)
        → length front ≡ start → length size ≡ 4 → bytes.new ≡ front ++ framed body }
{
    let size = (bytes.len() - start - 4).to_be_bytes();
    bytes[start..start + 4].copy_from_slice(&size[4..8]);
}

/// Finishes the response that begins at byte `start` of the output, by setting its size to the
/// number of bytes behind the size. Of more than `MAX_BODY_BYTES` the size can't be read. The four
/// bytes of the size must be there, as they are once `begin_response` has answered `Ok` at `start`.
pub fn finish_response<A: Allocator + Copy>(out: &mut Vec<u8, A>, start: usize)
    requires { start + 4 ≤ vec_len out.old }
    ensures frames { (front size body : List ℕ) → out.old.items ≡ front ++ (size ++ body)
        → length front ≡ start → length size ≡ 4 → out.new.items ≡ front ++ framed body }
    // The same of a response whose fields follow what `begin_response` wrote.
    ensures finishes { (front fields : List ℕ) (correlation : ℤ)
        → out.old.items ≡ front ++ response_head correlation ++ fields → length front ≡ start
        → out.new.items ≡ front ++ framed (be size32 correlation ++ fields) }
    ensures keeps_len { vec_len out.new ≡ vec_len out.old }
    ensures keeps_capacity { vec_capacity out.new ≡ vec_capacity out.old }
{
    set_size(out, start);
}

/// Sets the count at byte `at` of the output, where one was written before it was known. Its four
/// bytes must be there.
pub fn set_count<A: Allocator + Copy>(out: &mut Vec<u8, A>, at: usize, count: u32)
    requires { at + 4 ≤ vec_len out.old }
    ensures sets { (front field rest : List ℕ) → out.old.items ≡ front ++ (field ++ rest)
        → length front ≡ at → length field ≡ 4
        → out.new.items ≡ front ++ (be size32 (pos count) ++ rest) }
    ensures keeps_len { vec_len out.new ≡ vec_len out.old }
    ensures keeps_capacity { vec_capacity out.new ≡ vec_capacity out.old }
{
    set_int32(out, at, count);
}

/// Begins a topic: its name and the count of its partitions. A Metadata response has topics of its
/// own.
///
/// # Errors
///
/// `AllocError` where the allocation fails; then the output is as before.
#[tactic(auto, unfolding(frame_fields::specs::Fields::encoded))]
pub fn begin_topic<A: Allocator + Copy>(
    out: &mut Vec<u8, A>,
    name: &[u8],
    partition_count: u32,
) -> Result<(), AllocError>
    ensures appends { OnOk result
        (out.new.items ≡ out.old.items ++ topic_head name.now partition_count) }
    ensures unchanged_on_error { OnErr result (out.new.items ≡ out.old.items) }
    ensures len { OnOk result
        (vec_len out.new ≡ vec_len out.old + (TOPIC_HEAD_BYTES + length name.now)) }
    ensures succeeds { vec_len out.old + (TOPIC_HEAD_BYTES + length name.now) ≤ vec_capacity out.old
        → IsOk result }
    ensures keeps_capacity { vec_capacity out.old ≤ vec_capacity out.new }
{
    let length = name.len().to_be_bytes();
    append_around(out, &length[6..8], name, &count_bytes(partition_count))
}
