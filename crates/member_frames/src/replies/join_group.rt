//! The response to JoinGroup.

ghost use Rattle.std.specs.Prelude.{◌≡◌, ◌≤◌, ◌+◌, ◌++◌, length, IsOk, OnOk, OnErr};
ghost use Rattle.std.specs.Vec.{vec_len, vec_capacity};
ghost use Rattle.frame_fields.specs.Fields.{encoded, end, field};
ghost use Rattle.frame_fields.specs.Types.{int16, int32, string, bytes, ◌⨾◌};
ghost use Rattle.answering.specs.Writing.{Begins};
ghost use Rattle.member_frames.specs.MemberReplies.{member_response, join_group_response, join_group_value, refused_head, refused_join, joined_head_bytes, joined_member_bytes};
ghost use Rattle.member_frames.specs.ReplyViews.{joined_head, joined_member};

use crate::api::MemberApi;
use crate::replies::throttle_time;
use answering::respond_once;
use byteorder::{BigEndian, ByteOrder};
use responses::{append_fixed, count_bytes};
use std::alloc::{AllocError, Allocator};

/// The number of bytes of an error code and a generation.
const CODE_AND_GENERATION_BYTES: usize = 6;

/// The number of bytes before the members, but for the three texts.
pub const JOINED_HEAD_BYTES: usize = 16;

/// The number of bytes of a member, but for its id and its metadata.
pub const JOINED_MEMBER_BYTES: usize = 6;

/// The most bytes of a refusal: size, correlation id, throttle time, and the fields of which all
/// texts are empty.
pub const REFUSED_JOIN_BYTES: usize = 28;

/// What stands before the members of a response to a JoinGroup.
#[derive(Clone, Copy)]
pub struct JoinedHead<'a> {
    /// The error code, 0 for none.
    pub code: i16,
    /// The generation, -1 where there is an error.
    pub generation: i32,
    /// The name of the protocol that the group follows.
    pub protocol: &'a [u8],
    /// The id of the member that leads.
    pub leader: &'a [u8],
    /// The id of the member that is told.
    pub member: &'a [u8],
}

/// A member, as its leader is told of it.
#[derive(Clone, Copy)]
pub struct JoinedMember<'a> {
    /// Its id.
    pub id: &'a [u8],
    /// Its metadata of the protocol that the group follows.
    pub metadata: &'a [u8],
}

/// The bytes of an error code and a generation.
#[tactic(auto, unfolding(frame_fields::specs::Fields::encoded))]
fn code_and_generation(code: i16, generation: i32) -> [u8; CODE_AND_GENERATION_BYTES]
    ensures { result ≡ encoded (int16 ⨾ int32 ⨾ end) (code, (generation, tt)) }
{
    let mut bytes = [0; CODE_AND_GENERATION_BYTES];
    BigEndian::write_i16(&mut bytes[0..2], code);
    BigEndian::write_i32(&mut bytes[2..6], generation);
    bytes
}

/// Appends a STRING. Of more than `MAX_STRING_BYTES` bytes it can't be read again.
fn put_text<A: Allocator + Copy>(text: &[u8], out: &mut Vec<u8, A>) -> Result<(), AllocError>
    ensures appends { OnOk result (out.new.items ≡ out.old.items ++ field string text.now) }
    ensures begins { OnErr result (Begins out.old.items out.new.items) }
    ensures len { OnOk result (vec_len out.new ≡ vec_len out.old + (2 + length text.now)) }
    ensures succeeds { vec_len out.old + (2 + length text.now) ≤ vec_capacity out.old
        → IsOk result }
    ensures keeps_capacity { vec_capacity out.old ≤ vec_capacity out.new }
{
    let length = text.len().to_be_bytes();
    out.extend_from_slice(&length[6..8])?;
    out.extend_from_slice(text)
}

/// Appends BYTES. Of more than `MAX_COUNT` they can't be read again.
fn put_data<A: Allocator + Copy>(content: &[u8], out: &mut Vec<u8, A>) -> Result<(), AllocError>
    ensures appends { OnOk result (out.new.items ≡ out.old.items ++ field bytes content.now) }
    ensures begins { OnErr result (Begins out.old.items out.new.items) }
    ensures len { OnOk result (vec_len out.new ≡ vec_len out.old + (4 + length content.now)) }
    ensures succeeds { vec_len out.old + (4 + length content.now) ≤ vec_capacity out.old
        → IsOk result }
    ensures keeps_capacity { vec_capacity out.old ≤ vec_capacity out.new }
{
    let length = content.len().to_be_bytes();
    out.extend_from_slice(&length[4..8])?;
    out.extend_from_slice(content)
}

/// Appends what stands before the members of a response to a JoinGroup, and the count of these.
///
/// # Errors
///
/// `AllocError` where the allocation fails. What the output held still stands in front, and part of
/// the bytes may stand behind it.
pub fn put_joined_head<A: Allocator + Copy>(
    head: JoinedHead<'_>,
    member_count: u32,
    out: &mut Vec<u8, A>,
) -> Result<(), AllocError>
    ensures appends { OnOk result (out.new.items
        ≡ out.old.items ++ joined_head_bytes (joined_head head.entry) member_count) }
    ensures begins { OnErr result (Begins out.old.items out.new.items) }
    ensures len { OnOk result (vec_len out.new
        ≡ vec_len out.old + (JOINED_HEAD_BYTES + (length head.entry.protocol.now
        + length head.entry.leader.now + length head.entry.member.now))) }
    ensures succeeds { vec_len out.old + (JOINED_HEAD_BYTES + (length head.entry.protocol.now
        + length head.entry.leader.now + length head.entry.member.now))
        ≤ vec_capacity out.old → IsOk result }
    ensures keeps_capacity { vec_capacity out.old ≤ vec_capacity out.new }
{
    append_fixed(out, &code_and_generation(head.code, head.generation))?;
    put_text(head.protocol, out)?;
    put_text(head.leader, out)?;
    put_text(head.member, out)?;
    append_fixed(out, &count_bytes(member_count))
}

/// Appends a member of a response to a JoinGroup.
///
/// # Errors
///
/// `AllocError` where the allocation fails. What the output held still stands in front, and part of
/// the bytes may stand behind it.
pub fn put_joined_member<A: Allocator + Copy>(
    member: JoinedMember<'_>,
    out: &mut Vec<u8, A>,
) -> Result<(), AllocError>
    ensures appends { OnOk result (out.new.items
        ≡ out.old.items ++ joined_member_bytes (joined_member member.entry)) }
    ensures begins { OnErr result (Begins out.old.items out.new.items) }
    ensures len { OnOk result (vec_len out.new
        ≡ vec_len out.old + (JOINED_MEMBER_BYTES
        + (length member.entry.id.now + length member.entry.metadata.now))) }
    ensures succeeds { vec_len out.old + (JOINED_MEMBER_BYTES
        + (length member.entry.id.now + length member.entry.metadata.now))
        ≤ vec_capacity out.old → IsOk result }
    ensures keeps_capacity { vec_capacity out.old ≤ vec_capacity out.new }
{
    put_text(member.id, out)?;
    put_data(member.metadata, out)
}

/// The bytes of a refusal: the error code, the generation -1, three empty texts, and no members.
#[tactic(auto, unfolding(frame_fields::specs::Fields::encoded))]
fn refused_join_bytes(code: i16) -> [u8; JOINED_HEAD_BYTES]
    ensures { result ≡ joined_head_bytes (refused_head code) 0 }
{
    let mut bytes = [0; JOINED_HEAD_BYTES];
    BigEndian::write_i16(&mut bytes[0..2], code);
    BigEndian::write_i32(&mut bytes[2..6], -1);
    bytes
}

/// Appends the response to a JoinGroup that is refused: beside the error code the generation is -1,
/// and all else is empty.
///
/// # Errors
///
/// `AllocError` where there is no memory for the response; the output is then as before.
pub fn refuse_join<A: Allocator + Copy>(
    api: MemberApi,
    correlation: i32,
    code: i16,
    out: &mut Vec<u8, A>,
) -> Result<(), AllocError>
    ensures replies { OnOk result (out.new.items
        ≡ out.old.items ++ member_response api correlation join_group_response
        (join_group_value (refused_join code))) }
    ensures unchanged_on_error { OnErr result (out.new.items ≡ out.old.items) }
    ensures succeeds { vec_len out.old + REFUSED_JOIN_BYTES ≤ vec_capacity out.old → IsOk result }
{
    let before = throttle_time(api.is_throttled());
    respond_once(correlation, before, &refused_join_bytes(code), &[], out)
}
