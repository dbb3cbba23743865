//! The whole response to a JoinGroup that is no refusal, whatever form its members are kept in.

ghost use Rattle.std.specs.Prelude.{◌≡◌, ◌++◌, map, OnOk, OnErr};
ghost use Rattle.std.specs.List.{flat_map};
ghost use Rattle.answering.specs.Writing.{Begins};
ghost use Rattle.member_frames.specs.MemberReplies.{member_response, join_group_response, join_group_value, joined_member_bytes};
ghost use Rattle.member_frames.specs.ReplyViews.{joined_head, joined_member};

use crate::api::MemberApi;
use crate::laws::join_group_parts;
use crate::replies::{JoinedHead, JoinedMember, put_joined_head, put_joined_member, throttle_time};
use answering::{Body, respond_with};
use std::alloc::{AllocError, Allocator};

/// The members that a leader is told of, kept in any form.
pub trait JoinedMembers: Sized {
    ghost use Rattle.std.specs.Prelude.{◌≡◌, ◌++◌, List, length, OnOk, OnErr};
    ghost use Rattle.std.specs.List.{flat_map};
    ghost use Rattle.answering.specs.Writing.{Begins};
    ghost use Rattle.member_frames.specs.MemberReplies.{JoinedMemberValue, joined_member_bytes};

    /// Who they are, in order.
    ghost members: { Self → List JoinedMemberValue };

    /// How many they are.
    fn count(&self) -> usize
        ensures { result ≡ length (members self.now) };

    /// Appends each of them, as `put_joined_member` does.
    ///
    /// # Errors
    ///
    /// `AllocError` where the allocation fails. What the output held still stands in front, and
    /// part of the bytes may stand behind it.
    fn put_all<A: Allocator + Copy>(&self, out: &mut Vec<u8, A>) -> Result<(), AllocError>
        ensures appends { OnOk result
            (out.new.items ≡ out.old.items ++ flat_map joined_member_bytes (members self.now)) }
        ensures begins { OnErr result (Begins out.old.items out.new.items) };
}

/// Members in a row; none, where it isn't the leader that is told.
#[derive(Clone, Copy)]
pub struct MembersInARow<'a> {
    /// The members.
    pub members: &'a [JoinedMember<'a>],
}

/// Appends members.
fn put_members<A: Allocator + Copy>(
    members: &[JoinedMember<'_>],
    out: &mut Vec<u8, A>,
) -> Result<(), AllocError>
    ensures appends { OnOk result (out.new.items
        ≡ out.old.items ++ flat_map joined_member_bytes (map joined_member members.now)) }
    ensures begins { OnErr result (Begins out.old.items out.new.items) }
{
    for member in members {
        put_joined_member(*member, out)?;
    }
    Ok(())
}

impl<'a> JoinedMembers for MembersInARow<'a> {
    ghost use Rattle.std.specs.Prelude.{map};
    ghost use Rattle.member_frames.specs.ReplyViews.{joined_member};

    ghost members = { λ row. map joined_member row.members.now };

    fn count(&self) -> usize {
        self.members.len()
    }

    fn put_all<A: Allocator + Copy>(&self, out: &mut Vec<u8, A>) -> Result<(), AllocError> {
        put_members(self.members, out)
    }
}

/// What stands behind the correlation id.
#[derive(Drop)]
struct Joined<'j, M> {
    throttled: bool,
    head: JoinedHead<'j>,
    members: &'j M,
}

impl<'j, M: JoinedMembers> Body for Joined<'j, M> {
    ghost use Rattle.std.specs.Prelude.{◌++◌, length, None};
    ghost use Rattle.std.specs.List.{flat_map};
    ghost use Rattle.member_frames.specs.MemberReplies.{throttle_bytes, joined_head_bytes, joined_member_bytes};
    ghost use Rattle.member_frames.specs.ReplyViews.{joined_head};

    ghost bytes = { λ joined. throttle_bytes joined.throttled
        ++ (joined_head_bytes (joined_head joined.head) (length (M.members joined.members.now))
        ++ flat_map joined_member_bytes (M.members joined.members.now)) };

    ghost size = { λ joined. None };

    fn put<A: Allocator + Copy>(&self, out: &mut Vec<u8, A>) -> Result<(), AllocError> {
        let count = u32::try_from(self.members.count()).map_err(|_| AllocError)?;
        out.extend_from_slice(throttle_time(self.throttled))?;
        put_joined_head(self.head, count, out)?;
        self.members.put_all(out)
    }
}

/// Appends the response to a JoinGroup that tells of a generation, with the members that its leader
/// is told of.
///
/// # Errors
///
/// `AllocError` where there is no memory for the response, or more members than a count holds; the
/// output is then as before.
pub fn reply_to_join<M: JoinedMembers, A: Allocator + Copy>(
    api: MemberApi,
    correlation: i32,
    head: JoinedHead<'_>,
    members: &M,
    out: &mut Vec<u8, A>,
) -> Result<(), AllocError>
    ensures replies { OnOk result (out.new.items
        ≡ out.old.items ++ member_response api correlation join_group_response
        (join_group_value (record {
          head = joined_head head.entry;
          members = M.members members.now;
        }))) }
    ensures unchanged_on_error { OnErr result (out.new.items ≡ out.old.items) }
{
    // A law for the proof: the parts are the whole.
    join_group_parts();
    let throttled = api.is_throttled();
    let joined = Joined {
        throttled,
        head,
        members,
    };
    respond_with(correlation, &joined, out)
}
