//! The responses to the requests of members, each appended by one call. The members that the leader
//! of a group is told of may be kept in any form, which implements `JoinedMembers`.

ghost use Rattle.std.specs.Prelude.{◌≡◌, ◌≤◌, length};
ghost use Rattle.member_frames.specs.MemberReplies.{throttle_bytes};

mod code;
mod join_group;
mod joining;
mod sync_group;

pub use code::{CODE_REPLY_BYTES, reply_with_code};
pub use join_group::{
    JOINED_HEAD_BYTES, JOINED_MEMBER_BYTES, JoinedHead, JoinedMember, REFUSED_JOIN_BYTES,
    put_joined_head, put_joined_member, refuse_join,
};
pub use joining::{JoinedMembers, MembersInARow, reply_to_join};
pub use sync_group::{SYNC_REPLY_BYTES, reply_to_sync};

/// The number of bytes of a throttle time.
pub const THROTTLE_TIME_BYTES: usize = 4;

/// So many bytes take the members of a response to a JoinGroup at most, or the part of one to a
/// SyncGroup, if these are to be read again.
pub const MAX_REPLY_BYTES: usize = 1_073_741_824;

/// What stands before the fields of a response: the throttle time, which is 0, or nothing.
pub fn throttle_time(throttled: bool) -> &'static [u8]
    ensures is_time { result.now ≡ throttle_bytes throttled }
    ensures within { length result.now ≤ THROTTLE_TIME_BYTES }
{
    if throttled { &[0; 4] } else { &[] }
}
