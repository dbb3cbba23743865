//! The requests of members of consumer groups, JoinGroup, SyncGroup, Heartbeat and LeaveGroup, and
//! the responses to them, as bytes (Kafka's documentation, "Protocol Guide"). They have a reader of
//! their own: that of `request_frames` reads none of their frames. [`examples`] works some out.
//!
//! ```
//! let request = parse_member(frame)?;
//! match request.body {
//!     MemberBody::Heartbeat(beat) => {
//!         let code = heard_of(beat.group, beat.generation, beat.member);
//!         reply_with_code(request.api, request.correlation, code, &mut out)?;
//!     }
//!     ..
//! }
//! ```
#![tactic(auto)]

mod api;
pub mod examples;
mod heartbeat;
mod join_group;
mod laws;
mod leave_group;
mod parsing;
mod replies;
mod sync_group;
#[cfg(test)]
mod tests;
mod told;

pub use api::MemberApi;
pub use heartbeat::HeartbeatRequest;
pub use join_group::{JoinGroupRequest, Protocol};
pub use laws::{
    join_group_parts, one_member_outcome, one_reader, read_texts_are_short, replies_read_back,
};
pub use leave_group::LeaveGroupRequest;
pub use parsing::{MemberBody, MemberRequest, parse_member};
pub use replies::{
    CODE_REPLY_BYTES, JOINED_HEAD_BYTES, JOINED_MEMBER_BYTES, JoinedHead, JoinedMember,
    JoinedMembers, MAX_REPLY_BYTES, MembersInARow, REFUSED_JOIN_BYTES, SYNC_REPLY_BYTES,
    THROTTLE_TIME_BYTES, put_joined_head, put_joined_member, refuse_join, reply_to_join,
    reply_to_sync, reply_with_code, throttle_time,
};
pub use sync_group::{Part, SyncGroupRequest};
pub use told::{TOLD_COUNT, the_told_are_read, told_ranges};
