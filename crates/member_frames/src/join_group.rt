//! JoinGroup, versions 0 to 2: a consumer wants to be a member of a group.

mod protocol;
mod request;

pub use protocol::Protocol;
pub use request::JoinGroupRequest;
pub(crate) use request::{join_group_0_at, join_group_at};
