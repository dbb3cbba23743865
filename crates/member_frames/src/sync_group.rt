//! SyncGroup, versions 0 and 1: a member wants its part, and the leader has the parts of all.

mod part;
mod request;

pub use part::Part;
pub use request::SyncGroupRequest;
pub(crate) use request::sync_group_at;
