//! What clients ask before they produce and consume: ApiVersions, InitProducerId and FindCoordinator,
//! answered from what a broker holds. Each is a request of one entry or of none: what is replied to it is
//! defined in the file of `specs/` that bears the request's name.
//!
//! A reply is appended to an output that may hold others. Where there is no memory for it, the output is
//! as before, and nothing was done.
#![tactic(auto)]

mod api_versions;
mod find_coordinator;
mod init_producer_id;
mod laws;

pub use api_versions::reply_to_api_versions;
pub use find_coordinator::reply_to_find_coordinator;
pub use init_producer_id::reply_to_init_producer_id;
pub use laws::the_list_is_the_table;
