//! The response to Fetch, version 4: `fetch_head`; for each topic `begin_topic`; for each of its
//! partitions `fetched_head` and the records' bytes.

mod law;
mod partition;
mod response;

pub use law::fetch_parts;
pub use partition::{FETCHED_HEAD_BYTES, FetchedPartition, fetched_head};
pub use response::{FETCH_HEAD_BYTES, fetch_head};
