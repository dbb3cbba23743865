//! The response to ApiVersions, version 0: `api_versions_head`, and the requests, each
//! `version_range_bytes`.

mod law;
mod range;
mod response;

pub use law::api_versions_parts;
pub use range::{VERSION_RANGE_BYTES, VersionRange, version_range_bytes};
pub use response::{API_VERSIONS_HEAD_BYTES, api_versions_head};
