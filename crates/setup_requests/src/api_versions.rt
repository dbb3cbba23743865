//! ApiVersions: the requests that a broker answers, and in which versions.

ghost use Rattle.std.specs.Prelude.{◌≡◌, ◌++◌, map, OnOk, OnErr};
ghost use Rattle.std.specs.List.{flat_map};
ghost use Rattle.responses.specs.ApiVersions.{version_range_bytes};
ghost use Rattle.answering.specs.Writing.{Begins};
ghost use Rattle.setup_requests.specs.ApiVersions.{version_range, versions_code, api_versions_reply};

use answering::{Body, ErrorCode, respond_with};
use request_frames::{Api, ApiVersionsRequest, LISTED_API_COUNT};
use responses::api_versions::{
    VersionRange, api_versions_head, api_versions_parts, version_range_bytes,
};
use responses::append_fixed;
use std::alloc::{AllocError, Allocator};

/// In which versions a request is answered.
fn version_range(api: Api) -> VersionRange
    ensures { result ≡ version_range api }
{
    let version = api.version();
    VersionRange {
        key: api.key(),
        least: version,
        greatest: version,
    }
}

/// Appends what is said of requests.
fn put_apis<A: Allocator + Copy>(apis: &[Api], out: &mut Vec<u8, A>) -> Result<(), AllocError>
    ensures appends { OnOk result (out.new.items
        ≡ out.old.items ++ flat_map version_range_bytes (map version_range apis.now)) }
    ensures begins { OnErr result (Begins out.old.items out.new.items) }
{
    for api in apis {
        append_fixed(out, &version_range_bytes(version_range(*api)))?;
    }
    Ok(())
}

/// The answer to a question for the versions: its code, and what is always said.
#[derive(Clone, Copy)]
struct Versions {
    code: i16,
}

impl Body for Versions {
    ghost use Rattle.std.specs.Prelude.{◌++◌, length, None};
    ghost use Rattle.std.specs.List.{flat_map};
    ghost use Rattle.responses.specs.ApiVersions.{api_versions_head_bytes, version_range_bytes};
    ghost use Rattle.setup_requests.specs.ApiVersions.{listed_ranges};

    ghost bytes = { λ versions. api_versions_head_bytes versions.code (length listed_ranges)
        ++ flat_map version_range_bytes listed_ranges };

    ghost size = { λ versions. None };

    fn put<A: Allocator + Copy>(&self, out: &mut Vec<u8, A>) -> Result<(), AllocError> {
        append_fixed(out, &api_versions_head(self.code, LISTED_API_COUNT as u32))?;
        put_apis(&Api::listed(), out)
    }
}

/// The code that answers a question in this version.
fn versions_code(version: i16) -> i16
    ensures { result ≡ versions_code version }
{
    if version == Api::ApiVersions.version() {
        0
    } else {
        ErrorCode::UnsupportedVersion.number()
    }
}

/// Appends the response to an ApiVersions request. It changes nothing else.
///
/// # Errors
///
/// `AllocError` where there is no memory for the response; the output is then as before.
pub fn reply_to_api_versions<A: Allocator + Copy>(
    correlation: i32,
    request: &ApiVersionsRequest,
    out: &mut Vec<u8, A>,
) -> Result<(), AllocError>
    ensures replies { OnOk result (out.new.items ≡ out.old.items
        ++ api_versions_reply correlation request.now.version) }
    ensures unchanged_on_error { OnErr result (out.new.items ≡ out.old.items) }
{
    // Called for its contract alone: the parts make the response.
    api_versions_parts();
    let code = versions_code(request.version);
    respond_with(correlation, &Versions { code }, out)
}
