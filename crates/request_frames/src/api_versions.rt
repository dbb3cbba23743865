//! ApiVersions, version 0: which requests a broker answers, and in which versions. Asked in any other
//! version, nothing behind the correlation id is read.

ghost use Rattle.frame_fields.specs.Reading.{Gives};
ghost use Rattle.request_frames.specs.declared.api.Api.{Api};
ghost use Rattle.request_frames.specs.Bodies.{read_body};
ghost use Rattle.request_frames.specs.Views.{request_body};

use crate::api::Api;
use crate::parsing::RequestBody;
use frame_fields::FieldFault;

/// An ApiVersions request.
#[derive(Clone, Copy)]
pub struct ApiVersionsRequest {
    /// The version in which it is asked: 0, or another one, which isn't answered in its own form.
    pub version: i16,
}

#[tactic(auto, unfolding(frame_fields::specs::Reading::read_fields))]
pub(crate) fn api_versions_at(bytes: &[u8]) -> Result<(RequestBody<'_>, &[u8]), FieldFault>
    ensures { Gives (λ x. (request_body x.0, x.1.now)) result
        (read_body Api.ApiVersions bytes.now) }
{
    let request = ApiVersionsRequest {
        version: Api::ApiVersions.version(),
    };
    Ok((RequestBody::ApiVersions(request), bytes))
}
