//! The law of an ApiVersions response.

ghost use Rattle.std.specs.Prelude.{◌≡◌, ℤ, List, ◌++◌, length};
ghost use Rattle.std.specs.List.{flat_map};
ghost use Rattle.frame_fields.specs.Fields.{encoded};
ghost use Rattle.responses.specs.declared.api_versions.range.VersionRange.{VersionRange};
ghost use Rattle.responses.specs.ApiVersions.{api_versions_response, api_versions_value, api_versions_head_bytes, version_range_bytes};

/// The parts of an ApiVersions response.
#[tactic(auto, using(crate::proofs::ApiVersionsParts::api_versions_parts))]
pub fn api_versions_parts()
    ensures { (code : ℤ) (ranges : List VersionRange)
        → encoded api_versions_response (api_versions_value code ranges)
        ≡ api_versions_head_bytes code (length ranges) ++ flat_map version_range_bytes ranges }
{}
