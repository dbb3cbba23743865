//! The requests that clients are told of, where members of groups have a coordinator.

ghost use Rattle.std.specs.Prelude.{◌≡◌, ◌↔◌, ◌<ℤ◌, ℤ, true};
ghost use Rattle.request_frames.specs.Apis.{first_own_key};
ghost use Rattle.member_frames.specs.ToldRequests.{told_ranges, in_one, from_to, tells, RisesByKey, HasReadFrame};

use crate::api::MemberApi;
use request_frames::Api;
use responses::api_versions::VersionRange;

/// How many requests a client is told of.
pub const TOLD_COUNT: usize = 13;

/// A request of the broker's own, which is read in one version.
fn in_one(api: Api) -> VersionRange
    ensures { result ≡ in_one api }
{
    let version = api.version();
    VersionRange {
        key: api.key(),
        least: version,
        greatest: version,
    }
}

/// A request of members, from its least version to its greatest.
fn from_to(least: MemberApi, greatest: MemberApi) -> VersionRange
    ensures { result ≡ from_to least greatest }
{
    VersionRange {
        key: least.key(),
        least: least.version(),
        greatest: greatest.version(),
    }
}

/// The requests that a client is told of, with their versions, by rising key: the broker's own and
/// those of members.
pub fn told_ranges() -> [VersionRange; TOLD_COUNT]
    ensures { result ≡ told_ranges }
{
    [
        in_one(Api::Produce),
        in_one(Api::Fetch),
        in_one(Api::ListOffsets),
        in_one(Api::Metadata),
        in_one(Api::OffsetCommit),
        in_one(Api::OffsetFetch),
        in_one(Api::FindCoordinator),
        from_to(MemberApi::JoinGroup0, MemberApi::JoinGroup2),
        from_to(MemberApi::Heartbeat0, MemberApi::Heartbeat1),
        from_to(MemberApi::LeaveGroup0, MemberApi::LeaveGroup1),
        from_to(MemberApi::SyncGroup0, MemberApi::SyncGroup1),
        in_one(Api::ApiVersions),
        in_one(Api::InitProducerId),
    ]
}

/// A client is told of a key and a version exactly where there is a frame of these that
/// `request_frames::parse` or `parse_member` reads as the encoding of a request, and the key is not
/// one of this project's own; and of each key once, by rising key.
pub fn the_told_are_read()
    ensures tells_what_is_read { (key version : ℤ) → (tells told_ranges key version ≡ true)
        ↔ (HasReadFrame key version × (key <ℤ first_own_key)) }
    ensures rises { RisesByKey told_ranges }
{}
