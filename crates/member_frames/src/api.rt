//! Which request of a member a frame is.

ghost use Rattle.std.specs.Prelude.{◌≡◌, IfOk, IfErr};
ghost use Rattle.member_frames.specs.MemberApis.{member_key, member_version, is_throttled, IsMemberApi, IsNoMemberApi};

use frame_fields::FrameError;

/// A kind of request of a member, in one version.
#[derive(Clone, Copy)]
pub enum MemberApi {
    /// JoinGroup, version 0.
    JoinGroup0,
    /// JoinGroup, version 1.
    JoinGroup1,
    /// JoinGroup, version 2.
    JoinGroup2,
    /// SyncGroup, version 0.
    SyncGroup0,
    /// SyncGroup, version 1.
    SyncGroup1,
    /// Heartbeat, version 0.
    Heartbeat0,
    /// Heartbeat, version 1.
    Heartbeat1,
    /// LeaveGroup, version 0.
    LeaveGroup0,
    /// LeaveGroup, version 1.
    LeaveGroup1,
}

impl MemberApi {
    /// The api key.
    pub fn key(self) -> i16
        ensures { result ≡ member_key self }
    {
        match self {
            MemberApi::JoinGroup0 => 11,
            MemberApi::JoinGroup1 => 11,
            MemberApi::JoinGroup2 => 11,
            MemberApi::Heartbeat0 => 12,
            MemberApi::Heartbeat1 => 12,
            MemberApi::LeaveGroup0 => 13,
            MemberApi::LeaveGroup1 => 13,
            MemberApi::SyncGroup0 => 14,
            MemberApi::SyncGroup1 => 14,
        }
    }

    /// The version.
    pub fn version(self) -> i16
        ensures { result ≡ member_version self }
    {
        match self {
            MemberApi::JoinGroup0 => 0,
            MemberApi::JoinGroup1 => 1,
            MemberApi::JoinGroup2 => 2,
            MemberApi::Heartbeat0 => 0,
            MemberApi::Heartbeat1 => 1,
            MemberApi::LeaveGroup0 => 0,
            MemberApi::LeaveGroup1 => 1,
            MemberApi::SyncGroup0 => 0,
            MemberApi::SyncGroup1 => 1,
        }
    }

    /// Whether a response in this version begins with the throttle time.
    pub fn is_throttled(self) -> bool
        ensures { result ≡ is_throttled self }
    {
        match self {
            MemberApi::JoinGroup0 => false,
            MemberApi::JoinGroup1 => false,
            MemberApi::JoinGroup2 => true,
            MemberApi::Heartbeat0 => false,
            MemberApi::Heartbeat1 => true,
            MemberApi::LeaveGroup0 => false,
            MemberApi::LeaveGroup1 => true,
            MemberApi::SyncGroup0 => false,
            MemberApi::SyncGroup1 => true,
        }
    }

    /// JoinGroup in this version; `BadVersion` where it isn't read in it.
    fn join_group_in(version: i16) -> Result<MemberApi, FrameError>
        ensures found { IfOk result
            (λ api. IsMemberApi (member_key MemberApi.JoinGroup0) version api) }
        ensures refused { IfErr result (IsNoMemberApi (member_key MemberApi.JoinGroup0) version) }
    {
        match version {
            0 => Ok(MemberApi::JoinGroup0),
            1 => Ok(MemberApi::JoinGroup1),
            2 => Ok(MemberApi::JoinGroup2),
            _ => Err(FrameError::BadVersion),
        }
    }

    /// Heartbeat in this version; `BadVersion` where it isn't read in it.
    fn heartbeat_in(version: i16) -> Result<MemberApi, FrameError>
        ensures found { IfOk result
            (λ api. IsMemberApi (member_key MemberApi.Heartbeat0) version api) }
        ensures refused { IfErr result (IsNoMemberApi (member_key MemberApi.Heartbeat0) version) }
    {
        match version {
            0 => Ok(MemberApi::Heartbeat0),
            1 => Ok(MemberApi::Heartbeat1),
            _ => Err(FrameError::BadVersion),
        }
    }

    /// LeaveGroup in this version; `BadVersion` where it isn't read in it.
    fn leave_group_in(version: i16) -> Result<MemberApi, FrameError>
        ensures found { IfOk result
            (λ api. IsMemberApi (member_key MemberApi.LeaveGroup0) version api) }
        ensures refused { IfErr result (IsNoMemberApi (member_key MemberApi.LeaveGroup0) version) }
    {
        match version {
            0 => Ok(MemberApi::LeaveGroup0),
            1 => Ok(MemberApi::LeaveGroup1),
            _ => Err(FrameError::BadVersion),
        }
    }

    /// SyncGroup in this version; `BadVersion` where it isn't read in it.
    fn sync_group_in(version: i16) -> Result<MemberApi, FrameError>
        ensures found { IfOk result
            (λ api. IsMemberApi (member_key MemberApi.SyncGroup0) version api) }
        ensures refused { IfErr result (IsNoMemberApi (member_key MemberApi.SyncGroup0) version) }
    {
        match version {
            0 => Ok(MemberApi::SyncGroup0),
            1 => Ok(MemberApi::SyncGroup1),
            _ => Err(FrameError::BadVersion),
        }
    }

    /// The request of this key and version. `UnknownApi` where no request of a member has the key,
    /// else `BadVersion` where it isn't read in this version.
    pub(crate) fn find(key: i16, version: i16) -> Result<MemberApi, FrameError>
        ensures found { IfOk result (λ api. IsMemberApi key version api) }
        ensures refused { IfErr result (IsNoMemberApi key version) }
    {
        match key {
            11 => MemberApi::join_group_in(version),
            12 => MemberApi::heartbeat_in(version),
            13 => MemberApi::leave_group_in(version),
            14 => MemberApi::sync_group_in(version),
            _ => Err(FrameError::UnknownApi),
        }
    }
}
