//! Frames and responses worked by hand.

ghost use Rattle.std.specs.Prelude.{◌≡◌, pos, false, map, true, [], ◌∷◌};
ghost use Rattle.member_frames.specs.declared.api.MemberApi.{MemberApi};
ghost use Rattle.member_frames.specs.MemberApis.{is_throttled};
ghost use Rattle.frame_fields.specs.declared.error.FrameError.{FrameError};
ghost use Rattle.member_frames.specs.MemberRequests.MemberBodyValue.{join_group, heartbeat};
ghost use Rattle.member_frames.specs.MemberRequests.{IsMemberRequest, IsMemberRefused};
ghost use Rattle.member_frames.specs.MemberReplies.{member_response, code_response, code_value};

/// A Heartbeat of version 0: key 12, version 0, correlation id 7, no client id, the group `g`,
/// generation 258, the member `m`. With one byte more it is refused.
pub fn a_heartbeat()
    ensures is_read { IsMemberRequest
        (0 ∷ 12 ∷ 0 ∷ 0 ∷ 0 ∷ 0 ∷ 0 ∷ 7 ∷ 255 ∷ 255 ∷ 0 ∷ 1 ∷ 103 ∷ 0 ∷ 0 ∷ 1 ∷ 2
        ∷ 0 ∷ 1 ∷ 109 ∷ [])
        (record {
          api = MemberApi.Heartbeat0;
          correlation = pos 7;
          client = [];
          body = heartbeat (record { group = 103 ∷ []; generation = pos 258; member = 109 ∷ [] });
        }) }
    ensures one_byte_more { IsMemberRefused FrameError.TrailingBytes
        (0 ∷ 12 ∷ 0 ∷ 0 ∷ 0 ∷ 0 ∷ 0 ∷ 7 ∷ 255 ∷ 255 ∷ 0 ∷ 1 ∷ 103 ∷ 0 ∷ 0 ∷ 1 ∷ 2
        ∷ 0 ∷ 1 ∷ 109 ∷ 0 ∷ []) }
{}

/// A JoinGroup of version 0, in which the session timeout is the rebalance timeout too: key 11,
/// version 0, correlation id 5, the client `c`, the group `g`, 10,000 ms, no id, the kind `k`, and
/// the protocol `r` with the metadata 9.
pub fn a_first_join()
    ensures { IsMemberRequest
        (0 ∷ 11 ∷ 0 ∷ 0 ∷ 0 ∷ 0 ∷ 0 ∷ 5 ∷ 0 ∷ 1 ∷ 99 ∷ 0 ∷ 1 ∷ 103 ∷ 0 ∷ 0 ∷ 39 ∷ 16 ∷ 0
        ∷ 0 ∷ 0 ∷ 1 ∷ 107 ∷ 0 ∷ 0 ∷ 0 ∷ 1 ∷ 0 ∷ 1 ∷ 114 ∷ 0 ∷ 0 ∷ 0 ∷ 1 ∷ 9 ∷ [])
        (record {
          api = MemberApi.JoinGroup0;
          correlation = pos 5;
          client = 99 ∷ [];
          body = join_group (record {
            group = 103 ∷ [];
            session = pos 10000;
            rebalance = pos 10000;
            member = [];
            kind = 107 ∷ [];
            protocols = record { name = 114 ∷ []; metadata = 9 ∷ [] } ∷ [];
          });
        }) }
{}

/// The code 27 to a Heartbeat of version 0, by the correlation id 7, and to one of version 1, in
/// which the throttle time stands first.
pub fn a_rebalance_is_told()
    ensures version_0 { member_response MemberApi.Heartbeat0 (pos 7) code_response
        (code_value (pos 27))
        ≡ 0 ∷ 0 ∷ 0 ∷ 6 ∷ 0 ∷ 0 ∷ 0 ∷ 7 ∷ 0 ∷ 27 ∷ [] }
    ensures version_1 { member_response MemberApi.Heartbeat1 (pos 7) code_response
        (code_value (pos 27))
        ≡ 0 ∷ 0 ∷ 0 ∷ 10 ∷ 0 ∷ 0 ∷ 0 ∷ 7 ∷ 0 ∷ 0 ∷ 0 ∷ 0 ∷ 0 ∷ 27 ∷ [] }
{}

/// Which responses begin with the throttle time: those of JoinGroup 2, and of version 1 of the others.
pub fn what_is_throttled()
    ensures { map is_throttled (MemberApi.JoinGroup0 ∷ MemberApi.JoinGroup1 ∷ MemberApi.JoinGroup2 ∷ MemberApi.SyncGroup0 ∷ MemberApi.SyncGroup1 ∷ MemberApi.Heartbeat0 ∷ MemberApi.Heartbeat1 ∷ MemberApi.LeaveGroup0 ∷ MemberApi.LeaveGroup1 ∷ [])
        ≡ false ∷ false ∷ true ∷ false ∷ true ∷ false ∷ true ∷ false ∷ true ∷ [] }
{}
