//! Laws about the definitions alone. The functions do nothing: what they ensure is the law.

ghost use Rattle.std.specs.Prelude.{◌≡◌, ◌≤◌, ◌++◌, List, ℕ, ℤ, FitsSigned, length};
ghost use Rattle.std.specs.Int.{w16, w32};
ghost use Rattle.std.specs.List.{flat_map};
ghost use Rattle.frame_fields.specs.Fields.{encoded};
ghost use Rattle.frame_fields.specs.declared.error.FrameError.{FrameError};
ghost use Rattle.request_frames.specs.declared.api.Api.{Api};
ghost use Rattle.request_frames.specs.Apis.{api_key};
ghost use Rattle.request_frames.specs.Requests.{RequestValue, IsRequest, IsRefused, key_of};
ghost use Rattle.member_frames.specs.declared.api.MemberApi.{MemberApi};
ghost use Rattle.member_frames.specs.MemberApis.{is_throttled, HasMemberKey};
ghost use Rattle.member_frames.specs.MemberRequests.{MemberRequestValue, IsMemberRequest, IsMemberRefused};
ghost use Rattle.member_frames.specs.MemberReplies.{response_fields, response_value, throttle_bytes, JoinedValue, GivenValue, join_group_response, join_group_value, joined_head_bytes, joined_member_bytes, sync_group_response, sync_group_value, code_response, code_value, IsBoundedJoin, IsBoundedSync, ReadsBack};
ghost use Rattle.member_frames.specs.ShortTexts.{IsOfShortTexts};

/// A frame is one request of a member at most, has one refusal at most, and never both. With the
/// contract of `parse_member`, which answers one of them for any bytes, each frame has exactly one
/// of them.
#[tactic(auto, using(crate::proofs::OneMember::one_refusal))]
pub fn one_member_outcome()
    ensures one_request { (frame : List ℕ) (q r : MemberRequestValue)
        → IsMemberRequest frame q → IsMemberRequest frame r → q ≡ r }
    ensures one_refusal { (frame : List ℕ) (e d : FrameError)
        → IsMemberRefused e frame → IsMemberRefused d frame → e ≡ d }
    ensures never_both { (frame : List ℕ) (q : MemberRequestValue) (e : FrameError)
        → IsMemberRequest frame q → IsMemberRefused e frame → ⊥ }
{}

/// A frame is read by one of the two readers at most, `request_frames::parse` or `parse_member`;
/// and each refuses the keys of the other as unknown, whatever stands behind the key.
pub fn one_reader()
    ensures read_by_one { (frame : List ℕ) (q : RequestValue) (m : MemberRequestValue)
        → IsRequest frame q → IsMemberRequest frame m → ⊥ }
    ensures unknown_to_broker { (frame : List ℕ) → 8 ≤ length frame
        → HasMemberKey (key_of frame) → IsRefused FrameError.UnknownApi frame }
    ensures unknown_to_members { (frame : List ℕ) (api : Api) → 8 ≤ length frame
        → key_of frame ≡ api_key api → IsMemberRefused FrameError.UnknownApi frame }
{}

/// The parts of a response to a JoinGroup, one after the other behind the size and the correlation
/// id: `throttle_time`, `put_joined_head`, and `put_joined_member` of each member.
#[tactic(auto, using(crate::proofs::ReadBack::all_parts))]
pub fn join_group_parts()
    ensures { (api : MemberApi) (r : JoinedValue)
        → encoded (response_fields api join_group_response)
        (response_value api join_group_response (join_group_value r))
        ≡ throttle_bytes (is_throttled api) ++ (joined_head_bytes r.head (length r.members)
        ++ flat_map joined_member_bytes r.members) }
{}

/// Whatever is replied, within the bounds of `IsBoundedJoin` and `IsBoundedSync`, is read by a
/// client as just that: each text and each list has a length that its field holds, and the whole
/// one that the size holds.
pub fn replies_read_back()
    ensures joins { (api : MemberApi) (correlation : ℤ) (r : JoinedValue)
        → FitsSigned w32 correlation → IsBoundedJoin r
        → ReadsBack api correlation join_group_response (join_group_value r) }
    ensures syncs { (api : MemberApi) (correlation : ℤ) (r : GivenValue)
        → FitsSigned w32 correlation → IsBoundedSync r
        → ReadsBack api correlation sync_group_response (sync_group_value r) }
    ensures codes { (api : MemberApi) (correlation code : ℤ) → FitsSigned w32 correlation
        → FitsSigned w16 code → ReadsBack api correlation code_response (code_value code) }
    // What is read says what was replied.
    ensures one_join { (r s : JoinedValue) → join_group_value r ≡ join_group_value s → r ≡ s }
    ensures one_sync { (r s : GivenValue) → sync_group_value r ≡ sync_group_value s → r ≡ s }
{}

/// The texts of a request that is read have lengths that the fields of a response hold.
pub fn read_texts_are_short()
    ensures { (frame : List ℕ) (q : MemberRequestValue)
        → IsMemberRequest frame q → IsOfShortTexts q }
{}
