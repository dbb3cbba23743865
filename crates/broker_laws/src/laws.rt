//! Laws about the definitions alone. The functions do nothing: what they ensure is the law.

ghost use Rattle.std.specs.Prelude.{◌≡◌, ◌≢◌, ◌↔◌, ◌⊎◌, ◌-◌, ℕ, ℤ, pos, true, false, List, [], ◌∷◌, ◌++◌, length, Option, Some, None, Ok};
ghost use Rattle.batch_codec.specs.Values.{BatchValue};
ghost use Rattle.content.specs.Content.{Content};
ghost use Rattle.content.specs.declared.verdict.Verdict.TheVariants.{New, Repeat};
ghost use Rattle.partition_log.specs.declared.leader.AppendError.{AppendError};
ghost use Rattle.partition_log.specs.Appends.{RefusesAppend, IsSendable, kept_verdict, HasOffsets};
ghost use Rattle.frame_fields.specs.Fields.{Fields};
ghost use Rattle.frame_fields.specs.Types.{int32, ◌⨾◌};
ghost use Rattle.frame_fields.specs.Frames.{IsBytes, IsWithinLimit};
ghost use Rattle.frame_fields.specs.Reading.{read_fields};
ghost use Rattle.frame_fields.specs.declared.error.FrameError.TheVariants.{BadVersion};
ghost use Rattle.request_frames.specs.declared.api.Api.TheVariants.{ApiVersions};
ghost use Rattle.request_frames.specs.Apis.{api_key};
ghost use Rattle.request_frames.specs.Fetch.{FetchPartitionValue};
ghost use Rattle.request_frames.specs.Requests.{RequestValue, key_of, correlation_of, IsUnread, unread_request, IsRequest, IsRefused};
ghost use Rattle.responses.specs.Responses.{response};
ghost use Rattle.responses.specs.ApiVersions.{api_versions_response, api_versions_value};
ghost use Rattle.answering.specs.declared.codes.ErrorCode.TheVariants.{UnsupportedVersion};
ghost use Rattle.answering.specs.Codes.{code_number};
ghost use Rattle.answering.specs.Plans.{AnswersAll};
ghost use Rattle.log_requests.specs.Fetch.{FetchRoom, fetch_work};
ghost use Rattle.setup_requests.specs.ApiVersions.{listed_ranges};
ghost use Rattle.broker_state.specs.Batches.{append_fault, FaultIs};
ghost use Rattle.broker_state.specs.State.{ConfigValue, State, new_state, partition_at, is_known, content_at, with_content};
ghost use Rattle.broker_state.specs.declared.config.Role.TheVariants.{Leader, Follower};
ghost use Rattle.broker_state.specs.Producers.{with_id_given};
ghost use Rattle.broker_state.specs.Sound.{IsSoundConfig, IsSound};
ghost use Rattle.broker_node.specs.Effects.{TopicPartition, effect, places, is_among};
ghost use Rattle.broker_node.specs.Effects.Effect.{reads, gives_id, appends, takes, cleans, trims};
ghost use Rattle.broker_node.specs.Replies.{reply, IsReply, MayReply};
ghost use Rattle.broker_node.specs.Fitting.{IsFitting, FitsReply};
ghost use Rattle.broker_node.specs.Streams.{IsAnswered, AreAnswered};
ghost use Rattle.copy_requests.specs.Import.{has_begun};
ghost use Rattle.broker_laws.specs.OneChange.{CleansAt, TrimsAt};
ghost use Rattle.broker_laws.specs.ProducerIds.{ids_given, AreInARow};

/// The reply that is a function is the one case of what may be replied in which no entry runs out of
/// memory.
pub fn answers_function()
    ensures one_reply { (s after : State) (q : RequestValue) (out : Option (List ℕ))
        → IsReply s q out after ↔ ((out, after) ≡ reply s q) }
    ensures may_be_replied { (s after : State) (q : RequestValue) (out : Option (List ℕ))
        → IsReply s q out after → MayReply s q out after }
{}

/// Another content of one partition is found there, and the configuration stays; of an unknown
/// partition nothing changes.
pub fn one_content_changes()
    ensures same { (s : State) (name : List ℕ) (p : ℤ) (c : Content)
        → is_known s name p ≡ true → partition_at (with_content s name p c) name p ≡ Some c }
    ensures config { (s : State) (name : List ℕ) (p : ℤ) (c : Content)
        → (with_content s name p c).config ≡ s.config }
    ensures unknown { (s : State) (name : List ℕ) (p : ℤ) (c : Content)
        → is_known s name p ≡ false → with_content s name p c ≡ s }
    ensures other_index { (s : State) (name other : List ℕ) (p q : ℤ) (c : Content)
        → q ≢ p → partition_at (with_content s name p c) other q ≡ partition_at s other q }
    ensures other_name { (s : State) (name other : List ℕ) (p q : ℤ) (c : Content)
        → other ≢ name → partition_at (with_content s name p c) other q ≡ partition_at s other q }
{}

/// The tests by which a reply judges a batch find the fault for which a leader's log refuses it, and
/// none in a batch that it takes.
pub fn append_faults()
    ensures refusal_is_fault { (c : Content) (b : BatchValue) (e : AppendError)
        → RefusesAppend c b e → FaultIs e (append_fault c b) }
    ensures new_has_no_fault { (c : Content) (b : BatchValue) → IsSendable b
        → kept_verdict c b ≡ New → HasOffsets c b → append_fault c b ≡ None }
    ensures repeat_has_no_fault { (c : Content) (b : BatchValue) (base : ℤ) → IsSendable b
        → kept_verdict c b ≡ Repeat base → append_fault c b ≡ None }
{}

/// One more frame is answered behind those that were.
pub fn answered_snoc()
    ensures { (s m after : State) (frames : List (List ℕ))
        (frame out one : List ℕ) → AreAnswered s frames out m → IsAnswered m frame one after
        → AreAnswered s (frames ++ frame ∷ []) (out ++ one) after }
{}

/// Where a request may change something, whether memory suffices or not: only in its `places`. Any other
/// partition stays, and a fetch shows the same of it. What only reads changes nothing. The configuration
/// stays, and so do the partitions that the broker has, and the next producer id but where one is given. A
/// follower appends nothing and gives out no id.
pub fn a_request_changes_only_its_places()
    ensures config { (s after : State) (q : RequestValue) (out : Option (List ℕ))
        → MayReply s q out after → after.config ≡ s.config }
    ensures known_partitions { (s after : State) (q : RequestValue) (out : Option (List ℕ))
        (name : List ℕ) (p : ℤ) → MayReply s q out after
        → is_known after name p ≡ is_known s name p }
    ensures other_partitions { (s after : State) (q : RequestValue) (out : Option (List ℕ))
        (name : List ℕ) (p : ℤ) → is_among (places (effect q.body)) name p ≡ false
        → MayReply s q out after → partition_at after name p ≡ partition_at s name p }
    ensures other_fetches { (s after : State) (q : RequestValue) (out : Option (List ℕ))
        (name : List ℕ) (room : FetchRoom) (e : FetchPartitionValue)
        → is_among (places (effect q.body)) name e.partition ≡ false
        → MayReply s q out after → fetch_work after room name e ≡ fetch_work s room name e }
    ensures reading_changes_nothing { (s after : State) (q : RequestValue) (out : Option (List ℕ))
        → effect q.body ≡ reads → MayReply s q out after → after ≡ s }
    ensures one_id_is_given { (s after : State) (q : RequestValue) (out : Option (List ℕ))
        → effect q.body ≡ gives_id → MayReply s q out after
        → (after ≡ s) ⊎ (after ≡ with_id_given s) }
    ensures next_producer { (s after : State) (q : RequestValue) (out : Option (List ℕ))
        → effect q.body ≢ gives_id → MayReply s q out after
        → after.next_producer ≡ s.next_producer }
    ensures followers_append_nothing { (s after : State) (q : RequestValue) (out : Option (List ℕ))
        (ps : List TopicPartition) → s.config.role ≡ Follower → effect q.body ≡ appends ps
        → MayReply s q out after → after ≡ s }
    ensures followers_give_no_id { (s after : State) (q : RequestValue) (out : Option (List ℕ))
        → s.config.role ≡ Follower → effect q.body ≡ gives_id → MayReply s q out after → after ≡ s }
{}

/// What a request makes of the one partition that it changes, by its effect: what cleans makes a cleaning of what is there,
/// whole or of a part, what trims cuts it at a start, and what takes what another copy has does nothing at a leader whose log
/// has begun; or nothing changes. With what [`a_request_changes_only_its_places`] says of those that read, give an id and append, a request
/// that can change something has no other effect than its own. Of one that only reads this isn't said: it may have any.
pub fn effects_are_told_apart()
    ensures one_cleaning { (s after : State) (q : RequestValue) (out : Option (List ℕ)) (p : TopicPartition)
        → effect q.body ≡ cleans p → MayReply s q out after → CleansAt p s after }
    ensures one_cut { (s after : State) (q : RequestValue) (out : Option (List ℕ)) (p : TopicPartition)
        → effect q.body ≡ trims p → MayReply s q out after → TrimsAt p s after }
    ensures leaders_take_nothing { (s after : State) (q : RequestValue) (out : Option (List ℕ))
        (p : TopicPartition) → s.config.role ≡ Leader
        → has_begun (content_at s p.topic p.partition) ≡ true → effect q.body ≡ takes p
        → MayReply s q out after → after ≡ s }
{}

/// Over any list of requests to a new broker, wherever memory lacks, the producer ids in the responses with
/// code 0 are the configured first one and the numbers after it, in order, and the next one is the number
/// behind them. So it goes on from any state that a broker can be in.
pub fn producer_ids_are_in_a_row()
    ensures from_the_start { (g : ConfigValue) (after : State) (qs : List RequestValue)
        (outs : List (Option (List ℕ))) → IsSoundConfig g
        → AnswersAll (λ s q out m. MayReply s q out m) (new_state g) qs outs after
        → AreInARow g.first_producer (ids_given qs outs) after.next_producer }
    ensures from_any_state { (s after : State) (qs : List RequestValue) (outs : List (Option (List ℕ)))
        → IsSound s → AnswersAll (λ s q out m. MayReply s q out m) s qs outs after
        → AreInARow s.next_producer (ids_given qs outs) after.next_producer }
{}

/// ApiVersions in a version other than 0 is a request, whatever stands behind the first 8 bytes of its frame.
/// What is sent for it is the list of version 0 in the form of version 0, with the code of an unsupported
/// version, and nothing changes. In no version has it the fault of a bad one.
pub fn any_version_is_answered()
    ensures is_request { (frame : List ℕ) → IsUnread frame → IsRequest frame (unread_request frame) }
    ensures same_list { (s after : State) (frame out : List ℕ) → IsUnread frame
        → IsAnswered s frame out after → (out ≡ response (correlation_of frame) api_versions_response
        (api_versions_value (code_number UnsupportedVersion) listed_ranges)) × (after ≡ s) }
    ensures never_a_bad_version { (frame : List ℕ) → key_of frame ≡ api_key ApiVersions
        → IsRefused BadVersion frame → ⊥ }
{}

/// Whatever may be replied to a frame, in a state that a broker can be in, fits its fields: nothing is sent,
/// or a response whose values their fields can hold, of a size that an int32 can hold. A client reads these
/// values back, and the state after is again one that a broker can be in.
pub fn replies_fit()
    ensures fits { (s after : State) (frame : List ℕ) (q : RequestValue) (out : Option (List ℕ))
        → IsSound s → IsBytes frame → IsWithinLimit (pos (length frame)) → IsRequest frame q
        → MayReply s q out after → FitsReply q out }
    ensures is_read_back { (correlation : ℤ) (d : Fields) (bytes : List ℕ)
        (fitting : IsFitting correlation d bytes) → read_fields (int32 ⨾ int32 ⨾ d) bytes
        ≡ Ok ((pos (length bytes - 4), (correlation, fitting.value)), []) }
    ensures stays_sound { (s after : State) (frame : List ℕ) (q : RequestValue) (out : Option (List ℕ))
        → IsSound s → IsBytes frame → IsWithinLimit (pos (length frame)) → IsRequest frame q
        → MayReply s q out after → IsSound after }
{}
