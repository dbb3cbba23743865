//! Laws about the definitions alone. The functions do nothing: what they ensure is the law.

ghost use Rattle.std.specs.Prelude.{◌≡◌, ◌≤◌, ◌↔◌, ℕ, true, pos, negsuc, List, [], ◌∷◌, length, Some, None, IsSome, Ok};
ghost use Rattle.std.specs.List.{Contains};
ghost use Rattle.std.specs.FinMap as finite;
ghost use Rattle.frame_fields.specs.Frames.{IsBytes};
ghost use Rattle.batch_codec.specs.Values.{BatchValue};
ghost use Rattle.batch_codec.specs.Grammar.{Writable, IsValidBatch};
ghost use Rattle.cover_ranges.specs.Runs.{covers};
ghost use Rattle.partition_log.specs.Appends.{IsSendable};
ghost use Rattle.content.specs.Records.{log_records};
ghost use Rattle.content.specs.Table.{Table, table_within};
ghost use Rattle.content.specs.Content.{Content, IsContent, shown_table};
ghost use Rattle.content.specs.Logs.{IsPlainLog};
ghost use Rattle.content.specs.Copies.{IsCopy};
ghost use Rattle.group_offsets.specs.declared.forget.TheConstants.{MAX_FORGOTTEN};
ghost use Rattle.group_offsets.specs.Keys.{GroupKeyValue, GroupKeyFits, group_key_bytes, group_key_at};
ghost use Rattle.group_offsets.specs.CommittedValues.{CommittedValue, CommittedFits, committed_bytes, committed_at};
ghost use Rattle.group_offsets.specs.Batches.{commit_batch, forget_batch};
ghost use Rattle.group_offsets.specs.Lookups.{lookup_in};
ghost use Rattle.group_offsets.specs.Groups.{group_keys, is_of_group};

/// Each key that fits has one encoding, and exactly that is read as the key, with nothing behind it.
pub fn one_key_encoding()
    ensures reads_its_encoding { (k : GroupKeyValue) → GroupKeyFits k
        → group_key_at (group_key_bytes k) ≡ Some k }
    ensures reads_no_other { (bytes : List ℕ) (k : GroupKeyValue) → IsBytes bytes
        → group_key_at bytes ≡ Some k → (bytes ≡ group_key_bytes k) × GroupKeyFits k }
{}

/// The same of values.
pub fn one_value_encoding()
    ensures reads_its_encoding { (v : CommittedValue) → CommittedFits v
        → committed_at (committed_bytes v) ≡ Some v }
    ensures reads_no_other { (bytes : List ℕ) (v : CommittedValue) → IsBytes bytes
        → committed_at bytes ≡ Some v → (bytes ≡ committed_bytes v) × CommittedFits v }
    // Of any list, whether it is of bytes or not.
    ensures reads_what_fits { (bytes : List ℕ) (v : CommittedValue)
        → committed_at bytes ≡ Some v → CommittedFits v }
{}

/// A committed offset that a look-up finds fits its fields: an offset of 64 bits, and metadata within
/// the limit.
pub fn found_offsets_fit()
    ensures { (t : Table) (k : GroupKeyValue) (v : CommittedValue)
        → lookup_in t k ≡ Ok (Some v) → CommittedFits v }
{}

/// What a look-up answers from the table of the records that a copy holds is what it answers from the
/// pass over the log's own records at the offsets that the copy has seen. So two copies of one log that
/// have seen the same offsets answer each look-up alike, of any group, topic and partition.
pub fn look_ups_are_the_logs()
    ensures answers_as_the_log { (c : Content) (log : List BatchValue) (k : GroupKeyValue)
        → IsContent c → IsPlainLog log → IsCopy c log
        → lookup_in (shown_table c) k
        ≡ lookup_in (table_within (covers c.cover) (log_records log)) k }
    ensures same_look_up { (a b : Content) (log : List BatchValue) (k : GroupKeyValue)
        → IsContent a → IsContent b → IsPlainLog log → IsCopy a log → IsCopy b log
        → a.cover ≡ b.cover → lookup_in (shown_table a) k ≡ lookup_in (shown_table b) k }
{}

/// The batches may be appended: they are whole, each record has a key, and there is no producer. One
/// that commits is within the size of a batch, one that forgets may be too large.
pub fn batches_are_sendable()
    ensures commit_is_writable { (k : GroupKeyValue) (v : CommittedValue) → GroupKeyFits k
        → CommittedFits v → Writable (commit_batch k v) }
    ensures commit_is_sendable { (k : GroupKeyValue) (v : CommittedValue)
        → IsSendable (commit_batch k v) }
    ensures commit_has_no_producer { (k : GroupKeyValue) (v : CommittedValue)
        → (commit_batch k v).head.producer ≡ negsuc 0 }
    ensures forget_is_valid { (keys : List (List ℕ)) → 1 ≤ length keys
        → length keys ≤ MAX_FORGOTTEN → IsValidBatch (forget_batch keys) }
    ensures forget_is_sendable { (keys : List (List ℕ)) → IsSendable (forget_batch keys) }
    ensures forget_has_no_producer { (keys : List (List ℕ))
        → (forget_batch keys).head.producer ≡ negsuc 0 }
{}

/// A group's keys are exactly the keys of the table that are read with that group.
pub fn shown_keys_are_the_tables()
    ensures exactly { (c : Content) (group key : List ℕ) → Contains (group_keys c group) key
        ↔ (IsSome (finite.get (shown_table c) key)
        × (is_of_group group (group_key_at key) ≡ true)) }
{}

/// The encodings of a key and of two values, worked out by hand.
#[tactic(auto, unfolding(frame_fields::specs::Fields::encoded))]
pub fn examples()
    ensures key_is { group_key_bytes
        (record { group = 103 ∷ []; topic = 116 ∷ []; partition = pos 0 })
        ≡ 0 ∷ 1 ∷ 0 ∷ 1 ∷ 103 ∷ 0 ∷ 1 ∷ 116 ∷ 0 ∷ 0 ∷ 0 ∷ 0 ∷ [] }
    ensures value_is { committed_bytes (record { offset = pos 20; metadata = Some [] })
        ≡ 0 ∷ 0 ∷ 0 ∷ 0 ∷ 0 ∷ 0 ∷ 0 ∷ 0 ∷ 0 ∷ 20 ∷ 0 ∷ 0 ∷ [] }
    ensures null_metadata_is { committed_bytes (record { offset = pos 20; metadata = None })
        ≡ 0 ∷ 0 ∷ 0 ∷ 0 ∷ 0 ∷ 0 ∷ 0 ∷ 0 ∷ 0 ∷ 20 ∷ 255 ∷ 255 ∷ [] }
{}
