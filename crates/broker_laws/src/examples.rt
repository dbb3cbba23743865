//! The definitions worked out on a small broker. The functions do nothing: each clause is an example
//! whose outcome was found by hand.
#![tactic(auto, unfolding(checksum::specs::Crc::crc_of, checksum::specs::Crc::feed_bytes, checksum::specs::Crc::feed_byte, checksum::specs::Crc::feed_bits, checksum::specs::Crc::feed_bit, varint::specs::Encoding::encoding, varint::specs::Encoding::digits, varint::specs::Reading::number_at, varint::specs::Reading::varint_at, varint::specs::Reading::varlong_at, batch_codec::specs::Checks::size_from, batch_codec::specs::Checks::size_at, batch_codec::specs::Checks::check_attributes, batch_codec::specs::Checks::check_count, batch_codec::specs::Checks::check_records, batch_codec::specs::Checks::check_batch, batch_codec::specs::Fields::head_of, batch_codec::specs::Grammar::record_body, batch_codec::specs::Grammar::batch_encoding, batch_codec::specs::Readers::nullable_at, batch_codec::specs::Readers::required_at, batch_codec::specs::Readers::header_at, batch_codec::specs::Readers::headers_at, batch_codec::specs::Readers::body_at, batch_codec::specs::Readers::record_at, batch_codec::specs::Readers::records_at, batch_codec::specs::Readers::records_of, batch_codec::specs::Reading::batch_of, content::specs::ByOffset::put, content::specs::Verdicts::verdict, cover_ranges::specs::Runs::with_range, segment::specs::BatchLists::first_from, partition_log::specs::Lookups::fitting, frame_fields::specs::Fields::encoded, frame_fields::specs::Reading::read_number, frame_fields::specs::Reading::read_field, frame_fields::specs::Reading::read_fields, group_offsets::specs::Keys::group_key_at, group_offsets::specs::Batches::commit_batch, group_offsets::specs::Batches::null_records, group_offsets::specs::Batches::forget_batch, group_offsets::specs::Groups::shown_records, group_offsets::specs::Groups::group_keys))]

ghost use Rattle.std.specs.Prelude.{◌≡◌, pos, negsuc, false, [], ◌∷◌, ◌++◌, length, codes, replicate, Some, None, Ok};
ghost use Rattle.batch_codec.specs.Grammar.{batch_encoding};
ghost use Rattle.content.specs.Content.{empty, add, end};
ghost use Rattle.content.specs.Examples.{batch_0, batch_1, batch_3, copy_of_four};
ghost use Rattle.frame_fields.specs.declared.error.FrameError.TheVariants as frame;
ghost use Rattle.broker_state.specs.declared.error.ConfigError.TheVariants as config;
ghost use Rattle.broker_state.specs.Configs.{config_fault};
ghost use Rattle.broker_state.specs.State.{group_topic, content_at};
ghost use Rattle.answering.specs.Work.{IsOutOfMemory};
ghost use Rattle.log_requests.specs.Produce.{produce_work, produce_result};
ghost use Rattle.log_requests.specs.Fetch.{fetch_result};
ghost use Rattle.log_requests.specs.ListOffsets.{list_offsets_work, list_offsets_result};
ghost use Rattle.log_requests.specs.Metadata.{metadata_topics};
ghost use Rattle.broker_node.specs.Replies.{reply};
ghost use Rattle.answering.specs.Responding.{sent};
ghost use Rattle.broker_node.specs.Streams.{IsAnswered, RefusesNext};
ghost use Rattle.broker_laws.specs.Examples.{topic_t, topic, config_with, leader, follower, with_acks, transactional, produced_at, produce_request, produce_twice, list_offsets_request, list_offsets_frame, metadata_request, good, without_key, bad_producer, numbered_batch, produced_four, cleaned_leader, fetched_from, fetched_twice, listed_for, records_to, group_g, offset_commit_request, offset_fetch_request, forget_group_request, committed_twice, forgotten, found_for};

/// Configurations and their first faults.
pub fn configurations()
    ensures right { config_fault (config_with (topic topic_t 1 ∷ [])) ≡ None }
    ensures no_topic_name { config_fault (config_with (topic (codes ".") 1 ∷ []))
        ≡ Some config.BadTopic }
    ensures too_many_partitions { config_fault (config_with (topic topic_t 65 ∷ []))
        ≡ Some config.BadPartitions }
    ensures long_host { config_fault (record (config_with []) { host = replicate 256 97 })
        ≡ Some config.BadHost }
    ensures too_many_topics { config_fault (config_with (replicate 65 (topic topic_t 1)))
        ≡ Some config.TooManyTopics }
    ensures negative_first_producer { config_fault (record (config_with (topic (codes ".") 1 ∷ []))
        { first_producer = negsuc 0 }) ≡ Some config.BadFirstProducer }
    ensures too_many_topics_first { config_fault (record (config_with (replicate 65 (topic topic_t 1)))
        { first_producer = negsuc 0 }) ≡ Some config.TooManyTopics }
    ensures twice { config_fault (config_with (topic topic_t 1 ∷ topic topic_t 1 ∷ []))
        ≡ Some config.TopicTwice }
    ensures group_topic_twice { config_fault (config_with (topic group_topic 1 ∷ []))
        ≡ Some config.TopicTwice }
{}

/// The end of an empty partition.
pub fn an_empty_partition()
    ensures end_is_0 { reply leader (list_offsets_request (pos 7) (negsuc 0)) ≡ (
      Some (
          0 ∷ 0 ∷ 0 ∷ 37 ∷ 0 ∷ 0 ∷ 0 ∷ 7 ∷ 0 ∷ 0 ∷ 0 ∷ 1 ∷ 0 ∷ 1 ∷ 116 ∷ 0 ∷ 0 ∷ 0 ∷ 1
          ∷ 0 ∷ 0 ∷ 0 ∷ 0 ∷ 0 ∷ 0 ∷ 255 ∷ 255 ∷ 255 ∷ 255 ∷ 255 ∷ 255 ∷ 255 ∷ 255
          ∷ 0 ∷ 0 ∷ 0 ∷ 0 ∷ 0 ∷ 0 ∷ 0 ∷ 0 ∷ []),
      leader,
    ) }
{}

/// A frame that is a request, and what is sent for it.
pub fn an_answered_frame()
    ensures size { length list_offsets_frame ≡ 37 }
    ensures answered { IsAnswered leader list_offsets_frame
        (sent (reply leader (list_offsets_request (pos 7) (negsuc 0))).0) leader }
{}

/// Sizes that are refused as soon as they are there.
pub fn refused_sizes()
    ensures negative { RefusesNext frame.NegativeSize (255 ∷ 255 ∷ 255 ∷ 255 ∷ []) }
    ensures above_the_limit { RefusesNext frame.TooLarge (0 ∷ 128 ∷ 0 ∷ 1 ∷ []) }
{}

/// The first batch of a partition.
pub fn a_first_batch()
    ensures reply { (reply leader (produce_request (pos 5) (pos 1) good)).0 ≡ Some (
        0 ∷ 0 ∷ 0 ∷ 41 ∷ 0 ∷ 0 ∷ 0 ∷ 5 ∷ 0 ∷ 0 ∷ 0 ∷ 1 ∷ 0 ∷ 1 ∷ 116 ∷ 0 ∷ 0 ∷ 0 ∷ 1
        ∷ 0 ∷ 0 ∷ 0 ∷ 0 ∷ 0 ∷ 0 ∷ 0 ∷ 0 ∷ 0 ∷ 0 ∷ 0 ∷ 0 ∷ 0 ∷ 0
        ∷ 255 ∷ 255 ∷ 255 ∷ 255 ∷ 255 ∷ 255 ∷ 255 ∷ 255 ∷ 0 ∷ 0 ∷ 0 ∷ 0 ∷ []) }
    ensures is_kept { content_at (reply leader (produce_request (pos 5) (pos 1) good)).1
        topic_t (pos 0) ≡ add empty batch_0 }
{}

/// With acks 0 nothing is sent, and the batch is appended.
pub fn without_acknowledgement()
    ensures silent { (reply leader (produce_request (pos 5) (pos 0) good)).0 ≡ None }
    ensures is_kept { content_at (reply leader (produce_request (pos 5) (pos 0) good)).1
        topic_t (pos 0) ≡ add empty batch_0 }
{}

/// Why an entry of a Produce request fails.
pub fn refused_batches()
    ensures bad_acks { produced_at leader (with_acks (pos 2)) topic_t (pos 0) good
        ≡ produce_result (pos 0) (pos 21) (negsuc 0) }
    ensures transaction { produced_at leader transactional topic_t (pos 0) good
        ≡ produce_result (pos 0) (pos 48) (negsuc 0) }
    ensures no_partition { produced_at leader (with_acks (pos 1)) topic_t (pos 1) good
        ≡ produce_result (pos 1) (pos 3) (negsuc 0) }
    ensures negative_partition { produced_at leader (with_acks (pos 1)) topic_t (negsuc 0) good
        ≡ produce_result (negsuc 0) (pos 3) (negsuc 0) }
    ensures to_group_topic { produced_at leader (with_acks (pos 1)) group_topic (pos 0) good
        ≡ produce_result (pos 0) (pos 17) (negsuc 0) }
    ensures unknown_before_group_topic { produced_at leader (with_acks (pos 1)) group_topic (pos 1) good
        ≡ produce_result (pos 1) (pos 3) (negsuc 0) }
    ensures to_follower { produced_at follower (with_acks (pos 1)) topic_t (pos 0) good
        ≡ produce_result (pos 0) (pos 6) (negsuc 0) }
    ensures group_topic_before_follower { produced_at follower (with_acks (pos 1)) group_topic (pos 0) good
        ≡ produce_result (pos 0) (pos 17) (negsuc 0) }
    ensures null_key { produced_at leader (with_acks (pos 1)) topic_t (pos 0) without_key
        ≡ produce_result (pos 0) (pos 87) (negsuc 0) }
    ensures bad_producer { produced_at leader (with_acks (pos 1)) topic_t (pos 0) bad_producer
        ≡ produce_result (pos 0) (pos 87) (negsuc 0) }
    ensures two_batches { produced_at leader (with_acks (pos 1)) topic_t (pos 0) (good ++ good)
        ≡ produce_result (pos 0) (pos 87) (negsuc 0) }
    ensures no_bytes { produced_at leader (with_acks (pos 1)) topic_t (pos 0) []
        ≡ produce_result (pos 0) (pos 2) (negsuc 0) }
{}

/// A batch of a producer that comes twice in one request is appended once, and has one base.
pub fn a_repeat()
    ensures reply { (reply leader (produce_twice (pos 5) (pos 1) numbered_batch)).0 ≡ Some (
        0 ∷ 0 ∷ 0 ∷ 63 ∷ 0 ∷ 0 ∷ 0 ∷ 5 ∷ 0 ∷ 0 ∷ 0 ∷ 1 ∷ 0 ∷ 1 ∷ 116 ∷ 0 ∷ 0 ∷ 0 ∷ 2
        ∷ 0 ∷ 0 ∷ 0 ∷ 0 ∷ 0 ∷ 0 ∷ 0 ∷ 0 ∷ 0 ∷ 0 ∷ 0 ∷ 0 ∷ 0 ∷ 0
        ∷ 255 ∷ 255 ∷ 255 ∷ 255 ∷ 255 ∷ 255 ∷ 255 ∷ 255
        ∷ 0 ∷ 0 ∷ 0 ∷ 0 ∷ 0 ∷ 0 ∷ 0 ∷ 0 ∷ 0 ∷ 0 ∷ 0 ∷ 0 ∷ 0 ∷ 0
        ∷ 255 ∷ 255 ∷ 255 ∷ 255 ∷ 255 ∷ 255 ∷ 255 ∷ 255 ∷ 0 ∷ 0 ∷ 0 ∷ 0 ∷ []) }
    ensures appended_once { end (content_at
        (reply leader (produce_twice (pos 5) (pos 1) numbered_batch)).1 topic_t (pos 0)) ≡ pos 1 }
{}

/// Four batches that were sent with base offset 0 stand at offsets 0 to 3.
pub fn a_log_of_four()
    ensures { content_at produced_four topic_t (pos 0) ≡ copy_of_four }
{}

/// Fetches from a log of which the batches at 1 and 3 are kept, of 70 bytes each.
pub fn fetches()
    ensures from_2 { fetched_from cleaned_leader (pos 2) (pos 1048576)
        ≡ fetch_result (pos 0) (pos 0) (pos 4) (batch_3 ∷ []) }
    ensures from_end { fetched_from cleaned_leader (pos 4) (pos 1048576)
        ≡ fetch_result (pos 0) (pos 0) (pos 4) [] }
    ensures above_end { fetched_from cleaned_leader (pos 5) (pos 1048576)
        ≡ fetch_result (pos 0) (pos 1) (negsuc 0) [] }
    ensures below_start { fetched_from cleaned_leader (negsuc 0) (pos 1048576)
        ≡ fetch_result (pos 0) (pos 1) (negsuc 0) [] }
    ensures first_is_forced { fetched_from cleaned_leader (pos 0) (pos 1)
        ≡ fetch_result (pos 0) (pos 0) (pos 4) (batch_1 ∷ []) }
    ensures second_does_not_fit { fetched_from cleaned_leader (pos 0) (pos 139)
        ≡ fetch_result (pos 0) (pos 0) (pos 4) (batch_1 ∷ []) }
    ensures both_fit { fetched_from cleaned_leader (pos 0) (pos 140)
        ≡ fetch_result (pos 0) (pos 0) (pos 4) (batch_1 ∷ batch_3 ∷ []) }
    ensures size { length (batch_encoding batch_1) ≡ 70 }
{}

/// Two entries of one request share its room for records: the second is not forced.
pub fn a_shared_room()
    ensures first_takes_70_of_100 { fetched_twice cleaned_leader (pos 0) (pos 100)
        ≡ record {
          name = topic_t;
          entries = fetch_result (pos 0) (pos 0) (pos 4) (batch_1 ∷ [])
              ∷ fetch_result (pos 0) (pos 0) (pos 4) [] ∷ [];
        } ∷ [] }
{}

/// Memory may lack for a new batch, and not where an earlier check fails.
pub fn out_of_memory()
    ensures for_a_new_batch { IsOutOfMemory (produce_work leader (with_acks (pos 1)) topic_t (records_to (pos 0) good))
        leader (produce_result (pos 0) (pos 56) (negsuc 0)) leader }
    ensures not_for_an_unknown_partition { ¬ IsOutOfMemory (produce_work leader (with_acks (pos 1)) topic_t (records_to (pos 1) good))
        leader (produce_result (pos 1) (pos 56) (negsuc 0)) leader }
    ensures never_for_a_look_up { ¬ IsOutOfMemory
        (list_offsets_work leader topic_t (record { partition = pos 0; time = negsuc 0 }))
        leader (list_offsets_result (pos 0) (pos 56) (negsuc 0, negsuc 0)) leader }
{}

/// The end, the start, and the first record of a time.
pub fn offsets_by_time()
    ensures latest { listed_for cleaned_leader (pos 0) (negsuc 0)
        ≡ list_offsets_result (pos 0) (pos 0) (negsuc 0, pos 4) }
    ensures earliest { listed_for cleaned_leader (pos 0) (negsuc 1)
        ≡ list_offsets_result (pos 0) (pos 0) (negsuc 0, pos 0) }
    ensures first_held { listed_for cleaned_leader (pos 0) (pos 0)
        ≡ list_offsets_result (pos 0) (pos 0) (pos 0, pos 1) }
    ensures none_so_late { listed_for cleaned_leader (pos 0) (pos 1)
        ≡ list_offsets_result (pos 0) (pos 0) (negsuc 0, negsuc 0) }
    ensures no_such_time { listed_for cleaned_leader (pos 0) (negsuc 2)
        ≡ list_offsets_result (pos 0) (pos 42) (negsuc 0, negsuc 0) }
    ensures no_partition { listed_for cleaned_leader (pos 1) (negsuc 0)
        ≡ list_offsets_result (pos 1) (pos 3) (negsuc 0, negsuc 0) }
    ensures on_a_follower { listed_for follower (pos 0) (negsuc 0)
        ≡ list_offsets_result (pos 0) (pos 6) (negsuc 0, negsuc 0) }
{}

/// What a broker says of its topics.
pub fn topics_listed()
    ensures all { reply leader (metadata_request (pos 3) None) ≡ (
      Some (
          0 ∷ 0 ∷ 0 ∷ 126 ∷ 0 ∷ 0 ∷ 0 ∷ 3
          ∷ 0 ∷ 0 ∷ 0 ∷ 1 ∷ 0 ∷ 0 ∷ 0 ∷ 1 ∷ 0 ∷ 9 ∷ codes "127.0.0.1"
          ++ 0 ∷ 0 ∷ 35 ∷ 132 ∷ 255 ∷ 255 ∷ 0 ∷ 0 ∷ 0 ∷ 1
          ∷ 0 ∷ 0 ∷ 0 ∷ 2
          ∷ 0 ∷ 0 ∷ 0 ∷ 1 ∷ 116 ∷ 0 ∷ 0 ∷ 0 ∷ 0 ∷ 1
          ∷ 0 ∷ 0 ∷ 0 ∷ 0 ∷ 0 ∷ 0 ∷ 0 ∷ 0 ∷ 0 ∷ 1
          ∷ 0 ∷ 0 ∷ 0 ∷ 1 ∷ 0 ∷ 0 ∷ 0 ∷ 1 ∷ 0 ∷ 0 ∷ 0 ∷ 1 ∷ 0 ∷ 0 ∷ 0 ∷ 1
          ∷ 0 ∷ 0 ∷ 0 ∷ 18 ∷ codes "__consumer_offsets" ++ 1 ∷ 0 ∷ 0 ∷ 0 ∷ 1
          ∷ 0 ∷ 0 ∷ 0 ∷ 0 ∷ 0 ∷ 0 ∷ 0 ∷ 0 ∷ 0 ∷ 1
          ∷ 0 ∷ 0 ∷ 0 ∷ 1 ∷ 0 ∷ 0 ∷ 0 ∷ 1 ∷ 0 ∷ 0 ∷ 0 ∷ 1 ∷ 0 ∷ 0 ∷ 0 ∷ 1 ∷ []),
      leader,
    ) }
    ensures by_name { metadata_topics leader
        (Some (topic_t ∷ topic_t ∷ codes "a b" ∷ codes "u" ∷ []))
        ≡ record {
          code = pos 0;
          name = topic_t;
          is_internal = false;
          partitions = record { code = pos 0; index = pos 0; leader = Some (pos 1) } ∷ [];
        }
        ∷ record { code = pos 17; name = codes "a b"; is_internal = false; partitions = [] }
        ∷ record { code = pos 3; name = codes "u"; is_internal = false; partitions = [] } ∷ [] }
    ensures none { metadata_topics leader (Some []) ≡ [] }
    ensures on_a_follower { metadata_topics follower (Some (topic_t ∷ []))
        ≡ record {
          code = pos 0;
          name = topic_t;
          is_internal = false;
          partitions = record { code = pos 5; index = pos 0; leader = None } ∷ [];
        } ∷ [] }
{}

/// A group's latest committed offset is found, by no other group, and no more once it is forgotten.
pub fn committed_offsets()
    ensures commit { (reply leader (offset_commit_request (pos 5) (pos 20))).0 ≡ Some (
        0 ∷ 0 ∷ 0 ∷ 21 ∷ 0 ∷ 0 ∷ 0 ∷ 5 ∷ 0 ∷ 0 ∷ 0 ∷ 1 ∷ 0 ∷ 1 ∷ 116 ∷ 0 ∷ 0 ∷ 0 ∷ 1
        ∷ 0 ∷ 0 ∷ 0 ∷ 0 ∷ 0 ∷ 0 ∷ []) }
    ensures appended { end (content_at committed_twice group_topic (pos 0)) ≡ pos 2 }
    ensures latest_is_found { found_for committed_twice group_g
        ≡ Ok (Some (record { offset = pos 21; metadata = Some (codes "m") })) }
    ensures not_by_another_group { found_for committed_twice (codes "h") ≡ Ok None }
    ensures fetch { (reply committed_twice (offset_fetch_request (pos 6))).0 ≡ Some (
        0 ∷ 0 ∷ 0 ∷ 32 ∷ 0 ∷ 0 ∷ 0 ∷ 6 ∷ 0 ∷ 0 ∷ 0 ∷ 1 ∷ 0 ∷ 1 ∷ 116 ∷ 0 ∷ 0 ∷ 0 ∷ 1
        ∷ 0 ∷ 0 ∷ 0 ∷ 0 ∷ 0 ∷ 0 ∷ 0 ∷ 0 ∷ 0 ∷ 0 ∷ 0 ∷ 21 ∷ 0 ∷ 1 ∷ 109 ∷ 0 ∷ 0 ∷ []) }
    ensures one_is_forgotten { (reply committed_twice (forget_group_request (pos 7))).0 ≡ Some (
        0 ∷ 0 ∷ 0 ∷ 10 ∷ 0 ∷ 0 ∷ 0 ∷ 7 ∷ 0 ∷ 0 ∷ 0 ∷ 0 ∷ 0 ∷ 1 ∷ []) }
    ensures not_found_once_forgotten { found_for forgotten group_g ≡ Ok None }
{}
