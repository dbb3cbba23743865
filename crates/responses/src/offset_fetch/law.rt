//! The law of an OffsetFetch response.

ghost use Rattle.std.specs.Prelude.{◌≡◌, List, ◌++◌, length};
ghost use Rattle.std.specs.List.{flat_map};
ghost use Rattle.frame_fields.specs.Fields.{encoded};
ghost use Rattle.frame_fields.specs.Types.{TopicOf};
ghost use Rattle.responses.specs.Responses.{topic_bytes};
ghost use Rattle.responses.specs.OffsetFetch.{FetchedOffset, offset_fetch_response, offset_fetch_value, offset_fetch_head, fetched_offset_bytes};

/// The parts of an OffsetFetch response.
#[tactic(auto, using(crate::proofs::OffsetFetchParts::offset_fetch_parts))]
pub fn offset_fetch_parts()
    ensures { (ts : List (TopicOf FetchedOffset))
        → encoded offset_fetch_response (offset_fetch_value ts)
        ≡ offset_fetch_head (length ts) ++ flat_map (topic_bytes fetched_offset_bytes) ts }
{}
