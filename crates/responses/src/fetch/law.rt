//! The law of a Fetch response.

ghost use Rattle.std.specs.Prelude.{◌≡◌, List, ◌++◌, length};
ghost use Rattle.std.specs.List.{flat_map};
ghost use Rattle.frame_fields.specs.Fields.{encoded};
ghost use Rattle.frame_fields.specs.Types.{TopicOf};
ghost use Rattle.responses.specs.Responses.{topic_bytes};
ghost use Rattle.responses.specs.Fetch.{Fetched, fetch_response, fetch_value, fetch_head, fetched_bytes};

/// The parts of a Fetch response.
#[tactic(auto, using(crate::proofs::FetchParts::fetch_parts))]
pub fn fetch_parts()
    ensures { (ts : List (TopicOf Fetched)) → encoded fetch_response (fetch_value ts)
        ≡ fetch_head (length ts) ++ flat_map (topic_bytes fetched_bytes) ts }
{}
