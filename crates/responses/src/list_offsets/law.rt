//! The law of a ListOffsets response.

ghost use Rattle.std.specs.Prelude.{◌≡◌, List, ◌++◌, length};
ghost use Rattle.std.specs.List.{flat_map};
ghost use Rattle.frame_fields.specs.Fields.{encoded};
ghost use Rattle.frame_fields.specs.Types.{TopicOf};
ghost use Rattle.responses.specs.Responses.{topic_bytes};
ghost use Rattle.responses.specs.declared.list_offsets.partition.ListedPartition.{ListedPartition};
ghost use Rattle.responses.specs.ListOffsets.{list_offsets_response, list_offsets_value, list_offsets_head, list_offsets_answer_bytes};

/// The parts of a ListOffsets response.
#[tactic(auto, using(crate::proofs::ListOffsetsParts::list_offsets_parts))]
pub fn list_offsets_parts()
    ensures { (ts : List (TopicOf ListedPartition))
        → encoded list_offsets_response (list_offsets_value ts)
        ≡ list_offsets_head (length ts) ++ flat_map (topic_bytes list_offsets_answer_bytes) ts }
{}
