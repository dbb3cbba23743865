//! The law of a Produce response.

ghost use Rattle.std.specs.Prelude.{◌≡◌, List, ◌++◌, length};
ghost use Rattle.std.specs.List.{flat_map};
ghost use Rattle.frame_fields.specs.Fields.{encoded};
ghost use Rattle.frame_fields.specs.Types.{TopicOf};
ghost use Rattle.responses.specs.Responses.{topic_bytes};
ghost use Rattle.responses.specs.declared.produce.partition.ProducedPartition.{ProducedPartition};
ghost use Rattle.responses.specs.Produce.{produce_response, produce_value, produce_head, produced_bytes, produce_tail};

/// The parts of a Produce response.
#[tactic(auto, using(crate::proofs::ProduceParts::produce_parts))]
pub fn produce_parts()
    ensures { (ts : List (TopicOf ProducedPartition)) → encoded produce_response (produce_value ts)
        ≡ produce_head (length ts) ++ (flat_map (topic_bytes produced_bytes) ts ++ produce_tail) }
{}
