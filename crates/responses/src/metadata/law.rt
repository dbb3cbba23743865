//! The law of a Metadata response.

ghost use Rattle.std.specs.Prelude.{◌≡◌, ℤ, List, ◌++◌, length};
ghost use Rattle.std.specs.List.{flat_map};
ghost use Rattle.frame_fields.specs.Fields.{encoded};
ghost use Rattle.responses.specs.Metadata.{MetadataOfBroker, MetadataOfTopic, metadata_response, metadata_value, metadata_head, metadata_topic_bytes};

/// The parts of a Metadata response.
#[tactic(auto, using(crate::proofs::MetadataParts::metadata_parts))]
pub fn metadata_parts()
    ensures { (b : MetadataOfBroker) (controller : ℤ) (ts : List MetadataOfTopic)
        → encoded metadata_response (metadata_value b controller ts)
        ≡ metadata_head b.node_id b.host b.port controller (length ts) ++ flat_map metadata_topic_bytes ts }
{}
