//! The law of an OffsetCommit response.

ghost use Rattle.std.specs.Prelude.{◌≡◌, List, ◌++◌, length};
ghost use Rattle.std.specs.List.{flat_map};
ghost use Rattle.frame_fields.specs.Fields.{encoded};
ghost use Rattle.frame_fields.specs.Types.{TopicOf};
ghost use Rattle.responses.specs.Responses.{topic_bytes};
ghost use Rattle.responses.specs.declared.offset_commit.partition.CommittedPartition.{CommittedPartition};
ghost use Rattle.responses.specs.OffsetCommit.{offset_commit_response, offset_commit_value, offset_commit_head, committed_partition_bytes};

/// The parts of an OffsetCommit response.
#[tactic(auto, using(crate::proofs::OffsetCommitParts::offset_commit_parts))]
pub fn offset_commit_parts()
    ensures { (ts : List (TopicOf CommittedPartition))
        → encoded offset_commit_response (offset_commit_value ts)
        ≡ offset_commit_head (length ts) ++ flat_map (topic_bytes committed_partition_bytes) ts }
{}
