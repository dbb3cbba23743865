//! What an OffsetCommit request asks of a partition.

ghost use Rattle.std.specs.Option.{option_map};
ghost use Rattle.frame_fields.specs.Reading.{nothing};
ghost use Rattle.request_frames.specs.OffsetCommit.{offset_commit_partition};

use frame_fields::fields::{int32, int64, nullable_string};
use frame_fields::{Element, FieldFault};

/// What an OffsetCommit request asks of a partition.
#[derive(Clone, Copy)]
pub struct OffsetCommitPartition<'a> {
    /// The partition's index, as sent.
    pub partition: i32,
    /// The offset that the group has reached. Any number may have been sent.
    pub offset: i64,
    /// What is kept with the offset, or `None` where it is null.
    pub metadata: Option<&'a [u8]>,
}

impl<'a> Element<'a> for OffsetCommitPartition<'a> {
    ghost fields = { offset_commit_partition };

    ghost value = { λ p. (
      p.partition,
      (
        p.offset,
        (option_map (λ bytes. bytes.now) p.metadata, nothing),
      ),
    ) };

    #[tactic(auto, unfolding(frame_fields::specs::Reading::read_fields))]
    fn read(bytes: &'a [u8]) -> Result<(Self, &'a [u8]), FieldFault> {
        let (partition, rest) = int32(bytes)?;
        let (offset, rest) = int64(rest)?;
        let (metadata, rest) = nullable_string(rest)?;
        let entry = OffsetCommitPartition {
            partition,
            offset,
            metadata,
        };
        Ok((entry, rest))
    }
}
