//! What a ListOffsets request asks of a partition.

ghost use Rattle.frame_fields.specs.Reading.{nothing};
ghost use Rattle.request_frames.specs.ListOffsets.{list_offsets_partition};

use frame_fields::fields::{int32, int64};
use frame_fields::{Element, FieldFault};

/// What a ListOffsets request asks of a partition.
#[derive(Clone, Copy)]
pub struct ListOffsetsPartition {
    /// The partition's index, as sent.
    pub partition: i32,
    /// A time in milliseconds, -1 for the log's end, or -2 for its start. Any number may
    /// have been sent.
    pub time: i64,
}

impl<'a> Element<'a> for ListOffsetsPartition {
    ghost fields = { list_offsets_partition };

    ghost value = { λ p. (p.partition, (p.time, nothing)) };

    #[tactic(auto, unfolding(frame_fields::specs::Reading::read_fields))]
    fn read(bytes: &'a [u8]) -> Result<(Self, &'a [u8]), FieldFault> {
        let (partition, rest) = int32(bytes)?;
        let (time, rest) = int64(rest)?;
        Ok((ListOffsetsPartition { partition, time }, rest))
    }
}
