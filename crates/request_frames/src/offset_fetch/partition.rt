//! What an OffsetFetch request asks of a partition.

ghost use Rattle.frame_fields.specs.Reading.{nothing};
ghost use Rattle.request_frames.specs.OffsetFetch.{offset_fetch_partition};

use frame_fields::fields::int32;
use frame_fields::{Element, FieldFault};

/// What an OffsetFetch request asks of a partition.
#[derive(Clone, Copy)]
pub struct OffsetFetchPartition {
    /// The partition's index, as sent.
    pub partition: i32,
}

impl<'a> Element<'a> for OffsetFetchPartition {
    ghost fields = { offset_fetch_partition };

    ghost value = { λ p. (p.partition, nothing) };

    #[tactic(auto, unfolding(frame_fields::specs::Reading::read_fields))]
    fn read(bytes: &'a [u8]) -> Result<(Self, &'a [u8]), FieldFault> {
        let (partition, rest) = int32(bytes)?;
        Ok((OffsetFetchPartition { partition }, rest))
    }
}
