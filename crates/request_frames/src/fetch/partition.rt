//! What a Fetch request asks of a partition.

ghost use Rattle.frame_fields.specs.Reading.{nothing};
ghost use Rattle.request_frames.specs.Fetch.{fetch_partition};

use frame_fields::fields::{int32, int64};
use frame_fields::{Element, FieldFault};

/// What a Fetch request asks of a partition.
#[derive(Clone, Copy)]
pub struct FetchPartition {
    /// The partition's index, as sent.
    pub partition: i32,
    /// The first offset that is wanted.
    pub offset: i64,
    /// The most bytes of records that are wanted. A negative number counts as 0.
    pub max_bytes: i32,
}

impl<'a> Element<'a> for FetchPartition {
    ghost fields = { fetch_partition };

    ghost value = { λ p. (p.partition, (p.offset, (p.max_bytes, nothing))) };

    #[tactic(auto, unfolding(frame_fields::specs::Reading::read_fields))]
    fn read(bytes: &'a [u8]) -> Result<(Self, &'a [u8]), FieldFault> {
        let (partition, rest) = int32(bytes)?;
        let (offset, rest) = int64(rest)?;
        let (max_bytes, rest) = int32(rest)?;
        let entry = FetchPartition {
            partition,
            offset,
            max_bytes,
        };
        Ok((entry, rest))
    }
}
