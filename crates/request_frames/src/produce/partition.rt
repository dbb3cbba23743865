//! What a Produce request asks of a partition.

ghost use Rattle.std.specs.Option.{option_map};
ghost use Rattle.frame_fields.specs.Reading.{nothing};
ghost use Rattle.request_frames.specs.Produce.{produce_partition};

use frame_fields::fields::{int32, nullable_bytes};
use frame_fields::{Element, FieldFault};

/// What a Produce request asks of a partition.
#[derive(Clone, Copy)]
pub struct ProducePartition<'a> {
    /// The partition's index, as sent.
    pub index: i32,
    /// A record batch, as sent, or `None` where it is null.
    pub records: Option<&'a [u8]>,
}

impl<'a> Element<'a> for ProducePartition<'a> {
    ghost fields = { produce_partition };

    ghost value = { λ p. (p.index, (option_map (λ bytes. bytes.now) p.records, nothing)) };

    #[tactic(auto, unfolding(frame_fields::specs::Reading::read_fields))]
    fn read(bytes: &'a [u8]) -> Result<(Self, &'a [u8]), FieldFault> {
        let (index, rest) = int32(bytes)?;
        let (records, rest) = nullable_bytes(rest)?;
        Ok((ProducePartition { index, records }, rest))
    }
}
