//! What a snapshot says of a partition.

ghost use Rattle.frame_fields.specs.Reading.{nothing};
ghost use Rattle.snapshots.specs.Heads.{partition_fields};

use frame_fields::fields::int64;
use frame_fields::{Element, FieldFault};

/// What a snapshot says of a partition.
#[derive(Clone, Copy)]
pub struct SnapshotPartition {
    /// How many bytes its image has, as it stands there: it may be negative.
    pub size: i64,
}

impl<'a> Element<'a> for SnapshotPartition {
    ghost fields = { partition_fields };

    ghost value = { λ p. (p.size, nothing) };

    #[tactic(auto, unfolding(frame_fields::specs::Reading::read_fields))]
    fn read(bytes: &'a [u8]) -> Result<(Self, &'a [u8]), FieldFault> {
        let (size, rest) = int64(bytes)?;
        Ok((SnapshotPartition { size }, rest))
    }
}
