//! A protocol of a JoinGroup request.

ghost use Rattle.frame_fields.specs.Reading.{nothing};
ghost use Rattle.member_frames.specs.JoinGroup.{protocol_fields};

use frame_fields::fields::{long_bytes, string};
use frame_fields::{Element, FieldFault};

/// A way of dividing partitions that a member knows.
#[derive(Clone, Copy)]
pub struct Protocol<'a> {
    /// Its name.
    pub name: &'a [u8],
    /// What the member tells the leader about itself.
    pub metadata: &'a [u8],
}

impl<'a> Element<'a> for Protocol<'a> {
    ghost fields = { protocol_fields };

    ghost value = { λ p. (p.name.now, (p.metadata.now, nothing)) };

    #[tactic(auto, unfolding(frame_fields::specs::Reading::read_fields))]
    fn read(bytes: &'a [u8]) -> Result<(Self, &'a [u8]), FieldFault> {
        let (name, rest) = string(bytes)?;
        let (metadata, rest) = long_bytes(rest)?;
        Ok((Protocol { name, metadata }, rest))
    }
}
