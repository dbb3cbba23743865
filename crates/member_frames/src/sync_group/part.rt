//! A part of a SyncGroup request.

ghost use Rattle.frame_fields.specs.Reading.{nothing};
ghost use Rattle.member_frames.specs.SyncGroup.{part_fields};

use frame_fields::fields::{long_bytes, string};
use frame_fields::{Element, FieldFault};

/// What the leader gives a member.
#[derive(Clone, Copy)]
pub struct Part<'a> {
    /// The member's id, as sent. It need not be that of a member.
    pub id: &'a [u8],
    /// The member's part.
    pub part: &'a [u8],
}

impl<'a> Element<'a> for Part<'a> {
    ghost fields = { part_fields };

    ghost value = { λ p. (p.id.now, (p.part.now, nothing)) };

    #[tactic(auto, unfolding(frame_fields::specs::Reading::read_fields))]
    fn read(bytes: &'a [u8]) -> Result<(Self, &'a [u8]), FieldFault> {
        let (id, rest) = string(bytes)?;
        let (part, rest) = long_bytes(rest)?;
        Ok((Part { id, part }, rest))
    }
}
