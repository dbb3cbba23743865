//! A range of offsets that are asked for.

ghost use Rattle.frame_fields.specs.Reading.{nothing};
ghost use Rattle.request_frames.specs.ExportDelta.{asked_fields};

use frame_fields::fields::int64;
use frame_fields::{Element, FieldFault};

/// A range of offsets that are asked for.
#[derive(Clone, Copy)]
pub struct AskedRange {
    /// The first offset, as sent. Any number may have been sent.
    pub first: i64,
    /// The last offset, as sent.
    pub last: i64,
}

impl<'a> Element<'a> for AskedRange {
    ghost fields = { asked_fields };

    ghost value = { λ range. (range.first, (range.last, nothing)) };

    #[tactic(auto, unfolding(frame_fields::specs::Reading::read_fields))]
    fn read(bytes: &'a [u8]) -> Result<(Self, &'a [u8]), FieldFault> {
        let (first, rest) = int64(bytes)?;
        let (last, rest) = int64(rest)?;
        Ok((AskedRange { first, last }, rest))
    }
}
