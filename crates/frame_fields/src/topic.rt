//! Topics and their names, as they stand in requests.

ghost use Rattle.frame_fields.specs.Reading.{nothing};
ghost use Rattle.frame_fields.specs.Fields.{end};
ghost use Rattle.frame_fields.specs.Types.{string, topic, ◌⨾◌};
ghost use Rattle.frame_fields.specs.Arrays.{values};

use crate::array::{Array, Element, array_at};
use crate::error::FieldFault;
use crate::fields::string;

/// A topic of a request, with an entry for each of its partitions.
#[derive(Drop)]
pub struct Topic<'a, E> {
    /// The name, as sent. It need not be the name of a topic.
    pub name: &'a [u8],
    /// The entries, in order.
    pub partitions: Array<'a, E>,
}

impl<'a, E: Element<'a> + Drop> Element<'a> for Topic<'a, E> {
    ghost fields = { topic E.fields };

    ghost value = { λ t. (t.name.now, (values E.fields t.partitions, nothing)) };

    #[tactic(auto, unfolding(crate::specs::Reading::read_fields))]
    fn read(bytes: &'a [u8]) -> Result<(Self, &'a [u8]), FieldFault> {
        let (name, rest) = string(bytes)?;
        let (partitions, rest) = array_at::<E>(rest)?;
        Ok((Topic { name, partitions }, rest))
    }
}

/// A topic's name.
#[derive(Clone, Copy)]
pub struct Name<'a>(
    /// The name, as sent. It need not be the name of a topic.
    pub &'a [u8],
);

impl<'a> Element<'a> for Name<'a> {
    ghost fields = { string ⨾ end };

    ghost value = { λ n. (n.0.now, nothing) };

    #[tactic(auto, unfolding(crate::specs::Reading::read_fields))]
    fn read(bytes: &'a [u8]) -> Result<(Self, &'a [u8]), FieldFault> {
        let (name, rest) = string(bytes)?;
        Ok((Name(name), rest))
    }
}
