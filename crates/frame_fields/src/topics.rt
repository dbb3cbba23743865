//! The topics of a request, read one after the other from the frame's bytes, whatever their entries
//! are.

ghost use Rattle.std.specs.Prelude.{◌≡◌, length};
ghost use Rattle.std.specs.Iterator.{YieldsFirstBy, item_count};
ghost use Rattle.frame_fields.specs.Reading.{nothing};
ghost use Rattle.frame_fields.specs.Types.{topic};
ghost use Rattle.frame_fields.specs.Arrays.{values};

use crate::array::{Array, Element};
use crate::topic::Topic;
use std::marker::{Model, PhantomData};

/// An iterator over topics, in order, for code that doesn't know the type of their entries; where it
/// is known, `Array` serves. It borrows the frame's bytes.
#[derive(Drop)]
pub struct Topics<'a, E> {
    left: u32,
    bytes: &'a [u8],
    entry: PhantomData<E>,
}

impl<'a, E> Model for Topics<'a, E> {
    ghost use Rattle.frame_fields.specs.Arrays.{ArrayBytes};

    ghost Value = { ArrayBytes };

    ghost view = { λ t. record { count = t.left; bytes = t.bytes.now } };
}

impl<'a, E> Topics<'a, E> {
    /// The topics that are left in an array. It takes no memory.
    pub fn of(array: &Array<'a, Topic<'a, E>>) -> Topics<'a, E>
        ensures { result ≡ array.now }
    {
        Topics {
            left: array.left,
            bytes: array.bytes,
            entry: PhantomData,
        }
    }
}

impl<'a, E: Element<'a> + Drop> Topics<'a, E> {
    /// How many topics are left. It reads them, and takes no memory.
    #[tactic(auto, using(crate::proofs::Arrays::count_elements))]
    pub fn len(&self) -> u32
        ensures { result ≡ length (values (topic E.fields) self.now) }
    {
        let mut rest = self.bytes;
        for count in 0..self.left {
            rest = match Topic::<'a, E>::read(rest) {
                Ok((_topic, next)) => next,
                Err(_) => return count,
            };
        }
        self.left
    }
}

impl<'a, E: Element<'a> + Drop> Iterator for Topics<'a, E> {
    type Item = Topic<'a, E>;

    ghost next_gives = { YieldsFirstBy
        (λ t. (t.name.now, (values E.fields t.partitions, nothing))) (values (topic E.fields)) };

    ghost remaining = { item_count (values (topic E.fields)) };

    #[tactic(auto, using(crate::proofs::Arrays::next_element))]
    fn next(&mut self) -> Option<Topic<'a, E>> {
        if self.left == 0 {
            return None;
        }
        let (topic, rest) = match Topic::<'a, E>::read(self.bytes) {
            Ok(found) => found,
            Err(_) => return None,
        };
        self.left -= 1;
        self.bytes = rest;
        Some(topic)
    }
}
