//! Arrays of a frame, read again element by element from the frame's bytes.

ghost use Rattle.std.specs.Prelude.{◌≡◌, length};
ghost use Rattle.std.specs.Option.{option_map};
ghost use Rattle.std.specs.Iterator.{YieldsFirstBy, item_count};
ghost use Rattle.frame_fields.specs.Reading.{Gives, map_ok, read_array, read_array_or_null, read_count, read_times, read_fields};
ghost use Rattle.frame_fields.specs.Arrays.{values};

use crate::error::FieldFault;
use crate::fields::int32;
use std::marker::{Model, PhantomData};

/// An element of an array: fields in a row.
pub trait Element<'a>: Sized {
    ghost use Rattle.frame_fields.specs.Fields.{Fields, Value};
    ghost use Rattle.frame_fields.specs.Reading.{Gives, read_fields};

    /// What the fields are.
    ghost fields: { Fields };

    /// The fields' values, apart from where their bytes lie.
    ghost value: { Self → Value fields };

    /// The element at the front, and the bytes after it.
    ///
    /// # Errors
    ///
    /// The fault of the first field that has one.
    fn read(bytes: &'a [u8]) -> Result<(Self, &'a [u8]), FieldFault>
        ensures { Gives (λ x. (value x.0, x.1.now)) result (read_fields fields bytes.now) };
}

/// An iterator over an array's elements, in order. It borrows the frame's bytes.
#[derive(Drop)]
pub struct Array<'a, E> {
    pub(crate) left: u32,
    pub(crate) bytes: &'a [u8],
    element: PhantomData<E>,
}

impl<'a, E> Model for Array<'a, E> {
    ghost use Rattle.frame_fields.specs.Arrays.{ArrayBytes};

    ghost Value = { ArrayBytes };

    ghost view = { λ a. record { count = a.left; bytes = a.bytes.now } };
}

impl<'a, E> Array<'a, E> {
    /// The same elements again. It takes no memory.
    pub fn duplicate(&self) -> Array<'a, E>
        ensures { result ≡ self.now }
    {
        Array {
            left: self.left,
            bytes: self.bytes,
            element: PhantomData,
        }
    }
}

impl<'a, E: Element<'a> + Drop> Array<'a, E> {
    /// How many elements are left. It reads them, and takes no memory.
    #[tactic(auto, using(crate::proofs::Arrays::count_elements))]
    pub fn len(&self) -> u32
        ensures { result ≡ length (values E.fields self.now) }
    {
        let mut rest = self.bytes;
        for count in 0..self.left {
            rest = match E::read(rest) {
                Ok((_element, next)) => next,
                Err(_) => return count,
            };
        }
        self.left
    }
}

impl<'a, E: Element<'a>> Iterator for Array<'a, E> {
    type Item = E;

    ghost next_gives = { YieldsFirstBy E.value (values E.fields) };

    ghost remaining = { item_count (values E.fields) };

    #[tactic(auto, using(crate::proofs::Arrays::next_element))]
    fn next(&mut self) -> Option<E> {
        if self.left == 0 {
            return None;
        }
        let (element, rest) = match E::read(self.bytes) {
            Ok(found) => found,
            Err(_) => return None,
        };
        self.left -= 1;
        self.bytes = rest;
        Some(element)
    }
}

/// The bytes after that many elements.
#[tactic(auto, using(crate::proofs::Arrays::times_loop))]
fn after_elements<'a, E: Element<'a> + Drop>(
    count: u32,
    bytes: &'a [u8],
) -> Result<&'a [u8], FieldFault>
    ensures { Gives (λ rest. rest.now) result
        (map_ok (λ x. x.1) (read_times (read_fields E.fields) count bytes.now)) }
{
    let mut rest = bytes;
    for _ in 0..count {
        rest = match E::read(rest) {
            Ok((_element, next)) => next,
            Err(fault) => return Err(fault),
        };
    }
    Ok(rest)
}

/// An array of that many elements, and the bytes after it.
#[tactic(auto, using(crate::proofs::Arrays::array_read))]
fn counted<'a, E: Element<'a> + Drop>(
    count: i32,
    bytes: &'a [u8],
) -> Result<(Array<'a, E>, &'a [u8]), FieldFault>
    ensures { Gives (λ x. (values E.fields x.0, x.1.now)) result
        (read_count (read_fields E.fields) count bytes.now) }
{
    let Ok(count) = u32::try_from(count) else {
        return Err(FieldFault::Malformed);
    };
    let rest = after_elements::<E>(count, bytes)?;
    let array = Array {
        left: count,
        bytes,
        element: PhantomData,
    };
    Ok((array, rest))
}

/// The array at the front, and the bytes after it. All its elements are read.
///
/// # Errors
///
/// `Malformed` where the count is negative, else the fault of the first field that has one.
#[tactic(auto, unfolding(crate::specs::Reading::read_array))]
pub fn array_at<'a, E: Element<'a> + Drop>(
    bytes: &'a [u8],
) -> Result<(Array<'a, E>, &'a [u8]), FieldFault>
    ensures { Gives (λ x. (values E.fields x.0, x.1.now)) result
        (read_array (read_fields E.fields) bytes.now) }
{
    let (count, rest) = int32(bytes)?;
    counted(count, rest)
}

/// The array at the front, or `None` for null, at count -1, and the bytes after it. All its elements
/// are read.
///
/// # Errors
///
/// `Malformed` where the count is below -1, else the fault of the first field that has one.
#[tactic(auto, unfolding(crate::specs::Reading::read_array_or_null))]
pub fn nullable_array_at<'a, E: Element<'a> + Drop>(
    bytes: &'a [u8],
) -> Result<(Option<Array<'a, E>>, &'a [u8]), FieldFault>
    ensures { Gives (λ x. (option_map (values E.fields) x.0, x.1.now)) result
        (read_array_or_null (read_fields E.fields) bytes.now) }
{
    let (count, rest) = int32(bytes)?;
    if count == -1 {
        return Ok((None, rest));
    }
    let (array, rest) = counted(count, rest)?;
    Ok((Some(array), rest))
}
