//! The file, written.

ghost use Rattle.std.specs.Prelude.{◌≡◌, ◌++◌, pos, length, map, OnErr, OnOk};
ghost use Rattle.std.specs.Int.{cast_signed, w32};
ghost use Rattle.frame_fields.specs.Fields.{be, counted, elements, encoded, size16, size32, size64, size8};
ghost use Rattle.cleaning_marks.specs.Files.{as_int64, entry_fields, kept_of, marks_bytes, marks_fields, marks_value, part_value, start_of};

use crate::layout::{MARK, VERSION};
use crate::numbers::{MarkNumbers, OneMark, numbers_of};
use crate::place::JournalPlace;
use crate::reading::crc_of_fields;
use cleaning_policy::Marks;
use responses::{append_fixed, count_bytes};
use std::alloc::{AllocError, Allocator};

/// What is to be kept of a partition.
#[derive(Clone, Copy)]
pub struct PartitionMarks<'a> {
    /// The topic's name, of 32,767 bytes at the most.
    pub topic: &'a [u8],
    /// The partition's number.
    pub partition: i32,
    /// Its marks.
    pub marks: Marks,
}

/// How many bytes stand before the fields.
const START_BYTES: usize = 10;

/// The bytes of an INT64.
fn int64_bytes(number: &i64) -> [u8; 8]
    ensures { result ≡ be size64 number.now }
{
    number.to_be_bytes()
}

/// The bytes of a number without a sign, as an INT64.
fn uint64_bytes(number: &u64) -> [u8; 8]
    ensures { result ≡ be size64 (as_int64 number.now) }
{
    number.to_be_bytes()
}

/// The bytes of an INT32.
fn int32_bytes(number: &i32) -> [u8; 4]
    ensures { result ≡ be size32 number.now }
{
    number.to_be_bytes()
}

/// The bytes of an INT16.
fn int16_bytes(number: &i16) -> [u8; 2]
    ensures { result ≡ be size16 number.now }
{
    number.to_be_bytes()
}

/// The byte of an INT8.
fn int8_bytes(number: &i8) -> [u8; 1]
    ensures { result ≡ be size8 number.now }
{
    number.to_be_bytes()
}

/// How many bytes a name has, as an INT16.
fn length_bytes(name: &[u8]) -> [u8; 2]
    ensures { result ≡ be size16 (pos (length name.now)) }
{
    let [_, _, _, _, _, _, a, b] = name.len().to_be_bytes();
    [a, b]
}

/// Appends a mark, or none.
fn put_mark<A: Allocator + Copy>(out: &mut Vec<u8, A>, one: &OneMark) -> Result<(), AllocError>
    ensures { OnOk result (out.new.items ≡ out.old.items
        ++ (be size8 one.now.there ++ (be size64 one.now.upto ++ be size64 one.now.ended))) }
{
    append_fixed(out, &int8_bytes(&one.there))?;
    append_fixed(out, &int64_bytes(&one.upto))?;
    append_fixed(out, &int64_bytes(&one.ended))
}

/// Appends what follows the marks of a partition.
fn put_rest<A: Allocator + Copy>(
    out: &mut Vec<u8, A>,
    numbers: &MarkNumbers,
) -> Result<(), AllocError>
    ensures { OnOk result (out.new.items ≡ out.old.items
        ++ (be size64 numbers.now.used ++ (be size64 numbers.now.reached
        ++ (be size64 numbers.now.began ++ be size64 numbers.now.size)))) }
{
    append_fixed(out, &int64_bytes(&numbers.used))?;
    append_fixed(out, &int64_bytes(&numbers.reached))?;
    append_fixed(out, &int64_bytes(&numbers.began))?;
    append_fixed(out, &int64_bytes(&numbers.size))
}

/// Appends a name behind its length.
fn put_name<A: Allocator + Copy>(out: &mut Vec<u8, A>, name: &[u8]) -> Result<(), AllocError>
    ensures { OnOk result
        (out.new.items ≡ out.old.items ++ counted size16 (length name.now) name.now) }
{
    append_fixed(out, &length_bytes(name))?;
    out.extend_from_slice(name)
}

/// Appends what is kept of a partition.

fn put_entry<A: Allocator + Copy>(
    out: &mut Vec<u8, A>,
    one: &PartitionMarks<'_>,
) -> Result<(), AllocError>
    ensures { OnOk result (out.new.items
        ≡ out.old.items ++ encoded entry_fields (part_value one.now)) }
{
    let numbers = numbers_of(&one.marks);
    put_name(out, one.topic)?;
    append_fixed(out, &int32_bytes(&one.partition))?;
    put_mark(out, &numbers.older)?;
    put_mark(out, &numbers.newest)?;
    put_rest(out, &numbers)
}

/// Appends partitions, behind their count.
#[tactic(auto, using(crate::proofs::Parts::entries_begun, crate::proofs::Parts::entries_done))]
fn put_entries<A: Allocator + Copy>(
    out: &mut Vec<u8, A>,
    partitions: &[PartitionMarks<'_>],
) -> Result<(), AllocError>
    ensures { OnOk result (out.new.items ≡ out.old.items
        ++ elements (encoded entry_fields) (map part_value partitions.now)) }
{
    let Ok(count) = u32::try_from(partitions.len()) else {
        return Err(AllocError);
    };
    append_fixed(out, &count_bytes(count))?;
    for one in partitions {
        put_entry(out, one)?;
    }
    Ok(())
}

/// Appends a place of a journal.
fn put_place<A: Allocator + Copy>(
    out: &mut Vec<u8, A>,
    place: &JournalPlace,
) -> Result<(), AllocError>
    ensures { OnOk result (out.new.items ≡ out.old.items
        ++ (be size64 (as_int64 place.now.number) ++ (be size64 place.now.key
        ++ (be size64 (as_int64 place.now.size) ++ (be size64 (as_int64 place.now.group_at)
        ++ be size32 (cast_signed w32 place.now.group_crc)))))) }
{
    append_fixed(out, &uint64_bytes(&place.number))?;
    append_fixed(out, &int64_bytes(&place.key))?;
    append_fixed(out, &uint64_bytes(&place.size))?;
    append_fixed(out, &uint64_bytes(&place.group_at))?;
    append_fixed(out, &int32_bytes(&place.group_crc.cast_signed()))
}

/// Appends the fields of a file.
#[tactic(auto, using(crate::proofs::Parts::fields_put))]
fn put_fields<A: Allocator + Copy>(
    out: &mut Vec<u8, A>,
    place: &JournalPlace,
    partitions: &[PartitionMarks<'_>],
) -> Result<(), AllocError>
    ensures { OnOk result (out.new.items ≡ out.old.items ++ encoded marks_fields
        (marks_value (record { place = place.now; partitions = map kept_of partitions.now }))) }
{
    put_place(out, place)?;
    put_entries(out, partitions)
}

/// What stands before these bytes of fields: the crc, the mark and the version.
fn start_bytes(fields: &[u8]) -> [u8; START_BYTES]
    ensures { result ≡ start_of fields.now }
{
    let [a, b, c, d] = int32_bytes(&crc_of_fields(fields));
    let [e, f, g, h] = int32_bytes(&MARK);
    let [i, j] = int16_bytes(&VERSION);
    [a, b, c, d, e, f, g, h, i, j]
}

/// Appends the bytes of the file that says this. All or nothing.
///
/// A name, or a number of partitions, that is too large for its field is written so that it can't be read again; no broker
/// has such. All other numbers fit.
///
/// # Errors
///
/// `AllocError` where there is no memory for it: the output is as before.
#[tactic(auto, using(crate::proofs::Parts::file_put))]
pub fn put_marks<A: Allocator + Copy>(
    alloc: A,
    place: JournalPlace,
    partitions: &[PartitionMarks<'_>],
    out: &mut Vec<u8, A>,
) -> Result<(), AllocError>
    ensures appends { OnOk result (out.new.items ≡ out.old.items
        ++ marks_bytes (record { place = place; partitions = map kept_of partitions.now })) }
    ensures unchanged_on_error { OnErr result (out.new.items ≡ out.old.items) }
{
    let mut fields = Vec::new(alloc);
    put_fields(&mut fields, &place, partitions)?;
    let start = start_bytes(&fields);
    out.reserve(start.len() + fields.len())?;
    out.extend_from_slice(&start)?;
    out.extend_from_slice(&fields)
}
