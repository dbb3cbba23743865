//! The file, judged where its bytes stand.

ghost use Rattle.std.specs.Prelude.{◌≡◌, [], IfErr, IfOk};
ghost use Rattle.std.specs.List.{list_all};
ghost use Rattle.frame_fields.specs.Arrays.{values};
ghost use Rattle.frame_fields.specs.Fields.{Encodes, Value, number, size8};
ghost use Rattle.frame_fields.specs.Reading.{Gives, map_read, nothing, read_field, read_fields};
ghost use Rattle.cleaning_marks.specs.Files.{IsMarksFile, covered, entry_fields, entry_with, file_view, is_entry, marks_fields, marks_in, raw_said, raw_view, signed_crc, start_fields};
ghost use Rattle.cleaning_marks.specs.declared.layout.TheConstants.{MARK, VERSION};
ghost use Rattle.cleaning_marks.specs.Faults.{HasStart, IsNoEncoding, MarksFault, have_marks};

use crate::error::MarksError;
use crate::layout::{MARK, VERSION};
use crate::numbers::{MarkNumbers, OneMark, is_mark, marks_in};
use crate::place::JournalPlace;
use checksum::Crc32c;
use cleaning_policy::Marks;
use frame_fields::fields::{int16, int32, int64, string};
use frame_fields::{Array, Element, FieldFault, array_at};

/// What the file keeps of a partition. The name is borrowed from the file's bytes.
#[derive(Clone, Copy)]
pub struct MarkedPartition<'a> {
    /// The topic's name.
    pub topic: &'a [u8],
    /// The partition's number, as it stands there: it may be negative.
    pub partition: i32,
    pub(crate) numbers: MarkNumbers,
}

impl<'a> MarkedPartition<'a> {
    /// Its marks.
    pub fn marks(&self) -> Marks
        ensures { result ≡ marks_in self.now.numbers }
    {
        marks_in(&self.numbers)
    }
}

/// The INT8 at the front.
#[tactic(auto, unfolding(frame_fields::specs::Reading::read_field, frame_fields::specs::Reading::read_number))]
fn int8(bytes: &[u8]) -> Result<(i8, &[u8]), FieldFault>
    ensures { Gives (λ x. (x.0, x.1.now)) result (read_field (number size8) bytes.now) }
{
    match bytes.split_first_chunk::<1>() {
        Some((first, rest)) => Ok((i8::from_be_bytes(*first), rest)),
        None => Err(FieldFault::ShortBody),
    }
}

impl<'a> Element<'a> for MarkedPartition<'a> {
    ghost fields = { entry_fields };

    ghost value = { λ p. entry_with p.topic.now p.partition p.numbers };

    #[tactic(auto, unfolding(frame_fields::specs::Reading::read_fields))]
    fn read(bytes: &'a [u8]) -> Result<(Self, &'a [u8]), FieldFault> {
        let (topic, rest) = string(bytes)?;
        let (partition, rest) = int32(rest)?;
        let (older_there, rest) = int8(rest)?;
        let (older_upto, rest) = int64(rest)?;
        let (older_ended, rest) = int64(rest)?;
        let (newest_there, rest) = int8(rest)?;
        let (newest_upto, rest) = int64(rest)?;
        let (newest_ended, rest) = int64(rest)?;
        let (used, rest) = int64(rest)?;
        let (reached, rest) = int64(rest)?;
        let (began, rest) = int64(rest)?;
        let (size, rest) = int64(rest)?;
        let numbers = MarkNumbers {
            older: OneMark {
                there: older_there,
                upto: older_upto,
                ended: older_ended,
            },
            newest: OneMark {
                there: newest_there,
                upto: newest_upto,
                ended: newest_ended,
            },
            used,
            reached,
            began,
            size,
        };
        Ok((
            MarkedPartition {
                topic,
                partition,
                numbers,
            },
            rest,
        ))
    }
}

/// What the file says. Names are borrowed from its bytes.
#[derive(Drop)]
pub struct MarksFile<'a> {
    /// The border of a journal behind which the marks hold.
    pub place: JournalPlace,
    /// The partitions, in the order in which they were written.
    pub partitions: Array<'a, MarkedPartition<'a>>,
}

/// The fields of a file, and the bytes after them.
#[tactic(auto, unfolding(frame_fields::specs::Reading::read_fields))]
fn fields_at(bytes: &[u8]) -> Result<(MarksFile<'_>, &[u8]), FieldFault>
    ensures { Gives (λ x. (raw_view x.0, x.1.now)) result
        (map_read raw_said (read_fields marks_fields bytes.now)) }
{
    let (number, rest) = int64(bytes)?;
    let (key, rest) = int64(rest)?;
    let (size, rest) = int64(rest)?;
    let (group_at, rest) = int64(rest)?;
    let (group_crc, rest) = int32(rest)?;
    let (partitions, rest) = array_at(rest)?;
    let place = JournalPlace {
        number: number.cast_unsigned(),
        key,
        size: size.cast_unsigned(),
        group_at: group_at.cast_unsigned(),
        group_crc: group_crc.cast_unsigned(),
    };
    Ok((MarksFile { place, partitions }, rest))
}

/// The fields of a file that these bytes are, if they are nothing else.
#[tactic(auto, using(crate::proofs::Judging::fields_read, crate::proofs::Judging::more_behind, crate::proofs::Judging::not_read))]
fn whole_fields(bytes: &[u8]) -> Result<MarksFile<'_>, MarksError>
    ensures reads { IfOk result (λ file. (v : Value marks_fields)
        × Encodes marks_fields v bytes.now [] × (raw_view file ≡ raw_said v)) }
    ensures refuses { IfErr result (λ e. (e ≡ MarksError.BadFields) × IsNoEncoding bytes.now) }
{
    match fields_at(bytes) {
        Ok((file, rest)) => {
            if rest.is_empty() {
                Ok(file)
            } else {
                Err(MarksError::BadFields)
            }
        }
        Err(_) => Err(MarksError::BadFields),
    }
}

/// Whether a partition has the numbers of marks.
fn is_entry(one: &MarkedPartition<'_>) -> bool
    ensures { result ≡ is_entry (entry_with one.now.topic.now one.now.partition one.now.numbers) }
{
    is_mark(&one.numbers.older) && is_mark(&one.numbers.newest)
}

/// Whether each partition has the numbers of marks.
fn have_marks<'a>(partitions: &Array<'a, MarkedPartition<'a>>) -> bool
    ensures { result ≡ list_all is_entry (values entry_fields partitions.now) }
{
    for one in partitions.duplicate() {
        if !is_entry(&one) {
            return false;
        }
    }
    true
}

/// What a file begins with.
#[derive(Clone, Copy)]
struct Start {
    crc: i32,
    mark: i32,
    version: i16,
}

/// What a file begins with, and the bytes behind it.
#[tactic(auto, unfolding(frame_fields::specs::Reading::read_fields))]
fn start_at(bytes: &[u8]) -> Result<(Start, &[u8]), FieldFault>
    ensures { Gives (λ x. ((x.0.crc, (x.0.mark, (x.0.version, nothing))), x.1.now)) result
        (read_fields start_fields bytes.now) }
{
    let (crc, rest) = int32(bytes)?;
    let (mark, rest) = int32(rest)?;
    let (version, rest) = int16(rest)?;
    Ok((Start { crc, mark, version }, rest))
}

/// The crc that a file begins with, and its fields, where the mark and the version are those of such a file.
#[tactic(auto, using(crate::proofs::Judging::start_broken, crate::proofs::Judging::other_mark, crate::proofs::Judging::other_version))]
fn judge_start(bytes: &[u8]) -> Result<(i32, &[u8]), MarksError>
    ensures has_start { IfOk result (λ x. HasStart x.0 MARK VERSION bytes.now x.1.now) }
    ensures refuses { IfErr result (λ e. MarksFault e bytes.now) }
{
    let Ok((start, fields)) = start_at(bytes) else {
        return Err(MarksError::Short);
    };
    if start.mark != MARK {
        return Err(MarksError::BadMark);
    }
    if start.version != VERSION {
        return Err(MarksError::BadVersion);
    }
    Ok((start.crc, fields))
}

/// The crc of a file that has these bytes of fields.
pub(crate) fn crc_of_fields(fields: &[u8]) -> i32
    ensures { result ≡ signed_crc (covered fields.now) }
{
    let mut crc = Crc32c::new();
    crc.feed(&MARK.to_be_bytes());
    crc.feed(&VERSION.to_be_bytes());
    crc.feed(fields);
    crc.value().cast_signed()
}

/// What a file says that has these bytes and no others. It takes no memory.
///
/// # Errors
///
/// Why they are no such file: the first of the reasons, in the order of [`MarksError`].
pub fn judge_marks(bytes: &[u8]) -> Result<MarksFile<'_>, MarksError>
    ensures accepts { IfOk result (λ file. IsMarksFile (file_view file) bytes.now) }
    ensures refuses { IfErr result (λ e. MarksFault e bytes.now) }
{
    let (crc, fields) = judge_start(bytes)?;
    if crc_of_fields(fields) != crc {
        return Err(MarksError::BadCrc);
    }
    let file = whole_fields(fields)?;
    if !have_marks(&file.partitions) {
        return Err(MarksError::BadMarks);
    }
    Ok(file)
}
