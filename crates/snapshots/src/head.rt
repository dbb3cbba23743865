//! The head of a snapshot, judged where its bytes stand.

ghost use Rattle.std.specs.Prelude.{◌≡◌, [], IfOk, IfErr, None, Some};
ghost use Rattle.frame_fields.specs.Fields.{Encodes, Value, end};
ghost use Rattle.frame_fields.specs.Types.{bytes, ◌⨾◌};
ghost use Rattle.frame_fields.specs.Reading.{Gives, map_read, nothing, read_fields};
ghost use Rattle.snapshots.specs.Heads.{StartsWithHead, covered, key_fields, signed_crc, snapshot_fields, snapshot_said, snapshot_view, start_fields};
ghost use Rattle.snapshots.specs.Faults.{HasFront, HeadFault, IsFrontFault, IsNoEncoding, size_error};

use crate::error::SnapshotError;
use crate::layout::{MARK, OLD_VERSION, VERSION};
use crate::partition::SnapshotPartition;
use checksum::Crc32c;
use frame_fields::fields::{int16, int32, int64, long_bytes};
use frame_fields::{Array, FieldFault, Topic, array_at};

/// The head of a snapshot, whose texts are borrowed from its bytes.
#[derive(Drop)]
pub struct SnapshotHead<'a> {
    /// The snapshot's number.
    pub number: i64,
    /// What the broker is to its partitions: 0 their leader, 1 a follower.
    pub role: i16,
    /// The first producer id that the broker was set up to give out.
    pub first_producer: i64,
    /// The producer id that it gives out next.
    pub next_producer: i64,
    /// Its topics in their order, with the size of each partition's image.
    pub topics: Array<'a, Topic<'a, SnapshotPartition>>,
    /// The key of the journal that has the snapshot's number; none in a head of version 0.
    pub journal_key: Option<i64>,
}

/// The fields of a head, and the bytes after them. The key stands before them.
#[tactic(auto, unfolding(frame_fields::specs::Reading::read_fields))]
fn fields_at(
    bytes: &[u8],
    journal_key: Option<i64>,
) -> Result<(SnapshotHead<'_>, &[u8]), FieldFault>
    ensures keyed { IfOk result (λ x. x.0.journal_key ≡ journal_key) }
    ensures reads { Gives (λ x. (snapshot_view x.0, x.1.now)) result
        (map_read snapshot_said (read_fields snapshot_fields bytes.now)) }
{
    let (number, rest) = int64(bytes)?;
    let (role, rest) = int16(rest)?;
    let (first_producer, rest) = int64(rest)?;
    let (next_producer, rest) = int64(rest)?;
    let (topics, rest) = array_at(rest)?;
    Ok((
        SnapshotHead {
            number,
            role,
            first_producer,
            next_producer,
            topics,
            journal_key,
        },
        rest,
    ))
}

/// The fields of a head that these bytes are, if they are nothing else.
#[tactic(auto, using(crate::proofs::Judging::fields_read, crate::proofs::Judging::more_behind, crate::proofs::Judging::not_read))]
fn whole_fields(bytes: &[u8], journal_key: Option<i64>) -> Result<SnapshotHead<'_>, SnapshotError>
    ensures keyed { IfOk result (λ head. head.journal_key ≡ journal_key) }
    ensures reads { IfOk result (λ head. (fields : Value snapshot_fields)
        × Encodes snapshot_fields fields bytes.now [] × (snapshot_view head ≡ snapshot_said fields)) }
    ensures refuses { IfErr result (λ e. (e ≡ SnapshotError.BadFields) × IsNoEncoding bytes.now) }
{
    match fields_at(bytes, journal_key) {
        Ok((head, rest)) => {
            if rest.is_empty() {
                Ok(head)
            } else {
                Err(SnapshotError::BadFields)
            }
        }
        Err(_) => Err(SnapshotError::BadFields),
    }
}

/// What the head of each version begins with.
#[derive(Clone, Copy)]
struct Start {
    crc: i32,
    mark: i32,
    version: i16,
}

/// What a head begins with, and the bytes behind it.
#[tactic(auto, unfolding(frame_fields::specs::Reading::read_fields))]
fn start_at(bytes: &[u8]) -> Result<(Start, &[u8]), FieldFault>
    ensures { Gives (λ x. ((x.0.crc, (x.0.mark, (x.0.version, nothing))), x.1.now)) result
        (read_fields start_fields bytes.now) }
{
    let (crc, rest) = int32(bytes)?;
    let (mark, rest) = int32(rest)?;
    let (version, rest) = int16(rest)?;
    Ok((Start { crc, mark, version }, rest))
}

/// A key, and the bytes behind it.
#[tactic(auto, unfolding(frame_fields::specs::Reading::read_fields))]
fn key_at(bytes: &[u8]) -> Result<(i64, &[u8]), FieldFault>
    ensures { Gives (λ x. ((x.0, nothing), x.1.now)) result (read_fields key_fields bytes.now) }
{
    int64(bytes)
}

/// What stands before the size of the fields.
#[derive(Clone, Copy)]
struct Front {
    crc: i32,
    key: Option<i64>,
}

/// The crc that a head begins with and its key, and the bytes behind them, where the mark and the version are
/// those of a head.
#[tactic(auto, using(crate::proofs::Judging::start_broken, crate::proofs::Judging::other_mark, crate::proofs::Judging::other_version, crate::proofs::Judging::key_broken))]
fn judge_front(bytes: &[u8]) -> Result<(Front, &[u8]), SnapshotError>
    ensures has_front { IfOk result (λ x. HasFront x.0.crc x.0.key bytes.now x.1.now) }
    ensures refuses { IfErr result (λ e. IsFrontFault e bytes.now) }
{
    let Ok((start, behind)) = start_at(bytes) else {
        return Err(SnapshotError::Short);
    };
    if start.mark != MARK {
        return Err(SnapshotError::BadMark);
    }
    let crc = start.crc;
    if start.version == OLD_VERSION {
        return Ok((Front { crc, key: None }, behind));
    }
    if start.version != VERSION {
        return Err(SnapshotError::BadVersion);
    }
    match key_at(behind) {
        Ok((key, rest)) => Ok((
            Front {
                crc,
                key: Some(key),
            },
            rest,
        )),
        Err(_) => Err(SnapshotError::Short),
    }
}

/// Bytes behind their size, and the bytes after them.
#[tactic(auto, unfolding(frame_fields::specs::Reading::read_fields))]
fn sized_at(behind: &[u8]) -> Result<(&[u8], &[u8]), FieldFault>
    ensures { Gives (λ x. ((x.0.now, nothing), x.1.now)) result
        (read_fields (bytes ⨾ end) behind.now) }
{
    long_bytes(behind)
}

/// What it means that bytes behind their size can't be read.
fn size_error(fault: FieldFault) -> SnapshotError
    ensures { result ≡ size_error fault }
{
    match fault {
        FieldFault::ShortBody => SnapshotError::Short,
        FieldFault::Malformed => SnapshotError::BadSize,
    }
}

/// The crc of a head of version 0 that has these bytes of fields.
#[tactic(auto, using(crate::proofs::Judging::crc_in_parts))]
fn crc_of_old_head(fields: &[u8]) -> i32
    ensures { result ≡ signed_crc (covered None fields.now) }
{
    let mut crc = Crc32c::new();
    crc.feed(&MARK.to_be_bytes());
    crc.feed(&OLD_VERSION.to_be_bytes());
    crc.feed(&fields.len().to_be_bytes()[4..8]);
    crc.feed(fields);
    crc.value().cast_signed()
}

/// The crc of a head that has this key and these bytes of fields.
#[tactic(auto, using(crate::proofs::Judging::crc_in_more_parts))]
pub(crate) fn crc_of_head(key: i64, fields: &[u8]) -> i32
    ensures { result ≡ signed_crc (covered (Some key) fields.now) }
{
    let mut crc = Crc32c::new();
    crc.feed(&MARK.to_be_bytes());
    crc.feed(&VERSION.to_be_bytes());
    crc.feed(&key.to_be_bytes());
    crc.feed(&fields.len().to_be_bytes()[4..8]);
    crc.feed(fields);
    crc.value().cast_signed()
}

/// The crc of a head that has this key, or none, and these bytes of fields.
fn crc_of_either(key: Option<i64>, fields: &[u8]) -> i32
    ensures { result ≡ signed_crc (covered key fields.now) }
{
    match key {
        Some(key) => crc_of_head(key, fields),
        None => crc_of_old_head(fields),
    }
}

/// The head of a snapshot that bytes begin with, and the bytes after it. It takes no memory.
///
/// # Errors
///
/// Why they don't begin with one: the first of the reasons, in the order of [`SnapshotError`], but that they
/// end too early is found out three times, before the mark, before the key and before the fields.
pub fn judge_head(bytes: &[u8]) -> Result<(SnapshotHead<'_>, &[u8]), SnapshotError>
    ensures accepts { IfOk result (λ x.
        StartsWithHead (snapshot_view x.0) x.0.journal_key bytes.now x.1.now) }
    ensures refuses { IfErr result (λ e. HeadFault e bytes.now) }
{
    let (front, behind) = judge_front(bytes)?;
    let (fields, rest) = match sized_at(behind) {
        Ok(found) => found,
        Err(fault) => return Err(size_error(fault)),
    };
    if crc_of_either(front.key, fields) != front.crc {
        return Err(SnapshotError::BadCrc);
    }
    let head = whole_fields(fields, front.key)?;
    Ok((head, rest))
}
