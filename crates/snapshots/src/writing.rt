//! The head of a snapshot, written.

ghost use Rattle.std.specs.Prelude.{◌≡◌, ◌++◌, pos, length, map, OnOk, OnErr, Some};
ghost use Rattle.std.specs.List.{flat_map};
ghost use Rattle.frame_fields.specs.Fields.{be, elements, encoded, size16, size32, size64};
ghost use Rattle.frame_fields.specs.Types.{topic};
ghost use Rattle.snapshots.specs.Heads.{front_of, head_bytes, partition_fields, snapshot_fields, start_of};
ghost use Rattle.snapshots.specs.Writing.{fields_value, topic_value};

use crate::head::crc_of_head;
use crate::layout::{MARK, VERSION};
use responses::{append_fixed, begin_topic, count_bytes};
use std::alloc::{AllocError, Allocator};

/// A topic as a snapshot is to have it.
#[derive(Clone, Copy)]
pub struct SnapshotTopic<'a> {
    /// Its name, of 32,767 bytes at the most.
    pub name: &'a [u8],
    /// How many bytes the image of each of its partitions has, from 0 on.
    pub sizes: &'a [i64],
}

/// Which snapshot it is.
#[derive(Clone, Copy)]
pub struct SnapshotId {
    /// Its number.
    pub number: i64,
    /// The key of the journal that has this number.
    pub key: i64,
}

/// How a broker was set up, and where it stands.
#[derive(Clone, Copy)]
pub struct SnapshotNumbers {
    /// Which snapshot it is.
    pub id: SnapshotId,
    /// What the broker is to its partitions: 0 their leader, 1 a follower.
    pub role: i16,
    /// The first producer id that the broker was set up to give out.
    pub first_producer: i64,
    /// The producer id that it gives out next.
    pub next_producer: i64,
}

/// How many bytes stand before the key.
const START_BYTES: usize = 10;

/// How many bytes stand before the fields.
const FRONT_BYTES: usize = 22;

/// The bytes of an INT64.
fn int64_bytes(number: &i64) -> [u8; 8]
    ensures { result ≡ be size64 number.now }
{
    number.to_be_bytes()
}

/// The bytes of an INT32.
fn int32_bytes(number: &i32) -> [u8; 4]
    ensures { result ≡ be size32 number.now }
{
    number.to_be_bytes()
}

/// The bytes of an INT16.
fn int16_bytes(number: &i16) -> [u8; 2]
    ensures { result ≡ be size16 number.now }
{
    number.to_be_bytes()
}

/// Appends the sizes of images.
fn put_sizes<A: Allocator + Copy>(out: &mut Vec<u8, A>, sizes: &[i64]) -> Result<(), AllocError>
    ensures { OnOk result (out.new.items
        ≡ out.old.items ++ flat_map (be size64) sizes.now) }
{
    for size in sizes {
        append_fixed(out, &int64_bytes(size))?;
    }
    Ok(())
}

/// Appends a topic.
#[tactic(auto, using(crate::proofs::Parts::topic_put))]
fn put_topic<A: Allocator + Copy>(
    out: &mut Vec<u8, A>,
    one: &SnapshotTopic<'_>,
) -> Result<(), AllocError>
    ensures { OnOk result (out.new.items
        ≡ out.old.items ++ encoded (topic partition_fields) (topic_value one.now)) }
{
    let Ok(count) = u32::try_from(one.sizes.len()) else {
        return Err(AllocError);
    };
    begin_topic(out, one.name, count)?;
    put_sizes(out, one.sizes)
}

/// Appends topics, behind their count.
#[tactic(auto, using(crate::proofs::Parts::topics_begun, crate::proofs::Parts::topics_done))]
fn put_topics<A: Allocator + Copy>(
    out: &mut Vec<u8, A>,
    topics: &[SnapshotTopic<'_>],
) -> Result<(), AllocError>
    ensures { OnOk result (out.new.items ≡ out.old.items
        ++ elements (encoded (topic partition_fields)) (map topic_value topics.now)) }
{
    let Ok(count) = u32::try_from(topics.len()) else {
        return Err(AllocError);
    };
    append_fixed(out, &count_bytes(count))?;
    for one in topics {
        put_topic(out, one)?;
    }
    Ok(())
}

/// Appends the fields of a head.
#[tactic(auto, using(crate::proofs::Parts::fields_put))]
fn put_fields<A: Allocator + Copy>(
    out: &mut Vec<u8, A>,
    numbers: SnapshotNumbers,
    topics: &[SnapshotTopic<'_>],
) -> Result<(), AllocError>
    ensures { OnOk result (out.new.items
        ≡ out.old.items ++ encoded snapshot_fields (fields_value numbers topics.now)) }
{
    append_fixed(out, &int64_bytes(&numbers.id.number))?;
    append_fixed(out, &int16_bytes(&numbers.role))?;
    append_fixed(out, &int64_bytes(&numbers.first_producer))?;
    append_fixed(out, &int64_bytes(&numbers.next_producer))?;
    put_topics(out, topics)
}

/// What the head of these fields begins with: the crc, the mark and the version.
fn start_bytes(key: i64, fields: &[u8]) -> [u8; START_BYTES]
    ensures { result ≡ start_of (Some key) fields.now }
{
    let [a, b, c, d] = int32_bytes(&crc_of_head(key, fields));
    let [e, f, g, h] = int32_bytes(&MARK);
    let [i, j] = int16_bytes(&VERSION);
    [a, b, c, d, e, f, g, h, i, j]
}

/// How many bytes of fields there are, as an INT32.
fn size_bytes(fields: &[u8]) -> [u8; 4]
    ensures { result ≡ be size32 (pos (length fields.now)) }
{
    let [_, _, _, _, a, b, c, d] = fields.len().to_be_bytes();
    [a, b, c, d]
}

/// What stands before these fields: the crc, the mark, the version, the key and how many bytes they are.
fn front_bytes(key: i64, fields: &[u8]) -> [u8; FRONT_BYTES]
    ensures { result ≡ front_of (Some key) fields.now }
{
    let [a, b, c, d, e, f, g, h, i, j] = start_bytes(key, fields);
    let [k, l, m, n, o, p, q, r] = int64_bytes(&key);
    let [s, t, u, v] = size_bytes(fields);
    [
        a, b, c, d, e, f, g, h, i, j, k, l, m, n, o, p, q, r, s, t, u, v,
    ]
}

/// Appends the head of a snapshot. All or nothing.
///
/// A name, or a number of topics or of partitions, that is too large for its field is written so that it can't
/// be read again; no broker has such.
///
/// # Errors
///
/// `AllocError` where there is no memory for it: the output is as before.
#[tactic(auto, using(crate::proofs::Parts::head_put))]
pub fn put_head<A: Allocator + Copy>(
    alloc: A,
    numbers: SnapshotNumbers,
    topics: &[SnapshotTopic<'_>],
    out: &mut Vec<u8, A>,
) -> Result<(), AllocError>
    ensures appends { OnOk result (out.new.items
        ≡ out.old.items ++ head_bytes (Some numbers.id.key) (fields_value numbers topics.now)) }
    ensures unchanged_on_error { OnErr result (out.new.items ≡ out.old.items) }
{
    let mut fields = Vec::new(alloc);
    put_fields(&mut fields, numbers, topics)?;
    let front = front_bytes(numbers.id.key, &fields);
    out.reserve(front.len() + fields.len())?;
    out.extend_from_slice(&front)?;
    out.extend_from_slice(&fields)
}
