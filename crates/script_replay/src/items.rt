//! The items of a batch: keys, each with a value or with null.

ghost use Rattle.std.specs.Prelude.{◌<◌, length};

use crate::line::{BadLine, Producer};
use crate::words::split_word;
use batch_codec::{Batch, BatchHead, EncodeError, MAX_BATCH_BYTES, Rec, encode};
use script_words::{has_bad_escape, unescape};
use std::alloc::{AllocError, Allocator};

/// How many bytes a record takes at least, beside its key and its value.
const LEAST_RECORD: usize = 7;

/// At least one item, with one space between: `KEY=VALUE`, or `KEY` for a null value. An item is split
/// at its first `=`; `%` and two hexadecimal digits stand for a byte.
#[derive(Clone, Copy)]
pub struct Items<'a> {
    text: &'a [u8],
}

impl<'a> Items<'a> {
    /// The items of a text without an empty word.
    ///
    /// # Errors
    ///
    /// There is none, or a `%` isn't followed by two hexadecimal digits.
    pub fn new(text: &'a [u8]) -> Result<Items<'a>, BadLine> {
        if text.is_empty() || has_bad_escape(text) {
            return Err(BadLine);
        }
        Ok(Items { text })
    }
}

/// An item's key, and its value if it has one.
fn split_item(item: &[u8]) -> (&[u8], Option<&[u8]>) {
    match item.iter().position(|byte| *byte == b'=') {
        Some(sign) => (&item[..sign], Some(&item[sign + 1..])),
        None => (item, None),
    }
}

/// The record of an item.
fn record_of<A: Allocator + Copy>(alloc: A, delta: i32, item: &[u8]) -> Result<Rec<A>, AllocError> {
    let (key, value) = split_item(item);
    let value = match value {
        Some(value) => Some(unescape(alloc, value)?),
        None => None,
    };
    Ok(Rec {
        attrs: 0,
        time_delta: 0,
        delta,
        key: Some(unescape(alloc, key)?),
        value,
        headers: Vec::new(alloc),
    })
}

/// How many bytes the records of items take at least. At most three bytes of an item say one byte of
/// a key or a value.
fn least_size(items: Items<'_>) -> usize {
    let mut size = 0usize;
    let mut rest = items.text;
    while !rest.is_empty() {
        let (item, behind) = split_word(rest);
        size = size.saturating_add(LEAST_RECORD + item.len() / 3);
        rest = behind;
    }
    size
}

/// Adds the record of an item, whose delta is the number of those before it.
fn push_record<A: Allocator + Copy>(
    alloc: A,
    item: &[u8],
    records: &mut Vec<Rec<A>, A>,
) -> Result<(), EncodeError> {
    let Ok(delta) = i32::try_from(records.len()) else {
        return Err(EncodeError::TooLarge);
    };
    let Ok(record) = record_of(alloc, delta, item) else {
        return Err(EncodeError::OutOfMemory);
    };
    records.push(record).map_err(|_| EncodeError::OutOfMemory)
}

/// The records of items, with deltas from 0 on.
fn records_of<A: Allocator + Copy>(
    alloc: A,
    items: Items<'_>,
) -> Result<Vec<Rec<A>, A>, EncodeError> {
    let mut records = Vec::new(alloc);
    let mut rest = items.text;
    while !rest.is_empty() {
        let (item, behind) = split_word(rest);
        push_record(alloc, item, &mut records)?;
        rest = behind;
    }
    Ok(records)
}

/// The head of a batch with that many records, one behind the other, whose times are 0.
fn head_of(producer: Producer, count: usize) -> Result<BatchHead, EncodeError> {
    let Ok(count) = i32::try_from(count) else {
        return Err(EncodeError::TooLarge);
    };
    Ok(BatchHead {
        base: 0,
        leader_epoch: 0,
        attrs: 0,
        last_delta: count - 1,
        base_time: 0,
        max_time: 0,
        producer: producer.id,
        producer_epoch: producer.epoch,
        base_seq: producer.sequence,
    })
}

/// Writes the batch of a producer's items in place of what `out` holds. No memory is taken for items
/// that are too large for a batch.
///
/// # Errors
///
/// `TooLarge` and `OutOfMemory`, as [`encode`] has them.
pub(crate) fn encode_items<A: Allocator + Copy>(
    alloc: A,
    producer: Producer,
    items: Items<'_>,
    out: &mut Vec<u8, A>,
) -> Result<(), EncodeError> {
    out.clear();
    if MAX_BATCH_BYTES < least_size(items) {
        return Err(EncodeError::TooLarge);
    }
    let recs = records_of(alloc, items)?;
    let head = head_of(producer, recs.len())?;
    encode(&Batch { head, recs }, out)
}
