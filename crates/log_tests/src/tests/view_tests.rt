//! `view`, and what a view says of its batch. Its refusals are rows of `tests/rows`.

use batch_codec::{BatchError, BatchView, Headers, RecordView, one_encoding, view};
use sample_batches::{A_IS_1, A_IS_EMPTY, A_IS_NULL, ALL_FIELDS, EMPTIED, THREE};
use std::alloc::{AllocError, Allocator};
use std::test::Fail;

/// A record's offset delta, key and value.
type Parts = (i32, Option<&'static [u8]>, Option<&'static [u8]>);

/// A batch, whether it is whole, and its last record.
type Row = (&'static str, &'static [u8], bool, Option<Parts>);

static BATCHES: [Row; 6] = [
    (
        "one record",
        &A_IS_1,
        true,
        Some((0, Some(b"a"), Some(b"1"))),
    ),
    (
        "a null value",
        &A_IS_NULL,
        true,
        Some((0, Some(b"a"), None)),
    ),
    (
        "an empty value",
        &A_IS_EMPTY,
        true,
        Some((0, Some(b"a"), Some(b""))),
    ),
    ("no record", &EMPTIED, false, None),
    ("three records", &THREE, true, Some((2, Some(b"a"), None))),
    (
        "all fields",
        &ALL_FIELDS,
        false,
        Some((300, Some(b"key"), None)),
    ),
];

/// The offset delta, the key and the value of the last record.
fn last_of<'a>(batch: &BatchView<'a>) -> Option<(i32, Option<&'a [u8]>, Option<&'a [u8]>)> {
    let mut last = None;
    for rec in batch.recs() {
        last = Some((rec.delta, rec.key, rec.value));
    }
    last
}

/// Whether the batch of a row is seen at the front of these bytes.
fn is_seen(input: &[u8], row: &Row) -> bool {
    match view(input) {
        Ok(batch) => {
            let facts = [batch.bytes() == row.1, batch.is_whole() == row.2];
            facts == [true; 2] && last_of(&batch) == row.3
        }
        Err(_) => false,
    }
}

/// Some bytes in front of a hundred others.
fn with_bytes_behind<A: Allocator + Copy>(
    alloc: A,
    bytes: &[u8],
) -> Result<Vec<u8, A>, AllocError> {
    let mut input = bytes.to_vec(alloc)?;
    input.extend_from_slice(&[0xff; 100])?;
    Ok(input)
}

/// Whether the batch of a row is seen in front of a hundred other bytes.
fn is_viewed<A: Allocator + Copy>(alloc: A, row: &Row) -> bool {
    match with_bytes_behind(alloc, row.1) {
        Ok(input) => is_seen(&input, row),
        Err(_) => false,
    }
}

#[test]
fn batches_with_bytes_behind(rt: HostRuntime) {
    one_encoding();
    assert_eq!(rt; view(&[]).err(), Some(BatchError::Short));
    for row in &BATCHES {
        assert!(rt; is_viewed(rt.alloc(), row), "{}", row.0);
    }
}

/// Whether the headers are the two of the first record of `ALL_FIELDS`.
fn are_the_headers(headers: Headers<'_>) -> bool {
    let mut headers = headers;
    let (first, second) = (headers.next(), headers.next());
    match (first, second, headers.next()) {
        (Some(first), Some(second), None) => {
            let is_first = first.key == b"h".as_slice() && first.value.is_none();
            is_first && second.key.is_empty() && second.value == Some(b"".as_slice())
        }
        _ => false,
    }
}

/// Whether this is the first record of `ALL_FIELDS`.
fn is_first(rec: RecordView<'_>) -> bool {
    let has_numbers = (rec.attrs, rec.time_delta, rec.delta) == (-1, -1000, 0);
    let has_value = rec.value == Some([b'x'; 64].as_slice());
    has_numbers && rec.key.is_none() && has_value && are_the_headers(rec.headers)
}

#[test]
fn a_record_is_borrowed(rt: HostRuntime) -> Result<(), Fail> {
    let rec = view(&ALL_FIELDS)?.recs().next();
    assert!(rt; is_first(rec.ok_or("there is a record")?));
    Ok(())
}
