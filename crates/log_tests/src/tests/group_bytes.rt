//! Keys and values of committed offsets, byte for byte, what a copy of them answers, and each refusal.
use crate::tests::answers::is_added;
use crate::tests::group_copies::{KEY, NEXT_KEY, NO_VALUE, committed};
use group_offsets::{
    GroupError, commit_batch, fits_a_batch, group_keys, lookup, put_key, put_value, read_key,
    read_value,
};
use partition_log::PartitionLog;
use segment::{BatchStore, ProgramStore};
use std::alloc::Allocator;

/// A group, a topic and a partition, and the bytes of the key.
static KEYS: [(&[u8], &[u8], i32, &[u8]); 3] = [
    (b"g", b"t", 0, b"\0\x01\0\x01g\0\x01t\0\0\0\0"),
    (b"gh", b"", 258, b"\0\x01\0\x02gh\0\0\0\0\x01\x02"),
    (
        b"",
        b"\xff\0",
        -2,
        b"\0\x01\0\0\0\x02\xff\0\xff\xff\xff\xfe",
    ),
];

/// What is no key: another version, a name that is null or too long, a byte too few and one too many.
static NO_KEYS: [&[u8]; 7] = [
    b"",
    b"\0\0\0\x01g\0\x01t\0\0\0\0",
    b"\0\x02\0\x01g\0\x01t\0\0\0\0",
    b"\0\x01\xff\xff\0\x01t\0\0\0\0",
    b"\0\x01\0\x01g\0\x09t\0\0\0\0",
    b"\0\x01\0\x01g\0\x01t\0\0\0",
    b"\0\x01\0\x01g\0\x01t\0\0\0\0\0",
];

/// An offset and metadata, and the bytes of the value.
static VALUES: [(i64, Option<&[u8]>, &[u8]); 4] = [
    (20, None, b"\0\0\0\0\0\0\0\0\0\x14\xff\xff"),
    (258, Some(b""), b"\0\0\0\0\0\0\0\0\x01\x02\0\0"),
    (0, Some(b"m\0"), b"\0\0\0\0\0\0\0\0\0\0\0\x02m\0"),
    (-2, None, b"\0\0\xff\xff\xff\xff\xff\xff\xff\xfe\xff\xff"),
];

/// What is no value: another version, metadata of a length below -1 or past the end, a byte too few and one
/// too many.
static NO_VALUES: [&[u8]; 7] = [
    b"",
    b"abc",
    b"\0\x01\0\0\0\0\0\0\0\x14\xff\xff",
    b"\0\0\0\0\0\0\0\0\0\x14\xff\xfe",
    b"\0\0\0\0\0\0\0\0\0\x14\0\x02m",
    b"\0\0\0\0\0\0\0\0\0\x14\xff",
    b"\0\0\0\0\0\0\0\0\0\x14\xff\xff\0",
];

/// Whether a key is written so, and read.
fn is_key<A: Allocator + Copy>(alloc: A, row: &(&[u8], &[u8], i32, &[u8])) -> bool {
    let is_written = match put_key(alloc, row.0, row.1, row.2) {
        Ok(key) => key.as_slice() == row.3,
        Err(_) => false,
    };
    let is_read = match read_key(row.3) {
        Some(key) => (key.group, key.topic, key.partition) == (row.0, row.1, row.2),
        None => false,
    };
    is_written && is_read
}

/// Whether a value is written so, and read.
fn is_value<A: Allocator + Copy>(alloc: A, row: &(i64, Option<&[u8]>, &[u8])) -> bool {
    let is_written = match put_value(alloc, row.0, row.1) {
        Ok(value) => value.as_slice() == row.2,
        Err(_) => false,
    };
    let is_read = match read_value(row.2) {
        Ok(value) => (value.offset, value.metadata) == (row.0, row.1),
        Err(_) => false,
    };
    is_written && is_read
}

#[test]
fn keys(rt: HostRuntime) {
    for (i, row) in KEYS.iter().enumerate() {
        assert!(rt; is_key(rt.alloc(), row), "key {i}");
    }
    for (i, bytes) in NO_KEYS.iter().enumerate() {
        assert!(rt; read_key(bytes).is_none(), "no key {i}");
    }
}

#[test]
fn values(rt: HostRuntime) {
    for (i, row) in VALUES.iter().enumerate() {
        assert!(rt; is_value(rt.alloc(), row), "value {i}");
    }
    for (i, bytes) in NO_VALUES.iter().enumerate() {
        let refused = read_value(bytes).err();
        assert!(rt; refused == Some(GroupError::BadValue), "no value {i}");
    }
}

/// A group, a topic and a partition, and the offset that was committed there: -1 where none was, and -2 where
/// what is there is no value.
static LOOKUPS: [(&[u8], &[u8], i32, i64); 6] = [
    (b"g", b"t", 0, 20),
    (b"g", b"t", 1, 7),
    (b"g", b"t", 2, -2),
    (b"g", b"u", 0, -1),
    (b"h", b"t", 0, 8),
    (b"h", b"t", 1, -1),
];

/// What a look-up gives, as above.
fn found<S: BatchStore>(copy: &PartitionLog<S>, row: &(&[u8], &[u8], i32, i64)) -> i64 {
    match lookup(copy, row.0, row.1, row.2) {
        Ok(Some(found)) => found.offset,
        Ok(None) => -1,
        Err(GroupError::BadValue) => -2,
        Err(_) => -3,
    }
}

/// Whether all look-ups give what they should.
fn are_found<S: BatchStore>(copy: &PartitionLog<S>) -> bool {
    for row in &LOOKUPS {
        if found(copy, row) != row.3 {
            return false;
        }
    }
    true
}

/// Whether a group has these keys.
fn has_keys<S: BatchStore>(copy: &PartitionLog<S>, group: &[u8], wanted: &[&[u8]]) -> bool {
    match group_keys(copy, group) {
        Ok(keys) => keys.as_slice() == wanted,
        Err(_) => false,
    }
}

/// Whether a copy of the commits, with what is no value behind them, shows what it should.
fn shows<S: BatchStore>(copy: &mut PartitionLog<S>) -> bool {
    let facts = [
        is_added(copy, NO_VALUE),
        are_found(copy),
        has_keys(
            copy,
            b"g",
            &[NEXT_KEY, KEY, b"\0\x01\0\x01g\0\x01t\0\0\0\x02"],
        ),
        has_keys(copy, b"h", &[b"\0\x01\0\x01h\0\x01t\0\0\0\0"]),
        has_keys(copy, b"gt", &[]),
    ];
    facts == [true; 5]
}

#[test]
fn a_copy_of_commits(rt: HostRuntime) {
    let is_shown = match committed::<ProgramStore<_>>(rt.alloc()) {
        Some(mut copy) => shows(&mut copy),
        None => false,
    };
    assert!(rt; is_shown);
}

/// Zeros, one more than a name may have.
static LONG: [u8; 32_768] = [0; 32_768];

/// Why each call refuses a name or metadata; `None` where it doesn't.
fn refusals<S: BatchStore>(copy: &PartitionLog<S>, name: &[u8]) -> [Option<GroupError>; 9] {
    let alloc = copy.allocator();
    [
        put_key(alloc, name, b"t", 0).err(),
        put_key(alloc, b"g", name, 0).err(),
        put_value(alloc, 0, Some(name)).err(),
        commit_batch(alloc, name, b"t", 0, 0, None).err(),
        commit_batch(alloc, b"g", name, 0, 0, None).err(),
        commit_batch(alloc, b"g", b"t", 0, 0, Some(name)).err(),
        commit_batch(alloc, name, name, 0, 0, Some(name)).err(),
        lookup(copy, name, b"t", 0).err(),
        lookup(copy, b"g", name, 0).err(),
    ]
}

#[test]
fn names_that_are_too_long(rt: HostRuntime) {
    let copy = PartitionLog::<ProgramStore<_>>::new(rt.alloc());
    let longest = &LONG[..32_767];
    assert_eq!(rt; refusals(&copy, &LONG), [Some(GroupError::NameTooLong); 9]);
    assert_eq!(rt; refusals(&copy, longest), [None; 9]);
}

/// Whether 31 keys of 32,767 bytes and one of so many can be forgotten: a record of a key of `n` bytes has
/// `n + 11` bytes, and the batch's head 61.
fn fit(last: &[u8]) -> bool {
    let mut keys = [&LONG[..32_767]; 32];
    keys[31] = last;
    fits_a_batch(&keys)
}

#[test]
fn keys_of_a_whole_batch(rt: HostRuntime) {
    // 61 + 31 * 32,778 + 32,409 = 1,048,588 bytes
    assert!(rt; fit(&LONG[..32_398]));
    assert!(rt; !fit(&LONG[..32_399]));
    assert!(rt; !fits_a_batch(&[]));
}
