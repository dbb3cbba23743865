//! A file as it is written and read back, and what bytes are refused for.

use crate::error::MarksError;
use crate::place::JournalPlace;
use crate::reading::judge_marks;
use crate::writing::{PartitionMarks, put_marks};
use cleaning_policy::{Mark, Marks};
use std::alloc::{AllocError, Global};

/// A border behind two groups.
static PLACE: JournalPlace = JournalPlace {
    number: 7,
    key: -3,
    size: 1_000,
    group_at: 600,
    group_crc: 0xdead_beef,
};

/// Two passes.
static TWO: Marks = Marks {
    older: Some(Mark {
        upto: 10,
        ended: 1_000,
    }),
    newest: Some(Mark {
        upto: 20,
        ended: 18_446_744_073_709_551_615,
    }),
    used: 10,
    reached: 20,
    began: 1_900,
    size: 12_345,
};

/// None.
static NONE: Marks = Marks {
    older: None,
    newest: None,
    used: 0,
    reached: 0,
    began: 5,
    size: 0,
};

/// The file of two partitions, in which one byte is another one perhaps, and which is cut to so many bytes.
fn written(alloc: Global, change: Option<(usize, u8)>, size: usize) -> Result<Vec<u8>, AllocError> {
    let partitions = [
        PartitionMarks {
            topic: b"orders",
            partition: 3,
            marks: TWO,
        },
        PartitionMarks {
            topic: b"users",
            partition: 0,
            marks: NONE,
        },
    ];
    let mut bytes = Vec::new(alloc);
    put_marks(alloc, PLACE, &partitions, &mut bytes)?;
    if let Some((at, byte)) = change {
        if at < bytes.len() {
            bytes[at] = byte;
        }
    }
    bytes.truncate(size);
    Ok(bytes)
}

/// The place, and of each partition its number, whether it has an older mark, and when the newest one ended.
type Said = (u64, u32, Vec<(i32, bool, Option<u64>)>);

/// What a file says.
fn said(alloc: Global, bytes: &[u8]) -> Result<Option<Said>, AllocError> {
    let Ok(file) = judge_marks(bytes) else {
        return Ok(None);
    };
    let mut partitions = Vec::new(alloc);
    for one in file.partitions {
        let marks = one.marks();
        let ended = match marks.newest {
            Some(mark) => Some(mark.ended),
            None => None,
        };
        partitions.push((one.partition, marks.older.is_some(), ended))?;
    }
    Ok(Some((file.place.size, file.place.group_crc, partitions)))
}

#[test]
fn what_is_written_is_read_back(rt: HostRuntime) {
    let bytes = written(rt.alloc(), None, 1_000);
    let found = match bytes {
        Ok(bytes) => said(rt.alloc(), &bytes),
        Err(why) => Err(why),
    };
    match found {
        Ok(Some((size, crc, partitions))) => {
            assert_eq!(rt; (size, crc), (1_000, 0xdead_beef), "the place");
            assert_eq!(rt; partitions.len(), 2, "two partitions");
            assert_eq!(rt;
                partitions[0],
                (3, true, Some(18_446_744_073_709_551_615)),
                "orders"
            );
            assert_eq!(rt; partitions[1], (0, false, None), "users");
        }
        _ => assert!(rt; false, "the file is read"),
    }
}

/// What is changed, the byte and its place, how many bytes are left, and why they are refused.
type Row = (&'static str, Option<(usize, u8)>, usize, MarksError);

static ROWS: [Row; 5] = [
    ("no bytes", None, 0, MarksError::Short),
    ("nine bytes", None, 9, MarksError::Short),
    ("another mark", Some((4, 0)), 1_000, MarksError::BadMark),
    (
        "a later version",
        Some((9, 1)),
        1_000,
        MarksError::BadVersion,
    ),
    ("another byte", Some((20, 99)), 1_000, MarksError::BadCrc),
];

#[test]
fn other_bytes_are_refused(rt: HostRuntime) {
    for (name, change, size, wanted) in &ROWS {
        let found = match written(rt.alloc(), *change, *size) {
            Ok(bytes) => match judge_marks(&bytes) {
                Ok(_) => None,
                Err(why) => Some(why),
            },
            Err(_) => None,
        };
        assert_eq!(rt; found, Some(*wanted), "{name}");
    }
}
