//! The layout of the file, for code and definitions alike. All numbers are big-endian.
//!
//! | type | what |
//! |---|---|
//! | INT32 | the crc: the CRC-32C of all that is behind it |
//! | INT32 | the mark, `KCLN` |
//! | INT16 | the version: 0 |
//! | INT64 | the number of the journal behind which the marks hold, as the INT64 of the same bits |
//! | INT64 | the key of its groups |
//! | INT64 | its size then in bytes, a border between groups, likewise |
//! | INT64 | where the group below that border begins, likewise; 0 where there is none, and the head stands for it |
//! | INT32 | the crc of that group, or of the head, as the INT32 of the same bits |
//! | ARRAY | the partitions, each as below |
//!
//! | type | field of a partition |
//! |---|---|
//! | STRING | the topic's name |
//! | INT32 | the partition's number |
//! | INT8 | 1 where there is an older mark, else 0 |
//! | INT64 | up to which offset its pass cleaned; 0 where there is none |
//! | INT64 | when it ended, in milliseconds, as the INT64 of the same bits; 0 where there is none |
//! | INT8, INT64, INT64 | the same of the newest mark |
//! | INT64 | the offset below which the last pass took deletions |
//! | INT64 | the offset up to which it cleaned |
//! | INT64 | when it began, in milliseconds, as the INT64 of the same bits |
//! | INT64 | the bytes that it left, likewise |

/// The mark, `KCLN`.
pub const MARK: i32 = 0x4b43_4c4e;
/// The version.
pub const VERSION: i16 = 0;
