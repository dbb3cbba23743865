//! The layout of a delta, for code and definitions alike: sizes in bytes, kinds and limits. All numbers are
//! big-endian. Versions, byte offsets in the front and the crc are those of images.
//!
//! | bytes | what |
//! |---|---|
//! | 4 | the mark, `KDLT` |
//! | 2 | the version, an int16: 1 |
//! | 8 | the sender's log start, an int64 |
//! | 4 | how many ranges follow, an int32 |
//! | 16 each | the maximal ranges of the offsets that the sender has seen: first and last offset, two int64 |
//! | 4 | how many ranges follow, an int32 |
//! | 16 each | the maximal ranges of the offsets that were asked |
//! | 4 | how many entries follow, an int32 |
//! | | the entries, by rising base |
//! | 4 | the crc, a uint32: the CRC-32C of all bytes before it |
//!
//! That is version 1. A delta of version 0 is read too: it has no log start, which is 0, and all else is the
//! same.
//!
//! An entry tells of one batch that the sender keeps. It is a list, by which the receiver can tell which
//! records of a batch that it may know are left, or all of a batch.
//!
//! | bytes | what |
//! |---|---|
//! | 1 | the kind: 0, a list |
//! | 8 | the base offset of the batch, an int64 |
//! | 4 | how many offsets follow, an int32 |
//! | 8 each | the offsets of the batch's records, rising, an int64 each |
//!
//! | bytes | what |
//! |---|---|
//! | 1 | the kind: 1, a batch |
//! | | the batch as it is encoded |

/// The first four bytes, `KDLT`, as a uint32.
pub const MARK: u32 = 0x4b44_4c54;
/// How many bytes the empty delta has in version 0. No delta has fewer.
pub const LEAST_SIZE: usize = 22;
/// The kind of an entry that lists a batch's offsets.
pub const LISTED: u8 = 0;
/// The kind of an entry with all of a batch.
pub const SENT: u8 = 1;
/// How many bytes the kind takes.
pub const KIND_SIZE: usize = 1;
/// How many bytes an offset takes, an int64.
pub const OFFSET_SIZE: usize = 8;
/// Byte offset of the count of offsets, from the byte behind the kind on.
pub const COUNT_AT: usize = 8;
/// Byte offset of the offsets, from the byte behind the kind on.
pub const OFFSETS_AT: usize = 12;
