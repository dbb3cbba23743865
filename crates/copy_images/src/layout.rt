//! The layout of an image, for code and definitions alike: byte offsets from the first byte, sizes in
//! bytes, and limits. All numbers are big-endian.
//!
//! | bytes | what |
//! |---|---|
//! | 4 | the mark, `KCPY` |
//! | 2 | the version, an int16: 1 |
//! | 8 | the log start, an int64 |
//! | 4 | how many ranges follow, an int32 |
//! | 16 each | the maximal ranges of the offsets seen: first and last offset, two int64 |
//! | 4 | how many batches follow, an int32 |
//! | | the kept batches by rising offset, each as it is encoded |
//! | 4 | the crc, a uint32: the CRC-32C of all bytes before it |
//!
//! That is version 1, which is written. An image of version 0 is read too: it has no log start, which is
//! 0, and all else is the same. What stands between the head (the mark, the version and the log start)
//! and the crc is the body.

/// The first four bytes, `KCPY`, as a uint32.
pub const MARK: u32 = 0x4b43_5059;
/// Byte offset of the version, an int16.
pub const VERSION_AT: usize = 4;
/// The version that is written. It is read too.
pub const VERSION: i16 = 1;
/// The version before it, which is read: without a log start.
pub const FIRST_VERSION: i16 = 0;
/// Byte offset of the log start, an int64.
pub const START_AT: usize = 6;
/// Byte offset of the body.
pub const BODY_AT: usize = 14;
/// Byte offset of the body in an image of version 0.
pub const FIRST_BODY_AT: usize = 6;
/// How many bytes a range takes, two int64.
pub const RANGE_SIZE: usize = 16;
/// How many bytes a count takes, an int32.
pub const COUNT_SIZE: usize = 4;
/// How many bytes the two counts take, which each body has.
pub const COUNTS_SIZE: usize = 8;
/// How many bytes the crc takes, the last ones.
pub const CRC_SIZE: usize = 4;
/// How many bytes the image of an empty copy has in version 0. No image has fewer.
pub const LEAST_SIZE: usize = 18;
/// How many bytes the image of an empty copy has as it is written.
pub const EMPTY_SIZE: usize = 26;
/// The most ranges that an image can have, and the most batches.
pub const MAX_COUNT: usize = 0x7fff_ffff;
