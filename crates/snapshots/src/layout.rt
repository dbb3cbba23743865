//! The layout of a snapshot's head, for code and definitions alike. All numbers are big-endian.
//!
//! | type | what |
//! |---|---|
//! | INT32 | the crc: the CRC-32C of all that is behind it in the head |
//! | INT32 | the mark, `KSNP` |
//! | INT16 | the version: 1, or 0 |
//! | INT64 | in version 1: the key of the journal that has the snapshot's number |
//! | BYTES | the fields, below |
//!
//! | type | field |
//! |---|---|
//! | INT64 | the snapshot's number |
//! | INT16 | the role: 0 a leader, 1 a follower |
//! | INT64 | the first producer id that the broker was set up to give out |
//! | INT64 | the producer id that it gives out next |
//! | ARRAY of STRING and ARRAY of INT64 | the topics, each its name, and the sizes of its partitions' images |

/// The mark, `KSNP`.
pub const MARK: i32 = 0x4b53_4e50;
/// The version that is written.
pub const VERSION: i16 = 1;
/// The version before it, which is read too. It has no key.
pub const OLD_VERSION: i16 = 0;
