//! Request frames behind their sizes, and the responses to them, byte for byte. The batch in them is
//! `a` = 1, of 70 bytes.

use std::alloc::{AllocError, Allocator};

/// A Produce request for partition 0 of `t`, acks 1.
pub(crate) const PRODUCE: &[u8] =
    b"\0\0\0\x6b\0\0\0\x03\0\0\0\x05\xff\xff\xff\xff\0\x01\0\0\x03\xe8\0\0\0\x01\0\x01t\0\0\0\x01\0\0\0\0\0\0\0\x46\0\0\0\0\0\0\0\0\0\0\0\x3a\0\0\0\0\x02\x32\xc8\x33\x8d\0\0\0\0\0\0\0\0\0\0\0\0\0\0\0\0\0\0\0\0\0\0\xff\xff\xff\xff\xff\xff\xff\xff\xff\xff\xff\xff\xff\xff\0\0\0\x01\x10\0\0\0\x02a\x02\x31\0";

/// Its response: code 0, base offset 0.
pub(crate) const STORED: &[u8] =
    b"\0\0\0\x29\0\0\0\x05\0\0\0\x01\0\x01t\0\0\0\x01\0\0\0\0\0\0\0\0\0\0\0\0\0\0\xff\xff\xff\xff\xff\xff\xff\xff\0\0\0\0";

/// Its response: code 56, base offset -1.
pub(crate) const NOT_STORED: &[u8] =
    b"\0\0\0\x29\0\0\0\x05\0\0\0\x01\0\x01t\0\0\0\x01\0\0\0\0\0\x38\xff\xff\xff\xff\xff\xff\xff\xff\xff\xff\xff\xff\xff\xff\xff\xff\0\0\0\0";

/// A Fetch request for partition 0 of `t` from offset 0 on, at most 1,000 bytes.
pub(crate) const FETCH: &[u8] =
    b"\0\0\0\x36\0\x01\0\x04\0\0\0\x09\xff\xff\xff\xff\xff\xff\0\0\0\0\0\0\0\0\0\0\x03\xe8\0\0\0\0\x01\0\x01t\0\0\0\x01\0\0\0\0\0\0\0\0\0\0\0\0\0\0\x03\xe8";

/// Its response: code 0, high watermark and last stable offset 1, and the batch.
pub(crate) const FETCHED: &[u8] =
    b"\0\0\0\x77\0\0\0\x09\0\0\0\0\0\0\0\x01\0\x01t\0\0\0\x01\0\0\0\0\0\0\0\0\0\0\0\0\0\x01\0\0\0\0\0\0\0\x01\xff\xff\xff\xff\0\0\0\x46\0\0\0\0\0\0\0\0\0\0\0\x3a\0\0\0\0\x02\x32\xc8\x33\x8d\0\0\0\0\0\0\0\0\0\0\0\0\0\0\0\0\0\0\0\0\0\0\xff\xff\xff\xff\xff\xff\xff\xff\xff\xff\xff\xff\xff\xff\0\0\0\x01\x10\0\0\0\x02a\x02\x31\0";

/// A Metadata request for `t`.
pub(crate) const DESCRIBE: &[u8] = b"\0\0\0\x11\0\x03\0\x01\0\0\0\x0b\xff\xff\0\0\0\x01\0\x01t";

/// Its response: node 1 at `hhh`, port 9092, leads partitions 0 and 1.
pub(crate) const DESCRIBED: &[u8] =
    b"\0\0\0\x5d\0\0\0\x0b\0\0\0\x01\0\0\0\x01\0\x03hhh\0\0\x23\x84\xff\xff\0\0\0\x01\0\0\0\x01\0\0\0\x01t\0\0\0\0\x02\0\0\0\0\0\0\0\0\0\x01\0\0\0\x01\0\0\0\x01\0\0\0\x01\0\0\0\x01\0\0\0\0\0\x01\0\0\0\x01\0\0\0\x01\0\0\0\x01\0\0\0\x01\0\0\0\x01";

/// A ListOffsets request for the end of partition 0 of `t`.
pub(crate) const LIST: &[u8] =
    b"\0\0\0\x25\0\x02\0\x01\0\0\0\x07\xff\xff\xff\xff\xff\xff\0\0\0\x01\0\x01t\0\0\0\x01\0\0\0\0\xff\xff\xff\xff\xff\xff\xff\xff";

/// Its response where the partition is empty.
pub(crate) const LISTED: &[u8] =
    b"\0\0\0\x25\0\0\0\x07\0\0\0\x01\0\x01t\0\0\0\x01\0\0\0\0\0\0\xff\xff\xff\xff\xff\xff\xff\xff\0\0\0\0\0\0\0\0";

/// The same where it ends at 1.
pub(crate) const LISTED_AT_1: &[u8] =
    b"\0\0\0\x25\0\0\0\x07\0\0\0\x01\0\x01t\0\0\0\x01\0\0\0\0\0\0\xff\xff\xff\xff\xff\xff\xff\xff\0\0\0\0\0\0\0\x01";

/// Some bytes, and others so many times.
pub(crate) fn repeated<A: Allocator + Copy>(
    alloc: A,
    first: &[u8],
    bytes: &[u8],
    count: u32,
) -> Result<Vec<u8, A>, AllocError> {
    let mut all = Vec::from_slice(alloc, first)?;
    for _ in 0..count {
        all.extend_from_slice(bytes)?;
    }
    Ok(all)
}
