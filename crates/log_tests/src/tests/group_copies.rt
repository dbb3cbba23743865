//! A copy of the topic of committed offsets, as bytes worked out from docs/FORMATS.md.
use crate::tests::answers::is_added;
use partition_log::PartitionLog;
use segment::BatchStore;

/// The key of `g` in partition 0 of `t`.
pub(crate) static KEY: &[u8] = b"\0\x01\0\x01g\0\x01t\0\0\0\0";

/// That of partition 1.
pub(crate) static NEXT_KEY: &[u8] = b"\0\x01\0\x01g\0\x01t\0\0\0\x01";

/// The value of offset 20 with the metadata `m`.
pub(crate) static VALUE: &[u8] = b"\0\0\0\0\0\0\0\0\0\x14\0\x01m";

/// Commits in `t`: `g` commits 10 in partition 0, and 7 in partition 1; `h` commits 8 in partition 0; and `g` commits
/// 20 there, with the metadata `m`.
static COMMITS: [&[u8]; 4] = [
    b"\0\0\0\0\0\0\0\0\0\0\0P\0\0\0\0\x02\xa8\xf1y\x1e\0\0\0\0\0\0\xff\xff\xff\xff\xff\xff\xff\xff\xff\xff\xff\xff\xff\xff\xff\xff\xff\xff\xff\xff\xff\xff\xff\xff\xff\xff\xff\xff\xff\xff\0\0\0\x01<\0\0\0\x18\0\x01\0\x01g\0\x01t\0\0\0\0\x18\0\0\0\0\0\0\0\0\0\x0a\xff\xff\0",
    b"\0\0\0\0\0\0\0\x01\0\0\0P\0\0\0\0\x02\x9f\x5c|\xb2\0\0\0\0\0\0\xff\xff\xff\xff\xff\xff\xff\xff\xff\xff\xff\xff\xff\xff\xff\xff\xff\xff\xff\xff\xff\xff\xff\xff\xff\xff\xff\xff\xff\xff\0\0\0\x01<\0\0\0\x18\0\x01\0\x01g\0\x01t\0\0\0\x01\x18\0\0\0\0\0\0\0\0\0\x07\xff\xff\0",
    b"\0\0\0\0\0\0\0\x02\0\0\0P\0\0\0\0\x02md=\x20\0\0\0\0\0\0\xff\xff\xff\xff\xff\xff\xff\xff\xff\xff\xff\xff\xff\xff\xff\xff\xff\xff\xff\xff\xff\xff\xff\xff\xff\xff\xff\xff\xff\xff\0\0\0\x01<\0\0\0\x18\0\x01\0\x01h\0\x01t\0\0\0\0\x18\0\0\0\0\0\0\0\0\0\x08\xff\xff\0",
    b"\0\0\0\0\0\0\0\x03\0\0\0Q\0\0\0\0\x02\xdcf\xc4\xdf\0\0\0\0\0\0\xff\xff\xff\xff\xff\xff\xff\xff\xff\xff\xff\xff\xff\xff\xff\xff\xff\xff\xff\xff\xff\xff\xff\xff\xff\xff\xff\xff\xff\xff\0\0\0\x01>\0\0\0\x18\0\x01\0\x01g\0\x01t\0\0\0\0\x1a\0\0\0\0\0\0\0\0\0\x14\0\x01m\0",
];

/// What isn't a value at the key of `g` in partition 2, behind them.
pub(crate) static NO_VALUE: &[u8] =
    b"\0\0\0\0\0\0\0\x04\0\0\0G\0\0\0\0\x02\x1e\xb8+z\0\0\0\0\0\0\xff\xff\xff\xff\xff\xff\xff\xff\xff\xff\xff\xff\xff\xff\xff\xff\xff\xff\xff\xff\xff\xff\xff\xff\xff\xff\xff\xff\xff\xff\0\0\0\x01*\0\0\0\x18\0\x01\0\x01g\0\x01t\0\0\0\x02\x06abc\0";

/// The batch that commits 20 with the metadata `m`, as `g` did last.
pub(crate) static COMMIT: &[u8] =
    b"\0\0\0\0\0\0\0\0\0\0\0Q\0\0\0\0\x02\xdcf\xc4\xdf\0\0\0\0\0\0\xff\xff\xff\xff\xff\xff\xff\xff\xff\xff\xff\xff\xff\xff\xff\xff\xff\xff\xff\xff\xff\xff\xff\xff\xff\xff\xff\xff\xff\xff\0\0\0\x01>\0\0\0\x18\0\x01\0\x01g\0\x01t\0\0\0\0\x1a\0\0\0\0\0\0\0\0\0\x14\0\x01m\0";

/// The batch that forgets both keys of `g`.
pub(crate) static FORGOTTEN: &[u8] =
    b"\0\0\0\0\0\0\0\0\0\0\0W\0\0\0\0\x02@[\x039\0\0\0\0\0\x01\xff\xff\xff\xff\xff\xff\xff\xff\xff\xff\xff\xff\xff\xff\xff\xff\xff\xff\xff\xff\xff\xff\xff\xff\xff\xff\xff\xff\xff\xff\0\0\0\x02$\0\0\0\x18\0\x01\0\x01g\0\x01t\0\0\0\x01\x01\0$\0\0\x02\x18\0\x01\0\x01g\0\x01t\0\0\0\0\x01\0";

/// A copy that holds the commits; `None` where it doesn't take one.
pub(crate) fn committed<S: BatchStore>(alloc: S::Alloc) -> Option<PartitionLog<S>> {
    let mut copy = PartitionLog::<S>::new(alloc);
    for bytes in &COMMITS {
        if !is_added(&mut copy, bytes) {
            return None;
        }
    }
    Some(copy)
}
