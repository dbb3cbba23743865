//! A leader's log that a copy with a gap can't become, and a batch that it refuses by name.
use crate::tests::answers::{answer, is_added};
use partition_log::{AppendError, LeaderLog, PartitionLog};
use sample_batches::{EMPTIED, one};
use segment::{BatchStore, ProgramStore};

/// A copy that lacks the offset 0, handed back; `None` where a leader's log is made of it.
fn handed_back<S: BatchStore>(alloc: S::Alloc) -> Option<PartitionLog<S>> {
    let mut copy = PartitionLog::<S>::new(alloc);
    let _ = is_added(&mut copy, &one(1, 0, b'b', b'2'));
    let gapped = LeaderLog::from_copy(copy).err()?;
    Some(gapped.copy)
}

/// Whether a copy shows what it had, and takes what it lacks.
fn is_filled<S: BatchStore>(copy: &mut PartitionLog<S>) -> bool {
    copy.get(b"b") == Some(b"2".as_slice()) && is_added(copy, &one(0, 0, b'a', b'1'))
}

/// Whether the log that a copy becomes ends at the offset 2, and refuses a batch whose records are missing.
fn leads<S: BatchStore>(copy: PartitionLog<S>) -> bool {
    match LeaderLog::from_copy(copy) {
        Ok(mut log) => {
            let refused = answer(&mut log, &EMPTIED);
            (log.copy().end(), refused) == (2, Some(Err(AppendError::NotWhole)))
        }
        Err(_) => false,
    }
}

#[test]
fn a_copy_with_a_gap_is_handed_back(rt: HostRuntime) {
    // whether the copy leads once it is filled
    let leads_later = match handed_back::<ProgramStore<_>>(rt.alloc()) {
        Some(mut copy) => is_filled(&mut copy) && leads(copy),
        None => false,
    };
    assert!(rt; leads_later);
}
