//! A thousand batches of one record and one key, the odd offsets before the even ones: what a fetch gives of them,
//! and what a cleaning leaves.
use crate::tests::answers::is_added;
use partition_log::{CleanReport, PartitionLog};
use sample_batches::nine_at;
use segment::{BatchStore, SegStore, VecStore};
use std::alloc::Allocator;

/// How many batches have an odd offset, and how many an even one.
const HALF: i64 = 500;

/// What goes where every batch but the last does.
const ALL_BUT_ONE: CleanReport = CleanReport {
    records: 999,
    tombstones: 0,
    batches: 999,
};

/// Delivers the batches at every second offset from this one on, and tells whether each is new.
fn are_added<S: BatchStore>(copy: &mut PartitionLog<S>, first: i64) -> bool {
    let mut all = true;
    for i in 0..HALF {
        let offset = first.saturating_add(i.saturating_mul(2));
        all = all && is_added(copy, &nine_at(offset));
    }
    all
}

/// Whether these are the bytes of the batches at the offsets 500 to 509.
fn are_ten(bytes: &[u8]) -> bool {
    let (batches, rest) = bytes.as_chunks::<70>();
    let mut all = rest.is_empty() && batches.len() == 10;
    let mut offset = 500_i64;
    for batch in batches {
        all = all && *batch == nine_at(offset);
        offset = offset.saturating_add(1);
    }
    all
}

/// Whether a fetch of 700 bytes from offset 500 on gives the ten batches that have as many.
fn gives_ten<S: BatchStore, A: Allocator + Copy>(copy: &PartitionLog<S>, alloc: A) -> bool {
    let mut bytes = Vec::new(alloc);
    match copy.fetch(500, 700, false) {
        Ok(run) => {
            let is_right = run.start == 500 && run.end == 510;
            is_right && copy.put_bytes(run, &mut bytes).is_ok() && are_ten(&bytes)
        }
        Err(_) => false,
    }
}

/// Whether a cleaning leaves the last batch alone.
fn is_cleaned<S: BatchStore>(copy: &mut PartitionLog<S>) -> bool {
    let report = copy.clean(1_000, 0);
    report == Ok(ALL_BUT_ONE) && copy.len() == 1 && copy.at(0).base() == 999
}

/// Whether a new copy takes the batches, and a fetch and a cleaning of it are right.
fn is_right<S: BatchStore>(alloc: S::Alloc) -> bool {
    let mut copy = PartitionLog::<S>::new(alloc);
    let facts = [
        are_added(&mut copy, 1),
        are_added(&mut copy, 0),
        gives_ten(&copy, alloc),
        is_cleaned(&mut copy),
    ];
    facts == [true; 4]
}

#[test]
fn fetched_and_cleaned(rt: HostRuntime) {
    assert!(rt;
        is_right::<VecStore<_>>(rt.alloc()),
        "in memory of their own"
    );
    assert!(rt; is_right::<SegStore<_>>(rt.alloc()), "in segments");
}
