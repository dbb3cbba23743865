//! A copy under each allocation failing in turn: what takes no memory answers as before, and the call succeeds later.
use batch_codec::view;
use copy_answers::{answers_of, has_answers};
use partition_log::{CleanReport, DeliverError, Delivered, PartitionLog};
use refusing_alloc::Refusing;
use sample_batches::{NINE, THREE, one};
use segment::{BatchStore, SegStore, VecStore};
use std::alloc::{AllocError, Allocator};

/// More allocations than any run below asks for.
const MOST: u64 = 100;

/// How many bytes the three batches have.
const GIVEN: usize = 87 + 70 + 70;

/// What goes where the newest of three records of a key and that of another stay.
const THREE_WENT: CleanReport = CleanReport {
    records: 3,
    tombstones: 0,
    batches: 1,
};

/// Delivers a batch that is new, again where memory lacked, and tells whether the copy answered as before
/// then, and took it.
fn takes<S: BatchStore, B: Allocator + Copy>(
    alloc: B,
    copy: &mut PartitionLog<S>,
    bytes: &[u8],
) -> bool {
    let (Ok(batch), Ok(before)) = (view(bytes), answers_of(alloc, copy)) else {
        return false;
    };
    let mut answer = copy.deliver(&batch);
    let mut is_same = true;
    if answer == Err(DeliverError::OutOfMemory) {
        is_same = has_answers(alloc, copy, &before);
        answer = copy.deliver(&batch);
    }
    is_same && answer == Ok(Delivered::Added)
}

/// Whether the copy has memory for its table, and keeps so many batches and shows a value of `a`, beside `b`.
fn shows<S: BatchStore>(copy: &PartitionLog<S>, len: usize, value: &[u8]) -> bool {
    let rows: &[(&[u8], &[u8])] = &[(b"a", value), (b"b", b"2")];
    match copy.table() {
        Ok(table) => copy.len() == len && table.as_slice() == rows,
        Err(_) => false,
    }
}

/// Whether the copy shows that at the first or the second time of asking, and answers all else as before it was
/// asked.
fn shows_later<S: BatchStore, B: Allocator + Copy>(
    alloc: B,
    copy: &PartitionLog<S>,
    len: usize,
    value: &[u8],
) -> bool {
    let Ok(before) = answers_of(alloc, copy) else {
        return false;
    };
    shows(copy, len, value) || (has_answers(alloc, copy, &before) && shows(copy, len, value))
}

/// Whether the copy takes three batches and shows what they leave.
fn takes_all<S: BatchStore, B: Allocator + Copy>(alloc: B, copy: &mut PartitionLog<S>) -> bool {
    let taken = [
        takes(alloc, copy, &THREE),
        takes(alloc, copy, &NINE),
        takes(alloc, copy, &one(4, 0, b'a', b'8')),
        shows_later(alloc, copy, 3, b"8"),
    ];
    taken == [true; 4]
}

/// The bytes of the three batches.
fn three_batches<B: Allocator + Copy>(alloc: B) -> Result<Vec<u8, B>, AllocError> {
    let mut bytes = Vec::from_slice(alloc, &THREE)?;
    bytes.extend_from_slice(&NINE)?;
    bytes.extend_from_slice(&one(4, 0, b'a', b'8'))?;
    Ok(bytes)
}

/// Whether the copy's bytes are put behind nothing, at the first time or the second: then a front of them stood there.
fn puts_bytes<S: BatchStore, B: Allocator + Copy>(alloc: B, copy: &PartitionLog<S>) -> bool {
    let Ok(wanted) = three_batches(alloc) else {
        return false;
    };
    let mut out = Vec::new(copy.allocator());
    let mut is_front = true;
    if copy.put_bytes(0..copy.len(), &mut out).is_err() {
        is_front = wanted.starts_with(&out) && out.len() < wanted.len();
        out.clear();
        is_front = is_front && copy.put_bytes(0..copy.len(), &mut out).is_ok();
    }
    is_front && out.as_slice() == wanted.as_slice()
}

/// Cleans the copy, again where memory lacked, and tells whether it answered as before then, and is right.
fn is_cleaned<S: BatchStore, B: Allocator + Copy>(alloc: B, copy: &mut PartitionLog<S>) -> bool {
    let Ok(before) = answers_of(alloc, copy) else {
        return false;
    };
    let is_right = match copy.clean(5, 0) {
        Ok(report) => report == THREE_WENT,
        Err(_) => has_answers(alloc, copy, &before) && copy.clean(5, 0) == Ok(THREE_WENT),
    };
    is_right && shows_later(alloc, copy, 2, b"8")
}

/// Whether a clone of the copy is made, at the first or the second time of asking, answers as the copy does, and is
/// cleaned, and the copy stays as it is.
fn is_cloned<S: BatchStore, B: Allocator + Copy>(alloc: B, copy: &PartitionLog<S>) -> bool {
    let Ok(before) = answers_of(alloc, copy) else {
        return false;
    };
    let clone = match copy.try_clone() {
        Ok(clone) => Ok(clone),
        Err(_) => copy.try_clone(),
    };
    match clone {
        Ok(mut clone) => {
            let facts = [
                has_answers(alloc, &clone, &before),
                is_cleaned(alloc, &mut clone),
                has_answers(alloc, copy, &before),
            ];
            facts == [true; 3]
        }
        Err(_) => false,
    }
}

/// Whether a new copy takes the batches, gives their bytes, and is cloned.
fn is_as_before<S: BatchStore, B: Allocator + Copy>(heap: S::Alloc, alloc: B) -> bool {
    let mut copy = PartitionLog::<S>::new(heap);
    takes_all(alloc, &mut copy) && puts_bytes(alloc, &copy) && is_cloned(alloc, &copy)
}

#[test]
fn a_copy_is_as_before_an_allocation_that_fails(rt: HostRuntime) {
    let mut passed = false;
    for refused in 1..MOST {
        let heap = Refusing::new(rt.alloc(), refused);
        assert!(rt;
            is_as_before::<VecStore<_>, _>(&heap, rt.alloc()),
            "{refused}"
        );
        let other = Refusing::new(rt.alloc(), refused);
        assert!(rt;
            is_as_before::<SegStore<_>, _>(&other, rt.alloc()),
            "{refused}, segments"
        );
        assert!(rt;
            heap.is_within(GIVEN) && other.is_within(GIVEN),
            "{refused}"
        );
        passed = heap.calls() < refused && other.calls() < refused;
        if passed {
            break;
        }
    }
    assert!(rt; passed);
}
