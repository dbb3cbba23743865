//! The calls for committed offsets, each allocation failing in turn: one of them lacks memory, the copy answers as
//! before, and made again the call gives what it is to give. That a key or a value is read takes none.
use crate::tests::group_copies::{COMMIT, FORGOTTEN, KEY, NEXT_KEY, VALUE, committed};
use batch_codec::{Batch, encode};
use copy_answers::{answers_of, has_answers};
use group_offsets::{
    GroupError, commit_batch, forget_batch, group_keys, lookup, put_key, put_value,
};
use partition_log::PartitionLog;
use refusing_alloc::Refusing;
use segment::{BatchStore, SegStore, VecStore};
use std::alloc::Allocator;

/// More allocations than any run below asks for.
const MOST: u64 = 100;

/// How many bytes the four batches of the copy have.
const GIVEN: usize = 3 * 92 + 93;

/// The number of calls that `call` knows.
const CALLS: usize = 6;

/// What comes of a call: whether its result is right.
type Came = Result<bool, GroupError>;

/// Whether a batch has this encoding.
fn is_encoded<A: Allocator + Copy, B: Allocator + Copy>(
    alloc: B,
    batch: &Batch<A>,
    wanted: &[u8],
) -> bool {
    let mut out = Vec::new(alloc);
    encode(batch, &mut out).is_ok() && out.as_slice() == wanted
}

/// A key is written.
fn writes_key<A: Allocator + Copy>(heap: A) -> Came {
    let key = put_key(heap, b"g", b"t", 0)?;
    Ok(key.as_slice() == KEY)
}

/// A value is written.
fn writes_value<A: Allocator + Copy>(heap: A) -> Came {
    let value = put_value(heap, 20, Some(b"m"))?;
    Ok(value.as_slice() == VALUE)
}

/// An offset is committed.
fn commits<A: Allocator + Copy, B: Allocator + Copy>(heap: A, alloc: B) -> Came {
    let batch = commit_batch(heap, b"g", b"t", 0, 20, Some(b"m"))?;
    Ok(is_encoded(alloc, &batch, COMMIT))
}

/// An offset is looked up.
fn looks_up<S: BatchStore>(copy: &PartitionLog<S>) -> Came {
    match lookup(copy, b"g", b"t", 0)? {
        Some(found) => Ok(found.offset == 20 && found.metadata == Some(b"m".as_slice())),
        None => Ok(false),
    }
}

/// The keys of a group are found.
fn finds_keys<S: BatchStore>(copy: &PartitionLog<S>) -> Came {
    match group_keys(copy, b"g") {
        Ok(keys) => Ok(keys.as_slice() == [NEXT_KEY, KEY].as_slice()),
        Err(_) => Err(GroupError::OutOfMemory),
    }
}

/// Keys are forgotten.
fn forgets<A: Allocator + Copy, B: Allocator + Copy>(heap: A, alloc: B) -> Came {
    match forget_batch(heap, &[NEXT_KEY, KEY]) {
        Ok(batch) => Ok(is_encoded(alloc, &batch, FORGOTTEN)),
        Err(_) => Err(GroupError::OutOfMemory),
    }
}

/// Makes the call of that number, on this copy, in its memory.
fn call<S: BatchStore, B: Allocator + Copy>(
    copy: &PartitionLog<S>,
    alloc: B,
    number: usize,
) -> Came {
    match number {
        0 => writes_key(copy.allocator()),
        1 => writes_value(copy.allocator()),
        2 => commits(copy.allocator(), alloc),
        3 => looks_up(copy),
        4 => finds_keys(copy),
        _ => forgets(copy.allocator(), alloc),
    }
}

/// Makes a call, again where memory lacked, and tells whether it did; none where something else comes of it, or the
/// copy answers in another way then.
fn lacks<S: BatchStore, B: Allocator + Copy>(
    copy: &PartitionLog<S>,
    alloc: B,
    number: usize,
) -> Option<bool> {
    let before = answers_of(alloc, copy).ok()?;
    let came = call(copy, alloc, number);
    if came == Ok(true) {
        return Some(false);
    }
    let is_same = has_answers(alloc, copy, &before);
    let is_done = call(copy, alloc, number) == Ok(true);
    if came == Err(GroupError::OutOfMemory) && is_same && is_done {
        Some(true)
    } else {
        None
    }
}

/// Whether a call lacks memory in this heap; none where something else comes of it.
fn lacking<S: BatchStore, B: Allocator + Copy>(
    heap: S::Alloc,
    alloc: B,
    number: usize,
) -> Option<bool> {
    match committed::<S>(heap) {
        Some(copy) => lacks(&copy, alloc, number),
        // the copy itself lacks memory
        None => Some(false),
    }
}

/// How a copy keeps its batches.
#[derive(Clone, Copy, Debug)]
enum Kept {
    /// Each in memory of its own.
    Apart,
    /// End to end, in segments.
    EndToEnd,
}

/// The same of a copy that keeps its batches so.
fn lacking_in<A: Allocator + Copy, B: Allocator + Copy>(
    kept: Kept,
    heap: A,
    alloc: B,
    number: usize,
) -> Option<bool> {
    match kept {
        Kept::Apart => lacking::<VecStore<A>, B>(heap, alloc, number),
        Kept::EndToEnd => lacking::<SegStore<A>, B>(heap, alloc, number),
    }
}

/// The same where this allocation fails, and whether it is asked for; none where more is asked for at once than what was
/// given allows.
fn lacking_without<A: Allocator + Copy>(
    inner: A,
    kept: Kept,
    refused: u64,
    number: usize,
) -> (Option<bool>, bool) {
    let heap = Refusing::new(inner, refused);
    let lacks = lacking_in(kept, &heap, inner, number);
    let is_asked = heap.calls() >= refused;
    if heap.is_within(GIVEN) {
        (lacks, is_asked)
    } else {
        (None, is_asked)
    }
}

/// Whether a call lacks memory where some allocation fails; none where something else comes of it, or memory lacks
/// though no allocation fails.
fn lacks_sometime<A: Allocator + Copy>(inner: A, kept: Kept, number: usize) -> Option<bool> {
    let mut sometime = false;
    for refused in 1..MOST {
        let (lacks, is_asked) = lacking_without(inner, kept, refused, number);
        let lacks = lacks?;
        if !is_asked {
            return if lacks { None } else { Some(sometime) };
        }
        sometime = sometime || lacks;
    }
    None
}

#[test]
fn each_call_lacks_memory_once(rt: HostRuntime) {
    for number in 0..CALLS {
        for kept in [Kept::Apart, Kept::EndToEnd] {
            let sometime = lacks_sometime(rt.alloc(), kept, number);
            assert!(rt; sometime == Some(true), "call {number}, {kept:?}");
        }
    }
}
