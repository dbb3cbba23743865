//! Calls below those of copies, each allocation failing in turn: numbers that are written, a batch that is copied, lists
//! in blocks, and the index of producers. What takes no memory answers as before, and the call succeeds later.
ghost use Rattle.std.specs.Prelude.{pos, ◌≤ℤ◌};

use crate::tests::encode_tests::is_written;
use batch_codec::{Batch, BatchHead, view};
use block_list::{BlockList, Filling};
use count_list::CountList;
use producer_index::{ProducerIndex, Verdict};
use refusing_alloc::Refusing;
use sample_batches::ALL_FIELDS;
use std::alloc::{AllocError, Allocator};
use varint::{put_i32, put_i64};

/// More allocations than any call below asks for.
const MOST: u64 = 100;

/// How many elements a list gets: more than two of its blocks take.
const MANY: u16 = 600;

/// The greatest number of 32 bits, and the least of 64, as varints worked by hand.
const WRITTEN: &[u8] = b"old\xfe\xff\xff\xff\x0f\xff\xff\xff\xff\xff\xff\xff\xff\xff\x01";

/// Writes a number of 32 bits, or one of 64.
fn put<A: Allocator + Copy>(out: &mut Vec<u8, A>, is_short: bool) -> Result<(), AllocError> {
    if is_short {
        put_i32(out, i32::MAX)
    } else {
        put_i64(out, i64::MIN)
    }
}

/// Writes a number, again where memory lacked, and tells whether these bytes stood there before then, and those now.
fn puts_later<A: Allocator + Copy>(
    out: &mut Vec<u8, A>,
    is_short: bool,
    before: usize,
    after: usize,
) -> bool {
    let mut is_same = true;
    let mut is_put = put(out, is_short).is_ok();
    if !is_put {
        is_same = Some(out.as_slice()) == WRITTEN.get(..before);
        is_put = put(out, is_short).is_ok();
    }
    is_same && is_put && Some(out.as_slice()) == WRITTEN.get(..after)
}

/// Numbers are written behind other bytes.
fn writes_numbers<A: Allocator + Copy>(heap: A) -> bool {
    let begun = match b"old".to_vec(heap) {
        Ok(out) => Ok(out),
        Err(_) => b"old".to_vec(heap),
    };
    match begun {
        Ok(mut out) => puts_later(&mut out, true, 3, 8) && puts_later(&mut out, false, 8, 18),
        Err(_) => false,
    }
}

/// A batch is copied.
fn copies_a_batch<A: Allocator + Copy, B: Allocator + Copy>(heap: A, alloc: B) -> bool {
    let Ok(batch) = view(&ALL_FIELDS) else {
        return false;
    };
    let copied = match Batch::from_view(heap, &batch) {
        Ok(copy) => Ok(copy),
        Err(_) => Batch::from_view(heap, &batch),
    };
    match copied {
        Ok(copy) => is_written(alloc, &copy, &ALL_FIELDS),
        Err(_) => false,
    }
}

/// The element at an index of a list that has so many, each put behind those before it, or in front of them.
fn wanted(count: u16, index: u16, is_front: bool) -> u16 {
    if is_front {
        count.saturating_sub(1).saturating_sub(index)
    } else {
        index
    }
}

/// Whether a list has so many elements, the right ones.
fn has_elements<A: Allocator + Copy>(list: &BlockList<u16, A>, count: u16, is_front: bool) -> bool {
    let mut all = list.len() == usize::from(count);
    for index in 0..count {
        let i = usize::from(index);
        all = all && i < list.len() && *list.get(i) == wanted(count, index, is_front);
    }
    all
}

/// Puts an element in front of all, or behind them.
fn add<A: Allocator + Copy>(
    list: &mut BlockList<u16, A>,
    element: u16,
    is_front: bool,
) -> Result<(), AllocError> {
    if is_front {
        list.insert(0, element)
    } else {
        list.push(element)
    }
}

/// Puts the elements into a list one after another, each again where memory lacked: then the list was as before.
fn fills_list<A: Allocator + Copy>(heap: A, is_front: bool) -> bool {
    let mut list = BlockList::new(heap);
    let mut all = true;
    for element in 0..MANY {
        if add(&mut list, element, is_front).is_err() {
            all = all && has_elements(&list, element, is_front);
            all = all && add(&mut list, element, is_front).is_ok();
        }
    }
    all && has_elements(&list, MANY, is_front)
}

/// A list of two elements for which all room was taken before; `None` where memory lacked.
fn filled<A: Allocator + Copy>(heap: A) -> Option<BlockList<u16, A>> {
    let mut filling = Filling::with_room(heap, 2).ok()?;
    filling.push(0);
    filling.push(1);
    Some(filling.finish())
}

/// A list is filled, at the first time or the second.
fn fills_once<A: Allocator + Copy>(heap: A) -> bool {
    let made = match filled(heap) {
        Some(list) => Some(list),
        None => filled(heap),
    };
    match made {
        Some(list) => has_elements(&list, 2, false),
        None => false,
    }
}

/// Whether a list has so many counts, the right ones, and finds them: each is one more than its element above.
fn has_counts<A: Allocator + Copy>(list: &CountList<A>, count: u16, is_front: bool) -> bool {
    let mut all = list.len() == usize::from(count);
    let mut sum = 0_usize;
    for index in 0..count {
        let i = usize::from(index);
        let n = usize::from(wanted(count, index, is_front)).saturating_add(1);
        all = all && i < list.len() && list.get(i) == n && list.before(i) == sum;
        all = all && sum < list.total() && list.find(sum).index == i;
        sum = sum.saturating_add(n);
    }
    all && list.total() == sum
}

/// Puts a count in front of all, or behind them.
fn count<A: Allocator + Copy>(
    list: &mut CountList<A>,
    element: u16,
    is_front: bool,
) -> Result<(), AllocError> {
    if list.total() > 1_000_000 {
        return Err(AllocError);
    }
    let n = usize::from(element) + 1;
    if is_front {
        list.insert(0, n)
    } else {
        list.push(n)
    }
}

/// Puts the counts into a list one after another, each again where memory lacked: then the list was as before.
fn fills_counts<A: Allocator + Copy>(heap: A, is_front: bool) -> bool {
    let mut list = CountList::new(heap);
    let mut all = true;
    for element in 0..MANY {
        if count(&mut list, element, is_front).is_err() {
            all = all && has_counts(&list, element, is_front);
            all = all && count(&mut list, element, is_front).is_ok();
        }
    }
    all && has_counts(&list, MANY, is_front)
}

/// The first batch of a producer, at the base offset that is its number.
fn head_of(producer: u8) -> BatchHead
    ensures producer { pos 0 ≤ℤ result.producer }
    ensures epoch { pos 0 ≤ℤ result.producer_epoch }
    ensures sequence { pos 0 ≤ℤ result.base_seq }
    ensures last_delta { pos 0 ≤ℤ result.last_delta }
{
    BatchHead {
        base: i64::from(producer),
        leader_epoch: 0,
        attrs: 0,
        last_delta: 0,
        base_time: 0,
        max_time: 0,
        producer: i64::from(producer),
        producer_epoch: 0,
        base_seq: 0,
    }
}

/// How many producers there are.
const PRODUCERS: u8 = 40;

/// Whether the index knows the producers below this number, and no others.
fn knows<A: Allocator + Copy>(index: &ProducerIndex<A>, producers: u8) -> bool {
    let mut all = true;
    for producer in 0..PRODUCERS {
        let verdict = if producer < producers {
            Verdict::Repeat(i64::from(producer))
        } else {
            Verdict::New
        };
        all = all && index.judge(&head_of(producer)) == verdict;
    }
    all
}

/// The index takes each producer's first batch, again where memory lacked: then it knew those before.
fn indexes_producers<A: Allocator + Copy>(heap: A) -> bool {
    let mut index = ProducerIndex::new(heap);
    let mut all = true;
    for producer in 0..PRODUCERS {
        if index.put(&head_of(producer)).is_err() {
            all = all && knows(&index, producer);
            all = all && index.put(&head_of(producer)).is_ok();
        }
    }
    all && knows(&index, PRODUCERS)
}

/// The calls: what each is, and how many bytes it is given.
static CALLS: [(&str, usize); 8] = [
    ("numbers", 18),
    ("a batch", 152),
    ("a list at its end", 1_200),
    ("a list at its front", 1_200),
    ("a list with room", 4),
    ("counts at the end", 4_800),
    ("counts at the front", 4_800),
    ("producers", 40 * 61),
];

/// Whether a call does what it should, again where memory lacked.
fn succeeds_later<A: Allocator + Copy, B: Allocator + Copy>(
    heap: A,
    alloc: B,
    call: usize,
) -> bool {
    match call {
        0 => writes_numbers(heap),
        1 => copies_a_batch(heap, alloc),
        2 => fills_list(heap, false),
        3 => fills_list(heap, true),
        4 => fills_once(heap),
        5 => fills_counts(heap, false),
        6 => fills_counts(heap, true),
        _ => indexes_producers(heap),
    }
}

/// How many allocations a call asks for, where each fails in turn; an error with the number of one at whose failure
/// something is wrong, or more is asked for at once than what was given allows.
fn asked<A: Allocator + Copy>(alloc: A, call: usize, given: usize) -> Result<u64, u64> {
    for refused in 1..MOST {
        let heap = Refusing::new(alloc, refused);
        if !succeeds_later(&heap, alloc, call) || !heap.is_within(given) {
            return Err(refused);
        }
        if heap.calls() < refused {
            return Ok(heap.calls());
        }
    }
    Err(MOST)
}

#[test]
fn each_call_succeeds_later(rt: HostRuntime) {
    for (call, (name, given)) in CALLS.iter().enumerate() {
        let asked = asked(rt.alloc(), call, *given);
        assert!(rt; asked.is_ok_and(|count| 0 < count), "{name}: {asked:?}");
    }
}
