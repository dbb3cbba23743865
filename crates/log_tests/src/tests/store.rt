//! A list of batches by rising offset: where each goes, what is found, and each allocation failing
//! in turn.

ghost use Rattle.std.specs.Prelude.{◌≡◌, IfOk};
ghost use Rattle.batch_codec.specs.Reading.{IsEncoding, batch_of};
ghost use Rattle.batch_codec.specs.Rebase.{with_base};
ghost use Rattle.segment.specs.BatchLists.{IsBatchList};

use batch_codec::{Batch, BatchView, set_base, view};
use refusing_alloc::Refusing;
use sample_batches::{EMPTIED, NINE, THREE, nine_at};
use segment::{BatchStore, SegStore, VecStore, can_insert};
use std::alloc::{AllocError, Allocator};

/// The greatest offset.
const GREATEST: i64 = 0x3fff_ffff_ffff_ffff;

/// How many bytes the four batches have that a few calls are given.
const FEW_GIVEN: usize = 4 * 87;

/// How many bytes many batches have.
const MANY_GIVEN: usize = 240 * 70;

/// More allocations than any run below asks for.
const MOST: u64 = 500;

/// More batches than one block of a store takes, and than the byte store keeps in one segment that it inserts
/// into: of 70 bytes each, more than 16,384.
const MANY: u16 = 240;

/// Inserts a batch, and tells whether it might be inserted, and is at the index that was answered.
fn insert<S: BatchStore>(store: &mut S, batch: &BatchView<'_>) -> Result<bool, AllocError> {
    if !can_insert(store, batch) {
        return Ok(false);
    }
    let i = store.insert(batch)?;
    Ok(i < store.len() && store.bytes_of(i) == batch.bytes())
}

/// The bytes of a batch with another base offset and leader epoch.
fn rebased<A: Allocator + Copy>(
    alloc: A,
    batch: &BatchView<'_>,
    base: i64,
    leader_epoch: i32,
) -> Result<Vec<u8, A>, AllocError>
    ensures encoding { IfOk result (λ bytes. IsEncoding bytes.items) }
    ensures batch { IfOk result
        (λ bytes. batch_of bytes.items ≡ with_base base leader_epoch batch.now) }
{
    let mut bytes = Vec::from_slice(alloc, batch.bytes())?;
    set_base(&mut bytes, base, leader_epoch);
    Ok(bytes)
}

/// Inserts a batch with another base offset and leader epoch, where it may be inserted.
fn insert_rebased<S: BatchStore, A: Allocator + Copy>(
    alloc: A,
    store: &mut S,
    batch: &BatchView<'_>,
    base: i64,
    leader_epoch: i32,
) -> Result<Option<usize>, AllocError> {
    let bytes = rebased(alloc, batch, base, leader_epoch)?;
    if !can_insert(store, &BatchView::open(&bytes)) {
        return Ok(None);
    }
    Ok(Some(store.insert_rebased(batch, base, leader_epoch)?))
}

/// Whether the batch at an index has this base offset, is found from there, and has the bytes that are at the index,
/// which are a piece.
fn has_base<S: BatchStore>(store: &S, i: usize, base: i64) -> bool {
    if i >= store.len() {
        return false;
    }
    let batch = store.at(i);
    let (piece, _end) = store.piece(i, i + 1);
    let facts = [
        batch.head().base == base,
        store.first_from(base) == i,
        batch.bytes() == store.bytes_of(i),
        batch.bytes() == piece,
        store.stretch_start(i) <= i,
    ];
    facts == [true; 5]
}

/// Whether the batches have these base offsets, and are found.
fn has_bases<S: BatchStore>(store: &S, bases: &[i64]) -> bool {
    let len = store.len();
    if len != bases.len() || store.first_from(i64::MIN) != 0 || store.first_from(i64::MAX) != len {
        return false;
    }
    for i in 0..len {
        if !has_base(store, i, bases[i]) {
            return false;
        }
    }
    true
}

/// The batches of a store, read into memory.
fn read_all<S: BatchStore, A: Allocator + Copy>(
    alloc: A,
    store: &S,
) -> Result<Vec<Batch<A>, A>, AllocError>
    ensures batches { IfOk result (λ list. list.items ≡ S.batches store.now) }
    ensures batch_list { IfOk result (λ list. IsBatchList list.items) }
{
    let mut list = Vec::new(alloc);
    for i in 0..store.len() {
        list.push(Batch::from_view(alloc, &store.at(i))?)?;
    }
    Ok(list)
}

/// What a place is, the batch that goes there, the base offset and the leader epoch that it gets, its index, and the
/// base offsets then.
type Going = (
    &'static str,
    &'static [u8],
    (i64, i32),
    Option<usize>,
    &'static [i64],
);

/// Batches that are inserted one after another: of three offsets, of one, and of four.
static GOINGS: [Going; 14] = [
    ("the first", &THREE, (5, 7), Some(0), &[5]),
    ("after all", &THREE, (11, -1), Some(1), &[5, 11]),
    ("between", &THREE, (8, i32::MAX), Some(1), &[5, 8, 11]),
    ("before all", &THREE, (0, 0), Some(0), &[0, 5, 8, 11]),
    ("in a gap", &NINE, (3, 1), Some(1), &[0, 3, 5, 8, 11]),
    (
        "the last offset",
        &NINE,
        (GREATEST, 0),
        Some(5),
        &[0, 3, 5, 8, 11, GREATEST],
    ),
    ("a taken base", &NINE, (5, 7), None, &SIX_BASES),
    ("inside a span", &NINE, (2, 7), None, &SIX_BASES),
    ("into a span", &THREE, (3, 7), None, &SIX_BASES),
    ("over two", &EMPTIED, (0, 7), None, &SIX_BASES),
    ("below 0", &NINE, (-1, 7), None, &SIX_BASES),
    ("past the last", &NINE, (GREATEST + 1, 7), None, &SIX_BASES),
    ("over the last", &THREE, (GREATEST, 7), None, &SIX_BASES),
    ("the greatest", &NINE, (i64::MAX, 7), None, &SIX_BASES),
];

/// The base offsets of the batches that were inserted.
const SIX_BASES: [i64; 6] = [0, 3, 5, 8, 11, GREATEST];

/// Whether there is a batch at an index, if any is named, and it has this leader epoch.
fn has_epoch<S: BatchStore>(store: &S, index: Option<usize>, epoch: i32) -> bool {
    match index {
        Some(i) => i < store.len() && store.at(i).head().leader_epoch == epoch,
        None => true,
    }
}

/// Inserts a batch that has these bytes at another base offset and leader epoch, and tells whether there was
/// memory, and it went to this index.
fn goes_to<S: BatchStore, A: Allocator + Copy>(
    alloc: A,
    store: &mut S,
    bytes: &[u8],
    (base, epoch): (i64, i32),
    wanted: Option<usize>,
) -> bool {
    match view(bytes) {
        Ok(batch) => insert_rebased(alloc, store, &batch, base, epoch) == Ok(wanted),
        Err(_) => false,
    }
}

/// Whether a batch goes where it should.
fn goes<S: BatchStore, A: Allocator + Copy>(alloc: A, store: &mut S, row: &Going) -> bool {
    let facts = [
        goes_to(alloc, store, row.1, row.2, row.3),
        has_epoch(store, row.3, row.2.1),
        has_bases(store, row.4),
    ];
    facts == [true; 3]
}

/// The first batch of the table that goes elsewhere; `None` where there is none.
fn went_otherwise<S: BatchStore, A: Allocator + Copy>(
    alloc: A,
    store: &mut S,
) -> Option<&'static str> {
    for row in &GOINGS {
        if !goes(alloc, store, row) {
            return Some(row.0);
        }
    }
    None
}

/// An offset, and the index of the first of the six batches from there on.
static SEARCHES: [(i64, usize); 14] = [
    (i64::MIN, 0),
    (-1, 0),
    (0, 0),
    (2, 0),
    (3, 1),
    (4, 2),
    (5, 2),
    (7, 2),
    (8, 3),
    (10, 3),
    (13, 4),
    (14, 5),
    (GREATEST, 5),
    (i64::MAX, 6),
];

/// Whether the batches of the table are found from its offsets.
fn are_found<S: BatchStore>(store: &S) -> bool {
    for (offset, wanted) in &SEARCHES {
        if store.first_from(*offset) != *wanted {
            return false;
        }
    }
    true
}

/// The first batch that goes elsewhere in a new store, and whether the batches of the table are found then.
fn answers_of_new<S: BatchStore>(alloc: S::Alloc) -> (Option<&'static str>, bool) {
    let mut store = S::new(alloc);
    let went = went_otherwise(alloc, &mut store);
    (went, are_found(&store))
}

#[test]
fn batches_go_in_order_and_are_found(rt: HostRuntime) {
    assert_eq!(rt; answers_of_new::<VecStore<_>>(rt.alloc()), (None, true));
    assert_eq!(rt; answers_of_new::<SegStore<_>>(rt.alloc()), (None, true));
}

/// Inserts a batch at another base offset, and tells whether there was memory.
fn has_room<S: BatchStore, A: Allocator + Copy>(alloc: A, store: &mut S, base: i64) -> bool {
    match view(&THREE) {
        Ok(batch) => insert_rebased(alloc, store, &batch, base, 1).is_ok(),
        Err(_) => false,
    }
}

/// Inserts a batch at another base offset, again where memory lacked, and tells whether the batches had these
/// base offsets then, and have those now.
fn goes_later<S: BatchStore, A: Allocator + Copy>(
    alloc: A,
    store: &mut S,
    base: i64,
    before: &[i64],
    after: &[i64],
) -> bool {
    let mut is_same = true;
    let mut is_inserted = has_room(alloc, store, base);
    if !is_inserted {
        is_same = has_bases(store, before);
        is_inserted = has_room(alloc, store, base);
    }
    [is_same, is_inserted, has_bases(store, after)] == [true; 3]
}

/// Inserts two batches into the one store, and one into the other, each again where memory lacked.
fn are_inserted_later<S: BatchStore, A: Allocator + Copy>(
    alloc: A,
    store: &mut S,
    other: &mut S,
) -> bool {
    let facts = [
        goes_later(alloc, store, 6, &[], &[6]),
        goes_later(alloc, store, 3, &[6], &[3, 6]),
        goes_later(alloc, other, 0, &[], &[0]),
    ];
    facts == [true; 3]
}

/// Copies a store, again where memory lacked.
fn copied_later<S: BatchStore>(store: &S) -> Option<S> {
    match store.try_clone() {
        Ok(copy) => Some(copy),
        Err(_) => store.try_clone().ok(),
    }
}

/// Copies a store of two batches, again where memory lacked.
fn is_copied_later<S: BatchStore>(store: &S) -> bool {
    match copied_later(store) {
        Some(copy) => has_bases(&copy, &[3, 6]),
        None => false,
    }
}

/// Puts the batches of the second store in the place of the first one's.
fn replace<S: BatchStore, T: BatchStore, A: Allocator + Copy>(
    alloc: A,
    store: &mut S,
    other: &T,
) -> Result<(), AllocError> {
    store.replace(read_all(alloc, other)?)
}

/// Puts two batches in the place of one, again where memory lacked.
fn is_replaced_later<S: BatchStore, T: BatchStore, A: Allocator + Copy>(
    alloc: A,
    store: &mut S,
    other: &T,
) -> bool {
    let mut is_same = true;
    let mut is_replaced = replace(alloc, store, other).is_ok();
    if !is_replaced {
        is_same = has_bases(store, &[0]);
        is_replaced = replace(alloc, store, other).is_ok();
    }
    [is_same, is_replaced, has_bases(store, &[3, 6])] == [true; 3]
}

/// Makes each other call on two stores, again where memory lacked.
fn others_succeed_later<S: BatchStore, B: Allocator + Copy>(
    alloc: B,
    store: &mut S,
    other: &mut S,
) -> bool {
    let facts = [
        are_inserted_later(alloc, store, other),
        is_copied_later(store),
        is_replaced_later(alloc, other, store),
    ];
    facts == [true; 3]
}

/// The order in which batches with the base offsets from 0 to below [`MANY`] come.
#[derive(Clone, Copy)]
enum Order {
    Rising,
    Falling,
    FromTheMiddle,
}

impl Order {
    /// The base offset of the batch that comes at an index below [`MANY`].
    fn base(self, i: u16) -> i64 {
        let i = i64::from(i);
        let many = i64::from(MANY);
        match self {
            Order::Rising => i,
            Order::Falling => many - 1 - i,
            Order::FromTheMiddle if i % 2 == 0 => many / 2 + i / 2,
            Order::FromTheMiddle => many / 2 - 1 - i / 2,
        }
    }
}

/// The base offsets of the first batches of an order, rising.
fn first_bases<A: Allocator + Copy>(
    alloc: A,
    order: Order,
    count: u16,
) -> Result<Vec<i64, A>, AllocError> {
    let mut bases = Vec::new(alloc);
    for i in 0..count {
        bases.push(order.base(i))?;
    }
    bases.sort_unstable();
    Ok(bases)
}

/// Whether the store has the first batches of an order, and no others.
fn has_first<S: BatchStore, A: Allocator + Copy>(
    alloc: A,
    store: &S,
    order: Order,
    count: u16,
) -> bool {
    match first_bases(alloc, order, count) {
        Ok(bases) => has_bases(store, &bases),
        Err(_) => false,
    }
}

/// Inserts the batch that comes at this index, again where memory lacked, and tells whether the store was as it
/// had been then.
fn next_goes_later<S: BatchStore, A: Allocator + Copy>(
    alloc: A,
    store: &mut S,
    order: Order,
    i: u16,
) -> bool {
    let bytes = nine_at(order.base(i));
    let Ok(batch) = view(&bytes) else {
        return false;
    };
    match insert(store, &batch) {
        Ok(went) => went,
        Err(_) => {
            let is_same = has_first(alloc, store, order, i);
            [is_same, insert(store, &batch) == Ok(true)] == [true; 2]
        }
    }
}

/// Inserts many batches, each again where memory lacked, and tells whether the store has them all.
fn insert_many<S: BatchStore, A: Allocator + Copy>(alloc: A, store: &mut S, order: Order) -> bool {
    let mut all = true;
    for i in 0..MANY {
        all = all && next_goes_later(alloc, store, order, i);
    }
    all && has_first(alloc, store, order, MANY)
}

/// Inserts many batches into a store of this memory in that order, or makes each other call where there is none.
fn succeeds_later<S: BatchStore, B: Allocator + Copy>(
    heap: S::Alloc,
    alloc: B,
    order: Option<Order>,
) -> bool {
    let mut store = S::new(heap);
    match order {
        Some(order) => insert_many(alloc, &mut store, order),
        None => others_succeed_later(alloc, &mut store, &mut S::new(heap)),
    }
}

/// How many bytes the calls are given.
fn given_of(order: Option<Order>) -> usize {
    match order {
        Some(_) => MANY_GIVEN,
        None => FEW_GIVEN,
    }
}

/// Makes the calls with a list of batches in memory of their own, this allocation failing, and tells whether the
/// lists were right each time, and no more was asked for at once than what was given allows, and the allocation is
/// asked for.
fn with_batches<A: Allocator + Copy>(alloc: A, refused: u64, order: Option<Order>) -> (bool, bool) {
    let heap = Refusing::new(alloc, refused);
    let is_right = succeeds_later::<VecStore<_>, _>(&heap, alloc, order);
    let is_right = is_right && heap.is_within(given_of(order));
    (is_right, heap.calls() >= refused)
}

/// The same with a list of batches end to end in segments.
fn with_segments<A: Allocator + Copy>(
    alloc: A,
    refused: u64,
    order: Option<Order>,
) -> (bool, bool) {
    let heap = Refusing::new(alloc, refused);
    let is_right = succeeds_later::<SegStore<_>, _>(&heap, alloc, order);
    let is_right = is_right && heap.is_within(given_of(order));
    (is_right, heap.calls() >= refused)
}

/// How a list keeps its batches.
#[derive(Clone, Copy)]
enum Kept {
    /// Each in memory of its own.
    Apart,
    /// End to end, in segments.
    EndToEnd,
}

/// The same with a list that keeps them so.
fn with_list<A: Allocator + Copy>(
    alloc: A,
    kept: Kept,
    refused: u64,
    order: Option<Order>,
) -> (bool, bool) {
    match kept {
        Kept::Apart => with_batches(alloc, refused, order),
        Kept::EndToEnd => with_segments(alloc, refused, order),
    }
}

/// Makes the calls with a list, each allocation failing in turn, until it doesn't ask for the one that would fail,
/// and tells whether all lists were right each time, and an allocation failed at all.
fn each_succeeds_later<A: Allocator + Copy>(alloc: A, kept: Kept, order: Option<Order>) -> bool {
    for refused in 1..MOST {
        let (is_right, is_asked) = with_list(alloc, kept, refused, order);
        if !is_right {
            return false;
        }
        if !is_asked {
            return refused > 1;
        }
    }
    false
}

#[test]
fn a_list_is_as_before_an_allocation_that_fails(rt: HostRuntime) {
    for kept in [Kept::Apart, Kept::EndToEnd] {
        assert!(rt; each_succeeds_later(rt.alloc(), kept, None), "a few");
        for order in [Order::Rising, Order::Falling, Order::FromTheMiddle] {
            assert!(rt; each_succeeds_later(rt.alloc(), kept, Some(order)), "many");
        }
    }
}
