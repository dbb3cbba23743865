//! Frames that may change a barred partition: each is put off until that partition is lifted, and no other; what may change
//! none is handled.

use crate::tests::lives::UNTURNED;
use kept_starts::sessions::{Seat, Then, Visit};
use kept_starts::{Disk, Keeper, Place, Role, Unwatched, start};
use memory_directories::{MemoryDirectory, Store};
use sample_brokers::exchanges::{
    CLEAN, CLEAN_PART, COMMIT, DELIVER, Exchange, FORGET, MERGE, PATCH, POSITION, PRODUCER_ID,
    SILENT, STORE, TAKE, TRIM,
};
use sample_brokers::small::configured;
use segment::{BatchStore, VecStore};
use std::alloc::Allocator;
use std::cell::RefCell;

/// The places of all partitions: of `t`, of `u`, and of the groups' positions.
const PLACES: [(usize, usize); 5] = [(0, 0), (0, 1), (1, 0), (1, 1), (2, 0)];

/// Requests, each with the place of the partition that it may change.
static ROWS: [(Exchange, Option<(usize, usize)>); 13] = [
    (STORE, Some((0, 0))),
    (COMMIT, Some((2, 0))),
    (POSITION, None),
    (CLEAN, Some((0, 0))),
    (CLEAN_PART, Some((0, 0))),
    (TRIM, Some((0, 0))),
    (FORGET, Some((2, 0))),
    (TAKE, Some((1, 0))),
    (DELIVER, Some((0, 0))),
    (MERGE, Some((0, 0))),
    (PATCH, Some((0, 0))),
    (PRODUCER_ID, None),
    (SILENT, Some((0, 0))),
];

/// What comes of a visit of a session to which frames came: how many were answered, and for which place one was put off.
fn visited<S: BatchStore, A: Allocator + Copy, D: Disk>(
    keeper: &mut Keeper<S, A, D>,
    number: u64,
    frames: &[u8],
) -> (u64, Option<(usize, usize)>) {
    let mut seat = Seat::new();
    seat.may_read = true;
    let mut from = frames;
    match keeper.answer(number, 0, &mut seat, &mut from) {
        Some(
            Visit {
                answered,
                then: Then::PutOff(place),
                ..
            },
        ) => (answered, Some((place.topic, place.partition))),
        Some(visit) => (visit.answered, None),
        None => (0, None),
    }
}

/// Lifts all partitions but one.
fn lift_others<S: BatchStore, A: Allocator + Copy, D: Disk>(
    keeper: &mut Keeper<S, A, D>,
    wanted: (usize, usize),
) {
    for (topic, partition) in PLACES {
        if (topic, partition) != wanted {
            keeper.lift(Place { topic, partition });
        }
    }
}

/// Whether a request is put off that may change this partition, until that alone is barred no more.
fn is_put_off<S: BatchStore, A: Allocator + Copy, D: Disk>(
    keeper: &mut Keeper<S, A, D>,
    number: u64,
    request: &[u8],
    place: (usize, usize),
) -> bool {
    let first = visited(keeper, number, request);
    lift_others(keeper, place);
    let again = visited(keeper, number, b"");
    let (topic, partition) = place;
    keeper.lift(Place { topic, partition });
    let then = visited(keeper, number, b"");
    first == (0, Some(place)) && again == (0, Some(place)) && then == (1, None)
}

/// Whether a request is right that comes to a broker all of whose partitions are barred.
fn is_right<A: Allocator + Copy>(alloc: A, row: &(Exchange, Option<(usize, usize)>)) -> bool {
    let store = RefCell::new(Store::new(alloc));
    let mut directory = MemoryDirectory::new(&store);
    let Ok(config) = configured(alloc, Role::Leader) else {
        return false;
    };
    let told = start::<VecStore<A>, _, _>(alloc, &mut directory, &config, UNTURNED, &mut Unwatched);
    let Ok(mut started) = told else {
        return false;
    };
    let keeper = &mut started.keeper;
    let Ok(number) = keeper.open() else {
        return false;
    };
    let (exchange, place) = row;
    if keeper.raise_barrier().is_err() {
        return false;
    }
    match place {
        Some(place) => is_put_off(keeper, number, exchange.request, *place),
        None => visited(keeper, number, exchange.request) == (1, None),
    }
}

#[test]
fn frames_are_put_off(rt: HostRuntime) {
    for row in &ROWS {
        let name = row.0.name;
        assert!(rt; is_right(rt.alloc(), row), "{name}");
    }
}
