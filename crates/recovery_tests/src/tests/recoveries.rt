//! A broker over a directory in memory, of which each call fails in turn, during its start and during rounds, and all
//! that a kill or a crash may leave then. The next start has the state behind the frames whose replies had left, or
//! behind more of those that were handled, by whole rounds; and so has the one after it, where a call of the second life
//! failed, too.

use crate::tests::known_replies::known_of;
use crate::tests::later_lives::{Bounds, life_of};
use crate::tests::left_behind::{Fault, Reach, Story, wrong_behind, wrong_outermost};
use crate::tests::lives::{End, Keeping, Life, Round, changes_of, first_life};
use memory_directories::{MemoryDirectory, Store, Way};
use sample_brokers::exchanges::{
    CLEAN, COMMIT, FORGET, NEXT_PRODUCER_ID, POSITION, PRODUCER_ID, SILENT, STORE, TAKE, TRIM,
};
use segment::{BatchStore, VecStore};
use std::alloc::{AllocError, Allocator};
use std::cell::{Cell, RefCell};

/// Rounds that are each committed before a reply leaves. The last two groups are of more than a sector in all.
pub(crate) static COMMITTED: [Round; 6] = [
    Round {
        exchanges: &[STORE],
        keeping: Keeping::Commit,
    },
    Round {
        exchanges: &[COMMIT, POSITION, CLEAN],
        keeping: Keeping::Commit,
    },
    Round {
        exchanges: &[POSITION],
        keeping: Keeping::Commit,
    },
    Round {
        exchanges: &[TRIM, SILENT, FORGET],
        keeping: Keeping::Commit,
    },
    Round {
        exchanges: &[TAKE, SILENT, SILENT, PRODUCER_ID],
        keeping: Keeping::Commit,
    },
    Round {
        exchanges: &[NEXT_PRODUCER_ID, SILENT, SILENT],
        keeping: Keeping::Commit,
    },
];

/// Rounds that are appended before a reply leaves, and synced from time to time.
pub(crate) static APPENDED: [Round; 6] = [
    Round {
        exchanges: &[STORE],
        keeping: Keeping::Append,
    },
    Round {
        exchanges: &[COMMIT, CLEAN],
        keeping: Keeping::Append,
    },
    Round {
        exchanges: &[TRIM, SILENT, FORGET],
        keeping: Keeping::Sync,
    },
    Round {
        exchanges: &[TAKE, PRODUCER_ID],
        keeping: Keeping::Append,
    },
    Round {
        exchanges: &[SILENT, SILENT, SILENT],
        keeping: Keeping::Append,
    },
    Round {
        exchanges: &[NEXT_PRODUCER_ID],
        keeping: Keeping::Commit,
    },
];

/// More calls than a life makes.
pub(crate) const MOST_CALLS: u64 = 600;

/// So many steps behind each round make a snapshot whole, and remove the files that it takes the place of.
pub(crate) const STEPS: u32 = 16;

/// What is wrong, and where: how a call failed, which one of the first life, and which one of the second.
pub(crate) type Wrong = (Way, u64, u64, Fault);

/// How many frames of a table's rounds may change a broker.
pub(crate) fn changes_in(rounds: &[Round]) -> u64 {
    let mut count = 0_u64;
    for row in rounds {
        count = count.saturating_add(changes_of(row));
    }
    count
}

/// A life, and what it left.
#[derive(Drop)]
pub(crate) struct Ended<A: Allocator + Copy> {
    pub(crate) life: Life,
    pub(crate) store: Store<A>,
}

impl<A: Allocator + Copy> Ended<A> {
    /// No life, and an empty directory.
    pub(crate) fn none(alloc: A) -> Ended<A> {
        Ended {
            life: Life::new(),
            store: Store::new(alloc),
        }
    }

    /// Whether another left the same and knows the same.
    pub(crate) fn is_same(&self, other: &Ended<A>) -> bool {
        self.life == other.life && self.store.is_same(&other.store)
    }

    /// Whether the call of this number was made.
    pub(crate) fn has_made(&self, call: u64) -> bool {
        call <= self.store.calls()
    }

    /// Whether it ended as it has to where the call of this number fails: that it failed, if it was made. Where snapshots are
    /// taken, it may go on without one.
    pub(crate) fn is_right(&self, failing: u64, steps: u32) -> bool {
        let may_go_on = steps > 0 && self.life.end == End::Clean;
        if self.has_made(failing) {
            self.life.end == End::Failed || may_go_on
        } else {
            self.life.end == End::Clean
        }
    }
}

/// A first life over files and names.
pub(crate) fn first_of<S: BatchStore + Drop, B: Allocator + Copy>(
    heap: S::Alloc,
    alloc: B,
    table: (&[Round], u32),
    store: Store<B>,
) -> Ended<B> {
    let store = RefCell::new(store);
    let mut directory = MemoryDirectory::new(&store);
    let life = first_life::<S, B>(heap, alloc, &mut directory, table);
    Ended {
        life,
        store: store.into_inner(),
    }
}

/// A first life of which this call fails.
pub(crate) fn failing_first<A: Allocator + Copy>(
    alloc: A,
    table: (&[Round], u32),
    failing: u64,
    way: Way,
) -> Ended<A> {
    let mut store = Store::new(alloc);
    store.fail_at(failing, way);
    first_of::<VecStore<A>, A>(alloc, alloc, table, store)
}

/// What is wrong with a first life of which this call failed. Nothing is, where it left the same as the one before.
pub(crate) fn wrong_first<A: Allocator + Copy>(
    story: &Story<'_, A>,
    ended: Ended<A>,
    (reach, failing): (Reach, u64),
    before: &mut Ended<A>,
) -> Option<Fault> {
    let fault = if !ended.is_right(failing, story.steps) {
        Some((None, 0, ended.life.end))
    } else if ended.is_same(before) {
        None
    } else {
        wrong_behind(story, (&ended.life, &ended.store), reach)
    };
    *before = ended;
    fault
}

/// How many calls of a first life fail before none does; or the first one with which something is wrong.
fn first_calls<A: Allocator + Copy>(
    story: &Story<'_, A>,
    way: Way,
    reach: Reach,
) -> Result<u64, Wrong> {
    let mut before = Ended::none(story.alloc);
    for failing in 1..MOST_CALLS {
        let ended = failing_first(story.alloc, (story.rounds, story.steps), failing, way);
        if let Some(fault) = wrong_first(story, ended, (reach, failing), &mut before) {
            return Err((way, failing, 0, fault));
        }
        if !before.has_made(failing) {
            return Ok(failing - 1);
        }
    }
    Err((way, MOST_CALLS, 0, (None, 0, before.life.end)))
}

// ---- a second life

/// A second life of which this call fails, over what was left by a first one that was killed.
fn failing_second<A: Allocator + Copy>(
    story: &Story<'_, A>,
    first: &Ended<A>,
    failing: u64,
) -> Result<Ended<A>, AllocError> {
    let mut store = first.store.copy()?;
    store.fail_at(failing, Way::Last);
    Ok(second_of(story, store, &Bounds::killed(&first.life)))
}

/// A second life over files and names in which is what is within bounds.
pub(crate) fn second_of<A: Allocator + Copy>(
    story: &Story<'_, A>,
    store: Store<A>,
    bounds: &Bounds,
) -> Ended<A> {
    let store = RefCell::new(store);
    let known = (story.alloc, story.known);
    let life = life_of::<VecStore<A>, A>(story.alloc, &store, known, bounds);
    Ended {
        life,
        store: store.into_inner(),
    }
}

/// What a crash behind a second life leaves, which found what a kill of the first one leaves.
fn bounds_behind(first: &Life, second: &Life) -> Bounds {
    bounds_beyond(&Bounds::killed(first), &Bounds::crashed(first), second)
}

/// What a crash behind a second life leaves: what it found within bounds and asked; or, where it didn't begin, what is within others.
pub(crate) fn bounds_beyond(found: &Bounds, unfound: &Bounds, second: &Life) -> Bounds {
    let place = match second.found {
        Some(frames) => found.place(frames),
        None => None,
    };
    match place {
        Some(place) => Bounds::behind(place, second),
        None => *unfound,
    }
}

/// What is wrong where this call of a second life fails. Nothing is, where it leaves the same as the one before.
fn wrong_second<A: Allocator + Copy>(
    story: &Story<'_, A>,
    first: &Ended<A>,
    failing: u64,
    before: &mut Ended<A>,
) -> Option<Fault> {
    let Ok(ended) = failing_second(story, first, failing) else {
        return Some((None, 0, End::NoMemory));
    };
    let fault = if !ended.is_right(failing, 0) {
        Some((None, 0, ended.life.end))
    } else if ended.is_same(before) {
        None
    } else {
        let bounds = bounds_behind(&first.life, &ended.life);
        wrong_outermost(story, &ended.store, &bounds)
    };
    *before = ended;
    fault
}

/// The first call of a second life with which something is wrong, and its number.
fn second_calls<A: Allocator + Copy>(
    story: &Story<'_, A>,
    first: &Ended<A>,
) -> Option<(u64, Fault)> {
    let mut before = Ended::none(story.alloc);
    for failing in 1..MOST_CALLS {
        match wrong_second(story, first, failing, &mut before) {
            Some(fault) => return Some((failing, fault)),
            None if before.has_made(failing) => {}
            None => return None,
        }
    }
    Some((MOST_CALLS, (None, 0, before.life.end)))
}

/// How many calls of a first life fail before none does, each with all calls of the second; or the first two with which
/// something is wrong. Where the first life left the same as the one before, the second one is as that one's was.
fn both_calls<A: Allocator + Copy>(story: &Story<'_, A>) -> Result<u64, Wrong> {
    let mut before = Ended::none(story.alloc);
    for failing in 1..MOST_CALLS {
        let first = failing_first(story.alloc, (story.rounds, story.steps), failing, Way::Last);
        if !first.is_same(&before) {
            if let Some((call, fault)) = second_calls(story, &first) {
                return Err((Way::Last, failing, call, fault));
            }
        }
        if !first.has_made(failing) {
            return Ok(failing - 1);
        }
        before = first;
    }
    Err((Way::Last, MOST_CALLS, 0, (None, 0, before.life.end)))
}

// ---- tests

/// How calls fail, and how much of what a crash may leave is tried then. Of a call that fails alone only the life differs
/// from that of the last one: it ends all the same.
static WAYS: [(Way, Reach); 4] = [
    (Way::Last, Reach::Many),
    (Way::Lost, Reach::Outermost),
    (Way::Alone, Reach::Kill),
    (Way::Untold, Reach::Outermost),
];

/// How many calls of first lives fail, all ways taken together.
fn first_calls_in_all<A: Allocator + Copy>(story: &Story<'_, A>) -> Result<u64, Wrong> {
    let mut calls = 0_u64;
    for (way, reach) in &WAYS {
        calls = calls.saturating_add(first_calls(story, *way, *reach)?);
    }
    Ok(calls)
}

/// How many calls of first lives over a table fail, and how many kills and crashes are tried behind them; or, where two
/// lives are told of, behind calls of a second life.
fn told<A: Allocator + Copy>(
    alloc: A,
    (rounds, steps): (&'static [Round], u32),
    of_two: bool,
) -> Result<(u64, u64), Wrong> {
    let Ok(known) = known_of::<VecStore<A>>(alloc, rounds, changes_in(rounds)) else {
        return Err((Way::Last, 0, 0, (None, 0, End::NoMemory)));
    };
    let tried = Cell::new(0);
    let story = Story {
        alloc,
        rounds,
        steps,
        known: &known,
        tried: &tried,
    };
    let calls = if of_two {
        both_calls(&story)?
    } else {
        first_calls_in_all(&story)?
    };
    Ok((calls, tried.get()))
}

#[test]
fn each_call_fails(rt: HostRuntime) {
    // a start with an empty directory makes more than forty calls, and each of five groups an append and a sync
    for rounds in [&COMMITTED, &APPENDED] {
        let told = told(rt.alloc(), (rounds, 0), false);
        let is_right = matches!(told, Ok((calls, tried)) if 150 < calls && 5_000 < tried);
        assert!(rt; is_right, "{told:?}");
    }
}

#[test]
fn each_call_of_two_lives_fails(rt: HostRuntime) {
    let told = told(rt.alloc(), (&APPENDED, 0), true);
    let is_right = matches!(told, Ok((calls, tried)) if 40 < calls && 4_000 < tried);
    assert!(rt; is_right, "{told:?}");
}

#[test]
fn each_call_fails_beside_snapshots(rt: HostRuntime) {
    for rounds in [&COMMITTED, &APPENDED] {
        let told = told(rt.alloc(), (rounds, STEPS), false);
        let is_right = matches!(told, Ok((calls, tried)) if 400 < calls && 20_000 < tried);
        assert!(rt; is_right, "{told:?}");
    }
}

#[test]
fn each_call_of_two_lives_fails_beside_snapshots(rt: HostRuntime) {
    let told = told(rt.alloc(), (&APPENDED, STEPS), true);
    let is_right = matches!(told, Ok((calls, tried)) if 100 < calls && 5_000 < tried);
    assert!(rt; is_right, "{told:?}");
}
