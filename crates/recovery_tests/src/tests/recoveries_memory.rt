//! A broker over a directory in memory, for which each allocation fails in turn: during its first start and rounds, and
//! during a later one. A start that lacks memory leaves a directory that has files as it was, or with all that it read on the
//! disk for certain; a round that lacks it isn't kept, or goes on; a frame of which for want of it nothing was done is done
//! where it comes again; and the next start has the state behind what was kept.

use crate::tests::known_replies::known_of;
use crate::tests::later_lives::{Bounds, life_of};
use crate::tests::left_behind::{Fault, Story, wrong_kill, wrong_outermost};
use crate::tests::lives::{End, Keeping, Life, Round};
use crate::tests::recoveries::{APPENDED, Ended, STEPS, changes_in, failing_first, first_of};
use memory_directories::{Store, Way};
use refusing_alloc::Refusing;
use sample_brokers::exchanges::{
    CLEAN, COMMIT, FORGET, NEXT_PRODUCER_ID, PRODUCER_ID, SILENT, STORE, TAKE, TRIM,
};
use segment::VecStore;
use std::alloc::{AllocError, Allocator};
use std::cell::{Cell, RefCell};

/// Rounds of frames that may all change a broker.
static CHANGING: [Round; 3] = [
    Round {
        exchanges: &[STORE, COMMIT, CLEAN],
        keeping: Keeping::Commit,
    },
    Round {
        exchanges: &[TRIM, SILENT, FORGET],
        keeping: Keeping::Sync,
    },
    Round {
        exchanges: &[TAKE, PRODUCER_ID, NEXT_PRODUCER_ID],
        keeping: Keeping::Commit,
    },
];

/// The same frames, each in a round of its own.
static ALONE: [Round; 9] = [
    Round {
        exchanges: &[STORE],
        keeping: Keeping::Commit,
    },
    Round {
        exchanges: &[COMMIT],
        keeping: Keeping::Commit,
    },
    Round {
        exchanges: &[CLEAN],
        keeping: Keeping::Commit,
    },
    Round {
        exchanges: &[TRIM],
        keeping: Keeping::Sync,
    },
    Round {
        exchanges: &[SILENT],
        keeping: Keeping::Append,
    },
    Round {
        exchanges: &[FORGET],
        keeping: Keeping::Sync,
    },
    Round {
        exchanges: &[TAKE],
        keeping: Keeping::Commit,
    },
    Round {
        exchanges: &[PRODUCER_ID],
        keeping: Keeping::Append,
    },
    Round {
        exchanges: &[NEXT_PRODUCER_ID],
        keeping: Keeping::Commit,
    },
];

/// More allocations than a life asks for.
const MOST: u64 = 3_000;

/// The call of a first life that appends the group before the last, which an append and a sync follow: the groups behind the third
/// aren't synced then.
fn late_call<A: Allocator + Copy>(alloc: A, table: (&[Round], u32)) -> u64 {
    let whole = failing_first(alloc, table, 0, Way::Alone);
    whole.store.calls().saturating_sub(2)
}

/// What came of lives of which each lacked memory once: how many ended for that, and how many went on.
#[derive(Clone, Copy, Debug)]
struct Came {
    /// The start gave no broker.
    unstarted: u64,
    /// A round was the last.
    ended: u64,
    /// All was done.
    done: u64,
}

impl Came {
    /// Nothing came yet.
    fn new() -> Came {
        Came {
            unstarted: 0,
            ended: 0,
            done: 0,
        }
    }

    /// Whether some came of each.
    fn is_each(&self) -> bool {
        self.unstarted > 40 && self.ended > 10 && self.done > 0
    }

    /// Counts a life.
    fn count(&mut self, life: &Life) {
        let count = match (life.found, life.end) {
            (None, _) => &mut self.unstarted,
            (Some(_), End::NoMemory) => &mut self.ended,
            (Some(_), _) => &mut self.done,
        };
        *count = count.saturating_add(1);
    }
}

/// What is wrong with a life that lacked memory once, which other ends than these has.
fn wrong_life(life: &Life, ends: &[End]) -> Option<Fault> {
    if ends.contains(&life.end) {
        None
    } else {
        Some((None, 0, life.end))
    }
}

/// A first life for which this allocation fails: what is wrong with it and with what it leaves, and whether it was asked
/// for.
fn first_without<A: Allocator + Copy>(
    story: &Story<'_, A>,
    refused: u64,
    came: &mut Came,
) -> (Option<Fault>, bool) {
    let heap = Refusing::new(story.alloc, refused);
    let store = Store::new(story.alloc);
    let ended = first_of::<VecStore<_>, A>(&heap, story.alloc, (story.rounds, story.steps), store);
    came.count(&ended.life);
    let fault = wrong_life(&ended.life, &[End::Clean, End::NoMemory]);
    let bounds = Bounds::killed(&ended.life);
    let left = wrong_kill(story, &ended.store, &bounds);
    (fault.or(left), heap.calls() >= refused)
}

/// A later life for which this allocation fails, over what a first one left: what it knows, what it leaves, and whether it
/// was asked for.
fn later_without<A: Allocator + Copy>(
    story: &Story<'_, A>,
    first: &Ended<A>,
    refused: u64,
) -> Result<(Ended<A>, bool), AllocError> {
    let heap = Refusing::new(story.alloc, refused);
    let store = RefCell::new(first.store.copy()?);
    let known = (story.alloc, story.known);
    let bounds = Bounds::killed(&first.life);
    let life = life_of::<VecStore<_>, A>(&heap, &store, known, &bounds);
    let ended = Ended {
        life,
        store: store.into_inner(),
    };
    Ok((ended, heap.calls() >= refused))
}

/// What is wrong where there was no start for lack of memory. The directory is as it was; or the last journal is settled, and
/// the start lacked memory behind that: then all that it had read is found again, also behind a crash.
fn wrong_unstarted<A: Allocator + Copy>(
    story: &Story<'_, A>,
    first: &Ended<A>,
    later: &Ended<A>,
) -> Option<Fault> {
    let ended = wrong_life(&later.life, &[End::NoMemory]);
    if ended.is_some() || later.store.is_same(&first.store) {
        return ended;
    }
    let killed = Bounds::killed(&first.life);
    wrong_kill(story, &later.store, &killed).or(wrong_outermost(story, &later.store, &killed))
}

/// What is wrong with such a life, and with what it leaves.
fn wrong_later<A: Allocator + Copy>(
    story: &Story<'_, A>,
    first: &Ended<A>,
    later: &Ended<A>,
) -> Option<Fault> {
    let killed = Bounds::killed(&first.life);
    let Some(found) = later.life.found else {
        return wrong_unstarted(story, first, later);
    };
    let fault = wrong_life(&later.life, &[End::Clean, End::NoMemory, End::OtherReply]);
    let bounds = match killed.place(found) {
        Some(place) => Bounds::behind(place, &later.life),
        None => killed,
    };
    fault.or(wrong_kill(story, &later.store, &bounds))
}

/// The number of the allocation that was refused where something is wrong, and what is.
type Wrong = (u64, Fault);

/// What comes of first lives, each without one allocation.
fn all_first<A: Allocator + Copy>(story: &Story<'_, A>) -> Result<Came, Wrong> {
    let mut came = Came::new();
    for refused in 1..MOST {
        match first_without(story, refused, &mut came) {
            (Some(fault), _) => return Err((refused, fault)),
            (None, true) => {}
            (None, false) => return Ok(came),
        }
    }
    Err((MOST, (None, 0, End::Clean)))
}

/// What comes of later lives, each without one allocation.
fn all_later<A: Allocator + Copy>(story: &Story<'_, A>, first: &Ended<A>) -> Result<Came, Wrong> {
    let mut came = Came::new();
    for refused in 1..MOST {
        let Ok((later, is_asked)) = later_without(story, first, refused) else {
            return Err((refused, (None, 0, End::NoMemory)));
        };
        came.count(&later.life);
        match wrong_later(story, first, &later) {
            Some(fault) => return Err((refused, fault)),
            None if is_asked => {}
            None => return Ok(came),
        }
    }
    Err((MOST, (None, 0, End::Clean)))
}

/// What comes of first lives over a table, each round with so many steps of snapshots behind it; or of lives over what a first
/// one left: groups that aren't synced and, behind them, a half one.
fn told<A: Allocator + Copy>(
    alloc: A,
    (rounds, steps): (&'static [Round], u32),
    of_later: bool,
) -> Result<Came, Wrong> {
    let Ok(known) = known_of::<VecStore<A>>(alloc, rounds, changes_in(rounds)) else {
        return Err((0, (None, 0, End::NoMemory)));
    };
    let tried = Cell::new(0);
    let story = Story {
        alloc,
        rounds,
        steps,
        known: &known,
        tried: &tried,
    };
    if of_later {
        let late = late_call(alloc, (rounds, steps));
        all_later(
            &story,
            &failing_first(alloc, (rounds, steps), late, Way::Alone),
        )
    } else {
        all_first(&story)
    }
}

#[test]
fn each_allocation_fails(rt: HostRuntime) {
    let told = told(rt.alloc(), (&CHANGING, 0), false);
    let is_right = matches!(told, Ok(came) if came.is_each());
    assert!(rt; is_right, "{told:?}");
}

#[test]
fn each_allocation_fails_where_each_frame_comes_alone(rt: HostRuntime) {
    for steps in [0, STEPS] {
        let told = told(rt.alloc(), (&ALONE, steps), false);
        let is_right = matches!(told, Ok(came) if came.is_each() && came.done > 10);
        assert!(rt; is_right, "{told:?}");
    }
}

#[test]
fn each_allocation_fails_beside_snapshots(rt: HostRuntime) {
    let told = told(rt.alloc(), (&CHANGING, STEPS), false);
    let is_right = matches!(told, Ok(came) if came.is_each());
    assert!(rt; is_right, "{told:?}");
}

#[test]
fn each_allocation_of_a_later_life_fails(rt: HostRuntime) {
    let told = told(rt.alloc(), (&APPENDED, 0), true);
    let is_right = matches!(told, Ok(came) if came.is_each());
    assert!(rt; is_right, "{told:?}");
}
