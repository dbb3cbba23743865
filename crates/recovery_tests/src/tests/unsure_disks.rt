//! What a start can't know of the bytes that it reads, and what a full disk takes: a sync that failed has what was to be written taken
//! for written, so that it is read, and no sync writes it; files that were put back from a copy are on the disk for certain in no part;
//! and where a snapshot in the making, or files below one, have the room that a group needs, they give it.

use crate::tests::known_replies::known_of;
use crate::tests::later_lives::Bounds;
use crate::tests::left_behind::{Fault, Reach, Story, wrong_behind, wrong_outermost};
use crate::tests::lives::{End, Keeping, Round};
use crate::tests::recoveries::{
    APPENDED, COMMITTED, Ended, MOST_CALLS, STEPS, bounds_beyond, changes_in, failing_first,
    second_of,
};
use kept_starts::Name;
use memory_directories::{Store, Way};
use sample_brokers::exchanges::{
    CLEAN, COMMIT, FORGET, NEXT_PRODUCER_ID, PRODUCER_ID, SILENT, STORE, TAKE, TRIM,
};
use segment::VecStore;
use std::alloc::{AllocError, Allocator};
use std::cell::Cell;

/// What is wrong, and where: which call of the first life was chosen, and which one of the second.
type Wrong = (u64, u64, Fault);

/// One more than the highest number of a file.
const NUMBERS: u64 = 12;

/// So many steps behind each round leave a snapshot in the making beside the next round, or files below one.
const FEW_STEPS: [u32; 4] = [1, 2, 3, 4];

/// Rounds of one frame each, so that one whose partition's image isn't written yet is put off as a whole. Each is committed.
static ONE_COMMITTED: [Round; 9] = [
    Round {
        exchanges: &[STORE],
        keeping: Keeping::Commit,
    },
    Round {
        exchanges: &[COMMIT],
        keeping: Keeping::Commit,
    },
    Round {
        exchanges: &[CLEAN],
        keeping: Keeping::Commit,
    },
    Round {
        exchanges: &[TRIM],
        keeping: Keeping::Commit,
    },
    Round {
        exchanges: &[FORGET],
        keeping: Keeping::Commit,
    },
    Round {
        exchanges: &[TAKE],
        keeping: Keeping::Commit,
    },
    Round {
        exchanges: &[SILENT],
        keeping: Keeping::Commit,
    },
    Round {
        exchanges: &[PRODUCER_ID],
        keeping: Keeping::Commit,
    },
    Round {
        exchanges: &[NEXT_PRODUCER_ID],
        keeping: Keeping::Commit,
    },
];

/// Rounds of one frame each that are appended, and synced from time to time.
static ONE_APPENDED: [Round; 9] = [
    Round {
        exchanges: &[STORE],
        keeping: Keeping::Append,
    },
    Round {
        exchanges: &[COMMIT],
        keeping: Keeping::Append,
    },
    Round {
        exchanges: &[CLEAN],
        keeping: Keeping::Sync,
    },
    Round {
        exchanges: &[TRIM],
        keeping: Keeping::Append,
    },
    Round {
        exchanges: &[FORGET],
        keeping: Keeping::Append,
    },
    Round {
        exchanges: &[TAKE],
        keeping: Keeping::Append,
    },
    Round {
        exchanges: &[SILENT],
        keeping: Keeping::Sync,
    },
    Round {
        exchanges: &[PRODUCER_ID],
        keeping: Keeping::Append,
    },
    Round {
        exchanges: &[NEXT_PRODUCER_ID],
        keeping: Keeping::Commit,
    },
];

/// A fault of a life that ended so.
fn ended(end: End) -> Fault {
    (None, 0, end)
}

/// What is wrong behind a second life that ended cleanly, if a crash follows; or how it ended.
fn wrong_second<A: Allocator + Copy>(
    story: &Story<'_, A>,
    first: &Ended<A>,
    second: &Ended<A>,
) -> Option<Fault> {
    if second.life.end != End::Clean {
        return Some(ended(second.life.end));
    }
    let killed = Bounds::killed(&first.life);
    let crashed = Bounds::crashed(&first.life);
    let bounds = bounds_beyond(&killed, &crashed, &second.life);
    wrong_outermost(story, &second.store, &bounds)
}

// ---- a sync that loses what was to be written

/// What is wrong where the process is killed behind a first life, a second one goes on with what is read, and then the machine crashes.
fn wrong_lost<A: Allocator + Copy>(story: &Story<'_, A>, first: &Ended<A>) -> Option<Fault> {
    match first.store.copy() {
        Ok(store) => {
            let second = second_of(story, store, &Bounds::killed(&first.life));
            wrong_second(story, first, &second)
        }
        Err(AllocError) => Some(ended(End::NoMemory)),
    }
}

/// How many calls of a first life are made; or the first one with which something is wrong, where it is a sync that loses what was
/// to be written.
fn lost_calls<A: Allocator + Copy>(story: &Story<'_, A>) -> Result<u64, Wrong> {
    let mut before = Ended::none(story.alloc);
    for failing in 1..MOST_CALLS {
        let first = failing_first(story.alloc, (story.rounds, story.steps), failing, Way::Lost);
        if !first.is_right(failing, story.steps) {
            return Err((failing, 0, ended(first.life.end)));
        }
        if !first.is_same(&before)
            && let Some(fault) = wrong_lost(story, &first)
        {
            return Err((failing, 0, fault));
        }
        if !first.has_made(failing) {
            return Ok(failing - 1);
        }
        before = first;
    }
    Err((MOST_CALLS, 0, ended(before.life.end)))
}

/// A second life from this call of which on the system has forgotten what it had of files, over what a sync left that failed.
fn forgetting_second<A: Allocator + Copy>(
    story: &Story<'_, A>,
    first: &Ended<A>,
    from: u64,
) -> Result<Ended<A>, AllocError> {
    let mut store = first.store.copy()?;
    store.fail_at(from, Way::Gone);
    Ok(second_of(story, store, &Bounds::crashed(&first.life)))
}

/// What is wrong where the system forgets from this call of a second life on, and then the machine crashes; and whether that call was
/// made. The life ends where it can't write again what it read.
fn wrong_forgetting<A: Allocator + Copy>(
    story: &Story<'_, A>,
    first: &Ended<A>,
    from: u64,
) -> (Option<Fault>, bool) {
    let Ok(second) = forgetting_second(story, first, from) else {
        return (Some(ended(End::NoMemory)), false);
    };
    let is_made = second.has_made(from);
    if !matches!(second.life.end, End::Clean | End::Failed) {
        return (Some(ended(second.life.end)), is_made);
    }
    let crashed = Bounds::crashed(&first.life);
    let bounds = bounds_beyond(&crashed, &crashed, &second.life);
    (wrong_outermost(story, &second.store, &bounds), is_made)
}

/// How many calls of second lives forget, over what the first life left whose sync failed at this call; or the first one with which
/// something is wrong.
fn forgetting_calls<A: Allocator + Copy>(
    story: &Story<'_, A>,
    first: &Ended<A>,
    failing: u64,
) -> Result<u64, Wrong> {
    for from in 1..MOST_CALLS {
        match wrong_forgetting(story, first, from) {
            (Some(fault), _) => return Err((failing, from, fault)),
            (None, true) => {}
            (None, false) => return Ok(from - 1),
        }
    }
    Err((failing, MOST_CALLS, ended(first.life.end)))
}

/// How many calls of second lives forget, over what each failing sync of a first life leaves.
fn forgotten<A: Allocator + Copy>(story: &Story<'_, A>) -> Result<u64, Wrong> {
    let mut before = Ended::none(story.alloc);
    let mut calls = 0_u64;
    for failing in 1..MOST_CALLS {
        let first = failing_first(story.alloc, (story.rounds, story.steps), failing, Way::Lost);
        if !first.is_same(&before) {
            calls = calls.saturating_add(forgetting_calls(story, &first, failing)?);
        }
        if !first.has_made(failing) {
            return Ok(calls);
        }
        before = first;
    }
    Err((MOST_CALLS, 0, ended(before.life.end)))
}

// ---- files that were put back

/// What is wrong where what a first life left is put back from a copy, a second life goes on with it, and then the machine crashes.
fn wrong_back<A: Allocator + Copy>(story: &Story<'_, A>, first: &Ended<A>) -> Option<Fault> {
    match first.store.put_back() {
        Ok(store) => {
            let second = second_of(story, store, &Bounds::killed(&first.life));
            wrong_second(story, first, &second)
        }
        Err(AllocError) => Some(ended(End::NoMemory)),
    }
}

/// How many calls of a first life are made; or the first one behind which it ends, and something is wrong with what is put back then.
fn back_calls<A: Allocator + Copy>(story: &Story<'_, A>) -> Result<u64, Wrong> {
    let mut before = Ended::none(story.alloc);
    for failing in 1..MOST_CALLS {
        let first = failing_first(story.alloc, (story.rounds, story.steps), failing, Way::Last);
        if !first.is_same(&before)
            && let Some(fault) = wrong_back(story, &first)
        {
            return Err((failing, 0, fault));
        }
        if !first.has_made(failing) {
            return Ok(failing - 1);
        }
        before = first;
    }
    Err((MOST_CALLS, 0, ended(before.life.end)))
}

// ---- full disks

/// Whether a life that ended for lack of room had nothing that could go: no snapshot in the making, and no file below one.
fn has_no_room<A: Allocator + Copy>(store: &Store<A>) -> bool {
    let mut is_below = false;
    let mut has_below = false;
    for number in (1..NUMBERS).rev() {
        let has_snapshot = store.bytes(Name::Snapshot(number)).is_some();
        let has_journal = store.bytes(Name::Journal(number)).is_some();
        has_below = has_below || (is_below && (has_snapshot || has_journal));
        is_below = is_below || has_snapshot;
    }
    store.bytes(Name::Making).is_none() && !has_below
}

/// What is wrong where nothing is written from a call of a first life on, until a file goes.
fn wrong_full<A: Allocator + Copy>(story: &Story<'_, A>, first: &Ended<A>) -> Option<Fault> {
    let is_right = match first.life.end {
        End::Clean => true,
        End::Failed => first.life.found.is_none() || has_no_room(&first.store),
        _ => false,
    };
    if is_right {
        wrong_behind(story, (&first.life, &first.store), Reach::Outermost)
    } else {
        Some(ended(first.life.end))
    }
}

/// How many lives had a group put off for lack of room, and kept it then; or the first call with which something is wrong.
fn full_calls<A: Allocator + Copy>(story: &Story<'_, A>) -> Result<u64, Wrong> {
    let mut kept = 0_u64;
    for failing in 1..MOST_CALLS {
        let first = failing_first(story.alloc, (story.rounds, story.steps), failing, Way::Full);
        if let Some(fault) = wrong_full(story, &first) {
            return Err((failing, 0, fault));
        }
        if !first.has_made(failing) {
            return Ok(kept);
        }
        let is_kept = first.life.end == End::Clean && first.store.refused() > 0;
        kept = kept.saturating_add(u64::from(is_kept));
    }
    Err((MOST_CALLS, 0, ended(End::Clean)))
}

// ---- tests

/// What is counted over a table.
#[derive(Clone, Copy)]
enum Counted {
    Lost,
    Forgotten,
    Back,
    Full,
}

/// What is counted over a table, and how many kills and crashes were tried.
fn told<A: Allocator + Copy>(
    alloc: A,
    (rounds, steps): (&'static [Round], u32),
    counted: Counted,
) -> Result<(u64, u64), Wrong> {
    let Ok(known) = known_of::<VecStore<A>>(alloc, rounds, changes_in(rounds)) else {
        return Err((0, 0, ended(End::NoMemory)));
    };
    let tried = Cell::new(0);
    let story = Story {
        alloc,
        rounds,
        steps,
        known: &known,
        tried: &tried,
    };
    let count = match counted {
        Counted::Lost => lost_calls(&story)?,
        Counted::Forgotten => forgotten(&story)?,
        Counted::Back => back_calls(&story)?,
        Counted::Full => full_calls(&story)?,
    };
    Ok((count, tried.get()))
}

#[test]
fn each_sync_loses_its_pages(rt: HostRuntime) {
    for rounds in [&COMMITTED, &APPENDED] {
        for steps in [0, STEPS] {
            let told = told(rt.alloc(), (rounds, steps), Counted::Lost);
            let is_right = matches!(told, Ok((calls, tried)) if 40 < calls && 80 < tried);
            assert!(rt; is_right, "{told:?}");
        }
    }
}

#[test]
fn what_is_written_again_may_be_gone(rt: HostRuntime) {
    for rounds in [&COMMITTED, &APPENDED] {
        let told = told(rt.alloc(), (rounds, 0), Counted::Forgotten);
        let is_right = matches!(told, Ok((calls, tried)) if 1_000 < calls && 3_000 < tried);
        assert!(rt; is_right, "{told:?}");
    }
}

#[test]
fn put_back(rt: HostRuntime) {
    for rounds in [&COMMITTED, &APPENDED] {
        for steps in [0, STEPS] {
            let told = told(rt.alloc(), (rounds, steps), Counted::Back);
            let is_right = matches!(told, Ok((calls, tried)) if 40 < calls && 70 < tried);
            assert!(rt; is_right, "{told:?}");
        }
    }
}

#[test]
fn full_beside_snapshots(rt: HostRuntime) {
    for rounds in [&ONE_COMMITTED, &ONE_APPENDED] {
        for steps in FEW_STEPS {
            let told = told(rt.alloc(), (rounds, steps), Counted::Full);
            let is_right = matches!(told, Ok((kept, tried)) if 0 < kept && 400 < tried);
            assert!(rt; is_right, "{steps}: {told:?}");
        }
    }
}
