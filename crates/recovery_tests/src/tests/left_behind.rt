//! What a life leaves behind: a kill leaves all that was written, a crash less. It is right where two starts go on with
//! it, one after the other, and each finds what is kept.

use crate::tests::known_replies::Known;
use crate::tests::later_lives::{Bounds, life_of};
use crate::tests::lives::{End, Life, Round, changes_of};
use memory_directories::{Left, Store};
use segment::VecStore;
use std::alloc::Allocator;
use std::cell::{Cell, RefCell};

/// What lives are told by.
#[derive(Drop)]
pub(crate) struct Story<'a, A: Allocator + Copy> {
    pub(crate) alloc: A,
    /// The rounds of the first life.
    pub(crate) rounds: &'static [Round],
    /// How many steps of snapshots are made behind each.
    pub(crate) steps: u32,
    /// The replies of later lives.
    pub(crate) known: &'a Known<A>,
    /// How many kills and crashes were tried.
    pub(crate) tried: &'a Cell<u64>,
}

/// What is wrong: what was left, of which set of changes of names, and how a life ended with it.
pub(crate) type Fault = (Option<Left>, u32, End);

/// Whether so many frames are those of whole rounds.
fn are_whole(rounds: &[Round], frames: u64) -> bool {
    let mut end = 0_u64;
    for row in rounds {
        if frames <= end {
            return frames == end;
        }
        end = end.saturating_add(changes_of(row));
    }
    frames == end
}

/// What a later life knows that ended cleanly, and that found what is within bounds.
fn known_then<A: Allocator + Copy>(
    story: &Story<'_, A>,
    store: &RefCell<Store<A>>,
    bounds: &Bounds,
) -> Result<Bounds, End> {
    let known = (story.alloc, story.known);
    let life = life_of::<VecStore<A>, A>(story.alloc, store, known, bounds);
    match (life.end, bounds.place(life.found.unwrap_or(0))) {
        (End::Clean, Some(place)) => Ok(Bounds::behind(place, &life)),
        (End::Clean, None) => Err(End::Wrong("no start")),
        (end, _) => Err(end),
    }
}

/// How two starts go on with files and names in which is what is within bounds, if not cleanly.
fn wrong_end<A: Allocator + Copy>(
    story: &Story<'_, A>,
    store: Store<A>,
    bounds: &Bounds,
) -> Option<End> {
    story.tried.set(story.tried.get().saturating_add(1));
    let store = RefCell::new(store);
    let then = match known_then(story, &store, bounds) {
        Ok(then) => then,
        Err(end) => return Some(end),
    };
    let (frames, _) = then.frames;
    if bounds.are_whole && !are_whole(story.rounds, frames) {
        return Some(End::Wrong("a part of a round"));
    }
    match known_then(story, &store, &then) {
        Ok(_) => None,
        Err(end) => Some(end),
    }
}

/// What is wrong where the process is killed, and the machine goes on.
pub(crate) fn wrong_kill<A: Allocator + Copy>(
    story: &Story<'_, A>,
    store: &Store<A>,
    bounds: &Bounds,
) -> Option<Fault> {
    match store.copy() {
        Ok(after) => match wrong_end(story, after, bounds) {
            Some(end) => Some((None, 0, end)),
            None => None,
        },
        Err(_) => Some((None, 0, End::NoMemory)),
    }
}

/// What is wrong where a crash leaves so much of the files' bytes, and any of the changes of names.
fn wrong_crash<A: Allocator + Copy>(
    story: &Story<'_, A>,
    store: &Store<A>,
    left: Left,
    bounds: &Bounds,
) -> Option<Fault> {
    for set in 0..store.sets() {
        let Ok(after) = store.after_crash(left, set) else {
            return Some((Some(left), set, End::NoMemory));
        };
        if let Some(end) = wrong_end(story, after, bounds) {
            return Some((Some(left), set, end));
        }
    }
    None
}

/// The first front that a crash leaves and that is wrong; or one with zeros behind it.
fn wrong_front<A: Allocator + Copy>(
    story: &Story<'_, A>,
    store: &Store<A>,
    bounds: &Bounds,
) -> Option<Fault> {
    for count in 0..=store.uncertain() {
        let front = wrong_crash(story, store, Left::Front(count), bounds);
        let filled = wrong_crash(story, store, Left::Filled(count), bounds);
        if front.is_some() || filled.is_some() {
            return front.or(filled);
        }
    }
    None
}

/// The first torn sector with which it is wrong.
fn wrong_sector<A: Allocator + Copy>(
    story: &Story<'_, A>,
    store: &Store<A>,
    bounds: &Bounds,
) -> Option<Fault> {
    let (first, end) = store.sectors();
    for sector in first..end {
        let torn = wrong_crash(story, store, Left::Torn(sector), bounds);
        if torn.is_some() {
            return torn;
        }
    }
    None
}

/// What is wrong where a crash leaves all or nothing of what isn't on the disk for certain, or zeros.
pub(crate) fn wrong_outermost<A: Allocator + Copy>(
    story: &Story<'_, A>,
    store: &Store<A>,
    bounds: &Bounds,
) -> Option<Fault> {
    let most = store.uncertain();
    for left in [Left::Front(0), Left::Filled(0), Left::Front(most)] {
        let fault = wrong_crash(story, store, left, bounds);
        if fault.is_some() {
            return fault;
        }
    }
    None
}

/// How much of what a crash may leave is tried.
#[derive(Clone, Copy)]
pub(crate) enum Reach {
    /// Fronts, zeros and torn sectors.
    Many,
    /// All or nothing.
    Outermost,
    /// A kill alone.
    Kill,
}

/// What is wrong with what a first life leaves.
pub(crate) fn wrong_behind<A: Allocator + Copy>(
    story: &Story<'_, A>,
    (life, store): (&Life, &Store<A>),
    reach: Reach,
) -> Option<Fault> {
    let killed = wrong_kill(story, store, &Bounds::killed(life));
    let bounds = Bounds::crashed(life);
    let crashed = match reach {
        Reach::Many => {
            wrong_front(story, store, &bounds).or(wrong_sector(story, store, &bounds))
        }
        Reach::Outermost => wrong_outermost(story, store, &bounds),
        Reach::Kill => None,
    };
    killed.or(crashed)
}
