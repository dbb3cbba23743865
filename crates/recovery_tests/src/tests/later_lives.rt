//! A later life over a directory: a start that finds frames of a life before it, in the state behind them, and a round.

use crate::tests::known_replies::{ASKED_CHANGES, Known};
use crate::tests::lives::{End, Keeping, Life, UNTURNED, end_of_start, found_in_all, play};
use kept_starts::{Role, Started, Unwatched, start};
use memory_directories::{MemoryDirectory, Store};
use sample_brokers::small::configured;
use segment::BatchStore;
use std::alloc::Allocator;
use std::cell::RefCell;

/// What may be found in a directory: first frames of a table, and what was asked behind them.
#[derive(Clone, Copy)]
pub(crate) struct Bounds {
    /// How many frames of the table there are, at least and at most.
    pub(crate) frames: (u64, u64),
    /// How often was asked behind them, at least and at most.
    pub(crate) asked: (u64, u64),
    /// Whether the frames have to be those of whole rounds.
    pub(crate) are_whole: bool,
}

/// How many frames were handled, and how often was asked behind them.
pub(crate) type Place = (u64, u64);

impl Bounds {
    /// What a first life that was killed leaves.
    pub(crate) fn killed(life: &Life) -> Bounds {
        Bounds {
            frames: (life.written, life.handled),
            asked: (0, 0),
            are_whole: life.end != End::NoMemory,
        }
    }

    /// What a crash leaves of it.
    pub(crate) fn crashed(life: &Life) -> Bounds {
        Bounds {
            frames: (life.synced, life.handled),
            ..Bounds::killed(life)
        }
    }

    /// What a later life leaves, which found so much: it had that on the disk for certain, and asked once more, if it came
    /// to that.
    pub(crate) fn behind(place: Place, life: &Life) -> Bounds {
        let (frames, asked) = place;
        let found = life.found.unwrap_or(0);
        Bounds {
            frames: (frames, frames),
            asked: (
                asked.saturating_add(u64::from(life.synced > found)),
                asked.saturating_add(u64::from(life.handled > found)),
            ),
            are_whole: false,
        }
    }

    /// How many of so many frames that were found are of the table, and how often was asked behind them.
    pub(crate) fn place(&self, found: u64) -> Option<Place> {
        let (least, most) = self.frames;
        for asked in self.asked.0..=self.asked.1 {
            let frames = found.checked_sub(asked.saturating_mul(ASKED_CHANGES))?;
            if least <= frames && frames <= most {
                return Some((frames, asked));
            }
        }
        None
    }
}

/// Asks a broker once, and keeps it.
fn ask_once<'a, S: BatchStore + Drop, B: Allocator + Copy>(
    started: &mut Started<S, MemoryDirectory<'a, B>>,
    directory: &mut MemoryDirectory<'a, B>,
    (alloc, known): (B, &Known<B>),
    place: Option<Place>,
    life: &mut Life,
) -> End {
    let Some((frames, asked)) = place else {
        return End::Wrong("not those frames");
    };
    let Some(frames) = known.frames(frames, asked) else {
        return End::Wrong("not known");
    };
    let mut out = Vec::new(alloc);
    match started.keeper.open() {
        Ok(number) => {
            let how = (number, Keeping::Commit);
            play(started, directory, how, frames, &mut out, life)
        }
        Err(_) => End::NoMemory,
    }
}

/// A later life over a directory: a start that finds what is within bounds, and asks once.
fn later_life<'a, S: BatchStore + Drop, B: Allocator + Copy>(
    heap: S::Alloc,
    directory: &mut MemoryDirectory<'a, B>,
    (alloc, known): (B, &Known<B>),
    bounds: &Bounds,
) -> Life {
    let mut life = Life::new();
    let Ok(config) = configured(heap, Role::Leader) else {
        life.end = End::NoMemory;
        return life;
    };
    match start::<S, _, _>(heap, directory, &config, UNTURNED, &mut Unwatched) {
        Ok(mut started) => {
            let found = found_in_all(&started, directory);
            life.starts(found);
            let place = bounds.place(found);
            life.end = ask_once(&mut started, directory, (alloc, known), place, &mut life);
        }
        Err(why) => life.end = end_of_start(&why),
    }
    life
}

/// A later life over files and names, of which a call may be to fail.
pub(crate) fn life_of<S: BatchStore + Drop, B: Allocator + Copy>(
    heap: S::Alloc,
    store: &RefCell<Store<B>>,
    known: (B, &Known<B>),
    bounds: &Bounds,
) -> Life {
    let mut directory = MemoryDirectory::new(store);
    later_life::<S, B>(heap, &mut directory, known, bounds)
}
