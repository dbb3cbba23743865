//! A broker over the files of a program before this one, which don't say what stood before them, as `tests/encoders/kept.py` prints
//! them. A life goes on with them, and its snapshots make them files of this program. Each of its calls fails, and what a kill or a
//! crash leaves then is found again.

use crate::tests::known_replies::known_of;
use crate::tests::later_lives::Bounds;
use crate::tests::left_behind::{Fault, Reach, Story, wrong_behind};
use crate::tests::lives::{End, Round};
use crate::tests::recoveries::{
    APPENDED, Ended, MOST_CALLS, STEPS, Wrong, changes_in, first_of, second_of, wrong_first,
};
use kept_starts::Name;
use memory_directories::{Left, Store, Way};
use segment::VecStore;
use std::alloc::{AllocError, Allocator};
use std::cell::Cell;

/// The snapshot of a broker that was sent nothing.
const OLD_SNAPSHOT: &[u8] =
    b"\x8d\xa7\xfd-KSNP\0\0\0\0\0l\0\0\0\0\0\0\0\x01\0\0\0\0\0\0\0\0\0\0\0\0\0\0\0\0\0\0\0\0\0\x03\0\x01t\0\0\0\x02\0\0\0\0\0\0\0\x1a\0\0\0\0\0\0\0\x1a\0\x01u\0\0\0\x02\0\0\0\0\0\0\0\x1a\0\0\0\0\0\0\0\x1a\0\x12__consumer_offsets\0\0\0\x01\0\0\0\0\0\0\0\x1aKCPY\0\x01\0\0\0\0\0\0\0\0\0\0\0\0\0\0\0\0\xfc\x91\xf26KCPY\0\x01\0\0\0\0\0\0\0\0\0\0\0\0\0\0\0\0\xfc\x91\xf26KCPY\0\x01\0\0\0\0\0\0\0\0\0\0\0\0\0\0\0\0\xfc\x91\xf26KCPY\0\x01\0\0\0\0\0\0\0\0\0\0\0\0\0\0\0\0\xfc\x91\xf26KCPY\0\x01\0\0\0\0\0\0\0\0\0\0\0\0\0\0\0\0\xfc\x91\xf26";

/// The journal of its number, with the first two rounds of `APPENDED`.
const OLD_JOURNAL: &[u8] =
    b"1Fq6KJNL\0\0\0\x01\0\0\0\0\0\0\0\x0101234567)\x98<`01234567\0\0\0\0\0\0\0\x1c\0\0\0\0\0\0\0\x1c\0\0\0o\0\0\0k\0\0\0\x03\0\0\0\x07\xff\xff\xff\xff\0\x01\0\0\x03\xe8\0\0\0\x01\0\x01t\0\0\0\x01\0\0\0\0\0\0\0F\0\0\0\0\0\0\0\0\0\0\0:\0\0\0\0\x022\xc83\x8d\0\0\0\0\0\0\0\0\0\0\0\0\0\0\0\0\0\0\0\0\0\0\xff\xff\xff\xff\xff\xff\xff\xff\xff\xff\xff\xff\xff\xff\0\0\0\x01\x10\0\0\0\x02a\x021\0\xdc\xa5\x20\xf201234567\0\0\0\0\0\0\0\xab\0\0\0\0\0\0\0\xab\0\0\0]\0\0\04\0\x08\0\x02\0\0\0\x07\xff\xff\0\x01g\xff\xff\xff\xff\0\0\xff\xff\xff\xff\xff\xff\xff\xff\0\0\0\x01\0\x01t\0\0\0\x01\0\0\0\0\0\0\0\0\0\0\0\x0a\0\0\0\0\0!N!\0\0\0\0\0\x07\xff\xff\0\x01t\0\0\0\0\0\0\0\0\0\0\0\x01\0\0\0\0\0\0\0\0";

/// The head of the next journal.
const OLD_NEXT: &[u8] = b"(\xe9}\x1fKJNL\0\0\0\x01\0\0\0\0\0\0\0\x0201234567";

/// Where the second group of the journal begins.
const BORDER: usize = 171;

/// The rounds of `APPENDED` that the journal has.
fn old_rounds() -> &'static [Round] {
    APPENDED.get(..2).unwrap_or(&[])
}

/// Those behind them.
fn other_rounds() -> &'static [Round] {
    APPENDED.get(2..).unwrap_or(&[])
}

/// The directory, all of which is on the disk for certain.
fn old_store<A: Allocator + Copy>(alloc: A) -> Result<Store<A>, AllocError> {
    let mut store = Store::new(alloc);
    store.put(Name::Snapshot(1), OLD_SNAPSHOT)?;
    store.put(Name::Journal(1), OLD_JOURNAL)?;
    let all = store.sets().saturating_sub(1);
    store.after_crash(Left::Front(usize::MAX), all)
}

/// A life over the directory that plays these rounds, and of which this call fails. Where it has no start, what was found before is
/// there still.
fn life_over<A: Allocator + Copy>(
    alloc: A,
    table: (&[Round], u32),
    failing: u64,
    way: Way,
) -> Result<Ended<A>, AllocError> {
    let mut store = old_store(alloc)?;
    store.fail_at(failing, way);
    let mut ended = first_of::<VecStore<A>, A>(alloc, alloc, table, store);
    if ended.life.found.is_none() {
        ended.life.starts(changes_in(old_rounds()));
    }
    Ok(ended)
}

/// How many calls of such lives fail before none does; or the first one with which something is wrong.
fn calls_over<A: Allocator + Copy>(
    story: &Story<'_, A>,
    way: Way,
    reach: Reach,
) -> Result<u64, Wrong> {
    let mut before = Ended::none(story.alloc);
    let table = (other_rounds(), story.steps);
    for failing in 1..MOST_CALLS {
        let Ok(ended) = life_over(story.alloc, table, failing, way) else {
            return Err((way, failing, 0, (None, 0, End::NoMemory)));
        };
        if let Some(fault) = wrong_first(story, ended, (reach, failing), &mut before) {
            return Err((way, failing, 0, fault));
        }
        if !before.has_made(failing) {
            return Ok(failing - 1);
        }
    }
    Err((way, MOST_CALLS, 0, (None, 0, before.life.end)))
}

/// How calls fail, and how much of what a crash may leave is tried then.
static WAYS: [(Way, Reach); 3] = [
    (Way::Last, Reach::Many),
    (Way::Lost, Reach::Outermost),
    (Way::Untold, Reach::Outermost),
];

/// How many calls of lives over the directory fail, all ways taken together.
fn all_calls_over<A: Allocator + Copy>(story: &Story<'_, A>) -> Result<u64, Wrong> {
    let mut calls = 0_u64;
    for (way, reach) in &WAYS {
        calls = calls.saturating_add(calls_over(story, *way, *reach)?);
    }
    Ok(calls)
}

// ---- what the files say

/// Whether a journal goes on with the old one, and its head is as it was.
fn is_longer(journal: &[u8]) -> bool {
    journal.starts_with(OLD_JOURNAL) && OLD_JOURNAL.len() < journal.len()
}

/// Whether these bytes stand at an offset of a file.
fn stands_at(file: &[u8], at: usize, bytes: &[u8]) -> bool {
    match file.get(at..) {
        Some(rest) => rest.starts_with(bytes),
        None => false,
    }
}

/// Whether the head of the next journal says the number, the key and the size of one.
fn says(next: &[u8], journal: &[u8]) -> bool {
    let Some(key) = journal.get(20..28) else {
        return false;
    };
    let is_new = stands_at(next, 8, b"\0\x01");
    let has_number = stands_at(next, 28, &1_u64.to_be_bytes());
    let has_size = stands_at(next, 44, &(journal.len() as u64).to_be_bytes());
    is_new && has_number && stands_at(next, 36, key) && has_size
}

/// How a life ends over a snapshot, a journal that was cut where a group begins, and the one behind it, and whether it changes nothing.
fn end_over_cut<A: Allocator + Copy>(
    story: &Story<'_, A>,
    next: &[u8],
) -> Result<(End, bool), AllocError> {
    let mut store = Store::new(story.alloc);
    store.put(Name::Snapshot(1), OLD_SNAPSHOT)?;
    store.put(
        Name::Journal(1),
        OLD_JOURNAL.get(..BORDER).unwrap_or(OLD_JOURNAL),
    )?;
    store.put(Name::Journal(2), next)?;
    let before = store.copy()?;
    let bounds = Bounds {
        frames: (0, changes_in(story.rounds)),
        asked: (0, 0),
        are_whole: false,
    };
    let ended = second_of(story, store, &bounds);
    Ok((ended.life.end, ended.store.is_same(&before)))
}

/// What is wrong with the files that a life over the directory leaves which plays one round, and then begins a snapshot or doesn't.
fn wrong_file<A: Allocator + Copy>(story: &Story<'_, A>) -> Result<&'static str, AllocError> {
    let table = (other_rounds().get(..1).unwrap_or(&[]), story.steps);
    let ended = life_over(story.alloc, table, 0, Way::Alone)?;
    let Some(journal) = ended.store.bytes(Name::Journal(1)) else {
        return Ok("no journal");
    };
    if ended.life.end != End::Clean || !is_longer(journal) {
        return Ok("another journal");
    }
    match ended.store.bytes(Name::Journal(2)) {
        None if story.steps == 0 => Ok(""),
        Some(next) if story.steps == 1 && says(next, journal) => {
            let end = end_over_cut(story, next)?;
            Ok(if end == (End::Wrong("damaged"), true) {
                ""
            } else {
                "a cut journal is taken"
            })
        }
        _ => Ok("another next journal"),
    }
}

// ---- files that were being made

/// What is wrong with a life beside a snapshot that was being made, and the next journal, whose head has so many bytes.
fn wrong_beside<A: Allocator + Copy>(
    story: &Story<'_, A>,
    size: usize,
) -> Result<Option<Fault>, AllocError> {
    let mut store = old_store(story.alloc)?;
    store.put(Name::Journal(2), OLD_NEXT.get(..size).unwrap_or(OLD_NEXT))?;
    store.put(Name::Making, OLD_SNAPSHOT.get(..100).unwrap_or(b""))?;
    let table = (other_rounds(), story.steps);
    let ended = first_of::<VecStore<A>, A>(story.alloc, story.alloc, table, store);
    let is_found = ended.life.found == Some(changes_in(old_rounds()));
    if ended.life.end != End::Clean || !is_found {
        return Ok(Some((None, 0, ended.life.end)));
    }
    let left = (&ended.life, &ended.store);
    Ok(wrong_behind(story, left, Reach::Outermost))
}

/// The first size of that head with which something is wrong, and what is.
fn first_wrong_beside<A: Allocator + Copy>(
    story: &Story<'_, A>,
) -> Result<Option<(usize, Fault)>, AllocError> {
    for size in 0..=OLD_NEXT.len() {
        if let Some(fault) = wrong_beside(story, size)? {
            return Ok(Some((size, fault)));
        }
    }
    Ok(None)
}

// ---- tests

/// What is told of lives over the directory.
#[derive(Clone, Copy, Debug)]
enum Told {
    /// How many calls fail, or the first with which something is wrong.
    Calls(Result<u64, Wrong>),
    /// What is wrong with the files.
    Files(&'static str),
    /// What is wrong beside files that were being made.
    Beside(Option<(usize, Fault)>),
    /// There is no memory.
    NoMemory,
}

/// What is asked.
#[derive(Clone, Copy)]
enum Asked {
    Calls,
    Files,
    Beside,
}

/// What is told of lives with so many steps of snapshots behind each round, and how many kills and crashes were tried.
fn lives_told<A: Allocator + Copy>(alloc: A, steps: u32, asked: Asked) -> (Told, u64) {
    let Ok(known) = known_of::<VecStore<A>>(alloc, &APPENDED, changes_in(&APPENDED)) else {
        return (Told::NoMemory, 0);
    };
    let tried = Cell::new(0);
    let story = Story {
        alloc,
        rounds: &APPENDED,
        steps,
        known: &known,
        tried: &tried,
    };
    let told = match asked {
        Asked::Calls => Told::Calls(all_calls_over(&story)),
        Asked::Files => match wrong_file(&story) {
            Ok(wrong) => Told::Files(wrong),
            Err(AllocError) => Told::NoMemory,
        },
        Asked::Beside => match first_wrong_beside(&story) {
            Ok(wrong) => Told::Beside(wrong),
            Err(AllocError) => Told::NoMemory,
        },
    };
    (told, tried.get())
}

#[test]
fn each_call_over_old_files_fails(rt: HostRuntime) {
    for steps in [0, STEPS] {
        let told = lives_told(rt.alloc(), steps, Asked::Calls);
        let is_right = matches!(told, (Told::Calls(Ok(calls)), tried) if 60 < calls && 60 < tried);
        assert!(rt; is_right, "{steps}: {told:?}");
    }
}

#[test]
fn an_old_journal_stands_before_a_new_one(rt: HostRuntime) {
    for steps in [0, 1] {
        let told = lives_told(rt.alloc(), steps, Asked::Files);
        assert!(rt; matches!(told, (Told::Files(""), _)), "{steps}: {told:?}");
    }
}

#[test]
fn old_files_were_being_made(rt: HostRuntime) {
    let told = lives_told(rt.alloc(), STEPS, Asked::Beside);
    assert!(rt; matches!(told, (Told::Beside(None), _)), "{told:?}");
}
