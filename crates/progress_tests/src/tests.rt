//! What is known of a copy: the newest keys of more batches are taken in, each allocation failing in turn, and marks
//! follow parts and late batches.
use batch_codec::view;
use cleaning_progress::{Progress, Room};
use content::CleaningPart;
use refusing_alloc::Refusing;
use sample_batches::{one, three_at};
use segment::{BatchStore, SegStore, VecStore, can_insert};
use std::alloc::Allocator;

/// More allocations than any run below asks for.
const MOST: u64 = 200;

/// Room for one batch, whose last byte is read over it.
const ONE: Room = Room {
    read: 1,
    taken: usize::MAX,
};

/// Room for all.
const ALL: Room = Room {
    read: usize::MAX,
    taken: usize::MAX,
};

/// Room for no key.
const FULL: Room = Room {
    read: usize::MAX,
    taken: 0,
};

/// Puts a batch, again where memory lacked.
fn put<S: BatchStore>(batches: &mut S, bytes: &[u8]) -> bool {
    let Ok(batch) = view(bytes) else {
        return false;
    };
    if !can_insert(batches, &batch) {
        return false;
    }
    batches.insert(&batch).is_ok()
        || (can_insert(batches, &batch) && batches.insert(&batch).is_ok())
}

/// Takes in more of the batches below 3, again where memory lacked.
fn extend<S: BatchStore>(
    progress: &mut Progress<S::Alloc>,
    alloc: S::Alloc,
    batches: &S,
    room: Room,
) -> bool {
    progress.extend(alloc, batches, 3, room, 4).is_ok()
        || progress.extend(alloc, batches, 3, ALL, 4).is_ok()
}

/// Up to where keys are known, what is known of a, b and c, and below which offset the copy is settled.
type Known = (i64, [Option<i64>; 3], i64);

/// Whether this is known.
fn knows<A: Allocator + Copy>(progress: &Progress<A>, wanted: Known) -> bool {
    let keys = [
        progress.newest(b"a"),
        progress.newest(b"b"),
        progress.newest(b"c"),
    ];
    (progress.known_to(), keys, progress.settled()) == wanted
}

/// A part up to 3.
fn part(from: i64, to: i64) -> CleaningPart {
    CleaningPart {
        from,
        to,
        upto: 3,
        tomb_before: 0,
    }
}

/// Whether the newest keys of four batches, of which three end below 3, are known as far as they were taken in.
fn takes_in<S: BatchStore>(alloc: S::Alloc, progress: &mut Progress<S::Alloc>) -> [bool; 5] {
    let mut batches = S::new(alloc);
    [
        put(&mut batches, &one(0, 0, b'a', b'1')) && put(&mut batches, &one(1, 0, b'b', b'2')),
        put(&mut batches, &one(2, 0, b'a', b'3')) && put(&mut batches, &one(3, 0, b'c', b'4')),
        knows(progress, (0, [None; 3], 0)),
        extend(progress, alloc, &batches, ALL) && knows(progress, (3, [Some(2), Some(1), None], 0)),
        extend(progress, alloc, &batches, ALL) && knows(progress, (3, [Some(2), Some(1), None], 0)),
    ]
}

/// Whether parts of a pass sweep on, one settles the copy at the end, and a late batch takes that back.
fn follows<A: Allocator + Copy>(progress: &mut Progress<A>) -> [bool; 5] {
    let keys = [Some(2), Some(1), None];
    let not_yet = !progress.has_none_older(&part(2, 3));
    progress.note_part(&part(0, 2), 0, true);
    let sweeps_on = progress.has_none_older(&part(2, 3)) && knows(progress, (3, keys, 0));
    progress.note_part(&part(2, 3), 0, true);
    let settles = knows(progress, (3, keys, 3));
    progress.note_batch(3);
    let stays = knows(progress, (3, keys, 3));
    progress.note_batch(1);
    let is_late = knows(progress, (1, [None; 3], 1));
    [not_yet, sweeps_on, settles, stays, is_late]
}

/// Both, over one copy.
fn steps<S: BatchStore>(alloc: S::Alloc) -> ([bool; 5], [bool; 5]) {
    let mut progress = Progress::new(0);
    let taken = takes_in::<S>(alloc, &mut progress);
    (taken, follows(&mut progress))
}

/// Whether one batch at a time is taken in, where there is no room for more, and none where there is none for keys.
fn takes_one<S: BatchStore>(alloc: S::Alloc) -> [bool; 4] {
    let mut batches = S::new(alloc);
    let mut progress = Progress::new(0);
    [
        put(&mut batches, &one(0, 0, b'a', b'1')) && put(&mut batches, &three_at(1)),
        progress.extend(alloc, &batches, 9, ONE, 1).is_ok()
            && knows(&progress, (1, [Some(0), None, None], 0)),
        progress.extend(alloc, &batches, 9, FULL, 1).is_ok()
            && knows(&progress, (1, [Some(0), None, None], 0)),
        progress.extend(alloc, &batches, 9, ALL, 1).is_ok()
            && knows(&progress, (9, [Some(3), Some(2), None], 0)),
    ]
}

#[test]
fn keys_are_taken_in_and_marks_follow(rt: HostRuntime) {
    assert_eq!(rt; takes_one::<VecStore<_>>(rt.alloc()), [true; 4]);
    assert_eq!(rt; takes_one::<SegStore<_>>(rt.alloc()), [true; 4]);
    assert_eq!(rt; steps::<SegStore<_>>(rt.alloc()), ([true; 5], [true; 5]));
    let mut passed = false;
    for refused in 1..MOST {
        let heap = Refusing::new(rt.alloc(), refused);
        assert_eq!(rt;
            steps::<VecStore<_>>(&heap),
            ([true; 5], [true; 5]),
            "{refused}"
        );
        passed = heap.calls() < refused;
        if passed {
            break;
        }
    }
    assert!(rt; passed);
}
