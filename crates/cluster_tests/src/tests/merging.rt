//! `merge` and `merge_into`: merges of images of another program, and copies that disagree.

use crate::tests::copies::{are_added, has_image};
use crate::tests::outside::{A_IS_1, B_IS_2, EMPTY, LEFT, NONE_OF_TWO, RIGHT, SECOND_OF_TWO, TWO};
use copy_images::read_image;
use copy_merge::{MergeError, merge, merge_into};
use partition_log::PartitionLog;
use sample_batches::{nine_at, one, three_at};
use segment::{BatchStore, ProgramStore};

/// What two copies are, their images, and that of their merge.
type Row = (&'static str, &'static [u8], &'static [u8], &'static [u8]);

/// Copies that merge.
static MERGES: [Row; 6] = [
    ("a dropped record", &B_IS_2, &A_IS_1, &B_IS_2),
    ("itself", &B_IS_2, &B_IS_2, &B_IS_2),
    ("another record lost each", &LEFT, &RIGHT, &NONE_OF_TWO),
    (
        "their merge and the first",
        &NONE_OF_TWO,
        &LEFT,
        &NONE_OF_TWO,
    ),
    (
        "their merge and the second",
        &NONE_OF_TWO,
        &RIGHT,
        &NONE_OF_TWO,
    ),
    ("nothing seen", &EMPTY, &SECOND_OF_TWO, &SECOND_OF_TWO),
];

/// Whether two copies merge to the one that has this image.
fn is_merged<S: BatchStore>(left: &PartitionLog<S>, right: &PartitionLog<S>, image: &[u8]) -> bool {
    match merge(left, right) {
        Ok(merged) => has_image(&merged, image),
        Err(_) => false,
    }
}

/// Whether a copy and the one of an image merge to that of another image, in both orders.
fn merges<S: BatchStore>(left: &PartitionLog<S>, right: &[u8], image: &[u8]) -> bool {
    match read_image::<S>(left.allocator(), right) {
        Ok(right) => {
            [
                is_merged(left, &right, image),
                is_merged(&right, left, image),
            ] == [true; 2]
        }
        Err(_) => false,
    }
}

/// Whether the copies of a row merge so.
fn is_right<S: BatchStore>(alloc: S::Alloc, &(_, left, right, image): &Row) -> bool {
    match read_image::<S>(alloc, left) {
        Ok(left) => merges(&left, right, image),
        Err(_) => false,
    }
}

#[test]
fn copies_that_merge(rt: HostRuntime) {
    let mut wrong = None;
    for row in &MERGES {
        if !is_right::<ProgramStore<_>>(rt.alloc(), row) {
            wrong = Some(row.0);
        }
    }
    assert_eq!(rt; wrong, None);
}

/// Whether both calls refuse two copies at this base, `merge` in both orders, and the first copy is as it
/// was.
fn disagree<S: BatchStore>(left: &mut PartitionLog<S>, right: &PartitionLog<S>, base: i64) -> bool {
    let wanted = MergeError::Disagree { base };
    let before = (left.len(), left.end());
    let answers = [
        merge(left, right).err() == Some(wanted),
        merge(right, left).err() == Some(wanted),
        merge_into(left, right) == Err(wanted),
        (left.len(), left.end()) == before,
        merge(left, right).err() == Some(wanted),
    ];
    answers == [true; 5]
}

/// Whether copies of these batches disagree at this base.
fn are_apart<S: BatchStore>(alloc: S::Alloc, left: &[&[u8]], right: &[&[u8]], base: i64) -> bool {
    let mut first = PartitionLog::<S>::new(alloc);
    let mut second = PartitionLog::<S>::new(alloc);
    let are_made = [are_added(&mut first, left), are_added(&mut second, right)];
    let disagree = disagree(&mut first, &second, base);
    (are_made, disagree) == ([true; 2], true)
}

/// Batches of two logs, and whether copies of them disagree as they should.
fn of_two_logs<S: BatchStore>(alloc: S::Alloc) -> [(&'static str, bool); 6] {
    let first = one(0, 0, b'a', b'1');
    let value = one(0, 0, b'a', b'2');
    let time = one(0, 1, b'a', b'1');
    let second = one(1, 0, b'a', b'2');
    let third = one(2, 0, b'a', b'8');
    let later: &[&[u8]] = &[&first, &nine_at(1), &nine_at(2)];
    let earlier: &[&[u8]] = &[&third, &second, &first];
    [
        (
            "another value",
            are_apart::<S>(alloc, &[&first], &[&value], 0),
        ),
        (
            "another time",
            are_apart::<S>(alloc, &[&first], &[&time], 0),
        ),
        ("another span", are_apart::<S>(alloc, &[&TWO], &[&first], 0)),
        (
            "the second alone",
            are_apart::<S>(alloc, &[&TWO], &[&second], 0),
        ),
        (
            "an offset within",
            are_apart::<S>(alloc, &[&nine_at(6)], &[&three_at(5)], 5),
        ),
        ("the least base", are_apart::<S>(alloc, later, earlier, 1)),
    ]
}

#[test]
fn copies_that_disagree(rt: HostRuntime) {
    for (name, is_right) in of_two_logs::<ProgramStore<_>>(rt.alloc()) {
        assert!(rt; is_right, "{name}");
    }
}
