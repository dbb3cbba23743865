//! Some tens of thousands of moves over three groups and ten sessions, done by the coordinator and by the plain one.

use crate::tests::asked::pool;
use crate::tests::course::{Course, Tally};
use std::alloc::{AllocError, Allocator};
use std::test::Fail;

/// How often what came about, by the rows of a tally (`Tally::row`). What is 0 can't come about there.
type Reached = [[u64; 9]; 8];

/// A group is asked in each phase, each code comes that may, and whatever may be ready is.
static LEADING: Reached = [
    [2_938, 0, 0, 0, 198, 91, 155, 174, 0],
    [1_301, 0, 0, 1_233, 0, 120, 579, 0, 1_253],
    [721, 0, 0, 682, 0, 55, 315, 0, 667],
    [304, 0, 0, 0, 0, 17, 53, 0, 0],
    [882, 0, 0, 687, 0, 0, 134, 0, 316],
    [35_113, 1_365, 603, 146, 1_193, 0, 0, 0, 0],
    [1_096, 6_892, 2_796, 2_091, 0, 0, 0, 0, 0],
    [1_250, 869, 8, 811, 160, 11, 763, 367, 0],
];

/// The first generation of a group waits for further members.
static DELAYED: Reached = [
    [837, 0, 0, 0, 57, 25, 68, 52, 0],
    [314, 0, 0, 386, 0, 38, 231, 0, 375],
    [177, 0, 0, 239, 0, 22, 120, 0, 173],
    [88, 0, 0, 0, 0, 2, 21, 0, 0],
    [233, 0, 0, 263, 0, 0, 43, 0, 82],
    [10_763, 337, 143, 48, 369, 0, 0, 0, 0],
    [479, 2_209, 689, 469, 0, 0, 0, 0, 0],
    [406, 157, 4, 270, 57, 3, 159, 95, 0],
];

/// Nobody has a member on a follower.
static FOLLOWING: Reached = [
    [0, 0, 169, 0, 0, 3, 0, 0, 0],
    [0, 0, 220, 0, 0, 7, 0, 0, 0],
    [0, 0, 115, 0, 0, 0, 0, 0, 0],
    [0, 0, 24, 0, 0, 0, 0, 0, 0],
    [100, 0, 0, 0, 0, 0, 0, 0, 0],
    [1_820, 0, 0, 0, 0, 0, 0, 0, 0],
    [638, 0, 0, 0, 0, 0, 0, 0, 0],
    [0, 0, 0, 0, 0, 0, 0, 0, 0],
];

/// Joins and syncs are refused for want of room.
static FULL: Reached = [
    [359, 94, 0, 0, 33, 9, 38, 22, 0],
    [258, 4, 0, 160, 0, 17, 112, 0, 105],
    [171, 0, 0, 61, 0, 9, 51, 0, 49],
    [48, 0, 0, 0, 0, 0, 11, 0, 0],
    [105, 0, 0, 85, 0, 0, 22, 0, 61],
    [5_353, 210, 138, 15, 136, 0, 0, 0, 0],
    [236, 592, 546, 510, 0, 0, 0, 0, 0],
    [98, 189, 2, 70, 17, 3, 182, 56, 0],
];

/// The first row of a tally that is another one, and what it is.
fn first_other<A: Allocator + Copy>(
    alloc: A,
    tally: &Tally<A>,
    wanted: &Reached,
) -> Result<Option<Vec<u64, A>>, AllocError> {
    let mut number = 0usize;
    for row in wanted.iter() {
        if tally.row(number) != row.as_slice() {
            return Ok(Some(tally.row(number).to_vec(alloc)?));
        }
        number = number.saturating_add(1);
    }
    Ok(None)
}

#[test]
fn both_do_the_same(rt: HostRuntime) -> Result<(), Fail> {
    let pool = pool(rt.alloc())?;
    let mut course = Course::new(rt.alloc(), &pool, 1, 0, false)?;
    assert_eq!(rt; course.differ(20_000)?, None);
    assert_eq!(rt; first_other(rt.alloc(), &course.tally, &LEADING)?, None);
    Ok(())
}

#[test]
fn both_wait_for_members(rt: HostRuntime) -> Result<(), Fail> {
    let pool = pool(rt.alloc())?;
    let mut course = Course::new(rt.alloc(), &pool, 4, 1_500, false)?;
    assert_eq!(rt; course.differ(6_000)?, None);
    assert_eq!(rt; first_other(rt.alloc(), &course.tally, &DELAYED)?, None);
    Ok(())
}

#[test]
fn both_follow(rt: HostRuntime) -> Result<(), Fail> {
    let pool = pool(rt.alloc())?;
    let mut course = Course::new(rt.alloc(), &pool, 2, 0, true)?;
    assert_eq!(rt; course.differ(1_000)?, None);
    assert_eq!(rt; first_other(rt.alloc(), &course.tally, &FOLLOWING)?, None);
    Ok(())
}

#[test]
fn both_have_little_room(rt: HostRuntime) -> Result<(), Fail> {
    let pool = pool(rt.alloc())?;
    let mut course = Course::new(rt.alloc(), &pool, 3, 0, false)?;
    assert!(rt; course.fill()?);
    assert_eq!(rt; course.differ(3_000)?, None);
    assert_eq!(rt; first_other(rt.alloc(), &course.tally, &FULL)?, None);
    Ok(())
}
