//! Each code of each request, where what comes behind it in the order of refusals is wrong as well.

use crate::tests::acts::{ANEW, Act, COMPLETING, COURSE, FIRST, HEAVY, STABLE, do_act, new};
use crate::tests::asked::pool;
use group_coordinator::Coordinator;
use std::alloc::{AllocError, Allocator};
use std::test::Fail;

/// What a row is of, how far the course went, the request, and its code.
type Row = (&'static str, usize, Act, u32);

/// On a broker that follows another one.
static FOLLOWING: [Row; 10] = [
    ("join: no name", 0, Act::Join(9, 3, 0, 4, 0, 0), 24),
    ("join: a follower", 0, Act::Join(9, 0, 0, 4, 0, 0), 16),
    ("sync: no name", 0, Act::Sync(9, 3, 7, 4, 3), 24),
    ("sync: a follower", 0, Act::Sync(9, 0, 7, 4, 3), 16),
    ("heartbeat: no name", 0, Act::Heartbeat(3, 7, 4), 24),
    ("heartbeat: a follower", 0, Act::Heartbeat(0, 7, 4), 16),
    ("leave: no name", 0, Act::Leave(3, 4), 24),
    ("leave: a follower", 0, Act::Leave(0, 4), 16),
    ("commit: no name", 0, Act::Commit(3, 7, 4), 0),
    ("commit: a follower", 0, Act::Commit(0, 7, 4), 0),
];

/// On a leader.
static LEADING: [Row; 52] = [
    ("join: no name", STABLE, Act::Join(9, 3, 0, 4, 0, 0), 24),
    (
        "join: too short a session",
        STABLE,
        Act::Join(9, 0, 999, 4, 2, 3),
        26,
    ),
    (
        "join: too long a session",
        STABLE,
        Act::Join(9, 0, 1_800_001, 4, 2, 3),
        26,
    ),
    (
        "join: a negative session",
        0,
        Act::Join(9, 0, i32::MIN, 4, 0, 0),
        26,
    ),
    (
        "join: another kind",
        STABLE,
        Act::Join(9, 0, 1_000, 4, 2, 5),
        23,
    ),
    ("join: no kind", STABLE, Act::Join(9, 0, 1_000, 4, 0, 5), 23),
    (
        "join: no common protocol",
        STABLE,
        Act::Join(9, 0, 1_000, 4, 1, 3),
        23,
    ),
    (
        "join: no protocol",
        STABLE,
        Act::Join(9, 0, 1_000, 4, 1, 0),
        23,
    ),
    (
        "join: no common one, of a member",
        STABLE,
        Act::Join(9, 0, 1_000, 2, 1, 3),
        23,
    ),
    (
        "join: no kind, of the first member",
        0,
        Act::Join(9, 0, 1_000, 4, 0, 1),
        23,
    ),
    (
        "join: no protocol, of the first one",
        0,
        Act::Join(9, 0, 1_000, 4, 1, 0),
        23,
    ),
    (
        "join: a stranger",
        STABLE,
        Act::Join(9, 0, 1_000, 4, 1, 5),
        25,
    ),
    (
        "join: a stranger where nobody is",
        0,
        Act::Join(9, 0, 1_000, 4, 1, 5),
        25,
    ),
    (
        "join: a member of another group",
        STABLE,
        Act::Join(9, 1, 1_000, 1, 1, 5),
        25,
    ),
    (
        "join: a first member",
        0,
        Act::Join(9, 0, 1_000, 0, 1, 1),
        0,
    ),
    (
        "join: the only member, anew",
        FIRST,
        Act::Join(9, 0, 1_000, 1, 1, 3),
        0,
    ),
    (
        "join: a new member",
        STABLE,
        Act::Join(9, 0, 1_800_000, 0, 1, 2),
        0,
    ),
    (
        "join: the leader, anew",
        STABLE,
        Act::Join(9, 0, 1_000, 1, 1, 1),
        0,
    ),
    (
        "join: a member, as it is",
        STABLE,
        Act::Join(9, 0, 1_000, 2, 1, 1),
        0,
    ),
    ("sync: no name", ANEW, Act::Sync(9, 3, 7, 4, 3), 24),
    ("sync: nobody is there", 0, Act::Sync(9, 0, 7, 4, 3), 25),
    ("sync: a stranger", ANEW, Act::Sync(9, 0, 7, 4, 3), 25),
    ("sync: nobody", ANEW, Act::Sync(9, 0, 7, 0, 3), 25),
    (
        "sync: an older generation",
        ANEW,
        Act::Sync(9, 0, 0, 1, 3),
        22,
    ),
    (
        "sync: a later generation",
        ANEW,
        Act::Sync(9, 0, 2, 1, 3),
        22,
    ),
    ("sync: no generation", STABLE, Act::Sync(9, 0, -1, 1, 3), 22),
    (
        "sync: one that was told nothing",
        ANEW,
        Act::Sync(9, 0, 1, 3, 3),
        22,
    ),
    ("sync: members join", ANEW, Act::Sync(9, 0, 1, 1, 3), 27),
    ("sync: the leader", COMPLETING, Act::Sync(9, 0, 1, 1, 1), 0),
    (
        "sync: a member that waits",
        COMPLETING,
        Act::Sync(9, 0, 1, 2, 0),
        0,
    ),
    (
        "sync: a member that has its part",
        STABLE,
        Act::Sync(9, 0, 1, 2, 3),
        0,
    ),
    ("heartbeat: no name", ANEW, Act::Heartbeat(3, 7, 4), 24),
    ("heartbeat: nobody is there", 0, Act::Heartbeat(0, 7, 4), 25),
    ("heartbeat: a stranger", ANEW, Act::Heartbeat(0, 7, 4), 25),
    (
        "heartbeat: an older generation",
        ANEW,
        Act::Heartbeat(0, 0, 1),
        22,
    ),
    (
        "heartbeat: one that was told nothing",
        ANEW,
        Act::Heartbeat(0, 1, 3),
        22,
    ),
    ("heartbeat: members join", ANEW, Act::Heartbeat(0, 1, 1), 27),
    (
        "heartbeat: the leader is waited for",
        COMPLETING,
        Act::Heartbeat(0, 1, 2),
        0,
    ),
    (
        "heartbeat: members have their parts",
        STABLE,
        Act::Heartbeat(0, 1, 2),
        0,
    ),
    ("leave: no name", STABLE, Act::Leave(3, 4), 24),
    ("leave: nobody is there", 0, Act::Leave(0, 4), 25),
    ("leave: a stranger", STABLE, Act::Leave(0, 4), 25),
    ("leave: a member", STABLE, Act::Leave(0, 2), 0),
    ("commit: no name", STABLE, Act::Commit(3, 7, 4), 0),
    (
        "commit: a generation where nobody is",
        0,
        Act::Commit(0, 0, 4),
        22,
    ),
    ("commit: none where nobody is", 0, Act::Commit(0, -1, 4), 0),
    ("commit: a stranger", COMPLETING, Act::Commit(0, 7, 4), 25),
    (
        "commit: no member beside members",
        COMPLETING,
        Act::Commit(0, -1, 0),
        25,
    ),
    (
        "commit: an older generation",
        COMPLETING,
        Act::Commit(0, 0, 1),
        22,
    ),
    (
        "commit: one that was told nothing",
        FIRST,
        Act::Commit(0, 0, 1),
        22,
    ),
    (
        "commit: the leader is waited for",
        COMPLETING,
        Act::Commit(0, 1, 1),
        27,
    ),
    ("commit: members join", ANEW, Act::Commit(0, 1, 1), 0),
];

/// Where little room is left, one after the other: a refusal changes nothing.
static HEAVILY: [Row; 10] = [
    ("join: a stranger", 0, Act::Join(9, 0, 1_000, 4, 1, 5), 25),
    (
        "join: too many bytes",
        0,
        Act::Join(9, 0, 1_800_000, 0, 1, 5),
        15,
    ),
    (
        "join: too many, of a member",
        0,
        Act::Join(9, 0, 1_000, 2, 1, 5),
        15,
    ),
    (
        "join: too many, of a first member",
        0,
        Act::Join(9, 1, 1_000, 0, 1, 5),
        15,
    ),
    ("sync: too many bytes", 0, Act::Sync(0, 0, 2, 2, 3), 15),
    (
        "sync: as many, of who doesn't lead",
        0,
        Act::Sync(1, 0, 2, 3, 3),
        0,
    ),
    ("sync: fewer bytes", 0, Act::Sync(0, 0, 2, 2, 1), 0),
    (
        "sync: as many, where all have theirs",
        0,
        Act::Sync(0, 0, 2, 2, 3),
        0,
    ),
    ("join: one more", 0, Act::Join(2, 0, 10_000, 0, 1, 1), 0),
    ("sync: members join", 0, Act::Sync(0, 0, 2, 2, 3), 27),
];

/// A coordinator behind the first acts of a course.
fn standing<A: Allocator + Copy>(
    alloc: A,
    pool: &[u8],
    course: &[Act],
    length: usize,
    follows: bool,
) -> Result<Coordinator<A>, AllocError> {
    let mut real = new(alloc, follows);
    for done in course.iter().take(length) {
        let _code = do_act(&mut real, alloc, pool, *done)?;
    }
    Ok(real)
}

/// The first row whose request has another code, and that code.
fn first_wrong<A: Allocator + Copy>(
    alloc: A,
    pool: &[u8],
    course: &[Act],
    rows: &[Row],
    follows: bool,
) -> Result<Option<(&'static str, u32)>, AllocError> {
    for row in rows.iter() {
        let mut real = standing(alloc, pool, course, row.1, follows)?;
        let code = do_act(&mut real, alloc, pool, row.2)?;
        if code != row.3 {
            return Ok(Some((row.0, code)));
        }
    }
    Ok(None)
}

/// The same of rows one after the other.
fn first_wrong_of_all<A: Allocator + Copy>(
    alloc: A,
    pool: &[u8],
    real: &mut Coordinator<A>,
    rows: &[Row],
) -> Result<Option<(&'static str, u32)>, AllocError> {
    for row in rows.iter() {
        let code = do_act(real, alloc, pool, row.2)?;
        if code != row.3 {
            return Ok(Some((row.0, code)));
        }
    }
    Ok(None)
}

#[test]
fn each_code_in_its_order(rt: HostRuntime) -> Result<(), Fail> {
    let alloc = rt.alloc();
    let pool = pool(alloc)?;
    assert_eq!(rt;
        first_wrong(alloc, &pool, &COURSE, &FOLLOWING, true)?,
        None,
        "on a follower"
    );
    assert_eq!(rt;
        first_wrong(alloc, &pool, &COURSE, &LEADING, false)?,
        None,
        "on a leader"
    );
    Ok(())
}

#[test]
fn codes_where_little_room_is_left(rt: HostRuntime) -> Result<(), Fail> {
    let alloc = rt.alloc();
    let pool = pool(alloc)?;
    let mut real = standing(alloc, &pool, &HEAVY, HEAVY.len(), false)?;
    assert_eq!(rt;
        first_wrong_of_all(alloc, &pool, &mut real, &HEAVILY)?,
        None
    );
    Ok(())
}
