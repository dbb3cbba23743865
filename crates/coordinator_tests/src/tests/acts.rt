//! Acts that are written down, done by the coordinator, and by the plain one.

use crate::tests::asked::{Given, Id, Joining, Piece, Protocol, START, STRANGER, filling};
use crate::tests::model::Plain;
use crate::tests::pair;
use group_coordinator::{Coordinator, Settings};
use std::alloc::{AllocError, Allocator};

/// What happens. Members are 0, which is nobody; 1 to 3, by age; and 4, a stranger.
#[derive(Clone, Copy)]
pub(super) enum Act {
    /// A session, a group, a session timeout, a member, a kind, protocols.
    Join(u64, usize, i32, usize, usize, usize),
    /// A session, a group, a generation, a member, parts.
    Sync(u64, usize, i32, usize, usize),
    /// A group, a generation, a member.
    Heartbeat(usize, i32, usize),
    /// A group, a member.
    Leave(usize, usize),
    /// A group, a generation, a member.
    Commit(usize, i32, usize),
    /// A session.
    Gone(u64),
    /// A time.
    Clock(u64),
    Expire,
    /// A session.
    Send(u64),
}

/// So long the first generation of a group waits.
pub(super) const DELAY: u32 = 3_000;

/// The first member joins, and the second; the first generation begins, of which the first leads; it gives the parts; a
/// third member joins; all join anew; one is there before its leader; two leave, one by its session.
pub(super) static COURSE: [Act; 31] = [
    Act::Join(0, 0, 10_000, 0, 1, 1),
    Act::Join(1, 0, 10_000, 0, 1, 1),
    Act::Clock(3_000),
    Act::Expire,
    Act::Send(0),
    Act::Send(1),
    Act::Sync(1, 0, 1, 2, 0),
    Act::Sync(0, 0, 1, 1, 1),
    Act::Send(0),
    Act::Send(1),
    Act::Commit(0, 1, 2),
    Act::Join(2, 0, 10_000, 0, 1, 2),
    Act::Heartbeat(0, 1, 1),
    Act::Join(1, 0, 10_000, 2, 1, 1),
    Act::Join(0, 0, 10_000, 1, 1, 1),
    Act::Send(0),
    Act::Send(1),
    Act::Send(2),
    Act::Sync(2, 0, 2, 3, 0),
    Act::Sync(1, 0, 2, 2, 0),
    Act::Sync(0, 0, 2, 1, 2),
    Act::Send(0),
    Act::Send(1),
    Act::Send(2),
    Act::Join(3, 1, 10_000, 0, 2, 1),
    Act::Leave(0, 3),
    Act::Join(1, 0, 10_000, 2, 1, 1),
    Act::Gone(1),
    Act::Clock(60_000),
    Act::Expire,
    Act::Expire,
];

/// Where the first member waits for others.
pub(super) const FIRST: usize = 1;

/// Where the leader is waited for.
pub(super) const COMPLETING: usize = 6;

/// Where members have their parts.
pub(super) const STABLE: usize = 10;

/// Where a third member has joined, and the others are told to.
pub(super) const ANEW: usize = 12;

/// A member of another group leaves little room. Two members have joined, and their leader is waited for.
pub(super) static HEAVY: [Act; 12] = [
    Act::Join(5, 4, 1_800_000, 0, 1, 4),
    Act::Clock(3_000),
    Act::Expire,
    Act::Send(5),
    Act::Sync(5, 4, 1, 1, 0),
    Act::Send(5),
    Act::Join(0, 0, 10_000, 0, 1, 1),
    Act::Join(1, 0, 10_000, 0, 1, 1),
    Act::Clock(6_000),
    Act::Expire,
    Act::Send(0),
    Act::Send(1),
];

/// Bytes of the pool.
fn piece(start: usize, len: usize) -> Piece {
    Piece { start, len }
}

/// A protocol.
fn protocol(name: usize, start: usize, len: usize) -> Protocol {
    Protocol {
        name,
        metadata: piece(start, len),
    }
}

/// The protocols of a number.
fn protocols_of<A: Allocator + Copy>(
    alloc: A,
    number: usize,
) -> Result<Vec<Protocol, A>, AllocError> {
    let mut protocols = Vec::new(alloc);
    match number {
        1 => protocols.push(protocol(0, 1, 5))?,
        2 => {
            protocols.push(protocol(1, 7, 3))?;
            protocols.push(protocol(0, 0, 0))?;
        }
        3 => protocols.push(protocol(1, 0, 0))?,
        4 => return filling(alloc),
        5 => {
            for name in 0..4 {
                protocols.push(protocol(name, 2, 3_600))?;
            }
        }
        _ => {}
    }
    Ok(protocols)
}

/// The id of a member.
fn member_id(member: usize) -> Option<Id> {
    match member {
        1 => Some(Id {
            client: 0,
            number: 0,
        }),
        2 => Some(Id {
            client: 0,
            number: 1,
        }),
        3 => Some(Id {
            client: 0,
            number: 2,
        }),
        4 => Some(STRANGER),
        _ => None,
    }
}

/// A part for a member.
fn part(member: usize, start: usize, len: usize) -> Given {
    Given {
        id: member_id(member),
        part: piece(start, len),
    }
}

/// The parts of a number.
fn parts_of<A: Allocator + Copy>(alloc: A, number: usize) -> Result<Vec<Given, A>, AllocError> {
    let mut parts = Vec::new(alloc);
    match number {
        1 => {
            parts.push(part(1, 10, 3))?;
            parts.push(part(2, 20, 4))?;
        }
        2 => {
            parts.push(part(3, 5, 9))?;
            parts.push(part(0, 6, 1))?;
            parts.push(part(4, 7, 2))?;
            parts.push(part(1, 30, 2))?;
            parts.push(part(3, 40, 6))?;
        }
        3 => {
            for member in 1..4 {
                parts.push(part(member, 3, 3_900))?;
            }
        }
        _ => {}
    }
    Ok(parts)
}

/// A request to join.
fn joining(
    group: usize,
    session: i32,
    member: usize,
    kind: usize,
    protocols: &[Protocol],
) -> Joining<'_> {
    Joining {
        group,
        session,
        rebalance: 5_000,
        member: member_id(member),
        kind,
        protocols,
    }
}

/// A coordinator without groups.
pub(super) fn new<A: Allocator + Copy>(alloc: A, follows: bool) -> Coordinator<A> {
    Coordinator::new(
        alloc,
        Settings {
            start: START,
            join_delay: DELAY,
            follows,
        },
    )
}

/// Done by the coordinator; its code, or 0.
pub(super) fn do_act<A: Allocator + Copy>(
    real: &mut Coordinator<A>,
    alloc: A,
    pool: &[u8],
    act: Act,
) -> Result<u32, AllocError> {
    match act {
        Act::Join(session, group, timeout, member, kind, protocols) => {
            let protocols = protocols_of(alloc, protocols)?;
            let asked = joining(group, timeout, member, kind, &protocols);
            pair::join(real, alloc, pool, session, 0, &asked)
        }
        Act::Sync(session, group, generation, member, parts) => {
            let parts = parts_of(alloc, parts)?;
            pair::sync(
                real,
                alloc,
                pool,
                session,
                group,
                generation,
                member_id(member),
                &parts,
            )
        }
        Act::Heartbeat(group, generation, member) => {
            pair::heartbeat(real, alloc, group, generation, member_id(member))
        }
        Act::Leave(group, member) => pair::leave(real, alloc, group, member_id(member)),
        Act::Commit(group, generation, member) => pair::commit(
            real,
            alloc,
            group,
            generation,
            member_id(member),
        ),
        _ => Ok(happen(real, act)),
    }
}

/// What is no request.
fn happen<A: Allocator + Copy>(real: &mut Coordinator<A>, act: Act) -> u32 {
    match act {
        Act::Gone(session) => real.gone(session),
        Act::Clock(time) => real.clock(time),
        Act::Expire => real.expire(),
        Act::Send(session) => real.sent(session),
        _ => {}
    }
    0
}

/// Done by the plain one; its code, or 0.
pub(super) fn do_plainly<B: Allocator + Copy>(
    plain: &mut Plain<B>,
    alloc: B,
    act: Act,
) -> Result<u32, AllocError> {
    match act {
        Act::Join(session, group, timeout, member, kind, protocols) => {
            let protocols = protocols_of(alloc, protocols)?;
            plain.join(
                session,
                0,
                &joining(group, timeout, member, kind, &protocols),
            )
        }
        Act::Sync(session, group, generation, member, parts) => {
            plain.sync(
                session,
                group,
                generation,
                member_id(member),
                &parts_of(alloc, parts)?,
            )
        }
        Act::Heartbeat(group, generation, member) => Ok(plain.heartbeat(
            group,
            generation,
            member_id(member),
        )),
        Act::Leave(group, member) => plain.leave(group, member_id(member)),
        Act::Commit(group, generation, member) => Ok(commit_plainly(
            plain,
            group,
            generation,
            member_id(member),
        )),
        _ => {
            happen_plainly(plain, act)?;
            Ok(0)
        }
    }
}

/// A commit, which is done where nothing refuses it.
fn commit_plainly<B: Allocator + Copy>(
    plain: &mut Plain<B>,
    group: usize,
    generation: i32,
    id: Option<Id>,
) -> u32 {
    let code = plain.commit_code(group, generation, id);
    if code == 0 {
        plain.committed(group, id);
    }
    code
}

/// What is no request.
fn happen_plainly<B: Allocator + Copy>(plain: &mut Plain<B>, act: Act) -> Result<(), AllocError> {
    match act {
        Act::Gone(session) => plain.gone(session),
        Act::Clock(time) => {
            plain.clock(time);
            Ok(())
        }
        Act::Expire => plain.expire(),
        Act::Send(session) => {
            plain.sent(session);
            Ok(())
        }
        _ => Ok(()),
    }
}
