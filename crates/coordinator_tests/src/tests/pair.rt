//! The coordinator beside the plain one: the same is asked of both, and what is seen of both is compared.

use crate::tests::asked::{
    Given, Id, Joining, bytes_of, client_name, group_name, id_bytes, kind_name, protocol_name,
    signed,
};
use crate::tests::model::{Found, Plain};
use group_coordinator::{Coordinator, GroupError, JoinRequest, Parts, Protocols, Ready};
use std::alloc::{AllocError, Allocator};

/// So many sessions ask.
pub(super) const SESSIONS: u64 = 10;

/// The code of an error, as responses have it.
pub(super) fn code_of(error: Option<GroupError>) -> u32 {
    match error {
        None => 0,
        Some(GroupError::NotAvailable) => 15,
        Some(GroupError::NotCoordinator) => 16,
        Some(GroupError::IllegalGeneration) => 22,
        Some(GroupError::InconsistentProtocol) => 23,
        Some(GroupError::InvalidGroup) => 24,
        Some(GroupError::UnknownMember) => 25,
        Some(GroupError::InvalidSession) => 26,
        Some(GroupError::Rebalancing) => 27,
    }
}

/// What is ready, by the coordinator.
pub(super) fn found<A: Allocator + Copy>(real: &Coordinator<A>, session: u64) -> Found {
    match real.ready(session) {
        None => Found::Nothing,
        Some(Ready::Refuses(error)) => Found::Refusal(code_of(Some(error))),
        Some(Ready::Tells(group, member)) => Found::Told(group, member),
        Some(Ready::Gives(group, member)) => Found::Assigned(group, member),
    }
}

/// A consumer joins, by the coordinator.
pub(super) fn join<A: Allocator + Copy>(
    real: &mut Coordinator<A>,
    alloc: A,
    pool: &[u8],
    session: u64,
    client: usize,
    asked: &Joining<'_>,
) -> Result<u32, AllocError> {
    let member = id_bytes(alloc, asked.member)?;
    let mut protocols = Protocols::new(alloc);
    for protocol in asked.protocols.iter() {
        protocols.push(
            protocol_name(protocol.name),
            bytes_of(pool, protocol.metadata),
        )?;
    }
    let request = JoinRequest {
        group: group_name(asked.group),
        session_timeout: asked.session,
        rebalance_timeout: asked.rebalance,
        member: &member,
        kind: kind_name(asked.kind),
        protocols,
    };
    Ok(code_of(real.join(session, client_name(client), request)?))
}

/// A member asks for its part, by the coordinator.
pub(super) fn sync<A: Allocator + Copy>(
    real: &mut Coordinator<A>,
    alloc: A,
    pool: &[u8],
    session: u64,
    group: usize,
    generation: i32,
    id: Option<Id>,
    given: &[Given],
) -> Result<u32, AllocError> {
    let member = id_bytes(alloc, id)?;
    let mut parts = Parts::new(alloc);
    for part in given.iter() {
        parts.push(&id_bytes(alloc, part.id)?, bytes_of(pool, part.part))?;
    }
    let answer = real.sync(session, group_name(group), generation, &member, parts)?;
    Ok(code_of(answer))
}

/// A heartbeat, by the coordinator.
pub(super) fn heartbeat<A: Allocator + Copy>(
    real: &mut Coordinator<A>,
    alloc: A,
    group: usize,
    generation: i32,
    id: Option<Id>,
) -> Result<u32, AllocError> {
    let member = id_bytes(alloc, id)?;
    Ok(code_of(real.heartbeat(group_name(group), generation, &member)))
}

/// A member leaves, by the coordinator.
pub(super) fn leave<A: Allocator + Copy>(
    real: &mut Coordinator<A>,
    alloc: A,
    group: usize,
    id: Option<Id>,
) -> Result<u32, AllocError> {
    let member = id_bytes(alloc, id)?;
    Ok(code_of(real.leave(group_name(group), &member)))
}

/// The code of a commit, by the coordinator.
pub(super) fn commit_code<A: Allocator + Copy, B: Allocator + Copy>(
    real: &Coordinator<A>,
    alloc: B,
    group: usize,
    generation: i32,
    id: Option<Id>,
) -> Result<u32, AllocError> {
    let member = id_bytes(alloc, id)?;
    Ok(code_of(real.commit_fault(group_name(group), generation, &member)))
}

/// A commit, by the coordinator: its code; where there is none, it is done.
pub(super) fn commit<A: Allocator + Copy>(
    real: &mut Coordinator<A>,
    alloc: A,
    group: usize,
    generation: i32,
    id: Option<Id>,
) -> Result<u32, AllocError> {
    let member = id_bytes(alloc, id)?;
    let code = code_of(real.commit_fault(group_name(group), generation, &member));
    if code == 0 {
        real.committed(group_name(group), &member);
    }
    Ok(code)
}

/// Whether a time comes no later than another one; none is the latest.
fn is_no_later(first: Option<u64>, then: Option<u64>) -> bool {
    match (first, then) {
        (_, None) => true,
        (None, Some(_)) => false,
        (Some(first), Some(then)) => first <= then,
    }
}

/// Whether the same is ready for each session, nothing expires before the time that comes next, and as many bytes are
/// counted.
pub(super) fn look_alike<A: Allocator + Copy, B: Allocator + Copy>(
    real: &Coordinator<A>,
    plain: &Plain<B>,
) -> bool {
    for session in 0..SESSIONS {
        if found(real, session) != plain.found(session) {
            return false;
        }
    }
    is_no_later(real.next_time(), plain.next_time()) && real.bytes() == plain.bytes()
}

/// Whether commits of all members are admitted alike, of their generation and of the one before.
pub(super) fn admit_alike<A: Allocator + Copy, B: Allocator + Copy>(
    real: &Coordinator<A>,
    plain: &Plain<B>,
    alloc: B,
) -> Result<bool, AllocError> {
    for group in plain.groups.iter() {
        for member in group.members.iter() {
            for generation in [
                signed(group.generation),
                signed(group.generation).wrapping_sub(1),
                -1,
            ] {
                let code = commit_code(real, alloc, group.name, generation, Some(member.id))?;
                if code != plain.commit_code(group.name, generation, Some(member.id)) {
                    return Ok(false);
                }
            }
        }
    }
    Ok(true)
}
