//! What replies say, by both.

use crate::tests::asked::{bytes_of, id_bytes, signed};
use crate::tests::model::Plain;
use crate::tests::plain_group::{Group, Member};
use group_coordinator::{Coordinator, JoinReply, Ready};
use std::alloc::{AllocError, Allocator};

/// Whether a leader is told of the members that its group has.
fn lists_alike<A: Allocator + Copy, B: Allocator + Copy>(
    reply: &JoinReply<'_, A>,
    group: &Group<B>,
    alloc: B,
    pool: &[u8],
) -> Result<bool, AllocError> {
    let mut index = 0usize;
    for member in group.members.iter() {
        if index >= reply.count() {
            return Ok(false);
        }
        let metadata = bytes_of(pool, member.metadata(group.protocol_name()));
        let same = reply.listed_id(index) == id_bytes(alloc, Some(member.id))?.as_slice()
            && reply.listed_metadata(index) == metadata;
        if !same {
            return Ok(false);
        }
        index = index.saturating_add(1);
    }
    Ok(index == reply.count())
}

/// Whether a member is told what the plain one has of it.
fn tells_alike<A: Allocator + Copy, B: Allocator + Copy>(
    reply: &JoinReply<'_, A>,
    group: &Group<B>,
    member: &Member<B>,
    alloc: B,
    pool: &[u8],
) -> Result<bool, AllocError> {
    let same = reply.generation() == signed(group.generation)
        && reply.protocol() == group.protocol_name()
        && reply.leader() == id_bytes(alloc, group.leader_id())?.as_slice()
        && reply.member() == id_bytes(alloc, Some(member.id))?.as_slice();
    if !same {
        return Ok(false);
    }
    if group.is_led_by(member) {
        lists_alike(reply, group, alloc, pool)
    } else {
        Ok(reply.count() == 0)
    }
}

/// Whether what is ready for a session says the same by both.
pub(super) fn say_alike<A: Allocator + Copy, B: Allocator + Copy>(
    real: &Coordinator<A>,
    plain: &Plain<B>,
    alloc: B,
    pool: &[u8],
    session: u64,
) -> Result<bool, AllocError> {
    match real.ready(session) {
        Some(Ready::Tells(group, member)) => match plain.place(group, member) {
            Some((of, one)) => tells_alike(&real.told(group, member), of, one, alloc, pool),
            None => Ok(false),
        },
        Some(Ready::Gives(group, member)) => match plain.place(group, member) {
            Some((_, one)) => Ok(real.given(group, member) == bytes_of(pool, one.part)),
            None => Ok(false),
        },
        _ => Ok(true),
    }
}
