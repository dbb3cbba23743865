//! The members of a group, by age: what happens to each of them.

ghost use Rattle.std.specs.Prelude.{◌≡◌, ◌≤◌, ◌<◌, get_or, length, not, map, if◌then◌else◌, ◌||◌};
ghost use Rattle.std.specs.List.{filter, list_all, list_any, position, position_or_len, sum_by};
ghost use Rattle.group_coordinator.specs.declared.values.TheConstants.{MOST_BYTES, MOST_TIME};
ghost use Rattle.group_coordinator.specs.Doing.{HasRoom, chooses, pending_of, refusing};
ghost use Rattle.group_coordinator.specs.Groups.{begun_member, common_protocol, is_numbered, longest, next_leader, unsynced};
ghost use Rattle.group_coordinator.specs.Coordinators.{sent};
ghost use Rattle.group_coordinator.specs.Least.{earliest, member_times};
ghost use Rattle.group_coordinator.specs.Joining.{goes_with, unwaited, called, waits};
ghost use Rattle.group_coordinator.specs.Members.{Member, beat, has_id, is_common, is_joining, member_bytes, metadata_of, refusals_of, knows};

use crate::ledger::Ledger;
use crate::member::GroupMember;
use crate::protocols::KnownProtocol;
use crate::values::{GroupError, Wait};
use crate::who::Who;
use std::alloc::Allocator;

/// Nobody waits for the leader any more.
pub(crate) fn stop_syncing<A: Allocator + Copy>(members: &mut [GroupMember<A>], now: u64)
    requires bounded { now ≤ MOST_TIME }
    ensures { members.new ≡ map (unsynced now) members.old }
{
    for member in members.iter_mut() {
        member.stop_syncing(now);
    }
}

/// All are of a generation that begins.
pub(crate) fn begin<A: Allocator + Copy>(members: &mut [GroupMember<A>], now: u64)
    requires bounded { now ≤ MOST_TIME }
    ensures { members.new ≡ map (begun_member now) members.old }
{
    for member in members.iter_mut() {
        member.begin(now);
    }
}

/// Who has this id was heard of.
pub(crate) fn beat<A: Allocator + Copy>(members: &mut [GroupMember<A>], id: &[u8], now: u64)
    requires bounded { now ≤ MOST_TIME }
    ensures { members.new ≡ map (λ m. if has_id id.now m then beat now m else m) members.old }
{
    for member in members.iter_mut() {
        member.beat_if(id, now);
    }
}

/// A request of whoever has this id came.
pub(crate) fn call<A: Allocator + Copy>(members: &mut [GroupMember<A>], id: &[u8], now: u64)
    requires bounded { now ≤ MOST_TIME }
    ensures { members.new ≡ map (λ m. if has_id id.now m then called now m else m) members.old }
{
    for member in members.iter_mut() {
        member.call_if(id, now);
    }
}

/// Who has this id waits for this.
pub(crate) fn wait_for<A: Allocator + Copy>(members: &mut [GroupMember<A>], id: &[u8], wait: Wait)
    ensures { members.new ≡ map (λ m. if has_id id.now m then waits wait m else m) members.old }
{
    for member in members.iter_mut() {
        member.wait_if(id, wait);
    }
}

/// What waits is refused, of whoever is meant.
pub(crate) fn refuse_those<A: Allocator + Copy>(
    members: &[GroupMember<A>],
    who: Who,
    error: GroupError,
    ledger: &mut Ledger<A>,
)
    requires room { HasRoom ledger.old (pending_of members.now) }
    ensures { ledger.new ≡ refusing ledger.old (refusals_of error (filter (chooses who) members.now)) }
{
    for member in members.iter() {
        member.refuse_if(who, error, ledger);
    }
}

/// What waits is refused, of whoever has this id.
pub(crate) fn refuse_named<A: Allocator + Copy>(
    members: &[GroupMember<A>],
    id: &[u8],
    error: GroupError,
    ledger: &mut Ledger<A>,
)
    requires room { HasRoom ledger.old (pending_of members.now) }
    ensures { ledger.new ≡ refusing ledger.old (refusals_of error (filter (has_id id.now) members.now)) }
{
    for member in members.iter() {
        member.refuse_named(id, error, ledger);
    }
}

/// Whoever is meant goes.
pub(crate) fn drop_those<A: Allocator + Copy>(members: &mut Vec<GroupMember<A>, A>, who: Who)
    ensures { members.new.items ≡ filter (λ m. not (chooses who m)) members.old.items }
{
    members.retain(|member| !member.is(who));
}

/// Whoever has this id goes.
pub(crate) fn drop_named<A: Allocator + Copy>(members: &mut Vec<GroupMember<A>, A>, id: &[u8])
    ensures { members.new.items ≡ filter (λ m. not (has_id id.now m)) members.old.items }
{
    members.retain(|member| !member.has_id(id));
}

/// Whoever goes with a session that ended is no member any more.
pub(crate) fn go_with<A: Allocator + Copy>(members: &mut Vec<GroupMember<A>, A>, session: u64)
    ensures { members.new.items ≡ filter (λ m. not (goes_with session m)) members.old.items }
{
    members.retain(|member| !member.goes_with(session));
}

/// Nobody waits in this session any more.
pub(crate) fn stop_waiting<A: Allocator + Copy>(
    members: &mut [GroupMember<A>],
    now: u64,
    session: u64,
)
    requires bounded { now ≤ MOST_TIME }
    ensures { members.new ≡ map (unwaited now session) members.old }
{
    for member in members.iter_mut() {
        member.end_session(now, session);
    }
}

/// The longest rebalance timeout, in milliseconds; 0 of no members.
pub(crate) fn longest<A: Allocator + Copy>(members: &[GroupMember<A>]) -> u32
    ensures { result ≡ longest members.now }
{
    let mut time = 0;
    for member in members.iter() {
        time = time.max(member.rebalance());
    }
    time
}

/// Whether all joined.
pub(crate) fn all_join<A: Allocator + Copy>(members: &[GroupMember<A>]) -> bool
    ensures { result ≡ list_all (λ m. is_joining m.wait) members.now }
{
    members.iter().all(|member| member.is_joining())
}

/// Whether each has a protocol of this name.
pub(crate) fn is_common<A: Allocator + Copy>(members: &[GroupMember<A>], name: &[u8]) -> bool
    ensures { result ≡ is_common members.now name.now }
{
    members.iter().all(|member| member.knows(name))
}

/// Whether each has this id, or a protocol of this name.
fn are_or_know<A: Allocator + Copy>(members: &[GroupMember<A>], id: &[u8], name: &[u8]) -> bool
    ensures { result ≡ list_all (λ m. has_id id.now m || knows name.now m.protocols) members.now }
{
    members.iter().all(|member| member.is_or_knows(id, name))
}

/// Whether each but those with this id has a protocol of this name.
pub(crate) fn is_common_but<A: Allocator + Copy>(
    members: &[GroupMember<A>],
    id: &[u8],
    name: &[u8],
) -> bool
    ensures { result ≡ is_common (filter (λ m. not (has_id id.now m)) members.now) name.now }
{
    are_or_know(members, id, name)
}

/// Whether each but those with this id has one of these protocols.
pub(crate) fn have_common_but<A: Allocator + Copy>(
    members: &[GroupMember<A>],
    id: &[u8],
    protocols: &[KnownProtocol<A>],
) -> bool
    ensures { result ≡ list_any (λ p. is_common (filter (λ m. not (has_id id.now m)) members.now) p.name) protocols.now }
{
    protocols
        .iter()
        .any(|protocol| is_common_but(members, id, protocol.name()))
}

/// Whether one of these members has this number.
fn is_there<A: Allocator + Copy>(members: &[GroupMember<A>], number: u64) -> bool
    ensures { result ≡ list_any (is_numbered number) members.now }
{
    members.iter().any(|member| member.is_numbered(number))
}

/// The number of the one who leads these members next.
pub(crate) fn next_leader<A: Allocator + Copy>(members: &[GroupMember<A>], leader: u64) -> u64
    ensures { result ≡ next_leader leader members.now }
{
    if members.is_empty() {
        return leader;
    }
    if is_there(members, leader) {
        return leader;
    }
    members[0].number()
}

/// The index of the member with this number.
pub(crate) fn numbered_index<A: Allocator + Copy>(
    members: &[GroupMember<A>],
    number: u64,
) -> Option<usize>
    ensures { result ≡ position (is_numbered number) members.now }
{
    members.iter().position(|member| member.is_numbered(number))
}

/// The index of the first of these protocols that all members have.
fn common_index<A: Allocator + Copy>(
    members: &[GroupMember<A>],
    protocols: &[KnownProtocol<A>],
) -> Option<usize>
    ensures { result ≡ position (λ p. is_common members.now p.name) protocols.now }
{
    protocols
        .iter()
        .position(|protocol| is_common(members, protocol.name()))
}

/// The index of the first of these protocols that all members have, or how many there are.
fn first_common<A: Allocator + Copy>(
    members: &[GroupMember<A>],
    protocols: &[KnownProtocol<A>],
) -> usize
    ensures { result ≡ position_or_len (λ p. is_common members.now p.name) protocols.now }
{
    match common_index(members, protocols) {
        Some(index) => index,
        None => protocols.len(),
    }
}

/// The index of the first of the leader's protocols that all members have, or how many it has.
pub(crate) fn common_protocol<A: Allocator + Copy>(members: &[GroupMember<A>], leader: u64) -> usize
    ensures { result ≡ common_protocol leader members.now }
{
    match numbered_index(members, leader) {
        Some(index) => first_common(members, members[index].protocols()),
        None => 0,
    }
}

/// The least time until which one is thought alive who doesn't wait, or the one before if that is earlier.
pub(crate) fn next_time<A: Allocator + Copy>(
    members: &[GroupMember<A>],
    before: Option<u64>,
) -> Option<u64>
    ensures { result ≡ earliest before (member_times members.now) }
{
    let mut least = before;
    for member in members.iter() {
        least = member.next_time(least);
    }
    least
}

/// The id of the member at an index.
pub(crate) fn id_at<A: Allocator + Copy>(members: &[GroupMember<A>], index: usize) -> &[u8]
    requires within { index < length members.now }
    ensures { (m : Member) → m ≡ get_or members.now index m → result.now ≡ m.id }
{
    members[index].id()
}

/// The metadata of the member at an index for the protocol of this name; none where it has no such protocol.
pub(crate) fn metadata_at<'a, A: Allocator + Copy>(
    members: &'a [GroupMember<A>],
    index: usize,
    name: &[u8],
) -> &'a [u8]
    requires within { index < length members.now }
    ensures { (m : Member) → m ≡ get_or members.now index m → result.now ≡ metadata_of name.now m }
{
    members[index].metadata(name)
}

/// The bytes that are counted for these members. They are bounded, so no sum overflows.
pub(crate) fn bytes<A: Allocator + Copy>(members: &[GroupMember<A>]) -> u64
    requires counted { sum_by member_bytes members.now ≤ MOST_BYTES }
    ensures { result ≡ sum_by member_bytes members.now }
{
    let mut bytes = 0;
    for member in members.iter() {
        bytes += member.bytes();
    }
    bytes
}

/// What was ready for a session was sent.
pub(crate) fn send<A: Allocator + Copy>(members: &mut [GroupMember<A>], session: u64)
    ensures { members.new ≡ map (sent session) members.old }
{
    for member in members.iter_mut() {
        member.send(session);
    }
}
