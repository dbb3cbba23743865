//! A member of a group.

ghost use Rattle.std.specs.Prelude.{◌≡◌, ◌≤◌, ◌+◌, [], Some, slice_get, bytes_eq, if◌then◌else◌, ◌&&◌, ◌||◌, IfOk, length};
ghost use Rattle.std.specs.List.{find, position, sum_by};
ghost use Rattle.std.specs.Option.{option_map_or};
ghost use Rattle.group_coordinator.specs.declared.values.TheConstants.{MOST_BYTES, MOST_TIME};
ghost use Rattle.group_coordinator.specs.declared.values.Wait.TheVariants.{Told};
ghost use Rattle.group_coordinator.specs.Doing.{HasRoom, chooses, pending, refusing};
ghost use Rattle.group_coordinator.specs.Groups.{unsynced, begun_wait, begun_member, is_numbered};
ghost use Rattle.group_coordinator.specs.Entering.{capped};
ghost use Rattle.group_coordinator.specs.Joining.{called, goes_with, new_member, rejoined, same_protocols, unwaited, waits, assigned_wait};
ghost use Rattle.group_coordinator.specs.Giving.{with_part};
ghost use Rattle.group_coordinator.specs.Least.{earlier};
ghost use Rattle.group_coordinator.specs.Readiness.{is_ready_for, ready_as};
ghost use Rattle.group_coordinator.specs.Coordinators.{sent};
ghost use Rattle.group_coordinator.specs.Times.{is_waiting};
ghost use Rattle.group_coordinator.specs.Members.{has_id, is_in, is_joining, is_ready, is_syncing, beat, knows, member_bytes, metadata_of, protocol_bytes, refusal_of, Member};

use crate::ids::member_id;
use crate::ledger::Ledger;
use crate::protocols::{KnownProtocol, Protocols, metadata};
use crate::ready::Ready;
use crate::request::JoinRequest;
use crate::values::{GroupError, MEMBER_BYTES, Settings, Wait};
use crate::who::Who;
use std::alloc::{AllocError, Allocator};
use std::marker::Model;

/// A member: its number and its id, its timeouts, its protocols, what it waits for, until when it is thought alive,
/// whether it was told of a generation, and its part.
#[derive(Drop)]
pub(crate) struct GroupMember<A: Allocator + Copy> {
    number: u64,
    id: Vec<u8, A>,
    session: u32,
    rebalance: u32,
    protocols: Protocols<A>,
    wait: Wait,
    until: u64,
    is_told: bool,
    part: Vec<u8, A>,
}

impl<A: Allocator + Copy> Model for GroupMember<A> {
    ghost use Rattle.group_coordinator.specs.Least.{earlier};
    ghost use Rattle.group_coordinator.specs.Readiness.{is_ready_for, ready_as};
    ghost use Rattle.group_coordinator.specs.Coordinators.{sent};
    ghost use Rattle.group_coordinator.specs.Times.{is_waiting};
    ghost use Rattle.group_coordinator.specs.Members.{Member};

    ghost Value = { Member };

    ghost view = { λ m. record {
      number = m.number;
      id = m.id.items;
      session = m.session;
      rebalance = m.rebalance;
      protocols = m.protocols;
      wait = m.wait;
      until = m.until;
      is_told = m.is_told;
      part = m.part.items;
    } };
}

/// Whether a request waits for the others.
pub(crate) fn is_joining(wait: Wait) -> bool
    ensures { result ≡ is_joining wait }
{
    match wait {
        Wait::Joins(_) => true,
        _ => false,
    }
}

/// Whether a request waits for the leader.
pub(crate) fn is_syncing(wait: Wait) -> bool
    ensures { result ≡ is_syncing wait }
{
    match wait {
        Wait::Syncs(_) => true,
        _ => false,
    }
}

/// Whether a reply is ready.
pub(crate) fn is_ready(wait: Wait) -> bool
    ensures { result ≡ is_ready wait }
{
    match wait {
        Wait::Told(_) | Wait::Assigned(_) => true,
        _ => false,
    }
}

/// Whether a request waits in this session, or its reply is ready for it.
pub(crate) fn is_in(session: u64, wait: Wait) -> bool
    ensures { result ≡ is_in session wait }
{
    match wait {
        Wait::No => false,
        Wait::Joins(of) | Wait::Syncs(of) | Wait::Told(of) | Wait::Assigned(of) => of == session,
    }
}

/// What a request that joined waits for once a generation begins.
fn begun_wait(wait: Wait) -> Wait
    ensures { result ≡ begun_wait wait }
{
    match wait {
        Wait::Joins(session) => Wait::Told(session),
        _ => wait,
    }
}

/// What a request for a part waits for once the part is there.
fn assigned_wait(wait: Wait) -> Wait
    ensures { result ≡ assigned_wait wait }
{
    match wait {
        Wait::Syncs(session) => Wait::Assigned(session),
        _ => wait,
    }
}

/// A time that lies so long behind another one. Both are bounded, so it doesn't overflow.
pub(crate) fn later(now: u64, after: u32) -> u64
    requires bounded { now ≤ MOST_TIME }
    ensures { result ≡ now + after }
{
    now + u64::from(after)
}

/// The earlier of two times.
pub(crate) fn earlier(before: Option<u64>, time: u64) -> u64
    ensures { result ≡ earlier before time }
{
    match before {
        None => time,
        Some(other) => other.min(time),
    }
}

/// The index of the member with this id.
pub(crate) fn member_index<A: Allocator + Copy>(
    members: &[GroupMember<A>],
    id: &[u8],
) -> Option<usize>
    ensures { result ≡ position (has_id id.now) members.now }
{
    members.iter().position(|member| member.id.as_slice() == id)
}

impl<A: Allocator + Copy> GroupMember<A> {
    /// Its id.
    pub(crate) fn id(&self) -> &[u8]
        ensures { result.now ≡ self.now.id }
    {
        &self.id
    }

    /// Its part.
    pub(crate) fn part(&self) -> &[u8]
        ensures { result.now ≡ self.now.part }
    {
        &self.part
    }

    /// Its metadata for the protocol of this name; none where it has no such protocol.
    pub(crate) fn metadata(&self, name: &[u8]) -> &[u8]
        ensures { result.now ≡ metadata_of name.now self.now }
    {
        metadata(self.protocols.list(), name)
    }

    /// Its number.
    pub(crate) fn number(&self) -> u64
        ensures { result ≡ self.now.number }
    {
        self.number
    }

    /// Whether this is its number.
    pub(crate) fn is_numbered(&self, number: u64) -> bool
        ensures { result ≡ is_numbered number self.now }
    {
        self.number == number
    }

    /// Its rebalance timeout, in milliseconds.
    pub(crate) fn rebalance(&self) -> u32
        ensures { result ≡ self.now.rebalance }
    {
        self.rebalance
    }

    /// The bytes that are counted for it.
    pub(crate) fn bytes(&self) -> u64
        requires counted { member_bytes self.now ≤ MOST_BYTES }
        ensures { result ≡ member_bytes self.now }
    {
        self.capped_bytes()
    }

    /// Its protocols.
    pub(crate) fn protocols(&self) -> &[KnownProtocol<A>]
        ensures { result.now ≡ self.now.protocols }
    {
        self.protocols.list()
    }

    /// Whether it has a protocol of this name.
    pub(crate) fn knows(&self, name: &[u8]) -> bool
        ensures { result ≡ knows name.now self.now.protocols }
    {
        self.protocols.knows(name)
    }

    /// Whether it joined, and waits for the others.
    pub(crate) fn is_joining(&self) -> bool
        ensures { result ≡ is_joining self.now.wait }
    {
        is_joining(self.wait)
    }

    /// Whether its request waits in this session, or its reply is ready for it.
    pub(crate) fn is_in(&self, session: u64) -> bool
        ensures { result ≡ is_in session self.now.wait }
    {
        is_in(session, self.wait)
    }

    /// Whether it waits for the others, or for its leader.
    fn is_waiting(&self) -> bool
        ensures { result ≡ is_waiting self.now }
    {
        is_joining(self.wait) || is_syncing(self.wait)
    }

    /// The time until which it is thought alive, where it doesn't wait, or the one before if that is earlier.
    pub(crate) fn next_time(&self, before: Option<u64>) -> Option<u64>
        ensures { result ≡ (if is_waiting self.now then before else Some (earlier before self.now.until)) }
    {
        if self.is_waiting() {
            before
        } else {
            Some(earlier(before, self.until))
        }
    }

    /// What was ready for a session was sent.
    pub(crate) fn send(&mut self, session: u64)
        ensures { self.new ≡ sent session self.old }
    {
        if is_in(session, self.wait) && is_ready(self.wait) {
            self.wait = Wait::No;
        }
    }

    /// Whether its reply is ready for this session.
    pub(crate) fn is_ready_for(&self, session: u64) -> bool
        ensures { result ≡ is_ready_for session self.now }
    {
        is_in(session, self.wait) && is_ready(self.wait)
    }

    /// Which reply is ready for it, where it stands at these indexes.
    pub(crate) fn ready_as(&self, group: usize, member: usize) -> Option<Ready>
        ensures { result ≡ ready_as self.now.wait group member }
    {
        match self.wait {
            Wait::Told(_) => Some(Ready::Tells(group, member)),
            Wait::Assigned(_) => Some(Ready::Gives(group, member)),
            _ => None,
        }
    }

    /// Whether it is meant.
    pub(crate) fn is(&self, who: Who) -> bool
        ensures { result ≡ chooses who self.now }
    {
        match who {
            Who::Everyone => true,
            Who::Unjoined => !is_joining(self.wait),
            Who::Syncing => is_syncing(self.wait),
            Who::Silent(now, is_overdue) => !self.is_waiting() && (self.until <= now || is_overdue),
        }
    }

    /// What waits is refused, if it is meant.
    pub(crate) fn refuse_if(&self, who: Who, error: GroupError, ledger: &mut Ledger<A>)
        requires room { HasRoom ledger.old (pending self.now.wait) }
        ensures { ledger.new ≡ refusing ledger.old (if chooses who self.now then refusal_of error self.now.wait else []) }
    {
        if self.is(who) {
            ledger.refuse(self.wait, error);
        }
    }

    /// What waits is refused, if it has this id.
    pub(crate) fn refuse_named(&self, id: &[u8], error: GroupError, ledger: &mut Ledger<A>)
        requires room { HasRoom ledger.old (pending self.now.wait) }
        ensures { ledger.new ≡ refusing ledger.old (if has_id id.now self.now then refusal_of error self.now.wait else []) }
    {
        if self.has_id(id) {
            ledger.refuse(self.wait, error);
        }
    }

    /// Whether it has this id, or a protocol of this name.
    pub(crate) fn is_or_knows(&self, id: &[u8], name: &[u8]) -> bool
        ensures { result ≡ (has_id id.now self.now || knows name.now self.now.protocols) }
    {
        self.has_id(id) || self.knows(name)
    }

    /// Whether it has this id.
    pub(crate) fn has_id(&self, id: &[u8]) -> bool
        ensures { result ≡ has_id id.now self.now }
    {
        self.id.as_slice() == id
    }

    /// The length of its part, in bytes.
    pub(crate) fn part_len(&self) -> u64
        ensures { result ≡ length self.now.part }
    {
        self.part.len() as u64
    }

    /// Whether it has this id, and this number, which is the leader's.
    pub(crate) fn leads(&self, id: &[u8], leader: u64) -> bool
        ensures { result ≡ (has_id id.now self.now && is_numbered leader self.now) }
    {
        self.has_id(id) && self.is_numbered(leader)
    }

    /// Whether it was told of a generation.
    pub(crate) fn is_told(&self) -> bool
        ensures { result ≡ self.now.is_told }
    {
        self.is_told
    }

    /// It was heard of.
    pub(crate) fn beat(&mut self, now: u64)
        requires bounded { now ≤ MOST_TIME }
        ensures { self.new ≡ beat now self.old }
    {
        self.until = later(now, self.session);
    }

    /// It was heard of, if it has this id.
    pub(crate) fn beat_if(&mut self, id: &[u8], now: u64)
        requires bounded { now ≤ MOST_TIME }
        ensures { self.new ≡ (if has_id id.now self.old then beat now self.old else self.old) }
    {
        if self.has_id(id) {
            self.beat(now);
        }
    }

    /// It waits for this.
    pub(crate) fn wait_for(&mut self, wait: Wait)
        ensures { self.new ≡ waits wait self.old }
    {
        self.wait = wait;
    }

    /// A request of its own came: it waits for nothing else any more.
    pub(crate) fn call(&mut self, now: u64)
        requires bounded { now ≤ MOST_TIME }
        ensures { self.new ≡ called now self.old }
    {
        self.until = later(now, self.session);
        self.wait = Wait::No;
    }

    /// A new member, which waits for the others in this session.
    ///
    /// # Errors
    ///
    /// Out of memory.
    pub(crate) fn new(
        alloc: A,
        settings: Settings,
        now: u64,
        session: u64,
        number: u64,
        client: &[u8],
        request: JoinRequest<'_, A>,
    ) -> Result<GroupMember<A>, AllocError>
        requires bounded { now ≤ MOST_TIME }
        ensures { IfOk result (λ m. m ≡ new_member settings now session number client.now request.entry) }
    {
        let id = member_id(alloc, client, settings.start, number)?;
        Ok(GroupMember {
            number,
            id,
            session: request.session(),
            rebalance: request.rebalance(),
            until: later(now, request.session()),
            protocols: request.protocols,
            wait: Wait::Joins(session),
            is_told: false,
            part: Vec::new(alloc),
        })
    }

    /// The bytes that are counted for it; the most that a `u64` can say where they are more.
    pub(crate) fn capped_bytes(&self) -> u64
        ensures { result ≡ capped (member_bytes self.now) }
    {
        MEMBER_BYTES
            .saturating_add(self.id.len() as u64)
            .saturating_add(self.protocols.bytes())
            .saturating_add(self.part.len() as u64)
    }

    /// The bytes that are counted for its protocols; the most that a `u64` can say where they are more.
    pub(crate) fn protocol_bytes(&self) -> u64
        ensures { result ≡ capped (sum_by protocol_bytes self.now.protocols) }
    {
        self.protocols.bytes()
    }

    /// Whether it asks for what it has.
    pub(crate) fn asks_again(&self, request: &JoinRequest<'_, A>) -> bool
        ensures { result ≡ (has_id request.now.member self.now && same_protocols self.now.protocols request.now.protocols) }
    {
        self.has_id(request.member) && self.protocols.is_same(&request.protocols)
    }

    /// It joins anew, and waits for the others in this session.
    pub(crate) fn rejoin(&mut self, now: u64, session: u64, request: JoinRequest<'_, A>)
        requires bounded { now ≤ MOST_TIME }
        ensures { self.new ≡ rejoined now session request.entry self.old }
    {
        self.session = request.session();
        self.rebalance = request.rebalance();
        self.until = later(now, request.session());
        self.wait = Wait::Joins(session);
        self.protocols = request.protocols;
    }

    /// A request of its own came, if it has this id.
    pub(crate) fn call_if(&mut self, id: &[u8], now: u64)
        requires bounded { now ≤ MOST_TIME }
        ensures { self.new ≡ (if has_id id.now self.old then called now self.old else self.old) }
    {
        if self.has_id(id) {
            self.call(now);
        }
    }

    /// It waits for this, if it has this id.
    pub(crate) fn wait_if(&mut self, id: &[u8], wait: Wait)
        ensures { self.new ≡ (if has_id id.now self.old then waits wait self.old else self.old) }
    {
        if self.has_id(id) {
            self.wait_for(wait);
        }
    }

    /// It has this part: where it waits for it, its reply is ready.
    pub(crate) fn assign(&mut self, now: u64, part: Vec<u8, A>)
        requires bounded { now ≤ MOST_TIME }
        ensures { self.new ≡ with_part now part.items self.old }
    {
        if is_syncing(self.wait) {
            self.until = later(now, self.session);
        }
        self.wait = assigned_wait(self.wait);
        self.part = part;
    }

    /// It doesn't wait for its leader any more.
    pub(crate) fn stop_syncing(&mut self, now: u64)
        requires bounded { now ≤ MOST_TIME }
        ensures { self.new ≡ unsynced now self.old }
    {
        if is_syncing(self.wait) {
            self.until = later(now, self.session);
            self.wait = Wait::No;
        }
    }

    /// It is one of a generation that begins.
    pub(crate) fn begin(&mut self, now: u64)
        requires bounded { now ≤ MOST_TIME }
        ensures { self.new ≡ begun_member now self.old }
    {
        self.until = later(now, self.session);
        self.wait = begun_wait(self.wait);
        self.is_told = true;
    }

    /// Whether it goes with a session that ended.
    pub(crate) fn goes_with(&self, session: u64) -> bool
        ensures { result ≡ goes_with session self.now }
    {
        is_in(session, self.wait) && !is_ready(self.wait) && !self.is_told
    }

    /// A session ended: it waits there no more.
    pub(crate) fn end_session(&mut self, now: u64, session: u64)
        requires bounded { now ≤ MOST_TIME }
        ensures { self.new ≡ unwaited now session self.old }
    {
        if is_in(session, self.wait) {
            if !is_ready(self.wait) {
                self.until = later(now, self.session);
            }
            self.wait = Wait::No;
        }
    }
}
