//! All groups, by age.

ghost use Rattle.std.specs.Prelude.{◌≡◌, ◌≤◌, ◌<◌, ◌==◌, ◌++◌, ◌∷◌, [], OnOk, OnErr, not, map, length, get_or, slice_set, is_some, None, List, ℕ};
ghost use Rattle.std.specs.List.{filter, flat_map, position, sum_by};
ghost use Rattle.group_coordinator.specs.declared.values.TheConstants.{MOST_BYTES, MOST_TIME};
ghost use Rattle.group_coordinator.specs.Coordinators.{Groups, is_named, reply_in, sent_group};
ghost use Rattle.group_coordinator.specs.Doing.{DoesAt, DoesEach, HasRoom, pending_in, pending_of, put_back};
ghost use Rattle.group_coordinator.specs.Due.{turning_times};
ghost use Rattle.group_coordinator.specs.Groups.{Group, group_bytes, and_then, new_group, prepare, settle};
ghost use Rattle.group_coordinator.specs.Joining.{end_session, leave, with_member, call, plainly, rejoined, sync, waits, with_last};
ghost use Rattle.group_coordinator.specs.Keeping.{AreApart};
ghost use Rattle.group_coordinator.specs.Entering.{Enters, IsOnly};
ghost use Rattle.group_coordinator.specs.declared.values.Wait.TheVariants.{Told};
ghost use Rattle.group_coordinator.specs.Members.{beat};
ghost use Rattle.group_coordinator.specs.Giving.{DoesStayingAt, parts_by};
ghost use Rattle.group_coordinator.specs.Least.{earliest};
ghost use Rattle.group_coordinator.specs.Requests.{SyncRequest};
ghost use Rattle.group_coordinator.specs.Readiness.{has_ready, reply_at};
ghost use Rattle.std.specs.Option.{option_and_then};
ghost use Rattle.group_coordinator.specs.Times.{expire_group};

use crate::group::MemberGroup;
use crate::ledger::Ledger;
use crate::member::GroupMember;
use crate::name_index::NameIndex;
use crate::parts::NewParts;
use crate::ready::Ready;
use crate::request::JoinRequest;
use crate::values::Settings;
use std::alloc::{AllocError, Allocator};
use std::marker::Model;

/// Groups, by age, and which of them has a name.
#[derive(Drop)]
pub(crate) struct GroupList<A: Allocator + Copy> {
    groups: Vec<MemberGroup<A>, A>,
    names: NameIndex<A>,
}

impl<A: Allocator + Copy> Model for GroupList<A> {
    ghost use Rattle.std.specs.Prelude.{List};
    ghost use Rattle.group_coordinator.specs.Groups.{Group};
    ghost use Rattle.group_coordinator.specs.Finding.{Finds, names_of};

    ghost Value = { List Group };

    ghost invariant = { λ l. Finds l.names (names_of l.groups.items) };

    ghost view = { λ l. l.groups.items };
}

/// Whoever is silent goes, and then the others join anew.
fn expire<A: Allocator + Copy>(
    groups: &mut [MemberGroup<A>],
    settings: Settings,
    now: u64,
    ledger: &mut Ledger<A>,
)
    requires bounded { now ≤ MOST_TIME }
    requires room { HasRoom ledger.old (pending_in groups.old) }
    ensures { DoesEach (expire_group settings now) ledger.old ledger.new groups.old groups.new }
{
    for group in groups.iter_mut() {
        group.expire(settings, now, ledger);
    }
}

/// A session ended.
fn end_session<A: Allocator + Copy>(
    groups: &mut [MemberGroup<A>],
    now: u64,
    session: u64,
    ledger: &mut Ledger<A>,
)
    requires bounded { now ≤ MOST_TIME }
    requires room { HasRoom ledger.old (pending_in groups.old) }
    ensures { DoesEach (end_session now session) ledger.old ledger.new groups.old groups.new }
{
    for group in groups.iter_mut() {
        group.end_session(now, session, ledger);
    }
}

/// Groups without members aren't kept.
fn drop_empty<A: Allocator + Copy>(groups: &mut Vec<MemberGroup<A>, A>)
    ensures { groups.new.items ≡ filter (λ g. not (0 == length g.members)) groups.old.items }
{
    groups.retain(|group| !group.is_empty());
}

/// The group at an index isn't kept if it has no members.
fn drop_if_empty<A: Allocator + Copy>(groups: &mut Vec<MemberGroup<A>, A>, index: usize)
    requires within { index < length groups.old.items }
    ensures { (g : Group) → g ≡ get_or groups.old.items index g → groups.new.items ≡ put_back groups.old.items index g }
{
    if groups[index].is_empty() {
        groups.remove(index);
    }
}

/// The first time from which on something of a group may change.
fn due<A: Allocator + Copy>(groups: &[MemberGroup<A>]) -> Option<u64>
    ensures { result ≡ earliest None (flat_map turning_times groups.now) }
{
    let mut least = None;
    for group in groups.iter() {
        least = group.due(least);
    }
    least
}

/// The bytes that are counted for all groups. They are bounded, so no sum overflows.
fn bytes<A: Allocator + Copy>(groups: &[MemberGroup<A>]) -> u64
    requires counted { sum_by group_bytes groups.now ≤ MOST_BYTES }
    ensures { result ≡ sum_by group_bytes groups.now }
{
    let mut bytes = 0;
    for group in groups.iter() {
        bytes += group.bytes();
    }
    bytes
}

/// What was ready for a session was sent.
fn send<A: Allocator + Copy>(groups: &mut [MemberGroup<A>], session: u64)
    ensures { groups.new ≡ map (sent_group session) groups.old }
{
    for group in groups.iter_mut() {
        group.send(session);
    }
}

impl<A: Allocator + Copy> GroupList<A> {
    /// No groups. Takes no memory.
    pub(crate) fn new(alloc: A) -> GroupList<A>
        ensures { result ≡ [] }
    {
        GroupList {
            groups: Vec::new(alloc),
            names: NameIndex::new(alloc),
        }
    }

    /// The index of the group of this name.
    pub(crate) fn index_of(&self, name: &[u8]) -> Option<usize>
        requires apart { AreApart self.now }
        ensures { result ≡ position (is_named name.now) self.now }
    {
        self.names.find(&self.groups, name)
    }

    /// One group more, the youngest.
    ///
    /// # Errors
    ///
    /// Out of memory: no group has changed.
    pub(crate) fn push(&mut self, group: MemberGroup<A>) -> Result<(), AllocError>
        ensures pushes { OnOk result (self.new ≡ self.old ++ group ∷ []) }
        ensures unchanged_on_error { OnErr result (self.new ≡ self.old) }
    {
        self.groups.reserve(1)?;
        self.names.reserve(&self.groups)?;
        self.names.push(group.name());
        self.groups.push_reserved(group);
        Ok(())
    }

    /// The group at an index.
    pub(crate) fn group(&self, index: usize) -> &MemberGroup<A>
        requires within { index < length self.now }
        ensures { result.now ≡ get_or self.now index result.now }
    {
        &self.groups[index]
    }

    /// Whoever is silent goes, and then the others join anew.
    pub(crate) fn expire(&mut self, settings: Settings, now: u64, ledger: &mut Ledger<A>)
        requires bounded { now ≤ MOST_TIME }
        requires room { HasRoom ledger.old (pending_in self.old) }
        ensures { DoesEach (expire_group settings now) ledger.old ledger.new self.old self.new }
    {
        expire(self.groups.as_mut_slice(), settings, now, ledger);
    }

    /// A session ended.
    pub(crate) fn end_session(&mut self, now: u64, session: u64, ledger: &mut Ledger<A>)
        requires bounded { now ≤ MOST_TIME }
        requires room { HasRoom ledger.old (pending_in self.old) }
        ensures { DoesEach (end_session now session) ledger.old ledger.new self.old self.new }
    {
        end_session(self.groups.as_mut_slice(), now, session, ledger);
    }

    /// Groups without members aren't kept.
    pub(crate) fn drop_empty(&mut self)
        ensures { self.new ≡ filter (λ g. not (0 == length g.members)) self.old }
    {
        drop_empty(&mut self.groups);
        self.names.refresh(&self.groups);
    }

    /// The group at an index isn't kept if it has no members.
    pub(crate) fn drop_if_empty(&mut self, index: usize)
        requires within { index < length self.old }
        ensures { (g : Group) → g ≡ get_or self.old index g → self.new ≡ put_back self.old index g }
    {
        drop_if_empty(&mut self.groups, index);
        self.names.refresh(&self.groups);
    }

    /// A member of the group at an index was heard of.
    pub(crate) fn beat(&mut self, index: usize, id: &[u8], now: u64)
        requires within { index < length self.old }
        requires bounded { now ≤ MOST_TIME }
        ensures { (g : Group) → g ≡ get_or self.old index g → self.new ≡ slice_set self.old index (with_member id.now (beat now) g) }
    {
        self.groups[index].beat(id, now);
    }

    /// A handle of the allocator.
    pub(crate) fn alloc(&self) -> A {
        *self.groups.allocator()
    }

    /// A member more of the group at an index.
    fn add_at(&mut self, index: usize, member: GroupMember<A>) -> Result<(), AllocError>
        requires within { index < length self.old }
        ensures adds { OnOk result ((g : Group) → g ≡ get_or self.old index g → self.new ≡ slice_set self.old index (with_last member g)) }
        ensures unchanged_on_error { OnErr result (self.new ≡ self.old) }
    {
        self.groups[index].add(member)
    }

    /// A group more, with this first member.
    fn push_new(
        &mut self,
        name: &[u8],
        kind: &[u8],
        member: GroupMember<A>,
    ) -> Result<(), AllocError>
        ensures adds { OnOk result (self.new ≡ self.old ++ with_last member (new_group name.now kind.now) ∷ []) }
        ensures unchanged_on_error { OnErr result (self.new ≡ self.old) }
    {
        self.push(MemberGroup::new(self.alloc(), name, kind, member)?)
    }

    /// A member more of the group of this name, which is a new one of this kind where there is none.
    ///
    /// # Errors
    ///
    /// Out of memory: nothing has changed.
    pub(crate) fn enter(
        &mut self,
        name: &[u8],
        kind: &[u8],
        member: GroupMember<A>,
    ) -> Result<(), AllocError>
        requires apart { AreApart self.old }
        ensures enters { OnOk result (Enters name.now kind.now member self.old self.new) }
        ensures unchanged_on_error { OnErr result (self.new ≡ self.old) }
    {
        match self.index_of(name) {
            Some(index) => self.add_at(index, member),
            None => self.push_new(name, kind, member),
        }
    }

    /// A member of the group at an index, which is the only one with its id, joins anew: who waits for it is refused.
    pub(crate) fn rejoin(
        &mut self,
        index: usize,
        member: usize,
        now: u64,
        session: u64,
        request: JoinRequest<'_, A>,
        ledger: &mut Ledger<A>,
    )
        requires within { index < length self.old }
        requires member { (g : Group) → g ≡ get_or self.old index g → (member < length g.members) × IsOnly request.member member g.members }
        requires bounded { now ≤ MOST_TIME }
        requires room { (g : Group) → g ≡ get_or self.old index g → HasRoom ledger.old (pending_of g.members) }
        ensures { DoesStayingAt (and_then (call now request.entry.member) (plainly (with_member request.entry.member (rejoined now session request.entry)))) ledger.old ledger.new index self.old self.new }
    {
        self.groups[index].rejoin(member, now, session, request, ledger);
    }

    /// A member of the group at an index is told at once of the generation that it is one of: who waits for it is refused.
    pub(crate) fn tell(
        &mut self,
        index: usize,
        now: u64,
        session: u64,
        id: &[u8],
        ledger: &mut Ledger<A>,
    )
        requires within { index < length self.old }
        requires bounded { now ≤ MOST_TIME }
        requires room { (g : Group) → g ≡ get_or self.old index g → HasRoom ledger.old (pending_of g.members) }
        ensures { DoesStayingAt (and_then (call now id.now) (plainly (with_member id.now (waits (Told session))))) ledger.old ledger.new index self.old self.new }
    {
        self.groups[index].tell(now, session, id, ledger);
    }

    /// All members of the group at an index join anew, and its next generation begins, if it may.
    pub(crate) fn renew(
        &mut self,
        index: usize,
        settings: Settings,
        now: u64,
        ledger: &mut Ledger<A>,
    )
        requires within { index < length self.old }
        requires bounded { now ≤ MOST_TIME }
        requires room { (g : Group) → g ≡ get_or self.old index g → HasRoom ledger.old (pending_of g.members) }
        ensures { DoesAt (and_then (prepare settings now) (settle now)) ledger.old ledger.new index self.old self.new }
    {
        self.groups[index].renew(settings, now, ledger);
    }

    /// A member of the group at an index leaves.
    pub(crate) fn leave(
        &mut self,
        index: usize,
        settings: Settings,
        now: u64,
        id: &[u8],
        ledger: &mut Ledger<A>,
    )
        requires within { index < length self.old }
        requires bounded { now ≤ MOST_TIME }
        requires room { (g : Group) → g ≡ get_or self.old index g → HasRoom ledger.old (pending_of g.members) }
        ensures { DoesAt (leave settings now id.now) ledger.old ledger.new index self.old self.new }
    {
        self.groups[index].leave(settings, now, id, ledger);
    }

    /// A member of the group at an index asks for its part, and gives all theirs where it leads. Takes no memory.
    pub(crate) fn sync(
        &mut self,
        index: usize,
        now: u64,
        session: u64,
        id: &[u8],
        given: Option<NewParts<A>>,
        ledger: &mut Ledger<A>,
    )
        requires within { index < length self.old }
        requires bounded { now ≤ MOST_TIME }
        requires room { (g : Group) → g ≡ get_or self.old index g → HasRoom ledger.old (pending_of g.members) }
        ensures { (q : SyncRequest) → q.member ≡ id.now
            → ((g : Group) → g ≡ get_or self.old index g → given ≡ parts_by id.now q.parts g)
            → DoesStayingAt (sync now session q) ledger.old ledger.new index self.old self.new }
    {
        self.groups[index].sync(now, session, id, given, ledger);
    }

    /// The first time from which on something of a group may change.
    pub(crate) fn due(&self) -> Option<u64>
        ensures { result ≡ earliest None (flat_map turning_times self.now) }
    {
        due(&self.groups)
    }

    /// The bytes that are counted for all groups.
    pub(crate) fn bytes(&self) -> u64
        requires counted { sum_by group_bytes self.now ≤ MOST_BYTES }
        ensures { result ≡ sum_by group_bytes self.now }
    {
        bytes(&self.groups)
    }

    /// What was ready for a session was sent.
    pub(crate) fn send(&mut self, session: u64)
        ensures { self.new ≡ map (sent_group session) self.old }
    {
        send(self.groups.as_mut_slice(), session);
    }

    /// The index of the first group of which a reply is ready for this session.
    fn ready_index(&self, session: u64) -> Option<usize>
        ensures { result ≡ position (has_ready session) self.now }
    {
        self.groups
            .iter()
            .position(|group| group.has_ready(session))
    }

    /// The reply that is ready for this session.
    pub(crate) fn ready(&self, session: u64) -> Option<Ready>
        ensures gives { (v : Groups) → v.groups ≡ self.now → option_and_then (reply_at v) result ≡ reply_in session v.groups }
        ensures if_any { is_some result ≡ is_some (reply_in session self.now) }
    {
        match self.ready_index(session) {
            Some(index) => self.groups[index].ready(session, index),
            None => None,
        }
    }
}
