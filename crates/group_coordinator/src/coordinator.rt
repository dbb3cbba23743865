//! The coordinator: all groups.

ghost use Rattle.std.specs.Prelude.{◌≡◌, ◌≤◌, List, ℕ, is_some, IfSome, None, Some, true, ◌<◌, ◌+◌, ◌/◌, ◌==◌, ◌||◌, not, nat_lt, get_or, int_lt, slice_set, length, IfNone, IfOk, OnErr, OnOk};
ghost use Rattle.std.specs.List.{AllByRecursion, position, sum_by};
ghost use Rattle.std.specs.Option.{option_and_then, option_or};
ghost use Rattle.group_coordinator.specs.Readiness.{given_at, reply_at, told_at};
ghost use Rattle.group_coordinator.specs.Requests.Reply.{Given, Joined, Refused};
ghost use Rattle.group_coordinator.specs.declared.values.TheConstants.{MOST_BYTES, MOST_GENERATION, LEAST_SESSION, MOST_IDS, MOST_SESSION};
ghost use Rattle.group_coordinator.specs.Coordinators.{all_bytes, asked, at_once, commit_fault, commit_fault_at, committed, gone, group_fault, group_named, member_fault, move_one, no_groups, preparing_fault, ready_for, reply_to, unknown_fault, without_ready, ask_join, ask_sync, fault_if, id_fault, if_room, is_named, join_fault, protocol_fits, release, sync_fault, with_group};
ghost use Rattle.group_coordinator.specs.Due.{IsNoLater, first_turn, is_due};
ghost use Rattle.group_coordinator.specs.Joining.{leave, call, new_member, plainly, rejoin, rejoined, sync, waits, with_last, with_member};
ghost use Rattle.group_coordinator.specs.Requests.Request.{Heartbeat, Leave, Join, Sync};
ghost use Rattle.group_coordinator.specs.declared.values.GroupError.TheVariants.{InconsistentProtocol, InvalidSession};
ghost use Rattle.group_coordinator.specs.declared.values.Wait.TheVariants.{Told};
ghost use Rattle.group_coordinator.specs.Entering.{IsOnly, capped};
ghost use Rattle.group_coordinator.specs.Members.{is_joining};
ghost use Rattle.group_coordinator.specs.Groups.{Group, and_then, group_bytes, prepare, settle};
ghost use Rattle.group_coordinator.specs.Giving.{reply_by};
ghost use Rattle.group_coordinator.specs.Requests.{Part, SyncRequest};
ghost use Rattle.group_coordinator.specs.Times.{clock, expire, next_time};

use crate::groups::GroupList;
use crate::join_reply::JoinReply;
use crate::ledger::Ledger;
use crate::member::GroupMember;
use crate::parts::Parts;
use crate::ready::Ready;
use crate::request::JoinRequest;
use crate::values::{GroupError, MEMBER_BYTES, MOST_BYTES, MOST_IDS, MOST_TIME, Settings};
use std::alloc::{AllocError, Allocator};
use std::marker::Model;

/// The members of all groups: a value that is told times and requests.
#[derive(Drop)]
pub struct Coordinator<A: Allocator + Copy> {
    settings: Settings,
    time: u64,
    ids: u64,
    bytes: u64,
    due: Option<u64>,
    groups: GroupList<A>,
    ledger: Ledger<A>,
}

impl<A: Allocator + Copy> Model for Coordinator<A> {
    ghost use Rattle.std.specs.Prelude.{◌≤◌};
    ghost use Rattle.group_coordinator.specs.declared.values.TheConstants.{MOST_TIME};
    ghost use Rattle.group_coordinator.specs.Coordinators.{Groups};
    ghost use Rattle.group_coordinator.specs.Doing.{HasRoom, pending_in};
    ghost use Rattle.group_coordinator.specs.Due.{ComesFirst};
    ghost use Rattle.group_coordinator.specs.Keeping.{AreApart, AreCounted, AreNumbered, ArePeopled};

    ghost Value = { Groups };

    ghost view = { λ c. record {
      settings = c.settings;
      now = c.time;
      ids = c.ids;
      generations = c.ledger.generations;
      groups = c.groups;
      refused = c.ledger.refusals;
    } };

    ghost invariant = { λ c.
        (c.time ≤ MOST_TIME) × (AreApart c.groups × ArePeopled c.groups)
        × HasRoom c.ledger (pending_in c.groups)
        × AreCounted c.bytes c.groups
        × AreNumbered c.ledger.generations c.groups
        × ComesFirst c.due c.groups };
}

/// So many requests wait at most, and so many may begin to, where so many bytes are counted for all groups: twice as
/// many as there are members at most.
fn refusals_most(bytes: u64) -> usize
    requires bounded { bytes ≤ MOST_BYTES }
    ensures { result ≡ bytes / 256 + bytes / 256 }
{
    let members = bytes / MEMBER_BYTES;
    (members + members) as usize
}

/// Whether there is no room where so many bytes are counted with a new member, or no id is left behind so many.
fn is_full(bytes: u64, ids: u64) -> bool
    ensures { result ≡ (nat_lt MOST_BYTES bytes || nat_lt MOST_IDS (ids + 1)) }
{
    bytes > MOST_BYTES || ids >= MOST_IDS
}

/// Why a commit isn't admitted, of a group without members.
fn simple_fault(generation: i32) -> Option<GroupError>
    ensures { (id : List ℕ) → result ≡ commit_fault_at generation id None }
{
    if generation == -1 {
        None
    } else {
        Some(GroupError::IllegalGeneration)
    }
}

/// Whether something may have changed by now.
fn is_due(due: Option<u64>, now: u64) -> bool
    ensures { result ≡ is_due due now }
{
    match due {
        None => false,
        Some(time) => time <= now,
    }
}

impl<A: Allocator + Copy> Coordinator<A> {
    /// A coordinator without groups, of which no time is known. Takes no memory.
    pub fn new(alloc: A, settings: Settings) -> Coordinator<A>
        ensures { result ≡ no_groups settings }
    {
        Coordinator {
            settings,
            time: 0,
            ids: 0,
            bytes: 0,
            due: None,
            groups: GroupList::new(alloc),
            ledger: Ledger::new(alloc),
        }
    }

    /// The bytes that are counted for all groups.
    pub fn bytes(&self) -> u64
        ensures counts { result ≡ all_bytes self.now }
        ensures bounded { result ≤ MOST_BYTES }
    {
        self.bytes
    }

    /// That no group has a generation above the last one that a response has bits for. This does nothing.
    pub fn know_generations(&self)
        ensures last { self.now.generations ≤ MOST_GENERATION }
        ensures each { AllByRecursion (λ g. g.generation ≤ MOST_GENERATION) self.now.groups }
    {
        let _bytes = self.bytes;
    }

    /// The clock shows this. A clock that went back shows what it did.
    pub fn clock(&mut self, time: u64)
        ensures { self.new ≡ clock time self.old }
    {
        self.time = self.time.max(time.min(MOST_TIME));
    }

    /// Why a commit isn't admitted; none where it is. What has no name, and what comes to a broker that follows another
    /// one, is left to the broker.
    pub fn commit_fault(&self, group: &[u8], generation: i32, member: &[u8]) -> Option<GroupError>
        ensures { result ≡ commit_fault group.now generation member.now self.now }
    {
        if group.is_empty() || self.settings.follows {
            return None;
        }
        match self.groups.index_of(group) {
            None => simple_fault(generation),
            Some(index) => self.groups.group(index).commit_fault(generation, member),
        }
    }

    /// A commit that was admitted was done: its member was heard of.
    pub fn committed(&mut self, group: &[u8], member: &[u8])
        ensures { self.new ≡ committed group.now member.now self.old }
    {
        match self.groups.index_of(group) {
            None => {}
            Some(index) => {
                self.groups.beat(index, member, self.time);
                self.due = self.groups.group(index).due(self.due);
            }
        }
    }

    /// The same, where something may have changed by now.
    fn expire_groups(&mut self)
        ensures { self.new ≡ expire self.old }
    {
        self.groups
            .expire(self.settings, self.time, &mut self.ledger);
        self.groups.drop_empty();
        self.bytes = self.groups.bytes();
        self.due = self.groups.due();
    }

    /// Whoever isn't heard of in time goes, and what may begin begins. Takes no memory.
    pub fn expire(&mut self)
        ensures { self.new ≡ expire self.old }
    {
        if is_due(self.due, self.time) {
            self.expire_groups();
        }
    }

    /// A session ended: nothing is ready for it any more, and nobody waits in it. Takes no memory.
    pub fn gone(&mut self, session: u64)
        ensures { self.new ≡ gone session self.old }
    {
        self.ledger.forget(session);
        self.groups
            .end_session(self.time, session, &mut self.ledger);
        self.groups.drop_empty();
        self.bytes = self.groups.bytes();
        self.due = self.groups.due();
    }

    /// A time before which nothing expires; none where nothing ever does. It may be too early, but not where it has come:
    /// then it is the first time from which on something may change. So who waits for it doesn't spin.
    pub fn next_time(&self) -> Option<u64>
        ensures no_later { IfSome (next_time self.now) (λ time. IsNoLater result time) }
        ensures comes { IfSome result (λ time. time ≤ self.now.now → result ≡ first_turn self.now.groups) }
    {
        if is_due(self.due, self.time) {
            return self.groups.due();
        }
        self.due
    }

    /// What is ready for a session. It stays ready until it was sent. Takes no memory.
    pub fn ready(&self, session: u64) -> Option<Ready>
        ensures gives { option_and_then (reply_at self.now) result ≡ ready_for session self.now }
        ensures if_any { is_some result ≡ is_some (ready_for session self.now) }
    {
        match self.ledger.refusal_for(session) {
            Some(error) => Some(Ready::Refuses(error)),
            None => self.groups.ready(session),
        }
    }

    /// What the member at an index of the group at an index is told, as [`Ready::Tells`] says that it is. Takes no
    /// memory.
    pub fn told(&self, group: usize, member: usize) -> JoinReply<'_, A>
        requires there { is_some (told_at group member self.now) ≡ true }
        ensures { told_at group member self.now ≡ Some (Joined result) }
    {
        self.groups.group(group).told(member)
    }

    /// The part of the member at an index of the group at an index, as [`Ready::Gives`] says that it is given. Takes no
    /// memory.
    pub fn given(&self, group: usize, member: usize) -> &[u8]
        requires there { is_some (given_at group member self.now) ≡ true }
        ensures { given_at group member self.now ≡ Some (Given result.now) }
    {
        self.groups.group(group).part(member)
    }

    /// What was ready for a session was sent: it is ready no longer. Takes no memory.
    pub fn sent(&mut self, session: u64)
        ensures { self.new ≡ without_ready session self.old }
    {
        self.ledger.forget(session);
        self.groups.send(session);
    }

    /// Why any request about a group is refused.
    fn group_fault(&self, group: &[u8]) -> Option<GroupError>
        ensures { result ≡ group_fault self.now.settings group.now }
    {
        if group.is_empty() {
            return Some(GroupError::InvalidGroup);
        }
        if self.settings.follows {
            return Some(GroupError::NotCoordinator);
        }
        None
    }

    /// Why a request isn't one of a member that was told of the group's generation.
    fn told_fault(&self, group: &[u8], generation: i32, member: &[u8]) -> Option<GroupError>
        ensures { result ≡ member_fault generation member.now (group_named group.now self.now) }
    {
        match self.groups.index_of(group) {
            None => Some(GroupError::UnknownMember),
            Some(index) => self
                .groups
                .group(index)
                .generation_fault(generation, member),
        }
    }

    /// Why a request of a member of a generation is refused.
    fn member_fault(&self, group: &[u8], generation: i32, member: &[u8]) -> Option<GroupError>
        ensures { result ≡ option_or (group_fault self.now.settings group.now) (member_fault generation member.now (group_named group.now self.now)) }
    {
        match self.group_fault(group) {
            Some(error) => Some(error),
            None => self.told_fault(group, generation, member),
        }
    }

    /// Whether members join anew.
    fn preparing_fault(&self, group: &[u8]) -> Option<GroupError>
        ensures { result ≡ preparing_fault (group_named group.now self.now) }
    {
        match self.groups.index_of(group) {
            None => None,
            Some(index) => self.groups.group(index).preparing_fault(),
        }
    }

    /// A member was heard of. Gives whether it is told that members join anew.
    fn hear(&mut self, group: &[u8], member: &[u8]) -> Option<GroupError>
        ensures tells { result ≡ preparing_fault (group_named group.now self.old) }
        ensures hears { self.new ≡ committed group.now member.now self.old }
    {
        let fault = self.preparing_fault(group);
        self.committed(group, member);
        fault
    }

    /// A member says that it is there. Gives why it is refused, if it is. Takes no memory.
    pub fn heartbeat(&mut self, group: &[u8], generation: i32, member: &[u8]) -> Option<GroupError>
        ensures { (k : ℕ) (client : List ℕ) → asked k client (Heartbeat group.now generation member.now) self.old ≡ at_once (reply_to result) self.new }
    {
        match self.member_fault(group, generation, member) {
            Some(error) => Some(error),
            None => self.hear(group, member),
        }
    }

    /// Why a request of a member, whatever its generation, is refused.
    fn unknown_fault(&self, group: &[u8], member: &[u8]) -> Option<GroupError>
        ensures { result ≡ unknown_fault member.now (group_named group.now self.now) }
    {
        match self.groups.index_of(group) {
            None => Some(GroupError::UnknownMember),
            Some(index) => self.groups.group(index).unknown_fault(member),
        }
    }

    /// Why a member can't leave.
    fn leave_fault(&self, group: &[u8], member: &[u8]) -> Option<GroupError>
        ensures { result ≡ option_or (group_fault self.now.settings group.now) (unknown_fault member.now (group_named group.now self.now)) }
    {
        match self.group_fault(group) {
            Some(error) => Some(error),
            None => self.unknown_fault(group, member),
        }
    }

    /// A member leaves its group.
    fn leave_group(&mut self, group: &[u8], member: &[u8])
        ensures { self.new ≡ move_one group.now (leave self.old.settings self.old.now member.now) self.old }
    {
        match self.groups.index_of(group) {
            None => {}
            Some(index) => {
                let before = self.groups.group(index).bytes();
                self.groups
                    .leave(index, self.settings, self.time, member, &mut self.ledger);
                let behind = self.groups.group(index).kept_bytes();
                self.due = self.groups.group(index).due(self.due);
                self.groups.drop_if_empty(index);
                self.bytes = self.bytes - before + behind;
            }
        }
    }

    /// A member leaves its group, and the others join anew. Gives why it is refused, if it is. Takes no memory.
    pub fn leave(&mut self, group: &[u8], member: &[u8]) -> Option<GroupError>
        ensures { (k : ℕ) (client : List ℕ) → asked k client (Leave group.now member.now) self.old ≡ at_once (reply_to result) self.new }
    {
        match self.leave_fault(group, member) {
            Some(error) => Some(error),
            None => {
                self.leave_group(group, member);
                None
            }
        }
    }

    /// Why a request for a part is refused, but for want of room.
    fn sync_fault(&self, group: &[u8], generation: i32, member: &[u8]) -> Option<GroupError>
        ensures { (ps : List Part) → result ≡ sync_fault self.now (record { group = group.now; generation = generation; member = member.now; parts = ps }) }
    {
        match self.member_fault(group, generation, member) {
            Some(error) => Some(error),
            None => self.preparing_fault(group),
        }
    }

    /// A member of the group at an index asks for its part.
    fn sync_at(
        &mut self,
        index: usize,
        session: u64,
        member: &[u8],
        parts: &Parts<A>,
    ) -> Result<Option<GroupError>, AllocError>
        requires within { index < length self.old.groups }
        ensures replies { IfOk result (λ error. (name : List ℕ) (q : SyncRequest) → position (is_named name) self.old.groups ≡ Some index → q.member ≡ member.now → q.parts ≡ parts.now
            → if_room (all_bytes (move_one name (sync self.old.now session q) self.old)) self.old (move_one name (sync self.old.now session q) self.old) session ≡ reply_by error session self.new) }
        ensures unchanged_on_error { OnErr result (self.new ≡ self.old) }
    {
        let Some(plan) = self.groups.group(index).plan(self.bytes, member, parts)? else {
            return Ok(Some(GroupError::NotAvailable));
        };
        self.ledger.reserve(refusals_most(self.bytes))?;
        self.bytes = plan.bytes();
        self.groups.sync(
            index,
            self.time,
            session,
            member,
            plan.given(),
            &mut self.ledger,
        );
        self.due = self.groups.group(index).due(self.due);
        Ok(None)
    }

    /// A member of a group asks for its part.
    fn sync_group(
        &mut self,
        session: u64,
        group: &[u8],
        member: &[u8],
        parts: &Parts<A>,
    ) -> Result<Option<GroupError>, AllocError>
        ensures replies { IfOk result (λ error. (q : SyncRequest) → q.group ≡ group.now → q.member ≡ member.now → q.parts ≡ parts.now
            → ask_sync session q self.old None ≡ reply_by error session self.new) }
        ensures unchanged_on_error { OnErr result (self.new ≡ self.old) }
    {
        match self.groups.index_of(group) {
            Some(index) => self.sync_at(index, session, member, parts),
            None => Ok(None),
        }
    }

    /// A member asks for its part; the leader's request has the parts of all. What it is replied is ready for the
    /// session (`ready`), or it waits. Gives why it is refused, if it is.
    ///
    /// # Errors
    ///
    /// Out of memory: nothing has changed.
    pub fn sync(
        &mut self,
        session: u64,
        group: &[u8],
        generation: i32,
        member: &[u8],
        parts: Parts<A>,
    ) -> Result<Option<GroupError>, AllocError>
        ensures syncs { IfOk result (λ error. IfNone error ((client : List ℕ) → asked session client (Sync (record { group = group.now; generation = generation; member = member.now; parts = parts })) self.old ≡ release session self.new)) }
        ensures refuses { IfOk result (λ error. IfSome error (λ e. (client : List ℕ) → asked session client (Sync (record { group = group.now; generation = generation; member = member.now; parts = parts })) self.old ≡ at_once (Refused e) self.new)) }
        ensures unchanged_on_error { OnErr result (self.new ≡ self.old) }
    {
        match self.sync_fault(group, generation, member) {
            Some(error) => Ok(Some(error)),
            None => self.sync_group(session, group, member, &parts),
        }
    }

    /// Whether a request fits its group, as it fits the members that it has, if it has any.
    fn fits(&self, request: &JoinRequest<'_, A>) -> bool
        ensures { result ≡ protocol_fits request.now (group_named request.now.group self.now) }
    {
        match self.groups.index_of(request.group) {
            None => request.may_be_first(),
            Some(index) => self.groups.group(index).protocol_fits(request),
        }
    }

    /// Why the id that a request names is refused.
    fn id_fault(&self, request: &JoinRequest<'_, A>) -> Option<GroupError>
        ensures { result ≡ id_fault request.now.member (group_named request.now.group self.now) }
    {
        if request.member.is_empty() {
            return None;
        }
        self.unknown_fault(request.group, request.member)
    }

    /// Why a request doesn't fit its group, or its member is none of it.
    fn fit_fault(&self, request: &JoinRequest<'_, A>) -> Option<GroupError>
        ensures { result ≡ option_or (fault_if (not (protocol_fits request.now (group_named request.now.group self.now))) InconsistentProtocol) (id_fault request.now.member (group_named request.now.group self.now)) }
    {
        if !self.fits(request) {
            return Some(GroupError::InconsistentProtocol);
        }
        self.id_fault(request)
    }

    /// Why a request to join is refused, whatever its group is named.
    fn session_fault(&self, request: &JoinRequest<'_, A>) -> Option<GroupError>
        ensures { result ≡ option_or (fault_if (int_lt request.now.session LEAST_SESSION || int_lt MOST_SESSION request.now.session) InvalidSession) (option_or (fault_if (not (protocol_fits request.now (group_named request.now.group self.now))) InconsistentProtocol) (id_fault request.now.member (group_named request.now.group self.now))) }
    {
        if request.has_invalid_session() {
            return Some(GroupError::InvalidSession);
        }
        self.fit_fault(request)
    }

    /// Why a request to join is refused, but for want of room.
    fn join_fault(&self, request: &JoinRequest<'_, A>) -> Option<GroupError>
        ensures { result ≡ join_fault self.now request.now }
    {
        match self.group_fault(request.group) {
            Some(error) => Some(error),
            None => self.session_fault(request),
        }
    }

    /// All members of a group join anew, and its next generation begins, if it may.
    fn renew_group(&mut self, group: &[u8])
        ensures { self.new ≡ move_one group.now (and_then (prepare self.old.settings self.old.now) (settle self.old.now)) self.old }
    {
        match self.groups.index_of(group) {
            None => {}
            Some(index) => {
                let before = self.groups.group(index).bytes();
                self.groups
                    .renew(index, self.settings, self.time, &mut self.ledger);
                let behind = self.groups.group(index).kept_bytes();
                self.due = self.groups.group(index).due(self.due);
                self.groups.drop_if_empty(index);
                self.bytes = self.bytes - before + behind;
            }
        }
    }

    /// The bytes that are counted for all groups with a new member of the group of this name, which is a new one of this
    /// kind where there is none; the most that a `u64` can say where they are more.
    fn entered_bytes(&self, group: &[u8], kind: &[u8], member: &GroupMember<A>) -> u64
        ensures { result ≡ capped (all_bytes (move_one group.now (plainly (with_last member.now)) (with_group group.now kind.now self.now))) }
    {
        let bytes = self.bytes.saturating_add(member.capped_bytes());
        match self.groups.index_of(group) {
            Some(_) => bytes,
            None => bytes
                .saturating_add(group.len() as u64)
                .saturating_add(kind.len() as u64),
        }
    }

    /// A new member of the group of this name, which is a new one of this kind where there is none. So many bytes are counted
    /// then.
    fn add_member(
        &mut self,
        group: &[u8],
        kind: &[u8],
        member: GroupMember<A>,
        bytes: u64,
    ) -> Result<(), AllocError>
        requires ids { self.old.ids < MOST_IDS }
        requires joins { is_joining member.wait ≡ true }
        requires counted { bytes ≡ all_bytes (move_one group.now (plainly (with_last member)) (with_group group.now kind.now self.old)) }
        requires bounded { bytes ≤ MOST_BYTES }
        ensures enters { OnOk result (self.new ≡ move_one group.now (plainly (with_last member)) (record (with_group group.now kind.now self.old) { ids = self.old.ids + 1 })) }
        ensures unchanged_on_error { OnErr result (self.new ≡ self.old) }
    {
        self.ledger.reserve(refusals_most(bytes))?;
        self.groups.enter(group, kind, member)?;
        self.ids += 1;
        self.bytes = bytes;
        Ok(())
    }

    /// A new member joins a group.
    fn enter(
        &mut self,
        session: u64,
        group: &[u8],
        kind: &[u8],
        member: GroupMember<A>,
    ) -> Result<Option<GroupError>, AllocError>
        requires joins { is_joining member.wait ≡ true }
        ensures replies { IfOk result (λ error. if_room (all_bytes (move_one group.now (plainly (with_last member)) (with_group group.now kind.now self.old))) self.old
            (move_one group.now (and_then (plainly (with_last member)) (and_then (prepare self.old.settings self.old.now) (settle self.old.now))) (record (with_group group.now kind.now self.old) { ids = self.old.ids + 1 })) session
            ≡ reply_by error session self.new) }
        ensures unchanged_on_error { OnErr result (self.new ≡ self.old) }
    {
        let bytes = self.entered_bytes(group, kind, &member);
        if is_full(bytes, self.ids) {
            return Ok(Some(GroupError::NotAvailable));
        }
        self.add_member(group, kind, member, bytes)?;
        self.renew_group(group);
        Ok(None)
    }

    /// A new member, as a request asks for it.
    fn new_member(
        &self,
        session: u64,
        client: &[u8],
        request: JoinRequest<'_, A>,
    ) -> Result<GroupMember<A>, AllocError>
        ensures { IfOk result (λ m. m ≡ new_member self.now.settings self.now.now session self.now.ids client.now request.entry) }
    {
        GroupMember::new(
            self.groups.alloc(),
            self.settings,
            self.time,
            session,
            self.ids,
            client,
            request,
        )
    }

    /// A member joins that has no id yet.
    fn join_new(
        &mut self,
        session: u64,
        client: &[u8],
        request: JoinRequest<'_, A>,
    ) -> Result<Option<GroupError>, AllocError>
        ensures replies { IfOk result (λ error. (0 == length request.entry.member) ≡ true → ask_join session client.now request.entry self.old None ≡ reply_by error session self.new) }
        ensures unchanged_on_error { OnErr result (self.new ≡ self.old) }
    {
        let (group, kind) = (request.group, request.kind);
        let member = self.new_member(session, client, request)?;
        self.enter(session, group, kind, member)
    }

    /// The bytes that are counted for all groups once the member at these indexes, which is the only one of its group with its
    /// id, has what it asks for; the most that a `u64` can say where they are more.
    fn rejoined_bytes(&self, index: usize, member: usize, request: &JoinRequest<'_, A>) -> u64
        requires within { index < length self.now.groups }
        requires member { (g : Group) → g ≡ get_or self.now.groups index g → (member < length g.members) × IsOnly request.now.member member g.members }
        ensures { (k : ℕ) (g : Group) → g ≡ get_or self.now.groups index g
            → result ≡ capped (sum_by group_bytes (slice_set self.now.groups index (with_member request.now.member (rejoined self.now.now k request.now) g))) }
    {
        self.bytes
            .saturating_sub(self.groups.group(index).protocol_bytes(member))
            .saturating_add(request.protocols.bytes())
    }

    /// A member of the group at an index asks for what it has: it is told of the generation that it is one of.
    fn tell_again(&mut self, index: usize, session: u64, member: &[u8]) -> Result<(), AllocError>
        requires within { index < length self.old.groups }
        ensures tells { OnOk result ((name : List ℕ) → position (is_named name) self.old.groups ≡ Some index
            → self.new ≡ move_one name (and_then (call self.old.now member.now) (plainly (with_member member.now (waits (Told session))))) self.old) }
        ensures unchanged_on_error { OnErr result (self.new ≡ self.old) }
    {
        self.ledger.reserve(refusals_most(self.bytes))?;
        self.groups
            .tell(index, self.time, session, member, &mut self.ledger);
        self.due = self.groups.group(index).due(self.due);
        Ok(())
    }

    /// The member at these indexes, which is the only one of its group with its id, has what it asks for, and waits for the
    /// others. So many bytes are counted then.
    fn call_again(
        &mut self,
        index: usize,
        member: usize,
        session: u64,
        request: JoinRequest<'_, A>,
        bytes: u64,
    ) -> Result<(), AllocError>
        requires within { index < length self.old.groups }
        requires member { (g : Group) → g ≡ get_or self.old.groups index g → (member < length g.members) × IsOnly request.member member g.members }
        requires counted { (g : Group) → g ≡ get_or self.old.groups index g
            → bytes ≡ sum_by group_bytes (slice_set self.old.groups index (with_member request.member (rejoined self.old.now session request) g)) }
        requires bounded { bytes ≤ MOST_BYTES }
        ensures calls { OnOk result ((name : List ℕ) → position (is_named name) self.old.groups ≡ Some index
            → self.new ≡ move_one name (and_then (call self.old.now request.entry.member) (plainly (with_member request.entry.member (rejoined self.old.now session request.entry)))) self.old) }
        ensures unchanged_on_error { OnErr result (self.new ≡ self.old) }
    {
        self.ledger.reserve(refusals_most(self.bytes))?;
        self.groups.rejoin(index, member, self.time, session, request, &mut self.ledger);
        self.bytes = bytes;
        self.due = self.groups.group(index).due(self.due);
        Ok(())
    }

    /// The member at these indexes, which is the only one of its group with its id, joins anew. So many bytes are counted once
    /// it has what it asks for.
    fn join_again(
        &mut self,
        index: usize,
        member: usize,
        session: u64,
        request: JoinRequest<'_, A>,
        bytes: u64,
    ) -> Result<(), AllocError>
        requires within { index < length self.old.groups }
        requires member { (g : Group) → g ≡ get_or self.old.groups index g → (member < length g.members) × IsOnly request.member member g.members }
        requires counted { (g : Group) → g ≡ get_or self.old.groups index g
            → bytes ≡ sum_by group_bytes (slice_set self.old.groups index (with_member request.member (rejoined self.old.now session request) g)) }
        requires bounded { bytes ≤ MOST_BYTES }
        ensures joins { OnOk result (position (is_named request.entry.group) self.old.groups ≡ Some index
            → self.new ≡ move_one request.entry.group (rejoin self.old.settings self.old.now session request.entry) self.old) }
        ensures unchanged_on_error { OnErr result (self.new ≡ self.old) }
    {
        if self.groups.group(index).is_repeat(&request) {
            return self.tell_again(index, session, request.member);
        }
        let group = request.group;
        self.call_again(index, member, session, request, bytes)?;
        self.renew_group(group);
        Ok(())
    }

    /// A member of the group at an index joins anew.
    ///
    /// # Errors
    ///
    /// Out of memory. An id is given once; were it two members', neither could join anew.
    fn rejoin_at(
        &mut self,
        index: usize,
        session: u64,
        request: JoinRequest<'_, A>,
    ) -> Result<Option<GroupError>, AllocError>
        requires within { index < length self.old.groups }
        ensures replies { IfOk result (λ error. position (is_named request.entry.group) self.old.groups ≡ Some index
            → if_room (all_bytes (move_one request.entry.group (plainly (with_member request.entry.member (rejoined self.old.now session request.entry))) self.old)) self.old
            (move_one request.entry.group (rejoin self.old.settings self.old.now session request.entry) self.old) session ≡ reply_by error session self.new) }
        ensures unchanged_on_error { OnErr result (self.new ≡ self.old) }
    {
        let Some(member) = self.groups.group(index).only_index(request.member) else {
            return Err(AllocError);
        };
        let bytes = self.rejoined_bytes(index, member, &request);
        if bytes > MOST_BYTES {
            return Ok(Some(GroupError::NotAvailable));
        }
        self.join_again(index, member, session, request, bytes)?;
        Ok(None)
    }

    /// A member joins anew.
    fn join_named(
        &mut self,
        session: u64,
        request: JoinRequest<'_, A>,
    ) -> Result<Option<GroupError>, AllocError>
        ensures replies { IfOk result (λ error. if_room (all_bytes (move_one request.entry.group (plainly (with_member request.entry.member (rejoined self.old.now session request.entry))) self.old)) self.old
            (move_one request.entry.group (rejoin self.old.settings self.old.now session request.entry) self.old) session ≡ reply_by error session self.new) }
        ensures unchanged_on_error { OnErr result (self.new ≡ self.old) }
    {
        match self.groups.index_of(request.group) {
            Some(index) => self.rejoin_at(index, session, request),
            None => Ok(None),
        }
    }

    /// A member joins its group, or a new one asks for an id.
    fn join_group(
        &mut self,
        session: u64,
        client: &[u8],
        request: JoinRequest<'_, A>,
    ) -> Result<Option<GroupError>, AllocError>
        ensures replies { IfOk result (λ error. ask_join session client.now request.entry self.old None ≡ reply_by error session self.new) }
        ensures unchanged_on_error { OnErr result (self.new ≡ self.old) }
    {
        if request.member.is_empty() {
            self.join_new(session, client, request)
        } else {
            self.join_named(session, request)
        }
    }

    /// A consumer joins a group. What it is replied is ready for the session (`ready`), or it waits. Gives why it is refused,
    /// if it is.
    ///
    /// # Errors
    ///
    /// Out of memory: nothing has changed.
    pub fn join(
        &mut self,
        session: u64,
        client: &[u8],
        request: JoinRequest<'_, A>,
    ) -> Result<Option<GroupError>, AllocError>
        ensures joins { IfOk result (λ error. IfNone error (asked session client.now (Join request.entry) self.old ≡ release session self.new)) }
        ensures refuses { IfOk result (λ error. IfSome error (λ e. asked session client.now (Join request.entry) self.old ≡ at_once (Refused e) self.new)) }
        ensures unchanged_on_error { OnErr result (self.new ≡ self.old) }
    {
        match self.join_fault(&request) {
            Some(error) => Ok(Some(error)),
            None => self.join_group(session, client, request),
        }
    }
}
