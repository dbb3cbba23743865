//! A group.

ghost use Rattle.std.specs.Prelude.{◌≡◌, ◌<◌, ◌≤◌, ◌+◌, ◌==◌, ◌∷◌, [], not, pos, length, map, get_or, is_some, Some, if◌then◌else◌, ◌&&◌, ◌||◌, List, ℕ, IfOk, IfSome, OnOk, OnErr};
ghost use Rattle.std.specs.List.{filter, list_any, position, sum_by};
ghost use Rattle.std.specs.Ordering.{int_eq};
ghost use Rattle.std.specs.Str.{bytes_eq};
ghost use Rattle.group_coordinator.specs.Coordinators.{commit_fault_at, completing_fault, generation_fault, is_named, kept, member_of, preparing_fault, protocol_fits, reply_among, sent_group, unknown_fault};
ghost use Rattle.group_coordinator.specs.Doing.{Does, HasRoom, chooses, pending_of, refusing};
ghost use Rattle.group_coordinator.specs.Due.{may_begin, turning_times};
ghost use Rattle.group_coordinator.specs.Groups.{and_then, begin_generation, begun_member, common_protocol, complete, drop_those, group_bytes, is_complete, is_completing, is_leader, is_preparing, is_stable, joining_time, leader_id, longest, next_leader, prepare, protocol_name, settle, told, unsynced, new_group};
ghost use Rattle.group_coordinator.specs.declared.values.Phase.TheVariants.{Completing, Preparing, Stable};
ghost use Rattle.group_coordinator.specs.declared.values.TheConstants.{MOST_BYTES, MOST_GENERATION, MOST_TIME};
ghost use Rattle.group_coordinator.specs.Joining.{end_session, leave, with_member, without_session, assigned, call, called, is_led_by, is_repeat, plainly, rejoined, repeats, sync, waits, with_last};
ghost use Rattle.group_coordinator.specs.Members.{Member, beat, has_id, is_in, refusals_of, is_common, protocol_bytes};
ghost use Rattle.group_coordinator.specs.Entering.{IsOnly, capped};
ghost use Rattle.group_coordinator.specs.declared.values.Wait.TheVariants.{Told};
ghost use Rattle.group_coordinator.specs.Giving.{Asks, DoesStaying, gives, part_lengths, parts_by, parts_for, plan_by, plan_of, sync_wait};
ghost use Rattle.group_coordinator.specs.declared.values.GroupError.TheVariants.{Rebalancing};
ghost use Rattle.group_coordinator.specs.Least.{earliest};
ghost use Rattle.group_coordinator.specs.Requests.{Part, SyncRequest};
ghost use Rattle.group_coordinator.specs.Readiness.{IsReadyIn, has_ready, is_ready_for};
ghost use Rattle.group_coordinator.specs.Times.{expire_group, group_times, is_overdue, phase_times};

mod replies;

use crate::join_reply::JoinReply;
use crate::ledger::Ledger;
use crate::member::{GroupMember, earlier, later, member_index};
use crate::members;
use crate::parts::{self, NewParts, Parts, Plan};
use crate::protocols::protocol_name;
use crate::ready::Ready;
use crate::request::JoinRequest;
use crate::values::{GroupError, MOST_BYTES, MOST_GENERATION, Phase, Settings, Wait};
use crate::who::Who;
use std::alloc::{AllocError, Allocator};
use std::marker::Model;

/// A group: its name and its kind, its generation, what it is about, the number of its leader, the place of the
/// protocol that it follows among the leader's, and its members, by age.
#[derive(Drop)]
pub(crate) struct MemberGroup<A: Allocator + Copy> {
    name: Vec<u8, A>,
    kind: Vec<u8, A>,
    generation: u64,
    phase: Phase,
    leader: u64,
    protocol: usize,
    members: Vec<GroupMember<A>, A>,
}

impl<A: Allocator + Copy> Model for MemberGroup<A> {
    ghost use Rattle.group_coordinator.specs.Groups.{Group};

    ghost Value = { Group };

    ghost view = { λ g. record {
      name = g.name.items;
      kind = g.kind.items;
      generation = g.generation;
      phase = g.phase;
      leader = g.leader;
      protocol = g.protocol;
      members = g.members.items;
    } };
}

/// Whether members join.
pub(crate) fn is_preparing(phase: Phase) -> bool
    ensures { result ≡ is_preparing phase }
{
    match phase {
        Phase::Preparing(_) => true,
        _ => false,
    }
}

/// Whether the leader is waited for.
pub(crate) fn is_completing(phase: Phase) -> bool
    ensures { result ≡ is_completing phase }
{
    match phase {
        Phase::Completing(_) => true,
        _ => false,
    }
}

/// Whether the members have their parts.
pub(crate) fn is_stable(phase: Phase) -> bool
    ensures { result ≡ is_stable phase }
{
    match phase {
        Phase::Stable => true,
        _ => false,
    }
}

/// Whether a number of a request is this generation's.
fn is_generation(number: i32, generation: u64) -> bool
    ensures { result ≡ int_eq number (pos generation) }
{
    number >= 0 && u64::from(number.unsigned_abs()) == generation
}

impl<A: Allocator + Copy> MemberGroup<A> {
    /// Its name.
    pub(crate) fn name(&self) -> &[u8]
        ensures { result.now ≡ self.now.name }
    {
        &self.name
    }

    /// Whether it has this name.
    pub(crate) fn is_named(&self, name: &[u8]) -> bool
        ensures { result ≡ is_named name.now self.now }
    {
        self.name.as_slice() == name
    }

    /// Why a request isn't one of a member that was told of this generation.
    #[tactic(auto, using(crate::proofs::Places::fault_none))]
    pub(crate) fn generation_fault(&self, generation: i32, id: &[u8]) -> Option<GroupError>
        ensures { result ≡ generation_fault self.now generation (member_of id.now self.now) }
    {
        match member_index(&self.members, id) {
            None => Some(GroupError::UnknownMember),
            Some(index) => self.told_fault(index, generation),
        }
    }

    /// The same of the member at an index.
    fn told_fault(&self, index: usize, generation: i32) -> Option<GroupError>
        requires within { index < length self.now.members }
        ensures { (m : Member) → m ≡ get_or self.now.members index m → result ≡ generation_fault self.now generation (Some m) }
    {
        if is_generation(generation, self.generation) && self.members[index].is_told() {
            None
        } else {
            Some(GroupError::IllegalGeneration)
        }
    }

    /// A member was heard of.
    pub(crate) fn beat(&mut self, id: &[u8], now: u64)
        requires bounded { now ≤ MOST_TIME }
        ensures { self.new ≡ with_member id.now (beat now) self.old }
    {
        members::beat(self.members.as_mut_slice(), id, now);
    }

    /// Whether members wait for its leader.
    fn completing_fault(&self) -> Option<GroupError>
        ensures { result ≡ completing_fault (Some self.now) }
    {
        if is_completing(self.phase) {
            Some(GroupError::Rebalancing)
        } else {
            None
        }
    }

    /// Why a commit isn't admitted.
    pub(crate) fn commit_fault(&self, generation: i32, id: &[u8]) -> Option<GroupError>
        ensures { result ≡ commit_fault_at generation id.now (Some self.now) }
    {
        match self.generation_fault(generation, id) {
            Some(error) => Some(error),
            None => self.completing_fault(),
        }
    }

    /// What waits is refused, of whoever is meant.
    fn refuse(&self, who: Who, error: GroupError, ledger: &mut Ledger<A>)
        requires room { HasRoom ledger.old (pending_of self.now.members) }
        ensures { ledger.new ≡ refusing ledger.old (refusals_of error (filter (chooses who) self.now.members)) }
    {
        members::refuse_those(&self.members, who, error, ledger);
    }

    /// What waits is refused, of the member with this id.
    fn refuse_named(&self, id: &[u8], error: GroupError, ledger: &mut Ledger<A>)
        requires room { HasRoom ledger.old (pending_of self.now.members) }
        ensures { ledger.new ≡ refusing ledger.old (refusals_of error (filter (has_id id.now) self.now.members)) }
    {
        members::refuse_named(&self.members, id, error, ledger);
    }

    /// Whoever is meant is no member any more.
    fn remove(&mut self, who: Who)
        ensures { self.new ≡ record self.old { members = filter (λ m. not (chooses who m)) self.old.members } }
    {
        members::drop_those(&mut self.members, who);
    }

    /// Whoever has this id is no member any more.
    fn remove_named(&mut self, id: &[u8])
        ensures { self.new ≡ record self.old { members = filter (λ m. not (has_id id.now m)) self.old.members } }
    {
        members::drop_named(&mut self.members, id);
    }

    /// Members join until this time, and nobody waits for the leader.
    fn stop_syncing(&mut self, until: u64, now: u64)
        requires bounded { now ≤ MOST_TIME }
        ensures { self.new ≡ record self.old { phase = Preparing until; members = map (unsynced now) self.old.members } }
    {
        self.phase = Phase::Preparing(until);
        members::stop_syncing(self.members.as_mut_slice(), now);
    }

    /// The members are those of a generation with this number.
    fn take_generation(&mut self, number: u64, now: u64)
        requires bounded { now ≤ MOST_TIME }
        ensures { self.new ≡ record self.old {
          generation = number;
          phase = Completing (now + longest self.old.members);
          leader = next_leader self.old.leader self.old.members;
          protocol = common_protocol (next_leader self.old.leader self.old.members) self.old.members;
          members = map (begun_member now) self.old.members;
        } }
    {
        self.generation = number;
        self.phase = Phase::Completing(later(now, members::longest(&self.members)));
        self.leader = members::next_leader(&self.members, self.leader);
        self.protocol = members::common_protocol(&self.members, self.leader);
        members::begin(self.members.as_mut_slice(), now);
    }

    /// Whoever is meant goes, and what they wait for is refused.
    fn drop_those(&mut self, who: Who, ledger: &mut Ledger<A>)
        requires room { HasRoom ledger.old (pending_of self.old.members) }
        ensures { Does (drop_those (chooses who)) ledger.old ledger.new self.old self.new }
    {
        self.refuse(who, GroupError::UnknownMember, ledger);
        self.remove(who);
    }

    /// The member with this id goes, and what it waits for is refused.
    fn drop_named(&mut self, id: &[u8], ledger: &mut Ledger<A>)
        requires room { HasRoom ledger.old (pending_of self.old.members) }
        ensures { Does (drop_those (has_id id.now)) ledger.old ledger.new self.old self.new }
    {
        self.refuse_named(id, GroupError::UnknownMember, ledger);
        self.remove_named(id);
    }

    /// So long members may join, in milliseconds.
    fn joining_time(&self, settings: Settings) -> u32
        ensures { result ≡ joining_time settings self.now }
    {
        if self.generation == 0 {
            settings.join_delay
        } else {
            members::longest(&self.members)
        }
    }

    /// Members join anew, if they don't already.
    fn prepare(&mut self, settings: Settings, now: u64, ledger: &mut Ledger<A>)
        requires bounded { now ≤ MOST_TIME }
        requires room { HasRoom ledger.old (pending_of self.old.members) }
        ensures { Does (prepare settings now) ledger.old ledger.new self.old self.new }
    {
        if is_preparing(self.phase) {
            return;
        }
        self.refuse(Who::Syncing, GroupError::Rebalancing, ledger);
        self.stop_syncing(later(now, self.joining_time(settings)), now);
    }

    /// The next generation, of all members. They go where no number is left for it.
    fn begin(&mut self, now: u64, ledger: &mut Ledger<A>)
        requires bounded { now ≤ MOST_TIME }
        requires room { HasRoom ledger.old (pending_of self.old.members) }
        ensures { Does (begin_generation now) ledger.old ledger.new self.old self.new }
    {
        if ledger.generations() >= MOST_GENERATION {
            self.drop_those(Who::Everyone, ledger);
            return;
        }
        self.take_generation(ledger.next_generation(), now);
    }

    /// The next generation, of those who joined.
    fn complete(&mut self, now: u64, ledger: &mut Ledger<A>)
        requires bounded { now ≤ MOST_TIME }
        requires room { HasRoom ledger.old (pending_of self.old.members) }
        ensures { Does (complete now) ledger.old ledger.new self.old self.new }
    {
        self.drop_those(Who::Unjoined, ledger);
        if self.is_empty() {
            return;
        }
        self.begin(now, ledger);
    }

    /// Whether the time for joining is over, or all members joined, where it isn't the first generation.
    fn is_complete(&self, now: u64) -> bool
        ensures { result ≡ is_complete now self.now self.now.phase }
    {
        match self.phase {
            Phase::Preparing(time) => {
                time <= now || (self.generation > 0 && members::all_join(&self.members))
            }
            _ => false,
        }
    }

    /// The next generation begins, if it may.
    fn settle(&mut self, now: u64, ledger: &mut Ledger<A>)
        requires bounded { now ≤ MOST_TIME }
        requires room { HasRoom ledger.old (pending_of self.old.members) }
        ensures { Does (settle now) ledger.old ledger.new self.old self.new }
    {
        if !self.is_complete(now) {
            return;
        }
        self.complete(now, ledger);
    }

    /// Members join anew, and the next generation begins, if it may.
    pub(crate) fn renew(&mut self, settings: Settings, now: u64, ledger: &mut Ledger<A>)
        requires bounded { now ≤ MOST_TIME }
        requires room { HasRoom ledger.old (pending_of self.old.members) }
        ensures { Does (and_then (prepare settings now) (settle now)) ledger.old ledger.new self.old self.new }
    {
        self.prepare(settings, now, ledger);
        self.settle(now, ledger);
    }

    /// The member with this id leaves.
    pub(crate) fn leave(&mut self, settings: Settings, now: u64, id: &[u8], ledger: &mut Ledger<A>)
        requires bounded { now ≤ MOST_TIME }
        requires room { HasRoom ledger.old (pending_of self.old.members) }
        ensures { Does (leave settings now id.now) ledger.old ledger.new self.old self.new }
    {
        self.drop_named(id, ledger);
        self.renew(settings, now, ledger);
    }

    /// A group with this first member.
    ///
    /// # Errors
    ///
    /// Out of memory.
    pub(crate) fn new(
        alloc: A,
        name: &[u8],
        kind: &[u8],
        member: GroupMember<A>,
    ) -> Result<MemberGroup<A>, AllocError>
        ensures { IfOk result (λ g. g ≡ with_last member (new_group name.now kind.now)) }
    {
        let mut members = Vec::with_capacity(alloc, 1)?;
        members.push_reserved(member);
        Ok(MemberGroup {
            name: Vec::from_slice(alloc, name)?,
            kind: Vec::from_slice(alloc, kind)?,
            generation: 0,
            phase: Phase::Stable,
            leader: 0,
            protocol: 0,
            members,
        })
    }

    /// A member more, behind the others.
    ///
    /// # Errors
    ///
    /// Out of memory: nothing has changed.
    pub(crate) fn add(&mut self, member: GroupMember<A>) -> Result<(), AllocError>
        ensures adds { OnOk result (self.new ≡ with_last member self.old) }
        ensures unchanged_on_error { OnErr result (self.new ≡ self.old) }
    {
        self.members.reserve(1)?;
        self.members.push_reserved(member);
        Ok(())
    }

    /// Whether a request fits the kind of the group, and has a protocol that the other members know.
    pub(crate) fn protocol_fits(&self, request: &JoinRequest<'_, A>) -> bool
        ensures { result ≡ protocol_fits request.now (Some self.now) }
    {
        self.is_of_kind(request) && self.shares_protocol(request)
    }

    /// Whether a request is of the group's kind.
    fn is_of_kind(&self, request: &JoinRequest<'_, A>) -> bool
        ensures { result ≡ bytes_eq self.now.kind request.now.kind }
    {
        self.kind.as_slice() == request.kind
    }

    /// Whether a request has a protocol that the other members know.
    fn shares_protocol(&self, request: &JoinRequest<'_, A>) -> bool
        ensures { result ≡ list_any (λ p. is_common (filter (λ m. not (has_id request.now.member m)) self.now.members) p.name) request.now.protocols }
    {
        members::have_common_but(&self.members, request.member, request.protocols.list())
    }

    /// Whether its generation stands for this member: a leader that joins a stable group anew wants the parts to be given
    /// anew.
    fn stands_for(&self, member: &GroupMember<A>) -> bool
        ensures { result ≡ (is_completing self.now.phase || is_stable self.now.phase && not (is_leader self.now member.now)) }
    {
        is_completing(self.phase) || is_stable(self.phase) && !member.is_numbered(self.leader)
    }

    /// The bytes that are counted for the protocols of the member at an index; the most that a `u64` can say where they are
    /// more.
    pub(crate) fn protocol_bytes(&self, index: usize) -> u64
        requires within { index < length self.now.members }
        ensures { (m : Member) → m ≡ get_or self.now.members index m → result ≡ capped (sum_by protocol_bytes m.protocols) }
    {
        self.members[index].protocol_bytes()
    }

    /// Whether this member asks for what it has.
    fn repeats(&self, request: &JoinRequest<'_, A>, member: &GroupMember<A>) -> bool
        ensures { result ≡ repeats request.now self.now member.now }
    {
        member.asks_again(request) && self.stands_for(member)
    }

    /// Whether a member asks for what it has.
    pub(crate) fn is_repeat(&self, request: &JoinRequest<'_, A>) -> bool
        ensures { result ≡ is_repeat request.now self.now }
    {
        self.members
            .iter()
            .any(|member| self.repeats(request, member))
    }

    /// The index of the only member with this id.
    pub(crate) fn only_index(&self, id: &[u8]) -> Option<usize>
        ensures { IfSome result (λ i. (i < length self.now.members) × IsOnly id.now i self.now.members) }
    {
        let index = member_index(&self.members, id)?;
        match member_index(&self.members[index + 1..], id) {
            Some(_) => None,
            None => Some(index),
        }
    }

    /// The member at an index, which is the only one with its id, waits for the others, with what it asks for.
    fn put_rejoined(&mut self, index: usize, now: u64, session: u64, request: JoinRequest<'_, A>)
        requires within { index < length self.old.members }
        requires only { IsOnly request.member index self.old.members }
        requires bounded { now ≤ MOST_TIME }
        ensures { self.new ≡ with_member request.entry.member (rejoined now session request.entry) self.old }
    {
        self.members[index].rejoin(now, session, request);
    }

    /// The member at an index, which is the only one with its id, joins anew: who waits for it is refused.
    pub(crate) fn rejoin(
        &mut self,
        index: usize,
        now: u64,
        session: u64,
        request: JoinRequest<'_, A>,
        ledger: &mut Ledger<A>,
    )
        requires within { index < length self.old.members }
        requires only { IsOnly request.member index self.old.members }
        requires bounded { now ≤ MOST_TIME }
        requires room { HasRoom ledger.old (pending_of self.old.members) }
        ensures { DoesStaying (and_then (call now request.entry.member) (plainly (with_member request.entry.member (rejoined now session request.entry)))) ledger.old ledger.new self.old self.new }
    {
        self.refuse_named(request.member, GroupError::Rebalancing, ledger);
        self.put_rejoined(index, now, session, request);
    }

    /// The member with this id is told at once of the generation that it is one of: who waits for it is refused.
    pub(crate) fn tell(&mut self, now: u64, session: u64, id: &[u8], ledger: &mut Ledger<A>)
        requires bounded { now ≤ MOST_TIME }
        requires room { HasRoom ledger.old (pending_of self.old.members) }
        ensures { DoesStaying (and_then (call now id.now) (plainly (with_member id.now (waits (Told session))))) ledger.old ledger.new self.old self.new }
    {
        self.call(now, id, ledger);
        self.wait_for(id, Wait::Told(session));
    }

    /// Whether the time in which the leader is waited for is over.
    fn is_overdue(&self, now: u64) -> bool
        ensures { result ≡ is_overdue now self.now.phase }
    {
        match self.phase {
            Phase::Completing(time) => time <= now,
            _ => false,
        }
    }

    /// Whether a member is meant.
    fn has(&self, who: Who) -> bool
        ensures { result ≡ list_any (chooses who) self.now.members }
    {
        self.members.iter().any(|member| member.is(who))
    }

    /// Whoever is silent goes, and then the others join anew.
    pub(crate) fn expire(&mut self, settings: Settings, now: u64, ledger: &mut Ledger<A>)
        requires bounded { now ≤ MOST_TIME }
        requires room { HasRoom ledger.old (pending_of self.old.members) }
        ensures { Does (expire_group settings now) ledger.old ledger.new self.old self.new }
    {
        let silent = Who::Silent(now, self.is_overdue(now));
        if !self.has(silent) {
            self.settle(now, ledger);
            return;
        }
        self.drop_those(silent, ledger);
        self.renew(settings, now, ledger);
    }

    /// Whether a request of a member waits in this session, or its reply is ready for it.
    fn waits_in(&self, session: u64) -> bool
        ensures { result ≡ list_any (λ m. is_in session m.wait) self.now.members }
    {
        self.members.iter().any(|member| member.is_in(session))
    }

    /// Nobody waits in this session any more, and whoever was never told of a generation goes with it.
    fn stop_waiting(&mut self, now: u64, session: u64)
        requires bounded { now ≤ MOST_TIME }
        ensures { self.new ≡ without_session now session self.old }
    {
        members::go_with(&mut self.members, session);
        members::stop_waiting(self.members.as_mut_slice(), now, session);
    }

    /// A session ended.
    pub(crate) fn end_session(&mut self, now: u64, session: u64, ledger: &mut Ledger<A>)
        requires bounded { now ≤ MOST_TIME }
        requires room { HasRoom ledger.old (pending_of self.old.members) }
        ensures { Does (end_session now session) ledger.old ledger.new self.old self.new }
    {
        if !self.waits_in(session) {
            return;
        }
        self.stop_waiting(now, session);
        self.settle(now, ledger);
    }

    /// A request of the member with this id came: who waits for it is refused.
    fn call(&mut self, now: u64, id: &[u8], ledger: &mut Ledger<A>)
        requires bounded { now ≤ MOST_TIME }
        requires room { HasRoom ledger.old (pending_of self.old.members) }
        ensures refuses { ledger.new ≡ refusing ledger.old (refusals_of Rebalancing (filter (has_id id.now) self.old.members)) }
        ensures calls { self.new ≡ with_member id.now (called now) self.old }
    {
        self.refuse_named(id, GroupError::Rebalancing, ledger);
        members::call(self.members.as_mut_slice(), id, now);
    }

    /// The member with this id waits for this.
    fn wait_for(&mut self, id: &[u8], wait: Wait)
        ensures { self.new ≡ with_member id.now (waits wait) self.old }
    {
        members::wait_for(self.members.as_mut_slice(), id, wait);
    }

    /// What a member that asks for its part waits for.
    fn sync_wait(&self, session: u64) -> Wait
        ensures { result ≡ sync_wait session self.now.phase }
    {
        if is_stable(self.phase) {
            Wait::Assigned(session)
        } else {
            Wait::Syncs(session)
        }
    }

    /// A member asks for its part.
    fn ask_part(&mut self, now: u64, session: u64, id: &[u8], ledger: &mut Ledger<A>)
        requires bounded { now ≤ MOST_TIME }
        requires room { HasRoom ledger.old (pending_of self.old.members) }
        ensures { Asks now session id.now ledger.old ledger.new self.old self.new }
    {
        let wait = self.sync_wait(session);
        self.call(now, id, ledger);
        self.wait_for(id, wait);
    }

    /// Each member has its part. Takes no memory.
    fn give_parts(&mut self, now: u64, given: NewParts<A>)
        requires bounded { now ≤ MOST_TIME }
        ensures gives { (ps : List Part) → given ≡ parts_for ps self.old.members → self.new ≡ record self.old { phase = Stable; members = map (assigned now ps) self.old.members } }
        ensures name { self.new.name ≡ self.old.name }
    {
        self.phase = Phase::Stable;
        parts::give(self.members.as_mut_slice(), now, given);
    }

    /// Whether the member with this id leads.
    fn is_led_by(&self, id: &[u8]) -> bool
        ensures { result ≡ is_led_by id.now self.now }
    {
        let leader = self.leader;
        self.members.iter().any(|member| member.leads(id, leader))
    }

    /// Whether the member with this id, which asks for its part, gives all theirs.
    fn gives(&self, id: &[u8]) -> bool
        ensures { result ≡ gives id.now self.now }
    {
        !is_stable(self.phase) && self.is_led_by(id)
    }

    /// Its members, by age.
    fn members(&self) -> &[GroupMember<A>]
        ensures { result.now ≡ self.now.members }
    {
        &self.members
    }

    /// What these parts come to, where so many bytes are counted for all groups; none where there is no room.
    fn plan_parts(&self, bytes: u64, parts: &Parts<A>) -> Result<Option<Plan<A>>, AllocError>
        requires counted { part_lengths self.now.members ≤ bytes }
        requires bounded { bytes ≤ MOST_BYTES }
        ensures { IfOk result (λ plan. plan ≡ plan_of bytes parts.now self.now) }
    {
        let last = parts.last()?;
        let members = self.members();
        let left = bytes - parts::part_bytes(members);
        let behind = parts::given_bytes(&last, members).saturating_add(left);
        if behind > MOST_BYTES {
            return Ok(None);
        }
        let given = parts::new_parts(&last, parts.alloc(), members)?;
        Ok(Some(Plan::with_parts(behind, given)))
    }

    /// What a request for a part comes to, where so many bytes are counted for all groups; none where there is no room.
    pub(crate) fn plan(
        &self,
        bytes: u64,
        id: &[u8],
        parts: &Parts<A>,
    ) -> Result<Option<Plan<A>>, AllocError>
        requires counted { part_lengths self.now.members ≤ bytes }
        requires bounded { bytes ≤ MOST_BYTES }
        ensures { IfOk result (λ plan. plan ≡ plan_by bytes id.now parts.now self.now) }
    {
        if self.gives(id) {
            self.plan_parts(bytes, parts)
        } else {
            Ok(Some(Plan::without_parts(bytes)))
        }
    }

    /// A member asks for its part, and gives all theirs where it leads. Takes no memory.
    pub(crate) fn sync(
        &mut self,
        now: u64,
        session: u64,
        id: &[u8],
        given: Option<NewParts<A>>,
        ledger: &mut Ledger<A>,
    )
        requires bounded { now ≤ MOST_TIME }
        requires room { HasRoom ledger.old (pending_of self.old.members) }
        ensures syncs { (q : SyncRequest) → q.member ≡ id.now → given ≡ parts_by id.now q.parts self.old → DoesStaying (sync now session q) ledger.old ledger.new self.old self.new }
        ensures name { self.new.name ≡ self.old.name }
    {
        self.ask_part(now, session, id, ledger);
        match given {
            Some(parts) => self.give_parts(now, parts),
            None => {}
        }
    }

    /// Whether it has no members.
    pub(crate) fn is_empty(&self) -> bool
        ensures { result ≡ (0 == length self.now.members) }
    {
        self.members.is_empty()
    }

    /// Whether members join anew.
    pub(crate) fn preparing_fault(&self) -> Option<GroupError>
        ensures { result ≡ preparing_fault (Some self.now) }
    {
        if is_preparing(self.phase) {
            Some(GroupError::Rebalancing)
        } else {
            None
        }
    }

    /// Why a request isn't one of a member.
    pub(crate) fn unknown_fault(&self, id: &[u8]) -> Option<GroupError>
        ensures { result ≡ unknown_fault id.now (Some self.now) }
    {
        match member_index(&self.members, id) {
            None => Some(GroupError::UnknownMember),
            Some(_) => None,
        }
    }

    /// The time at which its phase ends, or the one before if that is earlier.
    fn phase_time(&self, before: Option<u64>) -> Option<u64>
        ensures { result ≡ earliest before (phase_times self.now.phase) }
    {
        match self.phase {
            Phase::Preparing(time) => Some(earlier(before, time)),
            Phase::Completing(time) => Some(earlier(before, time)),
            Phase::Stable => before,
        }
    }

    /// The first time at which something of it may expire, or the one before if that is earlier.
    fn next_time(&self, before: Option<u64>) -> Option<u64>
        ensures { result ≡ earliest before (group_times self.now) }
    {
        members::next_time(&self.members, self.phase_time(before))
    }

    /// The bytes that are counted for it.
    pub(crate) fn bytes(&self) -> u64
        requires counted { group_bytes self.now ≤ MOST_BYTES }
        ensures { result ≡ group_bytes self.now }
    {
        self.name.len() as u64 + self.kind.len() as u64 + members::bytes(&self.members)
    }

    /// The bytes that are counted for it where it is kept.
    pub(crate) fn kept_bytes(&self) -> u64
        requires counted { group_bytes self.now ≤ MOST_BYTES }
        ensures { result ≡ sum_by group_bytes (kept self.now) }
    {
        if self.is_empty() { 0 } else { self.bytes() }
    }

    /// Whether all members joined anew, so that the next generation may begin at once.
    fn may_begin(&self) -> bool
        ensures { result ≡ may_begin self.now self.now.phase }
    {
        is_preparing(self.phase) && self.generation > 0 && members::all_join(&self.members)
    }

    /// Any time, where the next generation may begin at once; else the one before.
    fn begin_time(&self, before: Option<u64>) -> Option<u64>
        ensures { result ≡ earliest before (if may_begin self.now self.now.phase then 0 ∷ [] else []) }
    {
        if self.may_begin() { Some(0) } else { before }
    }

    /// The first time from which on something of it may change, or the one before if that is earlier.
    pub(crate) fn due(&self, before: Option<u64>) -> Option<u64>
        ensures { result ≡ earliest before (turning_times self.now) }
    {
        self.next_time(self.begin_time(before))
    }
}
