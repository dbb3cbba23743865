//! What is ready for the sessions of a group.

ghost use Rattle.std.specs.Prelude.{◌≡◌, ◌<◌, ◌≤◌, [], length, map, get_or, is_some, if◌then◌else◌};
ghost use Rattle.std.specs.List.{position};
ghost use Rattle.group_coordinator.specs.Coordinators.{reply_among, sent_group};
ghost use Rattle.group_coordinator.specs.Groups.{is_leader, leader_id, protocol_name, told};
ghost use Rattle.group_coordinator.specs.declared.values.TheConstants.{MOST_GENERATION};
ghost use Rattle.group_coordinator.specs.Members.{Member};
ghost use Rattle.group_coordinator.specs.Readiness.{IsReadyIn, has_ready, is_ready_for};

use crate::group::MemberGroup;
use crate::join_reply::JoinReply;
use crate::member::GroupMember;
use crate::members;
use crate::protocols::protocol_name;
use crate::ready::Ready;
use std::alloc::Allocator;

impl<A: Allocator + Copy> MemberGroup<A> {
    /// What was ready for a session was sent.
    pub(crate) fn send(&mut self, session: u64)
        ensures { self.new ≡ sent_group session self.old }
    {
        members::send(self.members.as_mut_slice(), session);
    }

    /// The name of the protocol that it follows.
    fn protocol_name(&self) -> &[u8]
        ensures { result.now ≡ protocol_name self.now }
    {
        match members::numbered_index(&self.members, self.leader) {
            Some(index) => protocol_name(self.members[index].protocols(), self.protocol),
            None => b"",
        }
    }

    /// The id of its leader.
    fn leader_id(&self) -> &[u8]
        ensures { result.now ≡ leader_id self.now }
    {
        match members::numbered_index(&self.members, self.leader) {
            Some(index) => self.members[index].id(),
            None => b"",
        }
    }

    /// The members that the one at an index is told of: all, if it leads.
    fn listed(&self, index: usize) -> &[GroupMember<A>]
        requires within { index < length self.now.members }
        ensures { (m : Member) → m ≡ get_or self.now.members index m → result.now ≡ (if is_leader self.now m then self.now.members else []) }
    {
        if self.members[index].is_numbered(self.leader) {
            &self.members
        } else {
            &self.members[..0]
        }
    }

    /// What the member at an index is told.
    pub(crate) fn told(&self, index: usize) -> JoinReply<'_, A>
        requires within { index < length self.now.members }
        requires numbered { self.now.generation ≤ MOST_GENERATION }
        ensures { (m : Member) → m ≡ get_or self.now.members index m → result ≡ told self.now m }
    {
        JoinReply::new(
            self.generation,
            self.protocol_name(),
            self.leader_id(),
            self.members[index].id(),
            self.listed(index),
        )
    }

    /// The part of the member at an index.
    pub(crate) fn part(&self, index: usize) -> &[u8]
        requires within { index < length self.now.members }
        ensures { (m : Member) → m ≡ get_or self.now.members index m → result.now ≡ m.part }
    {
        self.members[index].part()
    }

    /// Whether a reply is ready for this session.
    pub(crate) fn has_ready(&self, session: u64) -> bool
        ensures { result ≡ has_ready session self.now }
    {
        self.members
            .iter()
            .any(|member| member.is_ready_for(session))
    }

    /// The index of the first member whose reply is ready for this session.
    fn ready_index(&self, session: u64) -> Option<usize>
        ensures { result ≡ position (is_ready_for session) self.now.members }
    {
        self.members
            .iter()
            .position(|member| member.is_ready_for(session))
    }

    /// The reply that is ready for this session, of the group that stands at an index.
    pub(crate) fn ready(&self, session: u64, index: usize) -> Option<Ready>
        ensures gives { IsReadyIn session index self.now result }
        ensures if_any { is_some result ≡ is_some (reply_among session self.now self.now.members) }
    {
        match self.ready_index(session) {
            Some(member) => self.members[member].ready_as(index, member),
            None => None,
        }
    }
}
