//! What a member is told by which it is one of a generation.

ghost use Rattle.std.specs.Prelude.{◌≡◌, ◌≤◌, ◌<◌, pos, length, map, get_or};
ghost use Rattle.group_coordinator.specs.Groups.{Listed};
ghost use Rattle.group_coordinator.specs.Members.{metadata_of};
ghost use Rattle.group_coordinator.specs.declared.values.TheConstants.{MOST_GENERATION};

use crate::member::GroupMember;
use crate::members;
use std::alloc::Allocator;
use std::marker::Model;

/// What a member is told: the generation, the protocol that is followed, the leader, and who it is itself. The leader
/// is told of all members too. All is borrowed.
#[derive(Drop)]
pub struct JoinReply<'a, A: Allocator + Copy> {
    generation: u64,
    protocol: &'a [u8],
    leader: &'a [u8],
    member: &'a [u8],
    listed: &'a [GroupMember<A>],
}

impl<'a, A: Allocator + Copy> Model for JoinReply<'a, A> {
    ghost use Rattle.std.specs.Prelude.{◌≤◌, map};
    ghost use Rattle.group_coordinator.specs.Groups.{JoinReply};
    ghost use Rattle.group_coordinator.specs.Members.{metadata_of};
    ghost use Rattle.group_coordinator.specs.declared.values.TheConstants.{MOST_GENERATION};

    ghost Value = { JoinReply };

    ghost view = { λ r. record {
      generation = r.generation;
      protocol = r.protocol.now;
      leader = r.leader.now;
      member = r.member.now;
      members = map (λ x. record { id = x.id; metadata = metadata_of r.protocol.now x }) r.listed.now;
    } };

    ghost invariant = { λ r. r.generation ≤ MOST_GENERATION };
}

impl<'a, A: Allocator + Copy> JoinReply<'a, A> {
    /// What is told of these.
    pub(crate) fn new(
        generation: u64,
        protocol: &'a [u8],
        leader: &'a [u8],
        member: &'a [u8],
        listed: &'a [GroupMember<A>],
    ) -> JoinReply<'a, A>
        requires numbered { generation ≤ MOST_GENERATION }
        ensures { result ≡ record {
          generation = generation;
          protocol = protocol.now;
          leader = leader.now;
          member = member.now;
          members = map (λ x. record { id = x.id; metadata = metadata_of protocol.now x }) listed.now;
        } }
    {
        JoinReply {
            generation,
            protocol,
            leader,
            member,
            listed,
        }
    }

    /// The number of the generation.
    pub fn generation(&self) -> i32
        ensures { result ≡ pos self.now.generation }
    {
        self.generation as i32
    }

    /// The name of the protocol that is followed.
    pub fn protocol(&self) -> &[u8]
        ensures { result.now ≡ self.now.protocol }
    {
        self.protocol
    }

    /// The id of the leader.
    pub fn leader(&self) -> &[u8]
        ensures { result.now ≡ self.now.leader }
    {
        self.leader
    }

    /// The id of the member that is told.
    pub fn member(&self) -> &[u8]
        ensures { result.now ≡ self.now.member }
    {
        self.member
    }

    /// How many members it is told of.
    pub fn count(&self) -> usize
        ensures { result ≡ length self.now.members }
    {
        self.listed.len()
    }

    /// The id of the member at an index, of those that it is told of.
    pub fn listed_id(&self, index: usize) -> &[u8]
        requires within { index < length self.now.members }
        ensures { (x : Listed) → result.now ≡ (get_or self.now.members index x).id }
    {
        members::id_at(self.listed, index)
    }

    /// The metadata of the member at an index, of those that it is told of, for the protocol that is followed.
    pub fn listed_metadata(&self, index: usize) -> &[u8]
        requires within { index < length self.now.members }
        ensures { (x : Listed) → result.now ≡ (get_or self.now.members index x).metadata }
    {
        members::metadata_at(self.listed, index, self.protocol)
    }
}
