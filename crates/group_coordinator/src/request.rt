//! A request to join.

ghost use Rattle.std.specs.Prelude.{◌≡◌, ◌||◌, None, int_lt};
ghost use Rattle.group_coordinator.specs.Coordinators.{protocol_fits};
ghost use Rattle.group_coordinator.specs.declared.values.TheConstants.{LEAST_SESSION, MOST_SESSION};
ghost use Rattle.group_coordinator.specs.Requests.{rebalance_of, session_of};

use crate::protocols::Protocols;
use crate::values::{LEAST_REBALANCE, LEAST_SESSION, MOST_SESSION};
use std::alloc::Allocator;
use std::marker::Model;

/// A request to be a member of a group. Kafka's documentation, "Protocol Guide", JoinGroup.
#[derive(Drop)]
pub struct JoinRequest<'a, A: Allocator + Copy> {
    /// The group's name.
    pub group: &'a [u8],
    /// So long the member is thought alive if it isn't heard of, in milliseconds. Any value.
    pub session_timeout: i32,
    /// So long the member may take to join anew, in milliseconds. Any value.
    pub rebalance_timeout: i32,
    /// The member's id; empty where it asks for one.
    pub member: &'a [u8],
    /// The group's kind, as "consumer".
    pub kind: &'a [u8],
    /// The ways of dividing partitions that the member knows.
    pub protocols: Protocols<A>,
}

impl<'a, A: Allocator + Copy> Model for JoinRequest<'a, A> {
    ghost use Rattle.group_coordinator.specs.Requests.{JoinRequest};

    ghost Value = { JoinRequest };

    ghost view = { λ q. record {
      group = q.group.now;
      session = q.session_timeout;
      rebalance = q.rebalance_timeout;
      member = q.member.now;
      kind = q.kind.now;
      protocols = q.protocols;
    } };
}

/// Whether a session timeout may not be asked for.
fn is_out_of_range(timeout: i32) -> bool
    ensures { result ≡ (int_lt timeout LEAST_SESSION || int_lt MOST_SESSION timeout) }
{
    timeout < LEAST_SESSION || MOST_SESSION < timeout
}

impl<'a, A: Allocator + Copy> JoinRequest<'a, A> {
    /// Whether its session timeout may not be asked for.
    pub(crate) fn has_invalid_session(&self) -> bool
        ensures { result ≡ (int_lt self.now.session LEAST_SESSION || int_lt MOST_SESSION self.now.session) }
    {
        is_out_of_range(self.session_timeout)
    }

    /// Whether it may be the first one of a group: it has a kind and a protocol.
    pub(crate) fn may_be_first(&self) -> bool
        ensures { result ≡ protocol_fits self.now None }
    {
        !self.kind.is_empty() && !self.protocols.is_empty()
    }

    /// The session timeout that the member gets, in milliseconds.
    pub(crate) fn session(&self) -> u32
        ensures { result ≡ session_of self.now }
    {
        self.session_timeout.unsigned_abs()
    }

    /// The rebalance timeout that the member gets, in milliseconds: one that is too short counts as the shortest.
    pub(crate) fn rebalance(&self) -> u32
        ensures { result ≡ rebalance_of self.now }
    {
        self.rebalance_timeout.max(LEAST_REBALANCE).unsigned_abs()
    }
}
