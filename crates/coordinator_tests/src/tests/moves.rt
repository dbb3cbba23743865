//! Moves that are made up, one after the other, out of numbers that follow from a first one, and out of what the plain
//! coordinator has: so that groups get on, and everything happens to them.

use crate::tests::asked::{Given, Id, NOTHING, Piece, Protocol, STRANGER, id_of, signed};
use crate::tests::model::Plain;
use crate::tests::pair::SESSIONS;
use crate::tests::plain_group::{Group, Member};
use std::alloc::{AllocError, Allocator};

/// Numbers that look like chance.
#[derive(Drop)]
pub(super) struct Numbers {
    state: u64,
}

/// What happens.
#[derive(Clone, Copy, PartialEq)]
pub(super) enum Kind {
    Join,
    Sync,
    Heartbeat,
    Leave,
    Commit,
    Gone,
    Clock,
    Expire,
    Send,
}

/// Who asks: the session, the client, the group, the member, and the generation that is named.
#[derive(Clone, Copy)]
pub(super) struct Asker {
    pub(super) session: u64,
    pub(super) client: usize,
    pub(super) group: usize,
    pub(super) generation: i32,
    pub(super) member: Option<Id>,
}

/// The bytes of a large piece.
const LARGE: usize = 1_500;

impl Numbers {
    /// Those that follow from this one.
    pub(super) fn new(first: u64) -> Numbers {
        Numbers { state: first }
    }

    /// The next one, below this one.
    pub(super) fn below(&mut self, most: u64) -> u64 {
        self.state = self
            .state
            .wrapping_mul(6_364_136_223_846_793_005)
            .wrapping_add(1_442_695_040_888_963_407);
        match (self.state / 8_589_934_592).checked_rem(most) {
            Some(number) => number,
            None => 0,
        }
    }

    /// Whether one case of so many comes.
    pub(super) fn once_in(&mut self, cases: u64) -> bool {
        self.below(cases) == 0
    }

    /// What happens next.
    pub(super) fn kind(&mut self) -> Kind {
        match self.below(100) {
            0..=17 => Kind::Join,
            18..=39 => Kind::Sync,
            40..=51 => Kind::Heartbeat,
            52..=53 => Kind::Leave,
            54..=63 => Kind::Commit,
            64..=65 => Kind::Gone,
            66..=73 => Kind::Clock,
            74..=80 => Kind::Expire,
            _ => Kind::Send,
        }
    }

    /// So much later.
    pub(super) fn later(&mut self) -> u64 {
        if self.once_in(12) {
            self.below(60_000)
        } else {
            self.below(900)
        }
    }

    /// A piece of the pool: short, unless it is large.
    fn piece(&mut self, large: bool) -> Piece {
        let start = self.below(200) as usize;
        if large {
            return Piece { start, len: LARGE };
        }
        let len = self.below(9) as usize;
        if len == 0 {
            NOTHING
        } else {
            Piece { start, len }
        }
    }

    /// A session timeout.
    pub(super) fn session_timeout(&mut self) -> i32 {
        match self.below(60) {
            0 => 999,
            1 => 1_800_001,
            2 => -1,
            3 => 1_000,
            4 => 1_800_000,
            _ => 2_000i32.saturating_add(signed(self.below(9_000))),
        }
    }

    /// A rebalance timeout.
    pub(super) fn rebalance_timeout(&mut self) -> i32 {
        match self.below(20) {
            0 => -5,
            1 => 0,
            2 => 999,
            _ => 1_000i32.saturating_add(signed(self.below(4_000))),
        }
    }

    /// A kind: nearly always the same.
    pub(super) fn group_kind(&mut self) -> usize {
        if self.once_in(40) {
            self.below(3) as usize
        } else {
            1
        }
    }

    /// Whether something large comes.
    pub(super) fn is_large(&mut self) -> bool {
        self.once_in(8)
    }

    /// The protocols of a new member, or of one that changes them.
    pub(super) fn protocols<A: Allocator + Copy>(
        &mut self,
        alloc: A,
        large: bool,
    ) -> Result<Vec<Protocol, A>, AllocError> {
        let mut protocols = Vec::new(alloc);
        let count = if self.once_in(60) {
            0
        } else {
            self.below(3).saturating_add(1)
        };
        for _protocol in 0..count {
            let name = if self.once_in(3) {
                self.below(4) as usize
            } else {
                0
            };
            let metadata = self.piece(large);
            protocols.push(Protocol { name, metadata })?;
        }
        Ok(protocols)
    }

    /// A session: the member's own, mostly.
    fn session(&mut self, member: Option<Id>) -> u64 {
        match member {
            Some(id) if !self.once_in(10) => id.number % SESSIONS,
            _ => self.below(SESSIONS),
        }
    }

    /// A generation: the group's, mostly.
    fn generation(&mut self, generation: u64) -> i32 {
        let generation = signed(generation);
        match self.below(24) {
            0 => generation.wrapping_sub(1),
            1 => generation.wrapping_add(1),
            2 => -1,
            3 => 0,
            _ => generation,
        }
    }

    /// A member of a group; now and then it is a stranger, or nobody, or one of another group.
    fn member<A: Allocator + Copy>(&mut self, group: &Group<A>, ids: u64) -> Option<Id> {
        match self.below(40) {
            0 => Some(STRANGER),
            1 => None,
            2 => Some(id_of(self.below(4) as usize, self.below(ids))),
            _ => self.one_of(group).map(|member| member.id),
        }
    }

    /// Any member of a group.
    fn one_of<'g, A: Allocator + Copy>(&mut self, group: &'g Group<A>) -> Option<&'g Member<A>> {
        let index = self.below(group.members.len() as u64);
        group.members.get(index as usize)
    }

    /// Who asks.
    pub(super) fn asker<A: Allocator + Copy>(&mut self, plain: &Plain<A>) -> Asker {
        let group = if self.once_in(40) {
            3
        } else {
            self.below(3) as usize
        };
        let client = self.below(4) as usize;
        let (generation, member) = match plain.group(group) {
            Some(group) => (
                self.generation(group.generation),
                self.member(group, plain.ids),
            ),
            None => (
                self.generation(0),
                if self.once_in(2) {
                    None
                } else {
                    Some(STRANGER)
                },
            ),
        };
        Asker {
            session: self.session(member),
            client,
            group,
            generation,
            member,
        }
    }

    /// The parts that a leader gives: for each member of the group one, mostly, and now and then one more.
    pub(super) fn parts<A: Allocator + Copy, B: Allocator + Copy>(
        &mut self,
        alloc: A,
        group: Option<&Group<B>>,
        large: bool,
    ) -> Result<Vec<Given, A>, AllocError> {
        let mut parts = Vec::new(alloc);
        let Some(group) = group else {
            return Ok(parts);
        };
        for member in group.members.iter() {
            for _entry in 0..self.entries() {
                let part = self.piece(large);
                parts.push(Given {
                    id: Some(member.id),
                    part,
                })?;
            }
        }
        if self.once_in(8) {
            let part = self.piece(large);
            let id = if self.once_in(2) {
                None
            } else {
                Some(STRANGER)
            };
            parts.push(Given { id, part })?;
        }
        Ok(parts)
    }

    /// How many entries a member has.
    fn entries(&mut self) -> u64 {
        match self.below(12) {
            0 => 0,
            1 => 2,
            _ => 1,
        }
    }
}
