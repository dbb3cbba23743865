//! A group, plainly: what may happen to it, after the definitions alone.

use crate::tests::asked::{
    Given, Id, NOTHING, Piece, Protocol, group_name, kind_name, protocol_name, signed,
};
use std::alloc::{AllocError, Allocator};

/// What a member waits for, and in which session.
#[derive(Clone, Copy, PartialEq)]
pub(super) enum Waits {
    Nothing,
    Joins(u64),
    Syncs(u64),
    Told(u64),
    Assigned(u64),
}

/// What a group is about, and when that ends at the latest.
#[derive(Clone, Copy, PartialEq)]
pub(super) enum Stage {
    Preparing(u64),
    Completing(u64),
    Stable,
}

/// A member.
#[derive(Drop)]
pub(super) struct Member<A: Allocator + Copy> {
    pub(super) number: u64,
    pub(super) id: Id,
    pub(super) id_len: u64,
    pub(super) session: u64,
    pub(super) rebalance: u64,
    pub(super) protocols: Vec<Protocol, A>,
    pub(super) protocol_bytes: u64,
    pub(super) waits: Waits,
    pub(super) until: u64,
    pub(super) is_told: bool,
    pub(super) part: Piece,
    pub(super) goes: bool,
}

/// A group.
#[derive(Drop)]
pub(super) struct Group<A: Allocator + Copy> {
    pub(super) name: usize,
    pub(super) kind: usize,
    pub(super) generation: u64,
    pub(super) stage: Stage,
    pub(super) leader: u64,
    pub(super) protocol: usize,
    pub(super) members: Vec<Member<A>, A>,
}

/// What stands beside the groups.
#[derive(Drop)]
pub(super) struct Beside<A: Allocator + Copy> {
    pub(super) now: u64,
    pub(super) delay: u64,
    pub(super) generations: u64,
    pub(super) refused: Vec<(u64, u32), A>,
}

/// The session in which it waits, or for which its reply is ready.
pub(super) fn session_of(waits: Waits) -> Option<u64> {
    match waits {
        Waits::Nothing => None,
        Waits::Joins(session)
        | Waits::Syncs(session)
        | Waits::Told(session)
        | Waits::Assigned(session) => Some(session),
    }
}

/// Whether it waits for others.
pub(super) fn is_waiting(waits: Waits) -> bool {
    match waits {
        Waits::Joins(_) | Waits::Syncs(_) => true,
        _ => false,
    }
}

/// Whether its reply is ready.
pub(super) fn is_ready(waits: Waits) -> bool {
    match waits {
        Waits::Told(_) | Waits::Assigned(_) => true,
        _ => false,
    }
}

impl<A: Allocator + Copy> Beside<A> {
    /// Whoever waits, for whatever, is refused.
    pub(super) fn refuse(&mut self, waits: Waits, code: u32) -> Result<(), AllocError> {
        if let Some(session) = session_of(waits) {
            self.refused.push((session, code))?;
        }
        Ok(())
    }

    /// Nothing is refused in this session any more.
    pub(super) fn forget(&mut self, session: u64) {
        self.refused.retain(|refusal| refusal.0 != session);
    }
}

impl<A: Allocator + Copy> Member<A> {
    /// It was heard of.
    pub(super) fn beat(&mut self, now: u64) {
        self.until = now.saturating_add(self.session);
    }

    /// Whether it knows a protocol.
    pub(super) fn knows(&self, name: usize) -> bool {
        self.protocols.iter().any(|protocol| protocol_name(protocol.name) == protocol_name(name))
    }

    /// Its metadata for a protocol of this name.
    pub(super) fn metadata(&self, name: &[u8]) -> Piece {
        let first = self
            .protocols
            .iter()
            .find(|protocol| protocol_name(protocol.name) == name);
        match first {
            Some(protocol) => protocol.metadata,
            None => NOTHING,
        }
    }

    /// Whether it joins.
    pub(super) fn joins(&self) -> bool {
        match self.waits {
            Waits::Joins(_) => true,
            _ => false,
        }
    }

    /// Whether it has just these protocols.
    pub(super) fn has(&self, protocols: &[Protocol]) -> bool {
        self.protocols.as_slice() == protocols
    }

    /// The bytes that are counted for it.
    pub(super) fn bytes(&self) -> u64 {
        256u64
            .saturating_add(self.id_len)
            .saturating_add(self.part.len as u64)
            .saturating_add(self.protocol_bytes)
    }
}

/// The bytes that are counted for protocols.
pub(super) fn bytes_of_protocols(protocols: &[Protocol]) -> u64 {
    let mut bytes = 0u64;
    for protocol in protocols.iter() {
        bytes = bytes
            .saturating_add(192)
            .saturating_add(protocol_name(protocol.name).len() as u64)
            .saturating_add(protocol.metadata.len as u64);
    }
    bytes
}

impl<A: Allocator + Copy> Group<A> {
    /// Whether members join.
    pub(super) fn is_preparing(&self) -> bool {
        match self.stage {
            Stage::Preparing(_) => true,
            _ => false,
        }
    }

    /// Whether the leader is waited for.
    pub(super) fn is_completing(&self) -> bool {
        match self.stage {
            Stage::Completing(_) => true,
            _ => false,
        }
    }

    /// The member with this id.
    pub(super) fn member(&self, id: Id) -> Option<&Member<A>> {
        self.members.iter().find(|member| member.id == id)
    }

    /// Whether a member leads.
    pub(super) fn is_led_by(&self, member: &Member<A>) -> bool {
        member.number == self.leader
    }

    /// The id of its leader.
    pub(super) fn leader_id(&self) -> Option<Id> {
        match self.members.iter().find(|member| self.is_led_by(member)) {
            Some(leader) => Some(leader.id),
            None => None,
        }
    }

    /// The name of the protocol that it follows.
    pub(super) fn protocol_name(&self) -> &'static [u8] {
        match self.members.iter().find(|member| self.is_led_by(member)) {
            Some(leader) => match leader.protocols.get(self.protocol) {
                Some(protocol) => protocol_name(protocol.name),
                None => b"",
            },
            None => b"",
        }
    }

    /// The longest of its rebalance timeouts.
    pub(super) fn longest(&self) -> u64 {
        let mut longest = 0;
        for member in self.members.iter() {
            longest = longest.max(member.rebalance);
        }
        longest
    }

    /// Whoever is marked goes, and what waits of them is refused.
    pub(super) fn drop_marked(&mut self, beside: &mut Beside<A>) -> Result<(), AllocError> {
        for member in self.members.iter() {
            if member.goes {
                beside.refuse(member.waits, 25)?;
            }
        }
        self.members.retain(|member| !member.goes);
        Ok(())
    }

    /// Members join anew, if they don't already.
    pub(super) fn prepare(&mut self, beside: &mut Beside<A>) -> Result<(), AllocError> {
        if self.is_preparing() {
            return Ok(());
        }
        let time = if self.generation == 0 {
            beside.delay
        } else {
            self.longest()
        };
        for member in self.members.iter_mut() {
            if let Waits::Syncs(_) = member.waits {
                beside.refuse(member.waits, 27)?;
                member.waits = Waits::Nothing;
                member.beat(beside.now);
            }
        }
        self.stage = Stage::Preparing(beside.now.saturating_add(time));
        Ok(())
    }

    /// Who leads: whoever did, if it is a member, else the first.
    pub(super) fn next_leader(&self) -> u64 {
        let leads = self
            .members
            .iter()
            .any(|member| member.number == self.leader);
        match self.members.first() {
            Some(first) if !leads => first.number,
            _ => self.leader,
        }
    }

    /// The index of the first of the leader's protocols that all know; how many there are, if none is.
    pub(super) fn next_protocol(&self) -> usize {
        let Some(leader) = self
            .members
            .iter()
            .find(|member| member.number == self.leader)
        else {
            return 0;
        };
        let mut index = 0usize;
        for protocol in leader.protocols.iter() {
            if self
                .members
                .iter()
                .all(|member| member.knows(protocol.name))
            {
                return index;
            }
            index = index.saturating_add(1);
        }
        index
    }

    /// The next generation begins, of those who joined, if the time for it has come.
    pub(super) fn settle(&mut self, beside: &mut Beside<A>) -> Result<(), AllocError> {
        let Stage::Preparing(time) = self.stage else {
            return Ok(());
        };
        let all = self.members.iter().all(|member| member.joins());
        if time > beside.now && (self.generation == 0 || !all) {
            return Ok(());
        }
        for member in self.members.iter_mut() {
            member.goes = !member.joins();
        }
        self.drop_marked(beside)?;
        if !self.members.is_empty() {
            self.begin(beside);
        }
        Ok(())
    }

    /// The next generation, of all members.
    pub(super) fn begin(&mut self, beside: &mut Beside<A>) {
        beside.generations = beside.generations.saturating_add(1);
        self.generation = beside.generations;
        self.stage = Stage::Completing(beside.now.saturating_add(self.longest()));
        self.leader = self.next_leader();
        self.protocol = self.next_protocol();
        for member in self.members.iter_mut() {
            if let Waits::Joins(session) = member.waits {
                member.waits = Waits::Told(session);
            }
            member.is_told = true;
            member.beat(beside.now);
        }
    }

    /// The member with this id asks something that may wait.
    pub(super) fn call(&mut self, id: Id, beside: &mut Beside<A>) -> Result<(), AllocError> {
        for member in self.members.iter_mut() {
            if member.id == id {
                beside.refuse(member.waits, 27)?;
                member.waits = Waits::Nothing;
                member.beat(beside.now);
            }
        }
        Ok(())
    }

    /// What the member with this id waits for.
    pub(super) fn wait_for(&mut self, id: Id, waits: Waits) {
        for member in self.members.iter_mut() {
            if member.id == id {
                member.waits = waits;
            }
        }
    }

    /// Whether the member with this id asks for nothing new.
    pub(super) fn repeats(&self, id: Id, protocols: &[Protocol]) -> bool {
        let Some(member) = self.member(id) else {
            return false;
        };
        let stands = match self.stage {
            Stage::Preparing(_) => false,
            Stage::Completing(_) => true,
            Stage::Stable => member.number != self.leader,
        };
        stands && member.has(protocols)
    }

    /// Each member gets its part.
    pub(super) fn give(&mut self, parts: &[Given], now: u64) {
        self.stage = Stage::Stable;
        for member in self.members.iter_mut() {
            member.part = last_part(parts, member.id);
            if let Waits::Syncs(session) = member.waits {
                member.waits = Waits::Assigned(session);
                member.beat(now);
            }
        }
    }

    /// The bytes that are counted for it.
    pub(super) fn bytes(&self) -> u64 {
        let mut bytes = (group_name(self.name).len() as u64).saturating_add(
            kind_name(self.kind).len() as u64,
        );
        for member in self.members.iter() {
            bytes = bytes.saturating_add(member.bytes());
        }
        bytes
    }

    /// Why a request of a member of this generation is refused: 25 or 22; 0 if it isn't.
    pub(super) fn generation_code(&self, generation: i32, id: Option<Id>) -> u32 {
        let Some(id) = id else {
            return 25;
        };
        match self.member(id) {
            None => 25,
            Some(member) if member.is_told && generation == signed(self.generation) => 0,
            Some(_) => 22,
        }
    }
}

/// The part of the last entry for an id, or none.
pub(super) fn last_part(parts: &[Given], id: Id) -> Piece {
    let mut last = NOTHING;
    for given in parts.iter() {
        if given.id == Some(id) {
            last = given.part;
        }
    }
    last
}

impl<A: Allocator + Copy> Group<A> {
    /// Whether the member with this id gives all their parts.
    pub(super) fn gives(&self, id: Id) -> bool {
        self.stage != Stage::Stable
            && self
                .members
                .iter()
                .any(|member| member.id == id && member.number == self.leader)
    }

    /// The member with this id waits for its part, or has it.
    pub(super) fn sync(&mut self, session: u64, id: Id, parts: &[Given], now: u64) {
        if self.stage == Stage::Stable {
            self.wait_for(id, Waits::Assigned(session));
            return;
        }
        let gives = self.gives(id);
        self.wait_for(id, Waits::Syncs(session));
        if gives {
            self.give(parts, now);
        }
    }

    /// The member with this id joins anew: it keeps its number, its part, and that it was told.
    pub(super) fn replace(&mut self, id: Id, with: Member<A>) {
        let mut with = with;
        for member in self.members.iter_mut() {
            if member.id == id {
                member.session = with.session;
                member.rebalance = with.rebalance;
                member.waits = with.waits;
                member.until = with.until;
                member.protocol_bytes = with.protocol_bytes;
                std::mem::swap(&mut member.protocols, &mut with.protocols);
            }
        }
    }

    /// Nobody waits in this session any more, and whoever was told of nothing goes with it. Whether anybody did.
    pub(super) fn leave_session(&mut self, session: u64, now: u64) -> bool {
        let mut any = false;
        for member in self.members.iter_mut() {
            member.goes = false;
            if session_of(member.waits) == Some(session) {
                any = true;
                member.goes = is_waiting(member.waits) && !member.is_told;
                if is_waiting(member.waits) {
                    member.beat(now);
                }
                member.waits = Waits::Nothing;
            }
        }
        self.members.retain(|member| !member.goes);
        any
    }
}
