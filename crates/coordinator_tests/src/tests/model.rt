//! A plain coordinator, after the definitions alone: lists, walked through from the front.

use crate::tests::asked::{
    Given, Id, Joining, NOTHING, Piece, group_name, id_bytes, id_of, kind_name,
};
use crate::tests::plain_group::{
    Beside, Group, Member, Stage, Waits, bytes_of_protocols, is_ready, is_waiting, last_part,
    session_of,
};
use std::alloc::{AllocError, Allocator};

/// All of it.
#[derive(Drop)]
pub(super) struct Plain<A: Allocator + Copy> {
    alloc: A,
    pub(super) follows: bool,
    pub(super) ids: u64,
    pub(super) groups: Vec<Group<A>, A>,
    pub(super) beside: Beside<A>,
}

/// What is ready for a session: the code of a refusal; or the indexes of a group and of a member in it.
#[derive(Clone, Copy, PartialEq)]
pub(super) enum Found {
    Nothing,
    Refusal(u32),
    Told(usize, usize),
    Assigned(usize, usize),
}

/// The first code that isn't 0.
fn first_code(codes: &[u32]) -> u32 {
    for code in codes.iter() {
        if *code != 0 {
            return *code;
        }
    }
    0
}

/// A code if this is so, else 0.
fn code_if(is: bool, code: u32) -> u32 {
    if is { code } else { 0 }
}

impl<A: Allocator + Copy> Plain<A> {
    /// No groups.
    pub(super) fn new(alloc: A, delay: u32, follows: bool) -> Plain<A> {
        Plain {
            alloc,
            follows,
            ids: 0,
            groups: Vec::new(alloc),
            beside: Beside {
                now: 0,
                delay: u64::from(delay),
                generations: 0,
                refused: Vec::new(alloc),
            },
        }
    }

    /// The group of this name.
    pub(super) fn group(&self, name: usize) -> Option<&Group<A>> {
        self.groups.iter().find(|group| group.name == name)
    }

    /// The bytes that are counted for all groups.
    pub(super) fn bytes(&self) -> u64 {
        let mut bytes = 0u64;
        for group in self.groups.iter() {
            bytes = bytes.saturating_add(group.bytes());
        }
        bytes
    }

    /// 24 or 16, if any request about a group of this name is refused with it.
    fn group_code(&self, name: usize) -> u32 {
        first_code(&[
            code_if(group_name(name).is_empty(), 24),
            code_if(self.follows, 16),
        ])
    }

    /// 25 or 22 of a request of a member of a generation.
    fn member_code(&self, name: usize, generation: i32, id: Option<Id>) -> u32 {
        match self.group(name) {
            None => 25,
            Some(group) => group.generation_code(generation, id),
        }
    }

    /// 25 of a request of a member.
    fn unknown_code(&self, name: usize, id: Option<Id>) -> u32 {
        let is_member = match (self.group(name), id) {
            (Some(group), Some(id)) => group.member(id).is_some(),
            _ => false,
        };
        code_if(!is_member, 25)
    }

    /// 27 where members join.
    fn preparing_code(&self, name: usize) -> u32 {
        code_if(
            self.group(name).is_some_and(|group| group.is_preparing()),
            27,
        )
    }

    /// Groups without members aren't kept.
    fn sweep(&mut self) {
        self.groups.retain(|group| !group.members.is_empty());
    }

    /// The clock shows this.
    pub(super) fn clock(&mut self, time: u64) {
        self.beside.now = self.beside.now.max(time);
    }

    /// A heartbeat, and its code.
    pub(super) fn heartbeat(&mut self, name: usize, generation: i32, id: Option<Id>) -> u32 {
        let code = first_code(&[
            self.group_code(name),
            self.member_code(name, generation, id),
        ]);
        if code != 0 {
            return code;
        }
        self.committed(name, id);
        self.preparing_code(name)
    }

    /// A member was heard of.
    pub(super) fn committed(&mut self, name: usize, id: Option<Id>) {
        for group in self.groups.iter_mut() {
            for member in group.members.iter_mut() {
                if group.name == name && Some(member.id) == id {
                    member.beat(self.beside.now);
                }
            }
        }
    }

    /// The code of a commit.
    pub(super) fn commit_code(&self, name: usize, generation: i32, id: Option<Id>) -> u32 {
        if group_name(name).is_empty() || self.follows {
            return 0;
        }
        match self.group(name) {
            None => code_if(generation != -1, 22),
            Some(group) => first_code(&[
                group.generation_code(generation, id),
                code_if(group.is_completing(), 27),
            ]),
        }
    }

    /// A member leaves, and its code.
    pub(super) fn leave(&mut self, name: usize, id: Option<Id>) -> Result<u32, AllocError> {
        let code = first_code(&[self.group_code(name), self.unknown_code(name, id)]);
        if code != 0 {
            return Ok(code);
        }
        for group in self.groups.iter_mut() {
            if group.name == name {
                for member in group.members.iter_mut() {
                    member.goes = Some(member.id) == id;
                }
                group.drop_marked(&mut self.beside)?;
                group.prepare(&mut self.beside)?;
                group.settle(&mut self.beside)?;
            }
        }
        self.sweep();
        Ok(0)
    }

    /// The code of a request to join, but for want of room.
    fn join_code(&self, asked: &Joining<'_>) -> u32 {
        let fits = match self.group(asked.group) {
            None => !kind_name(asked.kind).is_empty() && !asked.protocols.is_empty(),
            Some(group) => {
                kind_name(group.kind) == kind_name(asked.kind)
                    && asked.protocols.iter().any(|protocol| {
                        group.members.iter().all(|member| Some(member.id) == asked.member
                            || member.knows(protocol.name))
                    })
            }
        };
        let unknown = if asked.member.is_some() {
            self.unknown_code(asked.group, asked.member)
        } else {
            0
        };
        first_code(&[
            self.group_code(asked.group),
            code_if(asked.session < 1_000 || asked.session > 1_800_000, 26),
            code_if(!fits, 23),
            unknown,
        ])
    }

    /// A member as a request to join has it.
    fn joining(
        &self,
        session: u64,
        client: usize,
        asked: &Joining<'_>,
    ) -> Result<Member<A>, AllocError> {
        let id = match asked.member {
            Some(id) => id,
            None => id_of(client, self.ids),
        };
        let mut protocols = Vec::new(self.alloc);
        protocols.extend_from_slice(asked.protocols)?;
        let timeout = asked.session.unsigned_abs() as u64;
        Ok(Member {
            number: id.number,
            id,
            id_len: id_bytes(self.alloc, Some(id))?.len() as u64,
            session: timeout,
            rebalance: asked.rebalance.max(1_000).unsigned_abs() as u64,
            protocols,
            protocol_bytes: bytes_of_protocols(asked.protocols),
            waits: Waits::Joins(session),
            until: self.beside.now.saturating_add(timeout),
            is_told: false,
            part: NOTHING,
            goes: false,
        })
    }

    /// The bytes that are counted with what a join brings.
    fn entered_bytes(&self, asked: &Joining<'_>, member: &Member<A>) -> u64 {
        let before = self.bytes();
        let Some(group) = self.group(asked.group) else {
            return before
                .saturating_add(group_name(asked.group).len() as u64)
                .saturating_add(kind_name(asked.kind).len() as u64)
                .saturating_add(member.bytes());
        };
        match group
            .members
            .iter()
            .find(|other| Some(other.id) == asked.member)
        {
            None => before.saturating_add(member.bytes()),
            Some(old) => before
                .saturating_sub(old.bytes())
                .saturating_add(member.bytes())
                .saturating_add(old.part.len as u64),
        }
    }

    /// A consumer joins, and the code.
    pub(super) fn join(
        &mut self,
        session: u64,
        client: usize,
        asked: &Joining<'_>,
    ) -> Result<u32, AllocError> {
        let code = self.join_code(asked);
        if code != 0 {
            return Ok(code);
        }
        let member = self.joining(session, client, asked)?;
        if self.entered_bytes(asked, &member) > 67_108_864 {
            return Ok(15);
        }
        match asked.member {
            None => self.enter(asked, member)?,
            Some(id) => self.rejoin(session, id, asked, member)?,
        }
        self.sweep();
        Ok(0)
    }

    /// A new member.
    fn enter(&mut self, asked: &Joining<'_>, member: Member<A>) -> Result<(), AllocError> {
        self.ids = self.ids.saturating_add(1);
        if self.group(asked.group).is_none() {
            self.groups.push(Group {
                name: asked.group,
                kind: asked.kind,
                generation: 0,
                stage: Stage::Stable,
                leader: 0,
                protocol: 0,
                members: Vec::new(self.alloc),
            })?;
        }
        for group in self.groups.iter_mut() {
            if group.name == asked.group {
                group.members.push(member)?;
                group.prepare(&mut self.beside)?;
                return group.settle(&mut self.beside);
            }
        }
        Ok(())
    }

    /// A member joins anew, or asks for what it has.
    fn rejoin(
        &mut self,
        session: u64,
        id: Id,
        asked: &Joining<'_>,
        member: Member<A>,
    ) -> Result<(), AllocError> {
        for group in self.groups.iter_mut() {
            if group.name == asked.group {
                let repeats = group.repeats(id, asked.protocols);
                group.call(id, &mut self.beside)?;
                if repeats {
                    group.wait_for(id, Waits::Told(session));
                    return Ok(());
                }
                group.replace(id, member);
                group.prepare(&mut self.beside)?;
                return group.settle(&mut self.beside);
            }
        }
        Ok(())
    }

    /// A member asks for its part, and the code.
    pub(super) fn sync(
        &mut self,
        session: u64,
        name: usize,
        generation: i32,
        id: Option<Id>,
        parts: &[Given],
    ) -> Result<u32, AllocError> {
        let code = first_code(&[
            self.group_code(name),
            self.member_code(name, generation, id),
            self.preparing_code(name),
        ]);
        let Some(id) = id else {
            return Ok(code);
        };
        if code != 0 {
            return Ok(code);
        }
        if self.behind_sync(name, id, parts) > 67_108_864 {
            return Ok(15);
        }
        for group in self.groups.iter_mut() {
            if group.name == name {
                group.call(id, &mut self.beside)?;
                group.sync(session, id, parts, self.beside.now);
            }
        }
        Ok(0)
    }

    /// The bytes that are counted behind a sync.
    fn behind_sync(&self, name: usize, id: Id, parts: &[Given]) -> u64 {
        let mut bytes = self.bytes();
        if let Some(group) = self.group(name) {
            if group.gives(id) {
                for member in group.members.iter() {
                    bytes = bytes.saturating_sub(member.part.len as u64);
                }
                for member in group.members.iter() {
                    bytes = bytes.saturating_add(last_part(parts, member.id).len as u64);
                }
            }
        }
        bytes
    }

    /// Whoever isn't heard of in time goes.
    pub(super) fn expire(&mut self) -> Result<(), AllocError> {
        for group in self.groups.iter_mut() {
            let now = self.beside.now;
            let overdue = match group.stage {
                Stage::Completing(time) => time <= now,
                _ => false,
            };
            let mut any = false;
            for member in group.members.iter_mut() {
                member.goes = !is_waiting(member.waits) && (member.until <= now || overdue);
                any = any || member.goes;
            }
            if any {
                group.drop_marked(&mut self.beside)?;
                group.prepare(&mut self.beside)?;
            }
            group.settle(&mut self.beside)?;
        }
        self.sweep();
        Ok(())
    }

    /// A session ended.
    pub(super) fn gone(&mut self, session: u64) -> Result<(), AllocError> {
        self.beside.forget(session);
        for group in self.groups.iter_mut() {
            if group.leave_session(session, self.beside.now) {
                group.settle(&mut self.beside)?;
            }
        }
        self.sweep();
        Ok(())
    }

    /// What is ready for a session.
    pub(super) fn found(&self, session: u64) -> Found {
        if let Some(refusal) = self
            .beside
            .refused
            .iter()
            .find(|refusal| refusal.0 == session)
        {
            return Found::Refusal(refusal.1);
        }
        let mut at = 0usize;
        for group in self.groups.iter() {
            let mut index = 0usize;
            for member in group.members.iter() {
                if member.waits == Waits::Told(session) {
                    return Found::Told(at, index);
                }
                if member.waits == Waits::Assigned(session) {
                    return Found::Assigned(at, index);
                }
                index = index.saturating_add(1);
            }
            at = at.saturating_add(1);
        }
        Found::Nothing
    }

    /// The group at an index, and the member at an index in it.
    pub(super) fn place(&self, group: usize, member: usize) -> Option<(&Group<A>, &Member<A>)> {
        let group = self.groups.get(group)?;
        Some((group, group.members.get(member)?))
    }

    /// What was ready for a session was sent.
    pub(super) fn sent(&mut self, session: u64) {
        self.beside.forget(session);
        for group in self.groups.iter_mut() {
            for member in group.members.iter_mut() {
                if is_ready(member.waits) && session_of(member.waits) == Some(session) {
                    member.waits = Waits::Nothing;
                }
            }
        }
    }

    /// The time before which nothing expires.
    pub(super) fn next_time(&self) -> Option<u64> {
        let mut least = None;
        for group in self.groups.iter() {
            match group.stage {
                Stage::Preparing(time) | Stage::Completing(time) => least = earlier(least, time),
                Stage::Stable => {}
            }
            for member in group.members.iter() {
                if !is_waiting(member.waits) {
                    least = earlier(least, member.until);
                }
            }
        }
        least
    }
}

/// The earlier of two times.
fn earlier(before: Option<u64>, time: u64) -> Option<u64> {
    match before {
        None => Some(time),
        Some(other) => Some(other.min(time)),
    }
}
