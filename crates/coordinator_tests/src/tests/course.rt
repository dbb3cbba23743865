//! A course of moves that are made up, done by both.

use crate::tests::asked::{Id, Joining, Protocol, START, filling};
use crate::tests::model::{Found, Plain};
use crate::tests::moves::{Asker, Kind, Numbers};
use crate::tests::pair::{self, SESSIONS, admit_alike, look_alike};
use crate::tests::plain_group::Stage;
use crate::tests::replies::say_alike;
use group_coordinator::{Coordinator, Settings};
use std::alloc::{AllocError, Allocator};

/// So many cases are told apart in each row of a tally.
const CASES: usize = 9;

/// So many rows.
const ROWS: usize = 8;

/// How often what came about.
#[derive(Drop)]
pub(super) struct Tally<A: Allocator + Copy> {
    counts: Vec<u64, A>,
}

/// The place of a code among those that are counted.
fn place_of(code: u32) -> usize {
    match code {
        0 => 0,
        15 => 1,
        16 => 2,
        22 => 3,
        23 => 4,
        24 => 5,
        25 => 6,
        26 => 7,
        _ => 8,
    }
}

/// Where the codes of a kind begin.
fn row_of(kind: Kind) -> usize {
    match kind {
        Kind::Join => 0,
        Kind::Sync => 1,
        Kind::Heartbeat => 2,
        Kind::Leave => 3,
        _ => 4,
    }
}

/// The row of what was found ready and sent.
const SENT: usize = 5;

/// The row of the phases in which a group was asked.
const PHASES: usize = 6;

/// The row of what is ready for a session behind its join or its sync.
const ANSWERS: usize = 7;

impl<A: Allocator + Copy> Tally<A> {
    /// Nothing came about.
    pub(super) fn new(alloc: A) -> Result<Tally<A>, AllocError> {
        let mut counts = Vec::new(alloc);
        for _count in 0..ROWS.saturating_mul(CASES) {
            counts.push(0u64)?;
        }
        Ok(Tally { counts })
    }

    /// It came about once more.
    fn count(&mut self, row: usize, place: usize) {
        if let Some(count) = self
            .counts
            .get_mut(row.saturating_mul(CASES).saturating_add(place))
        {
            *count = count.saturating_add(1);
        }
    }

    /// A row of counts. Rows are: the codes of joins, syncs, heartbeats, leaves and commits (0, 15, 16, 22 to 27); what
    /// was ready and sent (nothing; told; given; refused by 25, by 27, otherwise); in which phase a group was asked (none;
    /// preparing; completing; stable); what was ready at once behind a join (nothing; told; given; refused), and behind a
    /// sync.
    pub(super) fn row(&self, row: usize) -> &[u64] {
        let start = row.saturating_mul(CASES);
        match self.counts.get(start..start.saturating_add(CASES)) {
            Some(counts) => counts,
            None => &[],
        }
    }

    /// What was ready was sent.
    fn count_found(&mut self, found: Found) {
        match found {
            Found::Nothing => self.count(SENT, 0),
            Found::Told(_, _) => self.count(SENT, 1),
            Found::Assigned(_, _) => self.count(SENT, 2),
            Found::Refusal(25) => self.count(SENT, 3),
            Found::Refusal(27) => self.count(SENT, 4),
            Found::Refusal(_) => self.count(SENT, 5),
        }
    }

    /// What came of a join or a sync that wasn't refused.
    fn count_answer(&mut self, kind: Kind, found: Found) {
        let place = match found {
            Found::Nothing => 0,
            Found::Told(_, _) => 1,
            Found::Assigned(_, _) => 2,
            Found::Refusal(_) => 3,
        };
        match kind {
            Kind::Join => self.count(ANSWERS, place),
            Kind::Sync => self.count(ANSWERS, place.saturating_add(4)),
            _ => {}
        }
    }

    /// A group was asked in this phase.
    fn count_stage(&mut self, stage: Option<Stage>) {
        match stage {
            None => self.count(PHASES, 0),
            Some(Stage::Preparing(_)) => self.count(PHASES, 1),
            Some(Stage::Completing(_)) => self.count(PHASES, 2),
            Some(Stage::Stable) => self.count(PHASES, 3),
        }
    }
}

/// Both, with what moves are made of, and the session that asked last.
#[derive(Drop)]
pub(super) struct Course<'p, A: Allocator + Copy> {
    alloc: A,
    pool: &'p [u8],
    real: Coordinator<A>,
    plain: Plain<A>,
    numbers: Numbers,
    session: u64,
    pub(super) tally: Tally<A>,
}

impl<'p, A: Allocator + Copy> Course<'p, A> {
    /// No groups.
    pub(super) fn new(
        alloc: A,
        pool: &'p [u8],
        first: u64,
        delay: u32,
        follows: bool,
    ) -> Result<Course<'p, A>, AllocError> {
        let settings = Settings {
            start: START,
            join_delay: delay,
            follows,
        };
        Ok(Course {
            alloc,
            pool,
            real: Coordinator::new(alloc, settings),
            plain: Plain::new(alloc, delay, follows),
            numbers: Numbers::new(first),
            session: 0,
            tally: Tally::new(alloc)?,
        })
    }

    /// A member of a group that nobody else asks about leaves little room: it joins, is told, and has its part.
    pub(super) fn fill(&mut self) -> Result<bool, AllocError> {
        let protocols = filling(self.alloc)?;
        let asked = Joining {
            group: 4,
            session: 1_800_000,
            rebalance: 1_000,
            member: None,
            kind: 1,
            protocols: &protocols,
        };
        let session = SESSIONS - 1;
        let real = pair::join(&mut self.real, self.alloc, self.pool, session, 0, &asked)?;
        let plain = self.plain.join(session, 0, &asked)?;
        let joined = real == 0 && plain == 0 && self.send(session)?;
        let id = Some(Id {
            client: 0,
            number: 0,
        });
        let real = pair::sync(
            &mut self.real,
            self.alloc,
            self.pool,
            session,
            4,
            1,
            id,
            &[],
        )?;
        let plain = self.plain.sync(session, 4, 1, id, &[])?;
        let synced = real == 0 && plain == 0 && self.send(session)?;
        Ok(joined && synced && look_alike(&self.real, &self.plain))
    }

    /// The protocols that a join names: those of the member, mostly.
    fn protocols(&mut self, asker: Asker) -> Result<Vec<Protocol, A>, AllocError> {
        let large = self.numbers.is_large();
        let changes = large || self.numbers.once_in(6);
        if let (Some(group), Some(id), false) = (
            self.plain.group(asker.group),
            asker.member,
            changes,
        ) {
            if let Some(member) = group.members.iter().find(|member| member.id == id) {
                return member.protocols.as_slice().to_vec(self.alloc);
            }
        }
        self.numbers.protocols(self.alloc, large)
    }

    /// A join.
    fn join(&mut self, asker: Asker) -> Result<(u32, u32), AllocError> {
        let protocols = self.protocols(asker)?;
        let full = match self.plain.group(asker.group) {
            Some(group) => group.members.len() >= 5,
            None => false,
        };
        let is_new = asker.member.is_none() || (!full && self.numbers.once_in(3));
        let asked = Joining {
            group: asker.group,
            session: self.numbers.session_timeout(),
            rebalance: self.numbers.rebalance_timeout(),
            member: if is_new { None } else { asker.member },
            kind: self.numbers.group_kind(),
            protocols: &protocols,
        };
        let session = if is_new {
            self.plain.ids % SESSIONS
        } else {
            asker.session
        };
        self.session = session;
        let real = pair::join(
            &mut self.real,
            self.alloc,
            self.pool,
            session,
            asker.client,
            &asked,
        )?;
        let plain = self.plain.join(session, asker.client, &asked)?;
        Ok((real, plain))
    }

    /// A sync.
    fn sync(&mut self, asker: Asker) -> Result<(u32, u32), AllocError> {
        let large = self.numbers.is_large();
        let parts = self
            .numbers
            .parts(self.alloc, self.plain.group(asker.group), large)?;
        let real = pair::sync(
            &mut self.real,
            self.alloc,
            self.pool,
            asker.session,
            asker.group,
            asker.generation,
            asker.member,
            &parts,
        )?;
        let plain = self.plain.sync(
            asker.session,
            asker.group,
            asker.generation,
            asker.member,
            &parts,
        )?;
        Ok((real, plain))
    }

    /// A commit, which is done where nothing refuses it.
    fn commit(&mut self, asker: Asker) -> Result<(u32, u32), AllocError> {
        let real = pair::commit(
            &mut self.real,
            self.alloc,
            asker.group,
            asker.generation,
            asker.member,
        )?;
        let plain = self
            .plain
            .commit_code(asker.group, asker.generation, asker.member);
        if plain == 0 {
            self.plain.committed(asker.group, asker.member);
        }
        Ok((real, plain))
    }

    /// A request, and its codes by both.
    fn ask(&mut self, kind: Kind, asker: Asker) -> Result<(u32, u32), AllocError> {
        match kind {
            Kind::Join => self.join(asker),
            Kind::Sync => self.sync(asker),
            Kind::Heartbeat => {
                let real = pair::heartbeat(
                    &mut self.real,
                    self.alloc,
                    asker.group,
                    asker.generation,
                    asker.member,
                )?;
                Ok((
                    real,
                    self.plain
                        .heartbeat(asker.group, asker.generation, asker.member),
                ))
            }
            Kind::Leave => {
                let real = pair::leave(&mut self.real, self.alloc, asker.group, asker.member)?;
                Ok((real, self.plain.leave(asker.group, asker.member)?))
            }
            _ => self.commit(asker),
        }
    }

    /// What is ready for a session is sent. Whether both say the same.
    fn send(&mut self, session: u64) -> Result<bool, AllocError> {
        let found = self.plain.found(session);
        self.tally.count_found(found);
        let same = pair::found(&self.real, session) == found
            && say_alike(&self.real, &self.plain, self.alloc, self.pool, session)?;
        self.real.sent(session);
        self.plain.sent(session);
        Ok(same)
    }

    /// Whoever isn't heard of goes. Whether the time that comes next is known then, if it had come.
    fn expire(&mut self) -> Result<bool, AllocError> {
        let due = match self.real.next_time() {
            Some(time) => time <= self.plain.beside.now,
            None => false,
        };
        self.real.expire();
        self.plain.expire()?;
        Ok(!due || self.real.next_time() == self.plain.next_time())
    }

    /// Whatever else may happen. Whether both have the same.
    fn happen(&mut self, kind: Kind) -> Result<bool, AllocError> {
        let session = self.numbers.below(SESSIONS);
        match kind {
            Kind::Gone => {
                self.real.gone(session);
                self.plain.gone(session)?;
            }
            Kind::Clock => {
                let time = self.plain.beside.now.saturating_add(self.numbers.later());
                self.real.clock(time);
                self.plain.clock(time);
            }
            Kind::Expire => return self.expire(),
            _ => {
                for session in 0..SESSIONS {
                    if !self.send(session)? {
                        return Ok(false);
                    }
                }
            }
        }
        Ok(true)
    }

    /// One move. Whether both did the same, and look alike behind it.
    pub(super) fn step(&mut self) -> Result<bool, AllocError> {
        let kind = self.numbers.kind();
        let same = match kind {
            Kind::Join | Kind::Sync | Kind::Heartbeat | Kind::Leave | Kind::Commit => {
                let asker = self.numbers.asker(&self.plain);
                let stage = match self.plain.group(asker.group) {
                    Some(group) => Some(group.stage),
                    None => None,
                };
                self.tally.count_stage(stage);
                self.session = asker.session;
                let (real, plain) = self.ask(kind, asker)?;
                self.tally.count(row_of(kind), place_of(plain));
                if plain == 0 {
                    self.tally
                        .count_answer(kind, self.plain.found(self.session));
                }
                real == plain
            }
            _ => self.happen(kind)?,
        };
        Ok(same && look_alike(&self.real, &self.plain))
    }

    /// So many moves. The number of the first one by which both differ, if any.
    pub(super) fn differ(&mut self, moves: u64) -> Result<Option<u64>, AllocError> {
        for number in 0..moves {
            if !self.step()? {
                return Ok(Some(number));
            }
            if number % 16 == 0 && !admit_alike(&self.real, &self.plain, self.alloc)? {
                return Ok(Some(number));
            }
        }
        Ok(None)
    }
}
