//! What is kept beside the groups: how many generations there were, and the refusals that are ready.

ghost use Rattle.std.specs.Prelude.{◌≡◌, ◌<◌, ◌≤◌, ◌+◌, ◌∷◌, [], not, length, OnOk};
ghost use Rattle.std.specs.List.{filter, find, position};
ghost use Rattle.std.specs.Option.{option_map};
ghost use Rattle.group_coordinator.specs.Coordinators.{is_for};
ghost use Rattle.group_coordinator.specs.declared.values.TheConstants.{MOST_GENERATION};
ghost use Rattle.group_coordinator.specs.Doing.{HasRoom, numbering, pending, refusing};
ghost use Rattle.group_coordinator.specs.Members.{refusal_of};

use crate::values::{GroupError, Refusal, Wait};
use std::alloc::{AllocError, Allocator};
use std::marker::Model;

/// How many generations there were, and refusals, with room for more, so that a refusal takes no memory.
#[derive(Drop)]
pub(crate) struct Ledger<A: Allocator + Copy> {
    generations: u64,
    refusals: Vec<Refusal, A>,
}

impl<A: Allocator + Copy> Model for Ledger<A> {
    ghost use Rattle.std.specs.Vec.{vec_capacity};
    ghost use Rattle.group_coordinator.specs.Doing.{Noted};

    ghost Value = { Noted };

    ghost view = { λ l. record {
      generations = l.generations;
      refusals = l.refusals.items;
      capacity = vec_capacity l.refusals;
    } };
}

/// The index of the first refusal for this session.
fn refusal_index(refusals: &[Refusal], session: u64) -> Option<usize>
    ensures { result ≡ position (is_for session) refusals.now }
{
    refusals
        .iter()
        .position(|refusal| refusal.session == session)
}

impl<A: Allocator + Copy> Ledger<A> {
    /// Nothing, and no room. Takes no memory.
    pub(crate) fn new(alloc: A) -> Ledger<A>
        ensures none { result.refusals ≡ [] }
        ensures first { result.generations ≡ 0 }
    {
        Ledger {
            generations: 0,
            refusals: Vec::new(alloc),
        }
    }

    /// How many generations there were.
    pub(crate) fn generations(&self) -> u64
        ensures { result ≡ self.now.generations }
    {
        self.generations
    }

    /// The number of the next generation.
    pub(crate) fn next_generation(&mut self) -> u64
        requires below { self.old.generations < MOST_GENERATION }
        ensures number { result ≡ self.old.generations + 1 }
        ensures counts { self.new ≡ numbering self.old (self.old.generations + 1) }
    {
        self.generations += 1;
        self.generations
    }

    /// One refusal more, for which there is room.
    fn push(&mut self, session: u64, error: GroupError)
        requires room { length self.old.refusals < self.old.capacity }
        ensures { self.new ≡ refusing self.old (record { session = session; error = error } ∷ []) }
    {
        self.refusals.push_reserved(Refusal { session, error });
    }

    /// Takes room for so many refusals more.
    ///
    /// # Errors
    ///
    /// Out of memory: there is as much room as before.
    pub(crate) fn reserve(&mut self, more: usize) -> Result<(), AllocError>
        ensures reserves { OnOk result (HasRoom self.new more) }
        ensures keeps { self.old.capacity ≤ self.new.capacity }
        ensures unchanged { self.new ≡ record self.old { capacity = self.new.capacity } }
    {
        self.refusals.reserve(more)
    }

    /// What waits is refused, if anything does.
    pub(crate) fn refuse(&mut self, wait: Wait, error: GroupError)
        requires room { HasRoom self.old (pending wait) }
        ensures { self.new ≡ refusing self.old (refusal_of error wait) }
    {
        match wait {
            Wait::No => {}
            Wait::Joins(session)
            | Wait::Syncs(session)
            | Wait::Told(session)
            | Wait::Assigned(session) => self.push(session, error),
        }
    }

    /// Nothing is ready for this session any more.
    pub(crate) fn forget(&mut self, session: u64)
        ensures { self.new ≡ record self.old { refusals = filter (λ r. not (is_for session r)) self.old.refusals } }
    {
        self.refusals.retain(|refusal| refusal.session != session);
    }

    /// Why the request that waited in this session is refused, if it is.
    pub(crate) fn refusal_for(&self, session: u64) -> Option<GroupError>
        ensures { result ≡ option_map (λ r. r.error) (find (is_for session) self.now.refusals) }
    {
        match refusal_index(&self.refusals, session) {
            Some(index) => Some(self.refusals[index].error),
            None => None,
        }
    }
}
