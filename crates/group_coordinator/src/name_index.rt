//! Which group, and which protocol, has a name.

ghost use Rattle.std.specs.Prelude.{◌≡◌, ◌≤◌, ◌<◌, ◌++◌, ◌∷◌, [], ℕ, List, length, replicate, get_or, slice_set, OnOk};
ghost use Rattle.std.specs.List.{position};
ghost use Rattle.group_coordinator.specs.Coordinators.{is_named};
ghost use Rattle.group_coordinator.specs.Finding.{Finds, HasPlace, bucket_of, hash_of, names_of};
ghost use Rattle.group_coordinator.specs.Keeping.{AreApart};

mod known;

use crate::group::MemberGroup;
use std::alloc::{AllocError, Allocator};
use std::hash::{FoldHasher, Hasher};
use std::marker::Model;

/// Names lie in buckets by their hash. For each bucket, one more than the index of its last name, or 0; and for each
/// name, the same of those before it in its bucket.
#[derive(Drop)]
pub(crate) struct NameIndex<A: Allocator + Copy> {
    last: Vec<usize, A>,
    before: Vec<usize, A>,
}

impl<A: Allocator + Copy> Model for NameIndex<A> {
    ghost use Rattle.std.specs.Vec.{vec_capacity};
    ghost use Rattle.group_coordinator.specs.Finding.{Chains};

    ghost Value = { Chains };

    ghost view = { λ x. record { last = x.last.items; before = x.before.items; capacity = vec_capacity x.before } };
}

/// The hash of a name: a function of its bytes alone.
#[tactic(auto, unfolding(crate::specs::Finding::hash_of))]
fn hash_of(name: &[u8]) -> u64
    ensures { result ≡ hash_of name.now }
{
    let mut hasher = FoldHasher::default();
    hasher.write(name);
    hasher.finish()
}

/// Which of so many buckets a name lies in.
fn bucket_of(count: usize, name: &[u8]) -> usize
    requires some { 0 < count }
    ensures bucket { result ≡ bucket_of count name.now }
    ensures within { result < count }
{
    (hash_of(name) / 4_294_967_296) as usize % count
}

impl<A: Allocator + Copy> NameIndex<A> {
    /// Of no names. Takes no memory.
    pub(crate) fn new(alloc: A) -> NameIndex<A>
        ensures { Finds result [] }
    {
        NameIndex {
            last: Vec::new(alloc),
            before: Vec::new(alloc),
        }
    }

    /// One name more, for which there is room.
    pub(crate) fn push(&mut self, name: &[u8])
        requires room { HasPlace self.old }
        ensures finds { (names : List (List ℕ)) → Finds self.old names → Finds self.new (names ++ name.now ∷ []) }
        ensures buckets { length self.new.last ≡ length self.old.last }
        ensures capacity { self.new.capacity ≡ self.old.capacity }
    {
        let bucket = bucket_of(self.last.len(), name);
        self.before.push_reserved(self.last[bucket]);
        self.last[bucket] = self.before.len();
    }

    /// No names any more. Takes no memory.
    fn clear(&mut self)
        ensures { self.new ≡ record self.old { last = replicate (length self.old.last) 0; before = [] } }
    {
        self.last.fill(0);
        self.before.clear();
    }

    /// The names of these groups.
    fn rebuild(&mut self, groups: &[MemberGroup<A>])
        requires buckets { length groups.now ≤ length self.old.last }
        requires room { length groups.now ≤ self.old.capacity }
        ensures finds { Finds self.new (names_of groups.now) }
        ensures buckets { length self.new.last ≡ length self.old.last }
        ensures capacity { self.new.capacity ≡ self.old.capacity }
    {
        self.clear();
        for group in groups.iter() {
            self.push(group.name());
        }
    }

    /// Some groups went, if there are fewer than names: their names are those of these groups.
    pub(crate) fn refresh(&mut self, groups: &[MemberGroup<A>])
        requires known { (names : List (List ℕ)) × Finds self.old names × (length groups.now ≤ length names) × (length groups.now ≡ length names → names_of groups.now ≡ names) }
        ensures { Finds self.new (names_of groups.now) }
    {
        if groups.len() < self.before.len() {
            self.rebuild(groups);
        }
    }

    /// Takes room for one name more than those of these groups.
    ///
    /// # Errors
    ///
    /// Out of memory: the names are those of these groups still.
    pub(crate) fn reserve(&mut self, groups: &[MemberGroup<A>]) -> Result<(), AllocError>
        requires finds { Finds self.old (names_of groups.now) }
        ensures finds { Finds self.new (names_of groups.now) }
        ensures room { OnOk result (HasPlace self.new) }
    {
        self.before.reserve(1)?;
        if self.before.len() < self.last.len() {
            return Ok(());
        }
        let count = self.before.len().saturating_add(1).saturating_mul(2);
        self.last.resize(count, 0)?;
        self.rebuild(groups);
        Ok(())
    }

    /// The index of the group of this name, where each has one of its own.
    pub(crate) fn find(&self, groups: &[MemberGroup<A>], name: &[u8]) -> Option<usize>
        requires finds { Finds self.now (names_of groups.now) }
        requires apart { AreApart groups.now }
        ensures { result ≡ position (is_named name.now) groups.now }
    {
        if self.last.is_empty() {
            return None;
        }
        let mut place = self.last[bucket_of(self.last.len(), name)];
        while place > 0 {
            if groups[place - 1].is_named(name) {
                return Some(place - 1);
            }
            place = self.before[place - 1];
        }
        None
    }
}
