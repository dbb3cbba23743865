//! The list.

ghost use Rattle.std.specs.Prelude.{◌≡◌, ◌+◌, ◌-◌, ◌<◌, ◌≤◌, ◌^◌, [], ◌∷◌, ◌++◌, length, take, drop, sum, slice_set, slice_index, OnOk, OnErr};
ghost use Rattle.std.specs.List.{HoldsAt, insert, remove};

use crate::blocks::Blocks;
use std::alloc::{AllocError, Allocator};
use std::marker::Model;

/// The index of the count into which a number falls, and what is left of the number there.
#[derive(Clone, Copy)]
pub struct CountPosition {
    /// The index of the count.
    pub index: usize,
    /// The number less the sum of the counts before that one.
    pub rest: usize,
}

/// A list of counts in blocks.
#[derive(Drop)]
pub struct CountList<A: Allocator + Copy> {
    alloc: A,
    blocks: Blocks<A>,
    len: usize,
    total: usize,
}

impl<A: Allocator + Copy> Model for CountList<A> {
    ghost use Rattle.std.specs.Prelude.{◌≡◌, ℕ, List, length, sum};
    ghost use Rattle.count_list.specs.Blocks.{joined};

    ghost Value = { List ℕ };

    ghost view = { λ list. joined list.blocks };

    ghost invariant = { λ list. (list.len ≡ length (joined list.blocks))
        × (list.total ≡ sum (joined list.blocks)) };
}

impl<A: Allocator + Copy> CountList<A> {
    /// The empty list. Takes no memory.
    pub fn new(alloc: A) -> CountList<A>
        ensures is_empty { result ≡ [] }
    {
        CountList {
            alloc,
            blocks: Blocks::new(alloc),
            len: 0,
            total: 0,
        }
    }

    /// How many counts there are.
    pub fn len(&self) -> usize
        ensures length { result ≡ length self.now }
    {
        self.len
    }

    /// The sum of all counts.
    pub fn total(&self) -> usize
        ensures sum { result ≡ sum self.now }
    {
        self.total
    }

    /// The count at an index: a binary search over the blocks.
    pub fn get(&self, i: usize) -> usize
        requires { i < length self.now }
        ensures is_there { result ≡ slice_index self.now i }
    {
        let place = self.blocks.locate(i);
        self.blocks.counts(place.block)[place.index]
    }

    /// The sum of the counts before an index: a binary search over the blocks, and the front of one.
    pub fn before(&self, i: usize) -> usize
        requires within { i ≤ length self.now }
        ensures sum { result ≡ sum (take i self.now) }
    {
        let total = self.total();
        if i == self.len {
            return total;
        }
        self.blocks.before(i)
    }

    /// The count into which a number falls, where each begins at the sum of those before it: a binary
    /// search over the blocks, and the front of one. No number falls into a count of 0.
    pub fn find(&self, n: usize) -> CountPosition
        requires within { n < sum self.now }
        ensures index { result.index < length self.now }
        ensures sum { sum (take result.index self.now) + result.rest ≡ n }
        ensures rest { HoldsAt (λ count. result.rest < count) self.now result.index }
    {
        let _len = self.len();
        self.blocks.find(n)
    }

    /// Adds to a count.
    pub fn grow(&mut self, i: usize, n: usize)
        requires within { i < length self.old }
        requires fits { sum self.old + n < 2 ^ 64 }
        ensures grows { self.new ≡ slice_set self.old i (slice_index self.old i + n) }
    {
        let place = self.blocks.locate(i);
        let count = self.blocks.counts(place.block)[place.index];
        self.blocks.set(place, count + n);
        self.total += n;
    }

    /// Takes from a count.
    pub fn shrink(&mut self, i: usize, n: usize)
        requires within { i < length self.old }
        requires holds { n ≤ slice_index self.old i }
        ensures shrinks { self.new ≡ slice_set self.old i (slice_index self.old i - n) }
    {
        let place = self.blocks.locate(i);
        let count = self.blocks.counts(place.block)[place.index];
        self.blocks.set(place, count - n);
        self.total -= n;
    }

    /// Adds a count at the end.
    ///
    /// # Errors
    ///
    /// Out of memory, or more counts than a usize counts: the list is as it was.
    pub fn push(&mut self, n: usize) -> Result<(), AllocError>
        requires fits { sum self.old + n < 2 ^ 64 }
        ensures pushes { OnOk result (self.new ≡ self.old ++ n ∷ []) }
        ensures unchanged_on_error { OnErr result (self.new ≡ self.old) }
    {
        let len = self.len.checked_add(1).ok_or(AllocError)?;
        self.blocks.push(self.alloc, self.len, self.total, n)?;
        self.len = len;
        self.total += n;
        Ok(())
    }

    /// Inserts a count at an index. A full block is split in halves first.
    ///
    /// # Errors
    ///
    /// Out of memory, or more counts than a usize counts: the list is as it was.
    pub fn insert(&mut self, i: usize, n: usize) -> Result<(), AllocError>
        requires within { i ≤ length self.old }
        requires fits { sum self.old + n < 2 ^ 64 }
        ensures inserts { OnOk result (self.new ≡ insert self.old i n) }
        ensures unchanged_on_error { OnErr result (self.new ≡ self.old) }
    {
        if i == self.len {
            return self.push(n);
        }
        let len = self.len.checked_add(1).ok_or(AllocError)?;
        let place = self.blocks.make_room(i)?;
        self.blocks.insert(place, n)?;
        self.len = len;
        self.total += n;
        Ok(())
    }

    /// Takes out the count at an index. Takes no memory, so that an insertion can be undone.
    pub fn remove(&mut self, i: usize)
        requires within { i < length self.old }
        ensures removes { self.new ≡ remove self.old i }
    {
        let place = self.blocks.locate(i);
        let count = self.blocks.counts(place.block)[place.index];
        self.blocks.remove(place);
        self.len -= 1;
        self.total -= count;
    }

    /// Lets go of the first `count` counts; of all where there are no more. Takes no memory.
    pub fn drop_front(&mut self, count: usize)
        ensures drops { self.new ≡ drop count self.old }
    {
        if count >= self.len {
            *self = CountList::new(self.alloc);
            return;
        }
        let gone = self.blocks.before(count);
        self.blocks.drop_front(count);
        self.len -= count;
        self.total -= gone;
    }
}
