//! One block.

ghost use Rattle.std.specs.Prelude.{◌≡◌, ◌+◌, ◌<◌, ◌≤◌, ◌^◌, [], ◌∷◌, ◌++◌, length, take, drop, sum, slice_set, IfOk, is_ok, if◌then◌else◌};
ghost use Rattle.std.specs.List.{HoldsAt, insert, remove};

use crate::list::CountPosition;
use std::alloc::{AllocError, Allocator};
use std::marker::Model;

/// A block with this many counts is full: it is split before one more is inserted.
pub(crate) const LIMIT: usize = 256;

/// Some counts in a row.
#[derive(Drop)]
pub(crate) struct Block<A: Allocator + Copy> {
    counts: Vec<usize, A>,
}

impl<A: Allocator + Copy> Model for Block<A> {
    ghost use Rattle.std.specs.Prelude.{ℕ, List};

    ghost Value = { List ℕ };

    ghost view = { λ block. block.counts.items };
}

impl<A: Allocator + Copy> Block<A> {
    /// How many counts there are.
    pub(crate) fn len(&self) -> usize
        ensures length { result ≡ length self.now }
    {
        self.counts.len()
    }

    /// Borrows the counts.
    pub(crate) fn counts(&self) -> &[usize]
        ensures counts { result.now ≡ self.now }
    {
        &self.counts
    }

    /// A block of one count.
    pub(crate) fn one(alloc: A, n: usize) -> Result<Block<A>, AllocError>
        ensures { IfOk result (λ block. block ≡ n ∷ []) }
    {
        let mut counts = Vec::new(alloc);
        counts.push(n)?;
        Ok(Block { counts })
    }

    /// Puts another count in place of one.
    pub(crate) fn set(&mut self, i: usize, n: usize)
        requires within { i < length self.old }
        ensures { self.new ≡ slice_set self.old i n }
    {
        self.counts[i] = n;
    }

    /// Inserts a count at an index.
    ///
    /// # Errors
    ///
    /// Out of memory: the block is as it was.
    pub(crate) fn insert(&mut self, i: usize, n: usize) -> Result<(), AllocError>
        requires within { i ≤ length self.old }
        ensures { self.new ≡ (if is_ok result then insert self.old i n else self.old) }
    {
        self.counts.insert(i, n)?;
        Ok(())
    }

    /// Takes a count out. Takes no memory.
    pub(crate) fn remove(&mut self, i: usize)
        requires within { i < length self.old }
        ensures { self.new ≡ remove self.old i }
    {
        self.counts.remove(i);
    }

    /// Adds a count at the end.
    ///
    /// # Errors
    ///
    /// Out of memory: the block is as it was.
    pub(crate) fn push(&mut self, n: usize) -> Result<(), AllocError>
        ensures { self.new ≡ (if is_ok result then self.old ++ n ∷ [] else self.old) }
    {
        self.counts.push(n)?;
        Ok(())
    }

    /// Lets go of some of the first counts. Takes no memory.
    pub(crate) fn drop_front(&mut self, count: usize)
        requires within { count ≤ length self.old }
        ensures { self.new ≡ drop count self.old }
    {
        self.counts.drain(..count);
    }

    /// Keeps some of the first counts, and answers a block of the others.
    ///
    /// # Errors
    ///
    /// Out of memory: the block is as it was.
    pub(crate) fn split(&mut self, keep: usize) -> Result<Block<A>, AllocError>
        requires within { keep ≤ length self.old }
        ensures keeps { self.new ≡ (if is_ok result then take keep self.old else self.old) }
        ensures gives { IfOk result (λ back. back ≡ drop keep self.old) }
    {
        let counts = self.counts.split_off(keep)?;
        Ok(Block { counts })
    }
}

/// The sum of counts.
pub(crate) fn sum_of(counts: &[usize]) -> usize
    requires fits { sum counts.now < 2 ^ 64 }
    ensures { result ≡ sum counts.now }
{
    let mut total = 0;
    for i in 0..counts.len() {
        total += counts[i];
    }
    total
}

/// The count into which a number falls, and what is left of it there.
pub(crate) fn find_in(counts: &[usize], n: usize) -> CountPosition
    requires within { n < sum counts.now }
    ensures index { result.index < length counts.now }
    ensures sum { sum (take result.index counts.now) + result.rest ≡ n }
    ensures rest { HoldsAt (λ count. result.rest < count) counts.now result.index }
{
    let mut index = 0;
    let mut rest = n;
    while counts[index] <= rest {
        rest -= counts[index];
        index += 1;
    }
    CountPosition { index, rest }
}
