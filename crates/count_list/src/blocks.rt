//! The blocks, and what stands before each.

ghost use Rattle.std.specs.Prelude.{◌≡◌, ◌+◌, ◌-◌, ◌<◌, ◌≤◌, ◌^◌, [], ◌∷◌, ◌++◌, length, take, drop, sum, is_ok, if◌then◌else◌, slice_set, slice_index, slice_index_or, vec_len, vec_capacity, IfOk, IfSome};
ghost use Rattle.std.specs.List.{HoldsAt, insert, remove};
ghost use Rattle.count_list.specs.Blocks.{joined, divided, IsIn};

use crate::block::{Block, LIMIT, find_in, sum_of};
use crate::list::CountPosition;
use crate::starts::{block_at, change_from};
use std::alloc::{AllocError, Allocator};
use std::marker::Model;

/// A block, and an index in it.
#[derive(Clone, Copy)]
pub(crate) struct BlockPosition {
    pub(crate) block: usize,
    pub(crate) index: usize,
}

/// Blocks in a row, how many counts stand before each, and the sum of these.
#[derive(Drop)]
pub(crate) struct Blocks<A: Allocator + Copy> {
    blocks: Vec<Block<A>, A>,
    firsts: Vec<usize, A>,
    sums: Vec<usize, A>,
}

impl<A: Allocator + Copy> Model for Blocks<A> {
    ghost use Rattle.std.specs.Prelude.{◌≡◌, ℕ, List, length, sum};
    ghost use Rattle.count_list.specs.Blocks.{running};

    ghost Value = { List (List ℕ) };

    ghost view = { λ b. b.blocks.items };

    ghost invariant = { λ b. (b.firsts.items ≡ running length 0 b.blocks.items)
        × (b.sums.items ≡ running sum 0 b.blocks.items) };
}

impl<A: Allocator + Copy> Blocks<A> {
    /// No blocks. Takes no memory.
    pub(crate) fn new(alloc: A) -> Blocks<A>
        ensures { result ≡ [] }
    {
        Blocks {
            blocks: Vec::new(alloc),
            firsts: Vec::new(alloc),
            sums: Vec::new(alloc),
        }
    }

    /// The counts of a block.
    pub(crate) fn counts(&self, k: usize) -> &[usize]
        requires { k < length self.now }
        ensures counts { HoldsAt (λ b. result.now ≡ b) self.now k }
    {
        self.blocks[k].counts()
    }

    /// Where the count at an index stands.
    pub(crate) fn locate(&self, i: usize) -> BlockPosition
        requires { i < length (joined self.now) }
        ensures { IsIn length self.now result.block result.index i }
    {
        let block = block_at(&self.firsts, i);
        BlockPosition {
            block,
            index: i - self.firsts[block],
        }
    }

    /// The sum of the counts before an index.
    pub(crate) fn before(&self, i: usize) -> usize
        requires within { i < length (joined self.now) }
        requires fits { sum (joined self.now) < 2 ^ 64 }
        ensures { result ≡ sum (take i (joined self.now)) }
    {
        let place = self.locate(i);
        self.sums[place.block] + sum_of(&self.counts(place.block)[..place.index])
    }

    /// The count into which a number falls, and what is left of it there.
    pub(crate) fn find(&self, n: usize) -> CountPosition
        requires within { n < sum (joined self.now) }
        requires fits { length (joined self.now) < 2 ^ 64 }
        ensures index { result.index < length (joined self.now) }
        ensures sum { sum (take result.index (joined self.now)) + result.rest ≡ n }
        ensures rest { HoldsAt (λ count. result.rest < count) (joined self.now) result.index }
    {
        let block = block_at(&self.sums, n);
        let inside = find_in(self.counts(block), n - self.sums[block]);
        CountPosition {
            index: self.firsts[block] + inside.index,
            rest: inside.rest,
        }
    }
}

/// Inserts an element where there is room for it, which can't fail.
fn insert_reserved<T: Drop, A: Allocator + Copy>(items: &mut Vec<T, A>, i: usize, x: T)
    requires within { i ≤ vec_len items.old }
    requires room { vec_len items.old < vec_capacity items.old }
    ensures { items.new.items ≡ insert items.old.items i x }
{
    let _ = items.insert(i, x);
}

impl<A: Allocator + Copy> Blocks<A> {
    /// Puts another count in place of one.
    pub(crate) fn set(&mut self, place: BlockPosition, n: usize)
        requires block { place.block < length self.old }
        requires within { place.index < length (slice_index_or self.old place.block []) }
        requires fits { sum (joined self.old) + n < 2 ^ 64
            + slice_index (slice_index_or self.old place.block []) place.index }
        ensures { self.new ≡ slice_set self.old place.block
            (slice_set (slice_index_or self.old place.block []) place.index n) }
    {
        let less = self.counts(place.block)[place.index];
        self.blocks[place.block].set(place.index, n);
        change_from(&mut self.sums, place.block + 1, less, n);
    }

    /// Inserts a count at an index.
    ///
    /// # Errors
    ///
    /// Out of memory: the blocks are as they were.
    pub(crate) fn insert(&mut self, place: BlockPosition, n: usize) -> Result<(), AllocError>
        requires block { place.block < length self.old }
        requires within { place.index ≤ length (slice_index_or self.old place.block []) }
        requires fits { length (joined self.old) + 1 < 2 ^ 64 }
        requires sum_fits { sum (joined self.old) + n < 2 ^ 64 }
        ensures { self.new ≡ (if is_ok result
            then slice_set self.old place.block
            (insert (slice_index_or self.old place.block []) place.index n)
            else self.old) }
    {
        self.blocks[place.block].insert(place.index, n)?;
        change_from(&mut self.firsts, place.block + 1, 0, 1);
        change_from(&mut self.sums, place.block + 1, 0, n);
        Ok(())
    }

    /// Takes a count out. Takes no memory.
    pub(crate) fn remove(&mut self, place: BlockPosition)
        requires block { place.block < length self.old }
        requires within { place.index < length (slice_index_or self.old place.block []) }
        requires fits { length (joined self.old) < 2 ^ 64 }
        requires sum_fits { sum (joined self.old) < 2 ^ 64 }
        ensures { self.new ≡ slice_set self.old place.block
            (remove (slice_index_or self.old place.block []) place.index) }
    {
        let less = self.counts(place.block)[place.index];
        self.blocks[place.block].remove(place.index);
        change_from(&mut self.firsts, place.block + 1, 1, 0);
        change_from(&mut self.sums, place.block + 1, less, 0);
    }

    /// The last block, if it has room.
    fn last_with_room(&self) -> Option<usize>
        ensures last { IfSome result (λ k. length self.now ≡ k + 1) }
    {
        let k = self.blocks.len().checked_sub(1)?;
        if self.blocks[k].len() < LIMIT {
            Some(k)
        } else {
            None
        }
    }

    /// Adds a count at the end of the last block.
    fn push_in(&mut self, k: usize, n: usize) -> Result<(), AllocError>
        requires last { length self.old ≡ k + 1 }
        ensures { self.new ≡ (if is_ok result
            then slice_set self.old k (slice_index_or self.old k [] ++ n ∷ [])
            else self.old) }
    {
        self.blocks[k].push(n)?;
        Ok(())
    }

    /// Adds a block of one count, where `len` counts stand before it, whose sum is `total`.
    fn push_block(&mut self, alloc: A, len: usize, total: usize, n: usize) -> Result<(), AllocError>
        requires length { len ≡ length (joined self.old) }
        requires sum { total ≡ sum (joined self.old) }
        ensures { self.new ≡ (if is_ok result then self.old ++ (n ∷ []) ∷ [] else self.old) }
    {
        self.firsts.reserve(1)?;
        self.sums.reserve(1)?;
        self.blocks.push(Block::one(alloc, n)?)?;
        self.firsts.push_reserved(len);
        self.sums.push_reserved(total);
        Ok(())
    }

    /// Adds a count at the end, where `len` stand before it, whose sum is `total`.
    ///
    /// # Errors
    ///
    /// Out of memory: the counts are as they were.
    pub(crate) fn push(
        &mut self,
        alloc: A,
        len: usize,
        total: usize,
        n: usize,
    ) -> Result<(), AllocError>
        requires length { len ≡ length (joined self.old) }
        requires sum { total ≡ sum (joined self.old) }
        ensures { joined self.new
            ≡ (if is_ok result then joined self.old ++ n ∷ [] else joined self.old) }
    {
        if let Some(k) = self.last_with_room() {
            return self.push_in(k, n);
        }
        self.push_block(alloc, len, total, n)
    }

    /// Splits a block in two, some of its first counts and the others, and answers which block the
    /// others are.
    fn split(&mut self, k: usize, keep: usize) -> Result<usize, AllocError>
        requires block { k < length self.old }
        requires within { keep ≤ length (slice_index_or self.old k []) }
        requires fits { length (joined self.old) < 2 ^ 64 }
        requires sum_fits { sum (joined self.old) < 2 ^ 64 }
        ensures splits { self.new ≡ (if is_ok result
            then divided keep self.old k
            else self.old) }
        ensures next { IfOk result (λ back. back ≡ k + 1) }
    {
        self.firsts.reserve(1)?;
        self.sums.reserve(1)?;
        self.blocks.reserve(1)?;
        let first = self.firsts[k] + keep;
        let sum = self.sums[k] + sum_of(&self.counts(k)[..keep]);
        let back = self.blocks[k].split(keep)?;
        insert_reserved(&mut self.blocks, k + 1, back);
        insert_reserved(&mut self.firsts, k + 1, first);
        insert_reserved(&mut self.sums, k + 1, sum);
        Ok(k + 1)
    }

    /// Where a count goes at an index. A full block is split in halves, so that insertions into a long
    /// one soon move few counts.
    ///
    /// # Errors
    ///
    /// Out of memory: the counts are as they were.
    pub(crate) fn make_room(&mut self, i: usize) -> Result<BlockPosition, AllocError>
        requires inside { i < length (joined self.old) }
        requires fits { length (joined self.old) < 2 ^ 64 }
        requires sum_fits { sum (joined self.old) < 2 ^ 64 }
        ensures same { joined self.new ≡ joined self.old }
        ensures place { IfOk result (λ p. IsIn length self.new p.block p.index i) }
    {
        let place = self.locate(i);
        let len = self.counts(place.block).len();
        if len < LIMIT {
            return Ok(place);
        }
        let keep = len / 2;
        let back = self.split(place.block, keep)?;
        if place.index < keep {
            return Ok(place);
        }
        Ok(BlockPosition {
            block: back,
            index: place.index - keep,
        })
    }

    /// Lets go of some of the first counts, but not of all: of whole blocks, and of the front of the
    /// next. Takes no memory.
    pub(crate) fn drop_front(&mut self, count: usize)
        requires not_all { count < length (joined self.old) }
        requires fits { length (joined self.old) < 2 ^ 64 }
        requires sum_fits { sum (joined self.old) < 2 ^ 64 }
        ensures { joined self.new ≡ drop count (joined self.old) }
    {
        let gone = self.before(count);
        let place = self.locate(count);
        self.blocks.drain(..place.block);
        self.firsts.drain(..place.block);
        self.sums.drain(..place.block);
        self.blocks[0].drop_front(place.index);
        change_from(&mut self.firsts, 0, count, 0);
        change_from(&mut self.sums, 0, gone, 0);
    }
}
