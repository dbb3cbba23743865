//! The blocks, and where each starts.

ghost use Rattle.std.specs.Prelude.{◌≡◌, ◌+◌, ◌<◌, ◌≤◌, ◌^◌, [], ◌∷◌, ◌++◌, length, drop, is_ok, if◌then◌else◌, slice_set, slice_index_or, vec_len, vec_capacity, IfOk, IfSome};
ghost use Rattle.std.specs.List.{HoldsAt, insert};
ghost use Rattle.block_list.specs.Blocks.{joined, starts_of, divided, IsIn};
ghost use Rattle.block_list.specs.declared.block.TheConstants.{LIMIT};

use crate::block::{Block, LIMIT};
use crate::starts::{block_at, count_fewer, count_one};
use std::alloc::{AllocError, Allocator};
use std::marker::Model;

/// A block, and an index in it.
#[derive(Clone, Copy)]
pub(crate) struct BlockPosition {
    pub(crate) block: usize,
    pub(crate) index: usize,
}

/// Blocks in a row, and how many elements stand before each.
#[derive(Drop)]
pub(crate) struct Blocks<T, A: Allocator + Copy> {
    blocks: Vec<Block<T, A>, A>,
    starts: Vec<usize, A>,
}

impl<T, A: Allocator + Copy> Model for Blocks<T, A> {
    ghost use Rattle.std.specs.Prelude.{◌≡◌, List};
    ghost use Rattle.block_list.specs.Blocks.{starts_of};

    ghost Value = { List (List T) };

    ghost view = { λ b. b.blocks.items };

    ghost invariant = { λ b. b.starts.items ≡ starts_of 0 b.blocks.items };
}

impl<T, A: Allocator + Copy> Blocks<T, A> {
    /// Blocks, and how many elements stand before each. Takes no memory.
    pub(crate) fn of(blocks: Vec<Block<T, A>, A>, starts: Vec<usize, A>) -> Blocks<T, A>
        requires { starts.items ≡ starts_of 0 blocks.items }
        ensures { result ≡ blocks.items }
    {
        Blocks { blocks, starts }
    }

    /// The blocks. Takes no memory.
    pub(crate) fn into_blocks(self) -> Vec<Block<T, A>, A>
        ensures { result.items ≡ self }
    {
        self.blocks
    }

    /// No blocks. Takes no memory.
    pub(crate) fn new(alloc: A) -> Blocks<T, A>
        ensures { result ≡ [] }
    {
        Blocks {
            blocks: Vec::new(alloc),
            starts: Vec::new(alloc),
        }
    }

    /// The elements of a block.
    pub(crate) fn items(&self, k: usize) -> &[T]
        requires { k < length self.now }
        ensures items { HoldsAt (λ b. result.now ≡ b) self.now k }
        ensures not_empty { 0 < length result.now }
    {
        self.blocks[k].items()
    }

    /// Where the element at an index stands.
    pub(crate) fn locate(&self, i: usize) -> BlockPosition
        requires { i < length (joined self.now) }
        ensures { IsIn self.now result.block result.index i }
    {
        let block = block_at(&self.starts, i);
        BlockPosition {
            block,
            index: i - self.starts[block],
        }
    }
}

/// Inserts an element where there is room for it, which can't fail.
fn insert_reserved<T: Drop, A: Allocator + Copy>(items: &mut Vec<T, A>, i: usize, x: T)
    requires within { i ≤ vec_len items.old }
    requires room { vec_len items.old < vec_capacity items.old }
    ensures { items.new.items ≡ insert items.old.items i x }
{
    let _ = items.insert(i, x);
}

impl<T: Drop, A: Allocator + Copy> Blocks<T, A> {
    /// Inserts an element at an index.
    ///
    /// # Errors
    ///
    /// Out of memory: the blocks are as they were.
    pub(crate) fn insert(&mut self, place: BlockPosition, x: T) -> Result<(), AllocError>
        requires block { place.block < length self.old }
        requires within { place.index ≤ length (slice_index_or self.old place.block []) }
        requires fits { length (joined self.old) + 1 < 2 ^ 64 }
        ensures { self.new ≡ (if is_ok result
            then slice_set self.old place.block
            (insert (slice_index_or self.old place.block []) place.index x)
            else self.old) }
    {
        self.blocks[place.block].insert(place.index, x)?;
        count_one(&mut self.starts, place.block + 1);
        Ok(())
    }

    /// Puts another element in place of one, which it answers. Takes no memory.
    pub(crate) fn replace(&mut self, place: BlockPosition, x: T) -> T
        requires block { place.block < length self.old }
        requires within { place.index < length (slice_index_or self.old place.block []) }
        ensures replaces { self.new ≡ slice_set self.old place.block
            (slice_set (slice_index_or self.old place.block []) place.index x) }
        ensures gives { HoldsAt (λ y. result ≡ y)
            (slice_index_or self.old place.block []) place.index }
    {
        self.blocks[place.block].replace(place.index, x)
    }

    /// The last block, if it has room.
    fn last_with_room(&self) -> Option<usize>
        ensures last { IfSome result (λ k. length self.now ≡ k + 1) }
    {
        let k = self.blocks.len().checked_sub(1)?;
        if self.blocks[k].len() < LIMIT {
            Some(k)
        } else {
            None
        }
    }

    /// Adds an element at the end of the last block.
    fn push_in(&mut self, k: usize, x: T) -> Result<(), AllocError>
        requires last { length self.old ≡ k + 1 }
        ensures { self.new ≡ (if is_ok result
            then slice_set self.old k (slice_index_or self.old k [] ++ x ∷ [])
            else self.old) }
    {
        self.blocks[k].push(x)?;
        Ok(())
    }

    /// Adds a block of one element, where `len` elements stand before it.
    fn push_block(&mut self, alloc: A, len: usize, x: T) -> Result<(), AllocError>
        requires { len ≡ length (joined self.old) }
        ensures { self.new ≡ (if is_ok result then self.old ++ (x ∷ []) ∷ [] else self.old) }
    {
        self.starts.reserve(1)?;
        self.blocks.push(Block::one(alloc, x)?)?;
        self.starts.push_reserved(len);
        Ok(())
    }

    /// Adds an element at the end, where `len` stand before it.
    ///
    /// # Errors
    ///
    /// Out of memory: the elements are as they were.
    pub(crate) fn push(&mut self, alloc: A, len: usize, x: T) -> Result<(), AllocError>
        requires { len ≡ length (joined self.old) }
        ensures { joined self.new
            ≡ (if is_ok result then joined self.old ++ x ∷ [] else joined self.old) }
    {
        if let Some(k) = self.last_with_room() {
            return self.push_in(k, x);
        }
        self.push_block(alloc, len, x)
    }

    /// Splits a block in two, some of its first elements and the others, and answers which block the
    /// others are.
    fn split(&mut self, k: usize, keep: usize) -> Result<usize, AllocError>
        requires block { k < length self.old }
        requires some { 0 < keep }
        requires not_all { keep < length (slice_index_or self.old k []) }
        requires fits { length (joined self.old) < 2 ^ 64 }
        ensures splits { self.new ≡ (if is_ok result
            then divided keep self.old k
            else self.old) }
        ensures next { IfOk result (λ back. back ≡ k + 1) }
    {
        self.starts.reserve(1)?;
        self.blocks.reserve(1)?;
        let back = self.blocks[k].split(keep)?;
        let start = self.starts[k] + keep;
        insert_reserved(&mut self.blocks, k + 1, back);
        insert_reserved(&mut self.starts, k + 1, start);
        Ok(k + 1)
    }

    /// Where an element goes at an index. A full block is split in halves, so that insertions into a
    /// long one soon move few elements.
    ///
    /// # Errors
    ///
    /// Out of memory: the elements are as they were.
    pub(crate) fn make_room(&mut self, i: usize) -> Result<BlockPosition, AllocError>
        requires inside { i < length (joined self.old) }
        requires fits { length (joined self.old) < 2 ^ 64 }
        ensures same { joined self.new ≡ joined self.old }
        ensures place { IfOk result (λ p. IsIn self.new p.block p.index i) }
    {
        let place = self.locate(i);
        let len = self.items(place.block).len();
        if len < LIMIT {
            return Ok(place);
        }
        let keep = len / 2;
        let back = self.split(place.block, keep)?;
        if place.index < keep {
            return Ok(place);
        }
        Ok(BlockPosition {
            block: back,
            index: place.index - keep,
        })
    }

    /// Lets go of some of the first elements, but not of all: of whole blocks, and of the front of the
    /// next. Takes no memory.
    pub(crate) fn drop_front(&mut self, count: usize)
        requires not_all { count < length (joined self.old) }
        ensures { joined self.new ≡ drop count (joined self.old) }
    {
        let place = self.locate(count);
        self.blocks.drain(..place.block);
        self.starts.drain(..place.block);
        self.blocks[0].drop_front(place.index);
        count_fewer(&mut self.starts, count);
    }
}
