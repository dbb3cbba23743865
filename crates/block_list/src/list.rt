//! The list.

ghost use Rattle.std.specs.Prelude.{◌≡◌, ◌<◌, ◌≤◌, [], ◌∷◌, ◌++◌, length, drop, slice_set, OnOk, OnErr};
ghost use Rattle.std.specs.List.{HoldsAt, insert};
ghost use Rattle.block_list.specs.Blocks.{joined};

use crate::blocks::Blocks;
use crate::items::Items;
use std::alloc::{AllocError, Allocator};
use std::marker::Model;

/// A list of elements in blocks.
#[derive(Drop)]
pub struct BlockList<T, A: Allocator + Copy> {
    alloc: A,
    blocks: Blocks<T, A>,
    len: usize,
}

impl<T, A: Allocator + Copy> Model for BlockList<T, A> {
    ghost use Rattle.std.specs.Prelude.{◌≡◌, List, length};
    ghost use Rattle.block_list.specs.Blocks.{joined};

    ghost Value = { List T };

    ghost view = { λ list. joined list.blocks };

    ghost invariant = { λ list. list.len ≡ length (joined list.blocks) };
}

impl<T, A: Allocator + Copy> BlockList<T, A> {
    /// The empty list. Takes no memory.
    pub fn new(alloc: A) -> BlockList<T, A>
        ensures is_empty { result ≡ [] }
    {
        BlockList {
            alloc,
            blocks: Blocks::new(alloc),
            len: 0,
        }
    }

    /// The elements of some blocks, and how many they are. Takes no memory.
    pub(crate) fn of_blocks(alloc: A, blocks: Blocks<T, A>, len: usize) -> BlockList<T, A>
        requires { len ≡ length (joined blocks) }
        ensures { result ≡ joined blocks }
    {
        BlockList { alloc, blocks, len }
    }

    /// How many elements there are.
    pub fn len(&self) -> usize
        ensures length { result ≡ length self.now }
    {
        self.len
    }

    /// The element at an index: a binary search over the blocks, or none where all blocks before its
    /// own are full.
    pub fn get(&self, i: usize) -> &T
        requires { i < length self.now }
        ensures is_there { HoldsAt (λ x. result.now ≡ x) self.now i }
    {
        let place = self.blocks.locate(i);
        &self.blocks.items(place.block)[place.index]
    }
}

impl<T: Drop, A: Allocator + Copy> BlockList<T, A> {
    /// The elements, to be taken out. Takes no memory.
    pub fn into_items(self) -> Items<T, A>
        ensures { result ≡ self }
    {
        Items::of(self.alloc, self.blocks.into_blocks())
    }

    /// Adds an element at the end, at the cost of a push to a vector.
    ///
    /// # Errors
    ///
    /// Out of memory, or more elements than a usize counts: the list is as it was.
    pub fn push(&mut self, x: T) -> Result<(), AllocError>
        ensures pushes { OnOk result (self.new ≡ self.old ++ x ∷ []) }
        ensures unchanged_on_error { OnErr result (self.new ≡ self.old) }
    {
        let len = self.len.checked_add(1).ok_or(AllocError)?;
        self.blocks.push(self.alloc, self.len, x)?;
        self.len = len;
        Ok(())
    }

    /// Inserts an element at an index, and moves those behind it in its block. Long blocks are split in
    /// halves as this goes on, so that most insertions move few.
    ///
    /// # Errors
    ///
    /// Out of memory, or more elements than a usize counts: the list is as it was.
    pub fn insert(&mut self, i: usize, x: T) -> Result<(), AllocError>
        requires within { i ≤ length self.old }
        ensures inserts { OnOk result (self.new ≡ insert self.old i x) }
        ensures unchanged_on_error { OnErr result (self.new ≡ self.old) }
    {
        if i == self.len {
            return self.push(x);
        }
        let len = self.len.checked_add(1).ok_or(AllocError)?;
        let place = self.blocks.make_room(i)?;
        self.blocks.insert(place, x)?;
        self.len = len;
        Ok(())
    }

    /// Puts another element in place of the one at an index, which it answers. Takes no memory.
    pub fn replace(&mut self, i: usize, x: T) -> T
        requires within { i < length self.old }
        ensures replaces { self.new ≡ slice_set self.old i x }
        ensures gives { HoldsAt (λ y. result ≡ y) self.old i }
    {
        let place = self.blocks.locate(i);
        self.blocks.replace(place, x)
    }

    /// Lets go of the first `count` elements; of all where there are no more. Whole blocks go as they
    /// are, and of the block in which the cut lies, the elements behind it are moved to its front: no
    /// other element is touched. Takes no memory.
    pub fn drop_front(&mut self, count: usize)
        ensures drops { self.new ≡ drop count self.old }
    {
        if count >= self.len {
            *self = BlockList::new(self.alloc);
            return;
        }
        self.blocks.drop_front(count);
        self.len -= count;
    }
}
