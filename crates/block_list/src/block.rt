//! One block.

ghost use Rattle.std.specs.Prelude.{◌≡◌, ◌<◌, ◌≤◌, [], ◌∷◌, ◌++◌, length, take, drop, slice_set, IfOk, is_ok, if◌then◌else◌};
ghost use Rattle.std.specs.List.{HoldsAt, insert};

use std::alloc::{AllocError, Allocator};
use std::marker::Model;
use std::mem;

/// A block with this many elements is full: it is split before one more is inserted.
pub(crate) const LIMIT: usize = 128;

/// Some elements in a row.
#[derive(Drop)]
pub(crate) struct Block<T, A: Allocator + Copy> {
    items: Vec<T, A>,
}

impl<T, A: Allocator + Copy> Model for Block<T, A> {
    ghost use Rattle.std.specs.Prelude.{◌<◌, List, length};

    ghost Value = { List T };

    ghost view = { λ block. block.items.items };

    ghost invariant = { λ block. 0 < length block.items.items };
}

impl<T, A: Allocator + Copy> Block<T, A> {
    /// How many elements there are, at least one.
    pub(crate) fn len(&self) -> usize
        ensures length { result ≡ length self.now }
        ensures not_empty { 0 < result }
    {
        self.items.len()
    }

    /// Borrows the elements.
    pub(crate) fn items(&self) -> &[T]
        ensures items { result.now ≡ self.now }
        ensures not_empty { 0 < length self.now }
    {
        &self.items
    }
}

impl<T, A: Allocator + Copy> Block<T, A> {
    /// A block of these elements. Takes no memory.
    pub(crate) fn of(items: Vec<T, A>) -> Block<T, A>
        requires { 0 < length items.items }
        ensures { result ≡ items.items }
    {
        Block { items }
    }

    /// The elements. Takes no memory.
    pub(crate) fn into_items(self) -> Vec<T, A>
        ensures items { result.items ≡ self }
        ensures not_empty { 0 < length self }
    {
        self.items
    }
}

impl<T: Drop, A: Allocator + Copy> Block<T, A> {
    /// A block of one element.
    pub(crate) fn one(alloc: A, x: T) -> Result<Block<T, A>, AllocError>
        ensures { IfOk result (λ block. block ≡ x ∷ []) }
    {
        let mut items = Vec::new(alloc);
        items.push(x)?;
        Ok(Block { items })
    }

    /// Inserts an element at an index.
    ///
    /// # Errors
    ///
    /// Out of memory: the block is as it was.
    pub(crate) fn insert(&mut self, i: usize, x: T) -> Result<(), AllocError>
        requires within { i ≤ length self.old }
        ensures { self.new ≡ (if is_ok result then insert self.old i x else self.old) }
    {
        self.items.insert(i, x)?;
        Ok(())
    }

    /// Puts another element in place of one, which it answers. Takes no memory.
    pub(crate) fn replace(&mut self, i: usize, x: T) -> T
        requires within { i < length self.old }
        ensures replaces { self.new ≡ slice_set self.old i x }
        ensures gives { HoldsAt (λ y. result ≡ y) self.old i }
    {
        mem::replace(&mut self.items[i], x)
    }

    /// Adds an element at the end.
    ///
    /// # Errors
    ///
    /// Out of memory: the block is as it was.
    pub(crate) fn push(&mut self, x: T) -> Result<(), AllocError>
        ensures { self.new ≡ (if is_ok result then self.old ++ x ∷ [] else self.old) }
    {
        self.items.push(x)?;
        Ok(())
    }

    /// Lets go of some of the first elements, but not of all. Takes no memory.
    pub(crate) fn drop_front(&mut self, count: usize)
        requires not_all { count < length self.old }
        ensures { self.new ≡ drop count self.old }
    {
        self.items.drain(..count);
    }

    /// Keeps some of the first elements, and answers a block of the others.
    ///
    /// # Errors
    ///
    /// Out of memory: the block is as it was.
    pub(crate) fn split(&mut self, keep: usize) -> Result<Block<T, A>, AllocError>
        requires some { 0 < keep }
        requires not_all { keep < length self.old }
        ensures keeps { self.new ≡ (if is_ok result then take keep self.old else self.old) }
        ensures gives { IfOk result (λ back. back ≡ drop keep self.old) }
    {
        let items = self.items.split_off(keep)?;
        Ok(Block { items })
    }
}
