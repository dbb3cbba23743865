//! A list that is filled, for which all memory was taken before.

ghost use Rattle.std.specs.Prelude.{◌≡◌, ◌+◌, ◌<◌, ◌≤◌, [], ◌∷◌, ◌++◌, length, IfOk};

use crate::block::Block;
use crate::blocks::Blocks;
use crate::list::BlockList;
use std::alloc::{AllocError, Allocator};
use std::marker::Model;

/// A list under way: its elements so far, and room for more.
#[derive(Drop)]
pub struct Filling<T, A: Allocator + Copy> {
    alloc: A,
    items: Vec<T, A>,
    blocks: Vec<Block<T, A>, A>,
    starts: Vec<usize, A>,
}

impl<T, A: Allocator + Copy> Model for Filling<T, A> {
    ghost use Rattle.std.specs.Prelude.{◌≡◌, ◌-◌, ◌<◌, []};
    ghost use Rattle.std.specs.Vec.{vec_len, vec_capacity};
    ghost use Rattle.block_list.specs.Fillings.{FillingValue};

    ghost Value = { FillingValue T };

    ghost view = { λ f. record {
      items = f.items.items;
      room = vec_capacity f.items - vec_len f.items;
    } };

    ghost invariant = { λ f. (f.blocks.items ≡ []) × (f.starts.items ≡ [])
        × (0 < vec_capacity f.blocks) × (0 < vec_capacity f.starts) };
}

impl<T: Drop, A: Allocator + Copy> Filling<T, A> {
    /// No elements, and room for some.
    ///
    /// # Errors
    ///
    /// Out of memory.
    pub fn with_room(alloc: A, room: usize) -> Result<Filling<T, A>, AllocError>
        ensures is_empty { IfOk result (λ filling. filling.items ≡ []) }
        ensures has_room { IfOk result (λ filling. room ≤ filling.room) }
    {
        Ok(Filling {
            alloc,
            items: Vec::with_capacity(alloc, room)?,
            blocks: Vec::with_capacity(alloc, 1)?,
            starts: Vec::with_capacity(alloc, 1)?,
        })
    }

    /// Adds an element at the end. Takes no memory.
    pub fn push(&mut self, x: T)
        requires { 0 < self.old.room }
        ensures pushes { self.new.items ≡ self.old.items ++ x ∷ [] }
        ensures takes_room_of_one { self.old.room ≤ self.new.room + 1 }
    {
        self.items.push_reserved(x);
    }

    /// The list. Takes no memory.
    pub fn finish(self) -> BlockList<T, A>
        ensures { result ≡ self.items }
    {
        if self.items.is_empty() {
            return BlockList::new(self.alloc);
        }
        let len = self.items.len();
        let mut blocks = self.blocks;
        let mut starts = self.starts;
        blocks.push_reserved(Block::of(self.items));
        starts.push_reserved(0);
        BlockList::of_blocks(self.alloc, Blocks::of(blocks, starts), len)
    }
}
