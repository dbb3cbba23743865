//! The elements of a list, taken out of it.

ghost use Rattle.std.specs.Prelude.{◌≡◌};
ghost use Rattle.block_list.specs.Fillings.{TakesFirst};
ghost use Rattle.block_list.specs.Blocks.{joined};

use crate::block::Block;
use std::alloc::{AllocError, Allocator};
use std::marker::Model;
use std::vec::IntoIter;

/// The elements of a list that were not taken out yet, from the first on.
#[derive(Drop)]
pub struct Items<T, A: Allocator + Copy> {
    current: IntoIter<T, A>,
    blocks: IntoIter<Block<T, A>, A>,
}

impl<T, A: Allocator + Copy> Model for Items<T, A> {
    ghost use Rattle.std.specs.Prelude.{List, ◌++◌};
    ghost use Rattle.std.specs.Vec.Iter.{into_iter_items};
    ghost use Rattle.block_list.specs.Blocks.{joined};

    ghost Value = { List T };

    ghost view = { λ it. into_iter_items it.current ++ joined (into_iter_items it.blocks) };
}

impl<T: Drop, A: Allocator + Copy> Items<T, A> {
    /// The elements of these blocks.
    pub(crate) fn of(alloc: A, blocks: Vec<Block<T, A>, A>) -> Items<T, A>
        ensures { result ≡ joined blocks.items }
    {
        Items {
            current: Vec::new(alloc).into_iter(),
            blocks: blocks.into_iter(),
        }
    }

    /// Takes the first element out; `None` where there is none left. Takes no memory.
    pub fn take_first(&mut self) -> Option<T>
        ensures { TakesFirst self.old self.new result }
    {
        if let Some(x) = self.current.next() {
            return Some(x);
        }
        let block = self.blocks.next()?;
        self.current = block.into_items().into_iter();
        self.current.next()
    }
}
