//! An allocator for tests, which refuses one allocation and serves all others, and remembers how many were asked for,
//! and how large the largest was.
//!
//! Out of memory is an ordinary answer, and this makes it happen: a test lets the first allocation
//! fail, then the second, and so on, until a run passes.
#![tactic(auto)]

ghost use Rattle.std.specs.Prelude.{◌≡◌, MatchOption};

use std::alloc::{AllocError, Allocator};
use std::cell::Cell;

/// How many bytes an allocation may have at most, in the tests, for each byte that was given or is held.
pub const MOST_FOR_A_BYTE: usize = 8;

/// An allocator over another one. Its allocation number `refused`, counted from 1, fails, and all
/// other calls are passed on. A `&` to it is an allocator that may be copied.
#[derive(Drop)]
pub struct Refusing<B> {
    inner: B,
    calls: Cell<u64>,
    largest: Cell<usize>,
    refused: u64,
}

impl<B> Refusing<B> {
    /// The allocation of this number fails, counted from 1; none where it is 0.
    pub fn new(inner: B, refused: u64) -> Refusing<B> {
        Refusing {
            inner,
            calls: Cell::new(0),
            largest: Cell::new(0),
            refused,
        }
    }

    /// How many allocations were asked for, with the one that failed.
    pub fn calls(&self) -> u64 {
        self.calls.get()
    }

    /// How many bytes the largest allocation that was asked for has, also if it failed.
    pub fn largest(&self) -> usize {
        self.largest.get()
    }

    /// Whether no allocation that was asked for had more than [`MOST_FOR_A_BYTE`] bytes for each of those given.
    pub fn is_within(&self, given: usize) -> bool {
        self.largest.get() / MOST_FOR_A_BYTE <= given
    }

    /// Counts an allocation of so many bytes, and borrows the inner allocator unless it is to fail.
    fn borrow_inner(&self, size: usize) -> Option<&B>
        ensures { MatchOption result (Unit {0}) (λ inner. self.now.inner ≡ inner.now) }
    {
        self.largest.set(self.largest.get().max(size));
        let call = self.calls.get().wrapping_add(1);
        self.calls.set(call);
        if call == self.refused {
            None
        } else {
            Some(&self.inner)
        }
    }
}

unsafe impl<B: Allocator> Allocator for Refusing<B> {
    ghost dealloc_token = { λ heap ty ptr. B.dealloc_token heap.inner ty ptr };

    fn allocate(&self, size: usize, align: usize) -> Result<*mut u8, AllocError> {
        match self.borrow_inner(size) {
            Some(inner) => inner.allocate(size, align),
            None => Err(AllocError),
        }
    }

    unsafe fn deallocate(&self, ptr: *mut u8, size: usize, align: usize) {
        self.inner.deallocate(ptr, size, align);
    }
}
