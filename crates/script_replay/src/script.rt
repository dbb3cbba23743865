//! A script, read in pieces and cut into lines.

ghost use Rattle.std.specs.Prelude.{◌≡◌, ◌+◌, ◌^◌, ◌≤◌, false, None, IfOk, IsErrOf, OnOk};

use bytes::BytesMut;
use std::alloc::Allocator;
use std::io::Read;
use streams::{FillError, MOST_READS, Source, fill};

/// What is held of a script.
#[derive(Drop)]
pub(crate) struct Script<A: Allocator + Copy> {
    held: BytesMut<A>,
    /// That many bytes at the front of those that are held have no line feed.
    searched: usize,
    /// How many reads may still be made.
    reads_left: u64,
}

impl<A: Allocator + Copy> Script<A> {
    /// A script of which nothing is read.
    pub(crate) fn new(alloc: A) -> Script<A>
        ensures { result.reads_left ≡ 2 ^ 32 }
    {
        Script {
            held: BytesMut::new(alloc),
            searched: 0,
            reads_left: MOST_READS,
        }
    }

    /// The size of the first line, if its line feed is held.
    fn find_end(&mut self) -> Option<usize>
        ensures { self.new.reads_left ≡ self.old.reads_left }
    {
        let held = self.held.as_slice();
        let from = self.searched.min(held.len());
        match held[from..].iter().position(|byte| *byte == b'\n') {
            Some(at) => Some(from + at),
            None => {
                self.searched = held.len();
                None
            }
        }
    }

    /// Makes one read behind what is held, and tells whether bytes came, or the end of input.
    fn read_more<R: Read>(&mut self, source: &mut Source<R>) -> Result<bool, FillError>
        ensures few_reads { source.new.reads + self.new.reads_left
            ≤ source.old.reads + self.old.reads_left }
        ensures only_a_read_error_sets_the_flag { ¬ IsErrOf result FillError.Read
            → source.new.failed ≡ source.old.failed }
        ensures fails_no_read { OnOk result (source.new.failed ≡ false) }
    {
        if self.reads_left == 0 {
            return Err(FillError::Read);
        }
        self.reads_left -= 1;
        fill(source, &mut self.held, usize::MAX)
    }

    /// Reads until the first line is held, and gives its size, without its line feed; none at the end of
    /// the input. The last line may lack the line feed.
    pub(crate) fn hold_line<R: Read>(
        &mut self,
        source: &mut Source<R>,
    ) -> Result<Option<usize>, FillError>
        ensures few_reads { source.new.reads + self.new.reads_left
            ≤ source.old.reads + self.old.reads_left }
        ensures only_a_read_error_sets_the_flag { ¬ IsErrOf result FillError.Read
            → source.new.failed ≡ source.old.failed }
        ensures fails_no_read_at_the_end { IfOk result (λ size. size ≡ None
            → source.new.failed ≡ false) }
    {
        // Once more than the most reads, for a line that the last one brings.
        for _ in 0..MOST_READS + 1 {
            match self.find_end() {
                Some(size) => return Ok(Some(size)),
                None => {}
            }
            if !self.read_more(source)? {
                return Ok(self.rest());
            }
        }
        Err(FillError::Read)
    }

    /// The size of what is held, if it is something.
    fn rest(&self) -> Option<usize> {
        let size = self.held.len();
        if size > 0 { Some(size) } else { None }
    }

    /// The first bytes that are held, no more than `size`.
    pub(crate) fn front(&self, size: usize) -> &[u8] {
        let held = self.held.as_slice();
        &held[..size.min(held.len())]
    }

    /// Passes a line of that size and the byte behind it.
    pub(crate) fn pass(&mut self, size: usize)
        ensures { self.new.reads_left ≡ self.old.reads_left }
    {
        let count = size.saturating_add(1).min(self.held.len());
        self.held.advance(count);
        self.searched = 0;
    }
}
