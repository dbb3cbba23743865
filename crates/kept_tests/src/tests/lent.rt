//! A disk in memory that is lent to a journal or to a reader, so that its bytes are seen behind it.

ghost use Rattle.std.specs.Prelude.{None, true, ⊤};

use journal::{Disk, MemoryDisk};
use std::alloc::{AllocError, Allocator};
use std::cell::Cell;
use std::io;

/// A disk in memory, what of it was synced, and what a call that failed may have left more of.
#[derive(Drop)]
pub(crate) struct Watched<A: Allocator + Copy> {
    pub(crate) disk: MemoryDisk<A>,
    /// How many bytes are on the disk for certain.
    pub(crate) synced: usize,
    /// The bytes of an append that failed.
    pub(crate) lost: Vec<u8, A>,
    /// Whether an append that fails leaves half of its bytes.
    pub(crate) is_tearing: bool,
    /// Which call fails behind an append that failed, counted from it; none where it is 0.
    pub(crate) then: u64,
    /// From which byte on a read gives zeros.
    pub(crate) gone: Cell<usize>,
    /// The first byte that was written again, and how many were.
    pub(crate) again: (usize, usize),
}

impl<A: Allocator + Copy> Watched<A> {
    /// A disk with these bytes.
    pub(crate) fn new(alloc: A, bytes: &[u8]) -> Result<Watched<A>, AllocError> {
        Ok(Watched {
            disk: MemoryDisk::new(alloc, bytes)?,
            synced: bytes.len(),
            lost: Vec::new(alloc),
            is_tearing: false,
            then: 0,
            gone: Cell::new(usize::MAX),
            again: (usize::MAX, 0),
        })
    }

    /// Appends so many of the bytes, and tells whether that was done.
    fn append_front(&mut self, bytes: &[u8], count: usize) -> bool {
        match bytes.get(..count) {
            Some(front) => self.disk.append(front).is_ok(),
            None => false,
        }
    }

    /// Notes what is lost of an append that failed, where it leaves half of its bytes or none.
    fn lose(&mut self, bytes: &[u8]) {
        let half = bytes.len() / 2;
        let is_torn = self.is_tearing && self.append_front(bytes, half);
        let from = if is_torn { half } else { 0 };
        let _kept = self
            .lost
            .extend_from_slice(bytes.get(from..).unwrap_or(b""));
        let then = self.then;
        self.disk.fail_at(then);
    }
}

/// The same, lent.
#[derive(Drop)]
pub(crate) struct Lent<'a, A: Allocator + Copy> {
    pub(crate) watched: &'a mut Watched<A>,
}

impl<'a, A: Allocator + Copy> Disk for Lent<'a, A> {
    ghost seen = { λ disk. None };

    ghost may_leave = { λ disk c. ⊥ };

    ghost moment = { λ disk. 0 };

    ghost left_since = { λ disk t c. ⊥ };

    ghost written = { λ disk i. ⊤ };

    ghost may_fail = { λ disk. true };

    ghost has_failed = { λ disk. true };

    ghost counts_now = { λ disk t c le left. left };

    ghost only_now = { λ disk c left. left };

    fn append(&mut self, bytes: &[u8]) -> io::Result<()> {
        let written = self.watched.disk.append(bytes);
        if written.is_err() {
            self.watched.lose(bytes);
        }
        written
    }

    fn rewrite(&mut self, at: u64, bytes: &[u8]) -> io::Result<()> {
        // Counted as a call of the disk, which may fail.
        self.watched.disk.len()?;
        let at = at as usize;
        let end = at.saturating_add(bytes.len());
        if self.watched.disk.bytes().get(at..end) != Some(bytes) {
            return Err(io::Error::from(io::ErrorKind::InvalidInput));
        }
        let (first, count) = self.watched.again;
        self.watched.again = (first.min(at), count.saturating_add(bytes.len()));
        Ok(())
    }

    fn sync(&mut self) -> io::Result<()> {
        self.watched.disk.sync()?;
        self.watched.synced = self.watched.disk.bytes().len();
        Ok(())
    }

    fn cut(&mut self, size: u64) -> io::Result<()> {
        if size > self.watched.disk.bytes().len() as u64 {
            return Err(io::Error::from(io::ErrorKind::InvalidInput));
        }
        self.watched.disk.cut(size)?;
        self.watched.lost.clear();
        Ok(())
    }

    fn len(&self) -> io::Result<u64> {
        self.watched.disk.len()
    }

    fn read_at(&self, at: u64, room: &mut [u8]) -> io::Result<usize> {
        let count = self.watched.disk.read_at(at, room)?;
        let gone = self.watched.gone.get().saturating_sub(at as usize);
        if let Some(lost) = room.get_mut(gone.min(count)..count) {
            lost.fill(0);
        }
        Ok(count)
    }
}
