//! The bytes of a file in memory: what a read gives, and what a crash leaves of them.

use journal::SECTOR_SIZE;
use std::alloc::{AllocError, Allocator};

/// What a crash leaves of a file behind the bytes that are on the disk for certain.
#[derive(Clone, Copy, Debug, PartialEq, Eq)]
pub enum Left {
    /// The first so many bytes. Where it was cut since the last sync, none stands for what was there before the cut.
    Front(usize),
    /// All bytes, of which those behind the first so many are zeros.
    Filled(usize),
    /// All bytes, but for zeros in the sector of this number, counted from the front of the file.
    Torn(usize),
}

/// The bytes of a file.
#[derive(Drop)]
pub(crate) struct StoredFile<A: Allocator + Copy> {
    alloc: A,
    /// What a read gives.
    bytes: Vec<u8, A>,
    /// What a read gave when it was synced last.
    synced: Vec<u8, A>,
    /// How many bytes of these are on the disk for certain: all, unless it was cut since.
    certain: usize,
    /// From which byte up to which one a read gives what isn't on the disk, and what no sync brings there: zeros stand there.
    hole: (usize, usize),
}

/// Makes zeros of the bytes of a hole, as far as there are any.
fn empty(bytes: &mut [u8], (from, to): (usize, usize)) {
    let to = to.min(bytes.len());
    let from = from.min(to);
    bytes[from..to].fill(0);
}

impl<A: Allocator + Copy> StoredFile<A> {
    /// A file with these bytes, all of them on the disk for certain.
    pub(crate) fn new(alloc: A, bytes: &[u8]) -> Result<StoredFile<A>, AllocError> {
        Ok(StoredFile {
            alloc,
            bytes: bytes.to_vec(alloc)?,
            synced: bytes.to_vec(alloc)?,
            certain: bytes.len(),
            hole: (0, 0),
        })
    }

    /// A file with these bytes, none of which is on the disk for certain.
    pub(crate) fn unsynced(alloc: A, bytes: &[u8]) -> Result<StoredFile<A>, AllocError> {
        let mut file = StoredFile::new(alloc, b"")?;
        file.append(bytes)?;
        Ok(file)
    }

    /// The same once more.
    pub(crate) fn copy(&self) -> Result<StoredFile<A>, AllocError> {
        Ok(StoredFile {
            alloc: self.alloc,
            bytes: self.bytes.to_vec(self.alloc)?,
            synced: self.synced.to_vec(self.alloc)?,
            certain: self.certain,
            hole: self.hole,
        })
    }

    /// What a read gives.
    pub(crate) fn bytes(&self) -> &[u8] {
        &self.bytes
    }

    /// What a read gives once the system has forgotten what it had of the file in memory, but for what is still to be written.
    pub(crate) fn forget(&mut self) {
        empty(&mut self.bytes, self.hole);
    }

    /// How many bytes stand behind those that are on the disk for certain.
    pub(crate) fn uncertain(&self) -> usize {
        self.bytes.len().saturating_sub(self.certain)
    }

    /// The first sector that has bytes which aren't on the disk for certain.
    pub(crate) fn first_sector(&self) -> usize {
        self.certain / SECTOR_SIZE
    }

    /// One behind the last sector that has bytes.
    pub(crate) fn end_sector(&self) -> usize {
        self.bytes.len().div_ceil(SECTOR_SIZE)
    }

    /// Whether it has the same bytes as another, and as many of them on the disk for certain.
    pub(crate) fn is_same(&self, other: &StoredFile<A>) -> bool {
        self.bytes == other.bytes
            && self.synced == other.synced
            && self.certain == other.certain
            && self.hole == other.hole
    }

    /// Writes bytes at an offset, in the place of those that stand there; zeros stand before them where nothing did.
    pub(crate) fn write_at(&mut self, at: u64, bytes: &[u8]) -> Result<(), AllocError> {
        let at = at as usize;
        let Some(end) = at.checked_add(bytes.len()) else {
            return Err(AllocError);
        };
        if self.bytes.len() < end {
            self.bytes.resize(end, 0)?;
        }
        self.bytes[at..end].copy_from_slice(bytes);
        self.fill_hole(at, end);
        self.certain = self.certain.min(at);
        Ok(())
    }

    /// Writes bytes again that stand at an offset. What is on the disk for certain stays so; what isn't there is written with
    /// the next sync.
    pub(crate) fn rewrite(&mut self, at: u64, bytes: &[u8]) -> Result<(), AllocError> {
        let (from, to) = self.hole;
        let certain = self.certain;
        self.write_at(at, bytes)?;
        let at = at as usize;
        let meets = at < to && from < at.saturating_add(bytes.len());
        self.certain = if meets {
            certain.min(at.max(from))
        } else {
            certain
        };
        Ok(())
    }

    /// Takes what was written out of the hole, at its front or its end.
    fn fill_hole(&mut self, at: usize, end: usize) {
        let (from, to) = self.hole;
        if at <= from && from < end {
            self.hole = (end.min(to), to);
        } else if at < to && to <= end {
            self.hole = (from, at);
        }
    }

    /// Writes bytes behind the others.
    pub(crate) fn append(&mut self, bytes: &[u8]) -> Result<(), AllocError> {
        self.bytes.extend_from_slice(bytes)
    }

    /// Has all bytes on the disk for certain, but for those of the hole.
    pub(crate) fn sync(&mut self) -> Result<(), AllocError> {
        self.synced = self.bytes.to_vec(self.alloc)?;
        empty(&mut self.synced, self.hole);
        self.certain = self.bytes.len();
        Ok(())
    }

    /// A sync fails, and what it was to write is taken for written from then on.
    pub(crate) fn lose(&mut self) {
        let (from, to) = self.hole;
        let end = self.bytes.len();
        let start = self.certain.min(end);
        self.hole = if from < to {
            (from.min(start), end)
        } else {
            (start, end)
        };
    }

    /// Cuts it to so many bytes.
    pub(crate) fn cut(&mut self, size: u64) {
        let size = size as usize;
        self.bytes.truncate(size);
        self.certain = self.certain.min(size);
        let (from, to) = self.hole;
        self.hole = (from.min(size), to.min(size));
    }

    /// The bytes that are on the disk for certain, and so many of the others.
    fn front(&self, count: usize) -> Result<Vec<u8, A>, AllocError> {
        let end = self.certain.saturating_add(count);
        self.bytes
            .get(..end)
            .unwrap_or(&self.bytes)
            .to_vec(self.alloc)
    }

    /// The bytes with zeros in a sector, but for those that are on the disk for certain.
    fn torn(&self, sector: usize) -> Result<Vec<u8, A>, AllocError> {
        let start = sector.saturating_mul(SECTOR_SIZE);
        let end = start.saturating_add(SECTOR_SIZE).max(self.certain);
        let mut left = self.front(start.saturating_sub(self.certain))?;
        left.resize(end.min(self.bytes.len()), 0)?;
        left.extend_from_slice(self.bytes.get(end..).unwrap_or(b""))?;
        Ok(left)
    }

    /// What a crash leaves.
    pub(crate) fn left(&self, how: Left) -> Result<Vec<u8, A>, AllocError> {
        let mut left = self.left_of(how)?;
        empty(&mut left, self.hole);
        Ok(left)
    }

    /// What a crash leaves where a read gives what is on the disk.
    fn left_of(&self, how: Left) -> Result<Vec<u8, A>, AllocError> {
        match how {
            Left::Front(0) => self.synced.to_vec(self.alloc),
            Left::Front(count) => self.front(count),
            Left::Filled(count) => {
                let mut left = self.front(count)?;
                left.resize(self.bytes.len(), 0)?;
                Ok(left)
            }
            Left::Torn(sector) => self.torn(sector),
        }
    }
}
