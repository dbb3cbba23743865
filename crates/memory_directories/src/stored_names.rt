//! The names of a directory in memory: those that are there, and those that a crash leaves.

use data_directory::Name;
use std::alloc::{AllocError, Allocator};

/// One more than the highest number that a name may have.
const NUMBERS: usize = 12;

/// The files that a broker's names have, by their numbers. No other name is had.
#[derive(Clone, Copy, PartialEq, Eq)]
pub(crate) struct Names {
    snapshots: [Option<usize>; NUMBERS],
    journals: [Option<usize>; NUMBERS],
    making: Option<usize>,
}

/// The file at a number.
fn file_at(files: &[Option<usize>], number: u64) -> Option<usize> {
    *files.get(number as usize)?
}

/// Puts a file, or none, at a number.
fn set_at(files: &mut [Option<usize>], number: u64, file: Option<usize>) {
    if let Some(there) = files.get_mut(number as usize) {
        *there = file;
    }
}

impl Names {
    /// No name.
    pub(crate) fn new() -> Names {
        Names {
            snapshots: [None; NUMBERS],
            journals: [None; NUMBERS],
            making: None,
        }
    }

    /// The file that has a name.
    pub(crate) fn file(&self, name: Name) -> Option<usize> {
        match name {
            Name::Snapshot(number) => file_at(&self.snapshots, number),
            Name::Journal(number) => file_at(&self.journals, number),
            Name::Making => self.making,
        }
    }

    /// Gives a name to a file, or to none.
    fn set(&mut self, name: Name, file: Option<usize>) {
        match name {
            Name::Snapshot(number) => set_at(&mut self.snapshots, number, file),
            Name::Journal(number) => set_at(&mut self.journals, number, file),
            Name::Making => self.making = file,
        }
    }

    /// Appends the names that are had.
    pub(crate) fn put<A: Allocator + Copy>(
        &self,
        list: &mut Vec<Name, A>,
    ) -> Result<(), AllocError> {
        for number in 1..NUMBERS as u64 {
            for name in [Name::Snapshot(number), Name::Journal(number)] {
                if self.file(name).is_some() {
                    list.push(name)?;
                }
            }
        }
        if self.making.is_some() {
            list.push(Name::Making)?;
        }
        Ok(())
    }

    /// Makes a change.
    fn make(&mut self, change: Change) {
        match change {
            Change::Made(name, file) => self.set(name, Some(file)),
            Change::Removed(name) => self.set(name, None),
            Change::Renamed(from, to, file) => {
                self.set(from, None);
                self.set(to, Some(file));
            }
        }
    }
}

/// A change of names, which a crash leaves as a whole or not at all.
#[derive(Clone, Copy, PartialEq, Eq)]
pub(crate) enum Change {
    /// A file got this name.
    Made(Name, usize),
    /// No file has this name any more.
    Removed(Name),
    /// A file got the second name in place of the first.
    Renamed(Name, Name, usize),
}

/// Names, and those that a crash leaves.
#[derive(Drop)]
pub(crate) struct StoredNames<A: Allocator + Copy> {
    alloc: A,
    names: Names,
    /// The names when they were synced last.
    synced: Names,
    /// What changed since.
    changes: Vec<Change, A>,
}

impl<A: Allocator + Copy> StoredNames<A> {
    /// These names, which are on the disk for certain.
    pub(crate) fn new(alloc: A, names: Names) -> StoredNames<A> {
        StoredNames {
            alloc,
            names,
            synced: names,
            changes: Vec::new(alloc),
        }
    }

    /// The same once more.
    pub(crate) fn copy(&self) -> Result<StoredNames<A>, AllocError> {
        Ok(StoredNames {
            alloc: self.alloc,
            names: self.names,
            synced: self.synced,
            changes: self.changes.to_vec(self.alloc)?,
        })
    }

    /// The names that are there.
    pub(crate) fn names(&self) -> Names {
        self.names
    }

    /// Whether the same names are there as in another, and a crash leaves the same.
    pub(crate) fn is_same(&self, other: &StoredNames<A>) -> bool {
        self.synced == other.synced && self.changes.as_slice() == other.changes.as_slice()
    }

    /// Makes a change.
    pub(crate) fn make(&mut self, change: Change) -> Result<(), AllocError> {
        self.changes.push(change)?;
        self.names.make(change);
        Ok(())
    }

    /// Has the names on the disk for certain.
    pub(crate) fn sync(&mut self) {
        self.synced = self.names;
        self.changes.clear();
    }

    /// How many sets of changes there are that a crash may leave.
    pub(crate) fn sets(&self) -> u32 {
        let mut sets = 1_u32;
        for _ in &self.changes {
            sets = sets.saturating_mul(2);
        }
        sets
    }

    /// The names that a crash leaves: of the changes since the last sync those whose bits are set, from the lowest on.
    pub(crate) fn left(&self, set: u32) -> Names {
        let mut names = self.synced;
        let mut bits = set;
        for change in &self.changes {
            if bits % 2 == 1 {
                names.make(*change);
            }
            bits /= 2;
        }
        names
    }
}
