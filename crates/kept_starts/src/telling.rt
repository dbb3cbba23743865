//! What is told of a directory's files while they are read: how far reading is, and what each of them is.

ghost use Rattle.std.specs.Prelude.{◌≡◌};

use broker_state::Role;
use data_directory::Name;
use journal::Head;
use journal::layout::{OLD_VERSION, VERSION};
use kept_rotations::{Unwatched, Watch};
use state_snapshots::ImageWatch;
use std::alloc::{AllocError, Allocator};

/// Who is told how far a start is, or a check.
pub trait Watching {
    /// A file of `size` bytes was read up to the offset `at`: another image of a snapshot, or another group of a journal. So
    /// far `frames` frames of all files were handled again.
    fn reached(&mut self, name: Name, at: u64, size: u64, frames: u64);
}

impl Watching for Unwatched {
    fn reached(&mut self, _name: Name, _at: u64, _size: u64, _frames: u64) {}
}

/// What a file of a directory is.
#[derive(Clone, Copy, PartialEq, Eq)]
pub enum What {
    /// The highest snapshot, which was read to its end.
    Snapshot {
        version: i16,
        role: Role,
        topics: u64,
        partitions: u64,
    },
    /// A journal behind it, which was read to the end of its last sound group.
    Journal {
        version: i16,
        groups: u64,
        frames: u64,
        /// The byte offset behind the last sound group.
        end: u64,
    },
    /// Its number is below that of the highest snapshot, which is this one: a start removes it.
    Below(u64),
    /// A journal that was being made: it has no group, and a start removes it.
    Unfinished,
    /// A snapshot in the making: a start removes it.
    Making,
    /// It wasn't read, as the directory was refused before.
    Unread,
}

/// A file of a directory, and what it is.
#[derive(Clone, Copy, PartialEq, Eq)]
pub struct FileFound {
    pub name: Name,
    /// How many bytes it has; 0 where that can't be told.
    pub size: u64,
    pub what: What,
}

/// The version of a journal that has this head.
fn version_of(head: &Head) -> i16 {
    match head.before {
        Some(_) => VERSION,
        None => OLD_VERSION,
    }
}

/// What is told while files are read.
#[derive(Drop)]
pub(crate) struct Telling<'a, W: Watching, A: Allocator> {
    watch: &'a mut W,
    /// Those that were read, in this order.
    files: Vec<FileFound, A>,
    /// The file that is being read.
    name: Name,
    /// How many groups were read of it.
    groups: u64,
    /// How many frames the files before it have.
    frames: u64,
}

impl<'a, W: Watching, A: Allocator> Watch for Telling<'a, W, A> {
    fn reached(&mut self, at: u64, size: u64, frames: u64) {
        self.groups = self.groups.saturating_add(1);
        self.watch
            .reached(self.name, at, size, self.frames.saturating_add(frames));
    }
}

impl<'a, W: Watching, A: Allocator> ImageWatch for Telling<'a, W, A> {
    fn restored(&mut self, at: u64, size: u64) {
        self.watch.reached(self.name, at, size, self.frames);
    }
}

impl<'a, W: Watching, A: Allocator> Telling<'a, W, A> {
    /// Nothing was read yet.
    pub(crate) fn new(alloc: A, watch: &'a mut W) -> Telling<'a, W, A> {
        Telling {
            watch,
            files: Vec::new(alloc),
            name: Name::Making,
            groups: 0,
            frames: 0,
        }
    }

    /// Another file is read.
    pub(crate) fn begin(&mut self, name: Name) {
        self.name = name;
        self.groups = 0;
    }

    /// The file is a snapshot, and was read.
    pub(crate) fn end_snapshot(
        &mut self,
        version: i16,
        role: Role,
        topics: u64,
        partitions: u64,
        size: u64,
    ) -> Result<(), AllocError> {
        let what = What::Snapshot {
            version,
            role,
            topics,
            partitions,
        };
        let name = self.name;
        Ok(self.files.push(FileFound { name, size, what })?)
    }

    /// The file is a journal with this head, and was read up to this end.
    pub(crate) fn end_journal(
        &mut self,
        head: &Head,
        frames: u64,
        end: u64,
        size: u64,
    ) -> Result<(), AllocError> {
        self.frames = self.frames.saturating_add(frames);
        let what = What::Journal {
            version: version_of(head),
            groups: self.groups,
            frames,
            end,
        };
        let name = self.name;
        Ok(self.files.push(FileFound { name, size, what })?)
    }

    /// How many frames were handled again of the files that were read.
    pub(crate) fn frames(&self) -> u64 {
        self.frames
    }

    /// What was told of the files that were read.
    pub(crate) fn into_files(self) -> Vec<FileFound, A> {
        self.files
    }
}
