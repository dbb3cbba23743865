//! The file in which a broker keeps the marks of its own cleanings, beside its snapshots and journals.

use crate::folder::Folder;
use journal::{Disk, FileDisk, ReadError, read_bytes};
use std::alloc::{Alloc, Global};
use std::fs::{self, File, Files, OpenOptions};
use std::io::{self, Error, ErrorKind, Write};
use std::random::RandomSource;
use std::string::String;

/// The name of the file.
const CLEANINGS: &str = "cleanings";

/// The name that it has while it is written.
const MAKING: &str = "cleanings.tmp";

/// What was found where the marks are kept.
#[derive(Drop)]
pub enum Cleanings {
    /// Nothing.
    Nothing,
    /// A directory, a link, a pipe or another thing that is no regular file. It wasn't opened.
    NoFile,
    /// A file with more bytes than were asked for: so many. None of them was read.
    TooLarge(u64),
    /// The bytes of a file.
    Bytes(Vec<u8>),
}

/// A directory in which the marks of a broker's own cleanings are kept. They are in no other file, and a broker does without them: so
/// none of the calls says anything of a [`Name`](crate::Name).
pub trait KeepsCleanings {
    /// The bytes of the file `cleanings`, if it is there and has at most so many. It is looked at before it is opened, and only a
    /// regular file is opened. The memory for the bytes grows as they come.
    ///
    /// # Errors
    ///
    /// What the system says; `OutOfMemory`; `UnexpectedEof` where the file was cut meanwhile.
    fn read_cleanings(&self, most: usize) -> io::Result<Cleanings>;

    /// Has the file `cleanings` be of these bytes. They are written to `cleanings.tmp`, which is made anew and gets the name then: so
    /// it is there as a whole or as it was. Nothing is synced: a power cut may leave either file, or one with other bytes.
    ///
    /// # Errors
    ///
    /// What the system says. The former file is as it was then, and `cleanings.tmp` is removed if it can be.
    fn write_cleanings(&self, bytes: &[u8]) -> io::Result<()>;

    /// Removes the file `cleanings`, whatever it is, and tells whether anything was there. A link or a pipe goes itself; a directory
    /// stays, and is told as an error. That it is gone is on the disk for certain once the directory's names are synced.
    ///
    /// # Errors
    ///
    /// What the system says.
    fn remove_cleanings(&self) -> io::Result<bool>;
}

/// The bytes of a file, if it has at most so many.
fn read_whole(alloc: Global, file: File, most: usize) -> io::Result<Cleanings> {
    let disk = FileDisk::new(file);
    let size = disk.len()?;
    let count = match usize::try_from(size) {
        Ok(count) if count <= most => count,
        _ => return Ok(Cleanings::TooLarge(size)),
    };
    let mut bytes = Vec::new(alloc);
    match read_bytes(&disk, 0, count, &mut bytes) {
        Ok(()) => Ok(Cleanings::Bytes(bytes)),
        Err(ReadError::OutOfMemory) => Err(Error::from(ErrorKind::OutOfMemory)),
        Err(ReadError::OnDisk(why)) => Err(why),
    }
}

/// Removes what stands at a path, and tells whether anything did.
fn remove_any<R: Files>(rt: &R, path: &str) -> io::Result<bool> {
    match fs::remove_file(rt, path) {
        Ok(()) => Ok(true),
        Err(why) if why.kind() == ErrorKind::NotFound => Ok(false),
        Err(why) => Err(why),
    }
}

/// Makes a file of these bytes at a path where nothing stands.
fn write_new<R: Files<File = File>>(rt: &R, path: &str, bytes: &[u8]) -> io::Result<()> {
    let mut file = OpenOptions::new()
        .write(true)
        .create_new(true)
        .open(rt, path)?;
    file.write_all(bytes)
}

/// Makes a file of these bytes at a path where nothing stands, and gives it another name.
fn write_and_name<R: Files<File = File>>(
    rt: &R,
    path: &str,
    name: &str,
    bytes: &[u8],
) -> io::Result<()> {
    write_new(rt, path, bytes)?;
    fs::rename(rt, path, name)
}

impl<'a, R: Files<File = File> + RandomSource + Alloc + Clone + Drop> KeepsCleanings
    for Folder<'a, R> {
    fn read_cleanings(&self, most: usize) -> io::Result<Cleanings> {
        let path = self.path_beside(CLEANINGS)?;
        match fs::symlink_metadata(self.runtime(), path.as_str()) {
            Ok(found) if found.is_file() => {}
            Ok(_) => return Ok(Cleanings::NoFile),
            Err(why) if why.kind() == ErrorKind::NotFound => return Ok(Cleanings::Nothing),
            Err(why) => return Err(why),
        }
        read_whole(self.allocator(), File::open(self.runtime(), path)?, most)
    }

    fn write_cleanings(&self, bytes: &[u8]) -> io::Result<()> {
        let made = self.path_beside(MAKING)?;
        let named = self.path_beside(CLEANINGS)?;
        remove_any(self.runtime(), made.as_str())?;
        match write_and_name(self.runtime(), made.as_str(), named.as_str(), bytes) {
            Ok(()) => Ok(()),
            Err(why) => {
                // What can't be removed is overwritten the next time, or stays: nothing is read from it.
                let _removed = remove_any(self.runtime(), made.as_str());
                Err(why)
            }
        }
    }

    fn remove_cleanings(&self) -> io::Result<bool> {
        remove_any(self.runtime(), self.path_beside(CLEANINGS)?.as_str())
    }
}
