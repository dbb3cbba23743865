//! A directory of the operating system.

ghost use Rattle.std.specs.Prelude.{◌≡◌, OnOk};

use crate::directory::{Directory, Kind};
use crate::names::Name;
use journal::FileDisk;
use journal::layout::KEY_SIZE;
use snapshot_drafts::FileDraft;
use std::alloc::{Alloc, AllocError, Allocator, Global};
use std::fs::{self, File, Files, Metadata, OpenOptions, TryLockError};
use std::io::{self, Error, ErrorKind};
use std::os::fd::AsRawFd;
use std::os::unix::fs::MetadataExt;
use std::random::RandomSource;
use std::string::String;

/// Where Linux shows what a process has open, by the number of each descriptor.
const DESCRIPTORS: &str = "/proc/self/fd";

/// What is said where the path of a directory leads to another one by now.
const ANOTHER: &str = "another directory stands there now";

/// What is said where a directory was removed that is still open.
const GONE: &str = "the directory was removed";

/// What is said where a sync of names failed before.
const UNSURE: &str = "a sync of its names failed before";

/// A directory of the operating system. It is opened once, and all calls go to what was opened then: where it was moved since, they
/// follow it. This needs `/proc`; where that isn't there, the path is compared with what was opened before each call, and another
/// directory at that path is refused. Between the comparison and the call a move isn't seen.
#[derive(Drop)]
pub struct Folder<'a, R: Files<File = File> + RandomSource + Alloc + Clone + Drop> {
    rt: &'a R,
    alloc: Global,
    path: &'a str,
    /// The directory itself, which may be locked while this is open.
    handle: File,
    /// Its device, and its number there.
    node: (u64, u64),
    /// The path by which its files are reached.
    at: String,
    /// Whether that path goes by the handle.
    is_by_handle: bool,
    /// Whether the directory was made when it was opened.
    is_made: bool,
    /// Whether its own name is on the disk for certain, as far as this is ours to see to.
    is_parent_synced: bool,
    is_unsure: bool,
}

/// Why a directory isn't opened.
#[derive(Drop)]
pub enum FolderError {
    /// Another process has locked it.
    InUse,
    /// A call of the system failed.
    Failed(Error),
}

impl From<Error> for FolderError {
    fn from(error: Error) -> FolderError {
        FolderError::Failed(error)
    }
}

/// Makes a directory whose parent is there, and tells whether it wasn't there yet.
fn make<R: Files>(rt: &R, path: &str) -> io::Result<bool> {
    match fs::create_dir(rt, path) {
        Ok(()) => Ok(true),
        Err(why) if why.kind() == ErrorKind::AlreadyExists => Ok(false),
        Err(why) => Err(why),
    }
}

/// The device of what a path or a descriptor leads to, and its number there.
fn node_of(found: &Metadata) -> (u64, u64) {
    (found.dev(), found.ino())
}

/// Whether nothing stands at a path, by the answer to a call.
fn is_nothing(why: &Error) -> bool {
    matches!(why.kind(), ErrorKind::NotFound | ErrorKind::NotADirectory)
}

/// Opens a directory.
fn open_directory<R: Files<File = File>>(rt: &R, path: &str) -> io::Result<File> {
    if !fs::metadata(rt, path)?.is_dir() {
        return Err(Error::from(ErrorKind::NotADirectory));
    }
    File::open(rt, path)
}

/// Whether a directory that was there before may stand in one that can't be synced for this reason: its name is somebody else's
/// matter then, or its file system knows no sync of a directory.
fn is_passed_over(why: &Error) -> bool {
    matches!(
        why.kind(),
        ErrorKind::PermissionDenied
            | ErrorKind::InvalidInput
            | ErrorKind::Unsupported
            | ErrorKind::ReadOnlyFilesystem
    )
}

/// Syncs the directory in which another stands. Where it is on another device, the other one is mounted there, and has no name in it.
fn sync_parent_of<R: Files<File = File>>(rt: &R, device: u64, parent: &str) -> io::Result<()> {
    if fs::metadata(rt, parent)?.dev() != device {
        return Ok(());
    }
    File::open(rt, parent)?.sync_all()
}

impl<'a, R: Files<File = File> + RandomSource + Alloc + Clone + Drop> Folder<'a, R> {
    /// Opens a directory and locks it. It is made if it isn't there; its parent must be. Nothing is synced: neither its names nor its
    /// own name are on the disk for certain before the first sync.
    ///
    /// # Errors
    ///
    /// `InUse` where another process has locked it; `Failed` where a call of the system failed.
    pub fn open(rt: &'a R, alloc: Global, path: &'a str) -> Result<Folder<'a, R>, FolderError> {
        let is_made = make(rt, path)?;
        let handle = open_directory(rt, path)?;
        match handle.try_lock() {
            Ok(()) => {}
            Err(TryLockError::WouldBlock) => return Err(FolderError::InUse),
            Err(TryLockError::Error(why)) => return Err(FolderError::Failed(why)),
        }
        Ok(Folder::over(rt, (alloc, path), handle, is_made)?)
    }

    /// Opens a directory that is there, to look at its files: it is neither made nor locked, and another process may have it locked.
    ///
    /// # Errors
    ///
    /// What the system says, where it can't be opened; `NotADirectory` where something else stands there.
    pub fn look(rt: &'a R, alloc: Global, path: &'a str) -> io::Result<Folder<'a, R>> {
        let handle = open_directory(rt, path)?;
        Folder::over(rt, (alloc, path), handle, false)
    }

    /// The directory that is open, and how its files are reached.
    fn over(
        rt: &'a R,
        (alloc, path): (Global, &'a str),
        handle: File,
        is_made: bool,
    ) -> io::Result<Folder<'a, R>> {
        let node = node_of(&handle.metadata()?);
        let by_handle = format!(in alloc; "{DESCRIPTORS}/{}", handle.as_raw_fd())?;
        let is_by_handle = match fs::metadata(rt, by_handle.as_str()) {
            Ok(found) => node_of(&found) == node,
            Err(_) => false,
        };
        let at = if is_by_handle {
            by_handle
        } else {
            String::from_str(alloc, path)?
        };
        Ok(Folder {
            rt,
            alloc,
            path,
            handle,
            node,
            at,
            is_by_handle,
            is_made,
            is_parent_synced: false,
            is_unsure: false,
        })
    }

    /// Refuses where files are reached by the path, and another directory stands there by now, or none.
    fn refuse_another(&self) -> io::Result<()> {
        if self.is_by_handle {
            return Ok(());
        }
        match fs::metadata(self.rt, self.path) {
            Ok(found) if node_of(&found) == self.node => Ok(()),
            Ok(_) => Err(Error::other(ANOTHER)),
            Err(why) if is_nothing(&why) => Err(Error::other(ANOTHER)),
            Err(why) => Err(why),
        }
    }

    /// The path of a file, if its directory is the one that was opened.
    fn path_of(&self, name: Name) -> io::Result<String> {
        self.refuse_another()?;
        Ok(format!(in self.alloc; "{}/{name}", self.at)?)
    }

    /// What makes calls of the system.
    pub(crate) fn runtime(&self) -> &R {
        self.rt
    }

    /// Where memory comes from.
    pub(crate) fn allocator(&self) -> Global {
        self.alloc
    }

    /// The path of a file that is neither a snapshot nor a journal, if its directory is the one that was opened.
    pub(crate) fn path_beside(&self, name: &str) -> io::Result<String> {
        self.refuse_another()?;
        Ok(format!(in self.alloc; "{}/{name}", self.at)?)
    }

    /// The path of a file that is to be made, renamed, removed or shortened. Where another directory stands there, this is noted.
    fn path_to_change(&mut self, name: Name) -> io::Result<String>
        ensures { OnOk result (self.new.is_unsure ≡ self.old.is_unsure) }
    {
        match self.path_of(name) {
            Ok(path) => Ok(path),
            Err(why) => {
                self.is_unsure = self.is_unsure || why.kind() == ErrorKind::Other;
                Err(why)
            }
        }
    }

    /// A file that was to be made. Where there is no such directory any more, it was removed while it was open: what is kept in it
    /// is lost with it, so this is noted.
    fn made(&mut self, told: io::Result<File>) -> io::Result<File>
        ensures { OnOk result (self.new.is_unsure ≡ self.old.is_unsure) }
    {
        match told {
            Err(why) if why.kind() == ErrorKind::NotFound => {
                self.is_unsure = true;
                Err(Error::other(GONE))
            }
            told => told,
        }
    }

    /// Has the names on the disk for certain, and with the first sync the directory's own name. Where the directory was there before,
    /// in one that can't be read or synced, its name is somebody else's matter.
    fn sync_names(&mut self) -> io::Result<()>
        ensures { self.new.is_unsure ≡ self.old.is_unsure }
    {
        self.refuse_another()?;
        self.handle.sync_all()?;
        if self.is_parent_synced {
            return Ok(());
        }
        let parent = format!(in self.alloc; "{}/..", self.at)?;
        let (device, _) = self.node;
        match sync_parent_of(self.rt, device, parent.as_str()) {
            Err(why) if self.is_made || !is_passed_over(&why) => return Err(why),
            _ => {}
        }
        self.is_parent_synced = true;
        Ok(())
    }
}

impl<'a, R: Files<File = File> + RandomSource + Alloc + Clone + Drop> Directory for Folder<'a, R> {
    ghost use Rattle.std.specs.Prelude.{⊤};
    ghost use Rattle.data_directory.specs.Directories.{unknown};

    type File = FileDisk;

    type Draft = FileDraft;

    ghost state = { λ folder. unknown };

    ghost gives = { λ folder name file. ⊤ };

    ghost unsure = { λ folder. folder.is_unsure };

    ghost is_drawn = { λ key. ⊤ };

    fn names<A: Allocator + Copy>(&self, alloc: A) -> io::Result<Vec<Name, A>> {
        self.refuse_another()?;
        let mut names = Vec::new(alloc);
        for entry in fs::read_dir(self.rt, self.at.as_str())? {
            match entry {
                Ok(entry) => {
                    if let Some(name) = Name::of(entry.file_name()) {
                        names.push(name)?;
                    }
                }
                // A name that is no text is none of a broker's.
                Err(why) if why.kind() == ErrorKind::InvalidFilename => {}
                Err(why) => return Err(why),
            }
        }
        Ok(names)
    }

    fn kind(&self, name: Name) -> io::Result<Kind> {
        match fs::symlink_metadata(self.rt, self.path_of(name)?) {
            Ok(found) if found.is_file() => Ok(Kind::File),
            Ok(_) => Ok(Kind::Other),
            Err(why) if why.kind() == ErrorKind::NotFound => Ok(Kind::Nothing),
            Err(why) => Err(why),
        }
    }

    fn is_unsure(&self) -> bool {
        self.is_unsure
    }

    fn open(&self, name: Name) -> io::Result<FileDisk> {
        Ok(FileDisk::new(File::open(self.rt, self.path_of(name)?)?))
    }

    // Whatever offset is given, Linux appends what is written through a descriptor that was opened to append; so there are two.
    fn open_to_write(&self, name: Name) -> io::Result<FileDisk> {
        let path = self.path_of(name)?;
        let file = OpenOptions::new()
            .read(true)
            .append(true)
            .open(self.rt, path.as_str())?;
        let over = OpenOptions::new().write(true).open(self.rt, path.as_str())?;
        Ok(FileDisk::to_rewrite(file, over))
    }

    fn create(&mut self, name: Name) -> io::Result<FileDisk> {
        let path = self.path_to_change(name)?;
        let told = OpenOptions::new()
            .read(true)
            .append(true)
            .create_new(true)
            .open(self.rt, path);
        Ok(FileDisk::new(self.made(told)?))
    }

    fn draft(&mut self) -> io::Result<FileDraft> {
        let path = self.path_to_change(Name::Making)?;
        let told = OpenOptions::new()
            .write(true)
            .create_new(true)
            .open(self.rt, path);
        Ok(FileDraft::new(self.made(told)?))
    }

    fn publish(&mut self, draft: FileDraft, number: u64) -> io::Result<()> {
        drop(draft);
        let named = self.path_to_change(Name::Snapshot(number))?;
        if self.kind(Name::Snapshot(number))? != Kind::Nothing {
            return Err(Error::from(ErrorKind::AlreadyExists));
        }
        fs::rename(self.rt, self.path_of(Name::Making)?, named)
    }

    fn remove(&mut self, name: Name) -> io::Result<()> {
        let path = self.path_to_change(name)?;
        fs::remove_file(self.rt, path)
    }

    fn shorten(&mut self, name: Name, size: u64) -> io::Result<()> {
        let path = self.path_to_change(name)?;
        let file = OpenOptions::new().write(true).open(self.rt, path)?;
        if file.metadata()?.len() <= size {
            return Ok(());
        }
        file.set_len(size)
    }

    fn sync(&mut self) -> io::Result<()> {
        if self.is_unsure {
            return Err(Error::other(UNSURE));
        }
        let told = self.sync_names();
        self.is_unsure = told.is_err();
        told
    }

    fn draw_key(&mut self) -> io::Result<[u8; KEY_SIZE]> {
        let mut key = [0; KEY_SIZE];
        self.rt.fill_bytes(&mut key)?;
        Ok(key)
    }
}
