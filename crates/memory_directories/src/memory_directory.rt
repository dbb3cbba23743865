//! A directory in memory, of whose calls one can fail, and what a crash leaves of it.

ghost use Rattle.std.specs.Prelude.{◌≡◌, ◌≤◌, IfOk, None, ⊤, length, true};

use crate::stored_files::{Left, StoredFile};
use crate::stored_names::{Change, Names, StoredNames};
use data_directory::{Directory, Kind, Name};
use journal::Disk;
use journal::layout::KEY_SIZE;
use snapshot_drafts::DraftFile;
use std::alloc::{AllocError, Allocator};
use std::cell::{RefCell, RefMut};
use std::io::{self, Error, ErrorKind};

/// The bytes that are drawn for a journal.
const DRAWN: [u8; KEY_SIZE] = *b"01234567";

/// How a call fails.
#[derive(Clone, Copy, Debug, PartialEq, Eq)]
pub enum Way {
    /// It does nothing; but of an append one half is written. Calls behind it work.
    Alone,
    /// It does nothing, as well, and no call behind it does anything.
    Last,
    /// It does its work and says that it failed, and no call behind it does anything.
    Untold,
    /// It fails as one that fails alone. Where it is the sync of a file, the system takes what was to be written for written from
    /// then on: it is read, and no sync writes it.
    Lost,
    /// It works. From it on the system has forgotten what it had of files in memory, but for what is still to be written.
    Gone,
    /// It and all behind it that write bytes write one half and find no room for the other, until a name is gone.
    Full,
}

/// What becomes of a call.
#[derive(Clone, Copy)]
enum Fate {
    /// It works.
    Works,
    /// It works and says that it failed.
    Untold,
    /// It fails half done, if it can be.
    Half,
    /// It fails, and what it was to write is taken for written.
    Lost,
    /// It finds no room for more than the half of its bytes.
    Full,
    /// It fails.
    Fails,
}

/// What a call that fails answers.
fn failure() -> Error {
    Error::from(ErrorKind::Other)
}

impl Fate {
    /// What a call answers that did its work.
    fn told(self) -> io::Result<()> {
        match self {
            Fate::Works => Ok(()),
            Fate::Full => Err(Error::from(ErrorKind::StorageFull)),
            _ => Err(failure()),
        }
    }

    /// Refuses a call that isn't to do its work.
    fn begin(self) -> io::Result<Fate> {
        match self {
            Fate::Works | Fate::Untold => Ok(self),
            _ => Err(failure()),
        }
    }

    /// How many of so many bytes a call writes.
    fn written(self, size: usize) -> usize {
        match self {
            Fate::Works | Fate::Untold => size,
            Fate::Half | Fate::Lost | Fate::Full => size / 2,
            Fate::Fails => 0,
        }
    }
}

/// The files and names of a directory.
#[derive(Drop)]
pub struct Store<A: Allocator + Copy> {
    alloc: A,
    files: Vec<StoredFile<A>, A>,
    names: StoredNames<A>,
    /// How many calls were made since one was chosen to fail.
    calls: u64,
    /// The number of that call, counted from 1; none fails where it is 0.
    failing: u64,
    way: Way,
    /// How many appends found no room.
    refused: u64,
    /// By the numbers of snapshots, how many frames had been handled before the journal of that number.
    bases: [u64; BASES],
}

/// One more than the highest number of a snapshot.
const BASES: usize = 12;

impl<A: Allocator + Copy> Store<A> {
    /// An empty directory.
    pub fn new(alloc: A) -> Store<A> {
        Store {
            alloc,
            files: Vec::new(alloc),
            names: StoredNames::new(alloc, Names::new()),
            calls: 0,
            failing: 0,
            way: Way::Alone,
            refused: 0,
            bases: [0; BASES],
        }
    }

    /// From now on the call of this number fails, counted from 1 from now on; none where it is 0.
    pub fn fail_at(&mut self, call: u64, way: Way) {
        self.calls = 0;
        self.failing = call;
        self.way = way;
    }

    /// How many calls were made since then.
    pub fn calls(&self) -> u64 {
        self.calls
    }

    /// The same files and names once more. No call of it is to fail.
    pub fn copy(&self) -> Result<Store<A>, AllocError> {
        let mut copy = Store::new(self.alloc);
        for file in &self.files {
            copy.files.push(file.copy()?)?;
        }
        copy.names = self.names.copy()?;
        copy.bases = self.bases;
        Ok(copy)
    }

    /// Puts a file there that has these bytes. Neither they nor its name are on the disk for certain.
    pub fn put(&mut self, name: Name, bytes: &[u8]) -> Result<(), AllocError> {
        let file = self.files.len();
        self.files.push(StoredFile::unsynced(self.alloc, bytes)?)?;
        self.names.make(Change::Made(name, file))
    }

    /// The same files and names, as they are put back from a copy: nothing of them is on the disk for certain.
    pub fn put_back(&self) -> Result<Store<A>, AllocError> {
        let mut names = Vec::new(self.alloc);
        self.names.names().put(&mut names)?;
        let mut back = Store::new(self.alloc);
        for name in &names {
            if let Some(bytes) = self.bytes(*name) {
                back.put(*name, bytes)?;
            }
        }
        back.bases = self.bases;
        Ok(back)
    }

    /// The bytes of the file that has a name.
    pub fn bytes(&self, name: Name) -> Option<&[u8]> {
        Some(self.files.get(self.names.names().file(name)?)?.bytes())
    }

    /// How many appends found no room.
    pub fn refused(&self) -> u64 {
        self.refused
    }

    /// Whether it has the same files and names as another, and a crash leaves the same.
    pub fn is_same(&self, other: &Store<A>) -> bool {
        for (file, copy) in self.files.iter().zip(&other.files) {
            if !file.is_same(copy) {
                return false;
            }
        }
        self.files.len() == other.files.len() && self.names.is_same(&other.names)
    }

    // ---- crashes

    /// How many sets of changes of names there are that a crash may leave.
    pub fn sets(&self) -> u32 {
        self.names.sets()
    }

    /// The most bytes of a file that aren't on the disk for certain.
    pub fn uncertain(&self) -> usize {
        let mut most = 0;
        for file in &self.files {
            most = file.uncertain().max(most);
        }
        most
    }

    /// The sectors of files that have such bytes: the first one, and one behind the last.
    pub fn sectors(&self) -> (usize, usize) {
        let mut first = usize::MAX;
        let mut end = 0;
        for file in &self.files {
            if file.uncertain() > 0 {
                first = file.first_sector().min(first);
                end = file.end_sector().max(end);
            }
        }
        (first, end)
    }

    /// What a crash leaves: of each file's bytes, and of the changes of names. All of it is on the disk for certain.
    pub fn after_crash(&self, left: Left, set: u32) -> Result<Store<A>, AllocError> {
        let mut after = Store::new(self.alloc);
        for file in &self.files {
            let bytes = file.left(left)?;
            after.files.push(StoredFile::new(self.alloc, &bytes)?)?;
        }
        after.names = StoredNames::new(self.alloc, self.names.left(set));
        after.bases = self.bases;
        Ok(after)
    }

    // ---- calls

    /// Counts a call, and tells what becomes of it.
    fn fate(&mut self) -> Fate {
        self.calls = self.calls.saturating_add(1);
        if self.failing == 0 || self.calls < self.failing {
            return Fate::Works;
        }
        match (self.calls == self.failing, self.way) {
            (_, Way::Gone) => self.forget(),
            (_, Way::Full) => Fate::Works,
            (true, Way::Untold) => Fate::Untold,
            (true, Way::Lost) => Fate::Lost,
            (true, _) => Fate::Half,
            (false, Way::Alone | Way::Lost) => Fate::Works,
            (false, _) => Fate::Fails,
        }
    }

    /// Forgets what was had of files in memory, but for what is still to be written.
    fn forget(&mut self) -> Fate {
        for file in &mut self.files {
            file.forget();
        }
        Fate::Works
    }

    /// Counts a call that writes bytes, and tells what becomes of it.
    fn fate_of_write(&mut self) -> Fate {
        let fate = self.fate();
        let is_full = self.way == Way::Full && self.failing != 0 && self.failing <= self.calls;
        if is_full { Fate::Full } else { fate }
    }

    /// There is room again, behind a name that went.
    fn give_room(&mut self) {
        if self.way == Way::Full && self.failing <= self.calls {
            self.failing = 0;
        }
    }

    /// Counts a call that changes nothing, and refuses it where it fails.
    fn ask(&mut self) -> io::Result<()> {
        self.fate().told()
    }

    /// The file that has a name.
    fn named(&self, name: Name) -> io::Result<usize> {
        match self.names.names().file(name) {
            Some(file) => Ok(file),
            None => Err(Error::from(ErrorKind::NotFound)),
        }
    }

    /// Refuses a name that is had.
    fn refuse_had(&self, name: Name) -> io::Result<()> {
        match self.names.names().file(name) {
            Some(_) => Err(Error::from(ErrorKind::AlreadyExists)),
            None => Ok(()),
        }
    }

    fn kind(&mut self, name: Name) -> io::Result<Kind> {
        self.ask()?;
        match self.names.names().file(name) {
            Some(_) => Ok(Kind::File),
            None => Ok(Kind::Nothing),
        }
    }

    fn open(&mut self, name: Name) -> io::Result<usize> {
        self.ask()?;
        self.named(name)
    }

    fn create(&mut self, name: Name) -> io::Result<usize> {
        let fate = self.fate().begin()?;
        self.refuse_had(name)?;
        let file = self.files.len();
        self.files.push(StoredFile::new(self.alloc, b"")?)?;
        self.names.make(Change::Made(name, file))?;
        fate.told()?;
        Ok(file)
    }

    fn rename(&mut self, from: Name, to: Name) -> io::Result<()> {
        let fate = self.fate().begin()?;
        let file = self.named(from)?;
        self.refuse_had(to)?;
        self.names.make(Change::Renamed(from, to, file))?;
        fate.told()
    }

    fn remove(&mut self, name: Name) -> io::Result<()> {
        let fate = self.fate().begin()?;
        self.named(name)?;
        self.names.make(Change::Removed(name))?;
        self.give_room();
        fate.told()
    }

    fn sync(&mut self) -> io::Result<()> {
        let fate = self.fate().begin()?;
        self.names.sync();
        fate.told()
    }

    // ---- calls of files

    /// A file that is there, by its number.
    fn file(&mut self, file: usize) -> io::Result<&mut StoredFile<A>> {
        match self.files.get_mut(file) {
            Some(file) => Ok(file),
            None => Err(Error::from(ErrorKind::NotFound)),
        }
    }

    fn append(&mut self, file: usize, bytes: &[u8]) -> io::Result<()> {
        let fate = self.fate_of_write();
        if let Fate::Full = fate {
            self.refused = self.refused.saturating_add(1);
        }
        let written = bytes.get(..fate.written(bytes.len())).unwrap_or(b"");
        self.file(file)?.append(written)?;
        fate.told()
    }

    fn write_at(&mut self, file: usize, at: u64, bytes: &[u8]) -> io::Result<()> {
        let fate = self.fate_of_write();
        let written = bytes.get(..fate.written(bytes.len())).unwrap_or(b"");
        self.file(file)?.write_at(at, written)?;
        fate.told()
    }

    fn rewrite(&mut self, file: usize, at: u64, bytes: &[u8]) -> io::Result<()> {
        let fate = self.fate();
        let written = bytes.get(..fate.written(bytes.len())).unwrap_or(b"");
        self.file(file)?.rewrite(at, written)?;
        fate.told()
    }

    fn sync_file(&mut self, file: usize) -> io::Result<()> {
        let fate = self.fate();
        if let Fate::Lost = fate {
            self.file(file)?.lose();
        }
        let fate = fate.begin()?;
        self.file(file)?.sync()?;
        fate.told()
    }

    fn cut(&mut self, file: usize, size: u64) -> io::Result<()> {
        let fate = self.fate().begin()?;
        self.file(file)?.cut(size);
        fate.told()
    }

    /// Cuts the file that has a name, unless it has no more bytes.
    fn shorten(&mut self, name: Name, size: u64) -> io::Result<()> {
        let file = self.open(name)?;
        let fate = self.fate().begin()?;
        let stored = self.file(file)?;
        if size < stored.bytes().len() as u64 {
            stored.cut(size);
        }
        fate.told()
    }

    fn len(&mut self, file: usize) -> io::Result<u64> {
        self.ask()?;
        Ok(self.file(file)?.bytes().len() as u64)
    }

    fn read_at(&mut self, file: usize, at: u64, room: &mut [u8]) -> io::Result<usize>
        ensures bound { IfOk result (λ count. count ≤ length room.old) }
        ensures len { length room.new ≡ length room.old }
    {
        self.ask()?;
        Ok(read_into(self.file(file)?.bytes(), at, room))
    }
}

/// Reads bytes from an offset on, as many as there are or there is room for, and gives how many.
fn read_into(bytes: &[u8], at: u64, room: &mut [u8]) -> usize
    ensures bound { result ≤ length room.old }
    ensures len { length room.new ≡ length room.old }
{
    let at = at as usize;
    if bytes.len() <= at {
        return 0;
    }
    let count = room.len().min(bytes.len() - at);
    room[..count].copy_from_slice(&bytes[at..at + count]);
    count
}

/// A directory in memory, whose files and names stay when it is gone.
#[derive(Drop)]
pub struct MemoryDirectory<'a, A: Allocator + Copy> {
    store: &'a RefCell<Store<A>>,
    /// Whether a sync of the names has failed.
    is_unsure: bool,
}

/// A file of it.
#[derive(Drop)]
pub struct MemoryFile<'a, A: Allocator + Copy> {
    store: &'a RefCell<Store<A>>,
    file: usize,
    /// Whether it may be written to.
    is_to_write: bool,
}

impl<'a, A: Allocator + Copy> MemoryDirectory<'a, A> {
    /// The directory of these files and names.
    pub fn new(store: &'a RefCell<Store<A>>) -> MemoryDirectory<'a, A> {
        MemoryDirectory {
            store,
            is_unsure: false,
        }
    }

    /// Notes how many frames were handled before the journal of this number.
    pub fn note_base(&self, number: u64, frames: u64) {
        if let Ok(mut store) = self.store.try_borrow_mut()
            && let Some(base) = store.bases.get_mut(number as usize)
        {
            *base = frames;
        }
    }

    /// How many frames were handled before the journal of this number.
    pub fn base(&self, number: u64) -> u64 {
        match self.store.try_borrow_mut() {
            Ok(store) => store.bases.get(number as usize).copied().unwrap_or(0),
            Err(_) => 0,
        }
    }
}

impl<'a, A: Allocator + Copy> MemoryFile<'a, A> {
    /// Refuses a file that was opened to be read.
    fn refuse_read_only(&self) -> io::Result<()> {
        if self.is_to_write {
            Ok(())
        } else {
            Err(Error::from(ErrorKind::PermissionDenied))
        }
    }
}

impl<'a, A: Allocator + Copy> Directory for MemoryDirectory<'a, A> {
    ghost use Rattle.data_directory.specs.Directories.{unknown};

    type File = MemoryFile<'a, A>;

    type Draft = MemoryFile<'a, A>;

    ghost state = { λ directory. unknown };

    ghost gives = { λ directory name file. ⊤ };

    ghost unsure = { λ directory. directory.is_unsure };

    ghost is_drawn = { λ key. ⊤ };

    fn names<B: Allocator + Copy>(&self, alloc: B) -> io::Result<Vec<Name, B>> {
        let mut list = Vec::new(alloc);
        let mut store = borrowed(self.store)?;
        store.ask()?;
        store.names.names().put(&mut list)?;
        Ok(list)
    }

    fn kind(&self, name: Name) -> io::Result<Kind> {
        borrowed(self.store)?.kind(name)
    }

    fn is_unsure(&self) -> bool {
        self.is_unsure
    }

    fn open(&self, name: Name) -> io::Result<MemoryFile<'a, A>> {
        let file = borrowed(self.store)?.open(name)?;
        Ok(MemoryFile {
            store: self.store,
            file,
            is_to_write: false,
        })
    }

    fn open_to_write(&self, name: Name) -> io::Result<MemoryFile<'a, A>> {
        let file = borrowed(self.store)?.open(name)?;
        Ok(MemoryFile {
            store: self.store,
            file,
            is_to_write: true,
        })
    }

    fn create(&mut self, name: Name) -> io::Result<MemoryFile<'a, A>> {
        let file = borrowed(self.store)?.create(name)?;
        Ok(MemoryFile {
            store: self.store,
            file,
            is_to_write: true,
        })
    }

    fn draft(&mut self) -> io::Result<MemoryFile<'a, A>> {
        let file = borrowed(self.store)?.create(Name::Making)?;
        Ok(MemoryFile {
            store: self.store,
            file,
            is_to_write: true,
        })
    }

    fn draw_key(&mut self) -> io::Result<[u8; KEY_SIZE]> {
        borrowed(self.store)?.ask()?;
        Ok(DRAWN)
    }

    fn publish(&mut self, draft: MemoryFile<'a, A>, number: u64) -> io::Result<()> {
        drop(draft);
        borrowed(self.store)?.rename(Name::Making, Name::Snapshot(number))
    }

    fn remove(&mut self, name: Name) -> io::Result<()> {
        borrowed(self.store)?.remove(name)
    }

    fn shorten(&mut self, name: Name, size: u64) -> io::Result<()> {
        borrowed(self.store)?.shorten(name, size)
    }

    fn sync(&mut self) -> io::Result<()> {
        if self.is_unsure {
            return Err(failure());
        }
        let told = sync_names(self.store);
        self.is_unsure = told.is_err();
        told
    }
}

impl<'a, A: Allocator + Copy> Disk for MemoryFile<'a, A> {
    ghost seen = { λ disk. None };

    ghost may_leave = { λ disk c. ⊥ };

    ghost moment = { λ disk. 0 };

    ghost left_since = { λ disk t c. ⊥ };

    ghost may_fail = { λ disk. true };

    ghost has_failed = { λ disk. true };

    ghost written = { λ disk i. ⊤ };

    ghost counts_now = { λ disk t c le left. left };

    ghost only_now = { λ disk c left. left };

    fn append(&mut self, bytes: &[u8]) -> io::Result<()> {
        self.refuse_read_only()?;
        borrowed(self.store)?.append(self.file, bytes)
    }

    fn rewrite(&mut self, at: u64, bytes: &[u8]) -> io::Result<()> {
        self.refuse_read_only()?;
        borrowed(self.store)?.rewrite(self.file, at, bytes)
    }

    fn sync(&mut self) -> io::Result<()> {
        borrowed(self.store)?.sync_file(self.file)
    }

    fn cut(&mut self, size: u64) -> io::Result<()> {
        self.refuse_read_only()?;
        borrowed(self.store)?.cut(self.file, size)
    }

    fn len(&self) -> io::Result<u64> {
        borrowed(self.store)?.len(self.file)
    }

    fn read_at(&self, at: u64, room: &mut [u8]) -> io::Result<usize> {
        borrowed(self.store)?.read_at(self.file, at, room)
    }
}

impl<'a, A: Allocator + Copy> DraftFile for MemoryFile<'a, A> {
    ghost seen = { λ file. None };

    ghost synced = { λ file. None };

    ghost number = { λ file. 0 };

    fn write_at(&mut self, at: u64, bytes: &[u8]) -> io::Result<()> {
        borrowed(self.store)?.write_at(self.file, at, bytes)
    }

    fn sync(&mut self) -> io::Result<()> {
        borrowed(self.store)?.sync_file(self.file)
    }
}

/// Syncs the names of a directory.
fn sync_names<A: Allocator + Copy>(store: &RefCell<Store<A>>) -> io::Result<()> {
    borrowed(store)?.sync()
}

/// Borrows what a directory holds.
fn borrowed<A: Allocator + Copy>(store: &RefCell<Store<A>>) -> io::Result<RefMut<'_, Store<A>>> {
    match store.try_borrow_mut() {
        Ok(store) => Ok(store),
        Err(_) => Err(Error::from(ErrorKind::ResourceBusy)),
    }
}
