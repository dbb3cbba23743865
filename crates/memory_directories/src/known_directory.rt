//! A directory in memory whose names are known: of it each clause on the names of a directory says something, and is proved.

ghost use Rattle.std.specs.Prelude.{◌≡◌, ◌≤◌, ◌++◌, ◌∷◌, ℕ, [], None, IfSome, OnErr, OnOk, Some, false, length, true};
ghost use Rattle.std.specs.List.{Contains};
ghost use Rattle.data_directory.specs.declared.names.Name.{Name};
ghost use Rattle.data_directory.specs.declared.names.Name.TheVariants.{Snapshot};
ghost use Rattle.data_directory.specs.Directories.{Becomes, IsName, IsThere, KeepsCertain, KeepsOthers};
ghost use Rattle.memory_directories.specs.KnownNames.{draft_bytes, has_name, there_after};

use data_directory::{Directory, Kind, Name};
use journal::MemoryDisk;
use journal::layout::KEY_SIZE;
use snapshot_drafts::MemoryDraft;
use std::alloc::{AllocError, Allocator};
use std::io::{self, Error, ErrorKind};

/// The bytes that are drawn for the key of a journal.
const DRAWN: [u8; KEY_SIZE] = *b"01234567";

/// A change of names, or of the file that has one.
#[derive(Drop)]
struct Change<A: Allocator + Copy> {
    /// The name that no file has any more.
    gone: Option<Name>,
    /// The name that a file has got.
    named: Option<Name>,
    /// What a snapshot in the making had when it got that name.
    draft: Option<MemoryDraft<A>>,
    /// The name whose file was shortened.
    cut: Option<Name>,
}

impl<A: Allocator + Copy> Change<A> {
    /// Whether a file has a name after it, where it is said whether one had it before.
    fn leaves(&self, name: Name, before: bool) -> bool
        ensures { result ≡ there_after name self.now.gone self.now.named before }
    {
        self.named == Some(name) || (self.gone != Some(name) && before)
    }

    /// Whether it gives a name to a file.
    fn names(&self, name: Name) -> bool
        ensures { result ≡ has_name name self.now.named }
    {
        self.named == Some(name)
    }

    /// Whether it shortens the file of a name.
    fn cuts(&self, name: Name) -> bool
        ensures { result ≡ has_name name self.now.cut }
    {
        self.cut == Some(name)
    }

    /// The bytes that a file had when it got its name by this change.
    fn bytes(&self) -> &[u8]
        ensures { result.now ≡ draft_bytes self.now.draft }
    {
        match &self.draft {
            Some(draft) => draft.bytes(),
            None => b"",
        }
    }
}

/// A directory in memory that knows which names are there, and which of them are on the disk for certain. It keeps names, and
/// the bytes of snapshots: another file that is opened has no byte.
#[derive(Drop)]
pub struct KnownDirectory<A: Allocator + Copy> {
    alloc: A,
    /// All changes of names, the last one last.
    changes: Vec<Change<A>, A>,
    /// How many of them are on the disk for certain.
    synced: usize,
    /// Which file was the last one that was made as a snapshot in the making.
    making: u64,
    ghost synced_within: { synced ≤ length changes.items },
}

impl<A: Allocator + Copy> KnownDirectory<A> {
    /// An empty directory.
    pub fn new(alloc: A) -> KnownDirectory<A>
        ensures { result.changes.items ≡ [] }
    {
        KnownDirectory {
            alloc,
            changes: Vec::new(alloc),
            synced: 0,
            making: 0,
        }
    }

    /// Whether a file has a name.
    fn is_there(&self, name: Name) -> bool
        ensures { (⟦<KnownDirectory<A> as Directory>⟧.state self.now).there name ≡ Some result }
    {
        let mut is_there = false;
        for change in &self.changes {
            is_there = change.leaves(name, is_there);
        }
        is_there
    }

    /// The bytes of the file of a name: those of a snapshot, unless it was shortened.
    fn bytes_of(&self, name: Name) -> &[u8]
        ensures { (number : ℕ) → name ≡ Snapshot number
            → IfSome ((⟦<KnownDirectory<A> as Directory>⟧.state self.now).bytes number)
            (λ known. result.now ≡ known) }
    {
        let mut at = self.changes.len();
        while at > 0 {
            at -= 1;
            let change = &self.changes[at];
            if change.names(name) {
                return change.bytes();
            }
            if change.cuts(name) {
                return b"";
            }
        }
        b""
    }

    /// Makes a change, or none where memory lacks.
    fn make(&mut self, change: Change<A>) -> Result<(), AllocError>
        ensures makes { OnOk result (self.new.changes.items ≡ self.old.changes.items ++ change ∷ []) }
        ensures unchanged { OnErr result (self.new.changes.items ≡ self.old.changes.items) }
        ensures synced { self.new.synced ≡ self.old.synced }
        ensures making { self.new.making ≡ self.old.making }
    {
        self.changes.push(change)?;
        Ok(())
    }

    /// Gives a name to a new file, where none has it.
    fn give(&mut self, name: Name) -> io::Result<()>
        ensures was_absent { OnOk result (IsThere (⟦<KnownDirectory<A> as Directory>⟧.state self.old) name false) }
        ensures spares { (⟦<KnownDirectory<A> as Directory>⟧.state self.old).there name ≡ Some true
            → (⟦<KnownDirectory<A> as Directory>⟧.state self.new).there name ≡ Some true }
        ensures makes { OnOk result (Becomes name true
            (⟦<KnownDirectory<A> as Directory>⟧.state self.old)
            (⟦<KnownDirectory<A> as Directory>⟧.state self.new)) }
        ensures keeps_others { KeepsOthers (IsName name)
            (⟦<KnownDirectory<A> as Directory>⟧.state self.old)
            (⟦<KnownDirectory<A> as Directory>⟧.state self.new) }
        ensures keeps_certain { KeepsCertain (IsName name)
            (⟦<KnownDirectory<A> as Directory>⟧.state self.old)
            (⟦<KnownDirectory<A> as Directory>⟧.state self.new) }
    {
        self.refuse_had(name)?;
        self.make(Change {
            gone: None,
            named: Some(name),
            draft: None,
            cut: None,
        })?;
        Ok(())
    }

    /// Refuses a name that a file has.
    fn refuse_had(&self, name: Name) -> io::Result<()>
        ensures { OnOk result (IsThere (⟦<KnownDirectory<A> as Directory>⟧.state self.now) name false) }
    {
        if self.is_there(name) {
            return Err(Error::from(ErrorKind::AlreadyExists));
        }
        Ok(())
    }

    /// Refuses a name that no file has.
    fn refuse_absent(&self, name: Name) -> io::Result<()>
        ensures { OnOk result (IsThere (⟦<KnownDirectory<A> as Directory>⟧.state self.now) name true) }
    {
        if !self.is_there(name) {
            return Err(Error::from(ErrorKind::NotFound));
        }
        Ok(())
    }
}

impl<A: Allocator + Copy> KnownDirectory<A> {
    /// Puts a name on a list, if one is given and a file has it.
    fn list<B: Allocator + Copy>(
        &self,
        named: Option<Name>,
        names: &mut Vec<Name, B>,
    ) -> Result<(), AllocError>
        ensures keeps { OnOk result ((name : Name) → Contains names.old.items name → Contains names.new.items name) }
        ensures lists { OnOk result ((name : Name) → named ≡ Some name
            → IsThere (⟦<KnownDirectory<A> as Directory>⟧.state self.now) name true → Contains names.new.items name) }
    {
        if let Some(name) = named
            && self.is_there(name)
            && !names.contains(&name)
        {
            names.push(name)?;
        }
        Ok(())
    }
}

impl<A: Allocator + Copy> Directory for KnownDirectory<A> {
    ghost use Rattle.std.specs.Prelude.{⊤};
    ghost use Rattle.memory_directories.specs.KnownNames.{state_by};

    type File = MemoryDisk<A>;

    type Draft = MemoryDraft<A>;

    ghost state = { λ d. state_by d.changes.items (λ change. change.gone) (λ change. change.named)
        (λ change. change.cut) (λ change. draft_bytes change.draft) d.synced d.making };

    ghost gives = { λ d name file. ⊤ };

    ghost unsure = { λ d. false };

    ghost is_drawn = { λ key. ⊤ };

    fn names<B: Allocator + Copy>(&self, alloc: B) -> io::Result<Vec<Name, B>> {
        let mut names = Vec::new(alloc);
        for change in &self.changes {
            self.list(change.named, &mut names)?;
        }
        Ok(names)
    }

    fn kind(&self, name: Name) -> io::Result<Kind> {
        if self.is_there(name) {
            Ok(Kind::File)
        } else {
            Ok(Kind::Nothing)
        }
    }

    fn is_unsure(&self) -> bool {
        false
    }

    fn open(&self, name: Name) -> io::Result<MemoryDisk<A>> {
        self.refuse_absent(name)?;
        Ok(MemoryDisk::new(self.alloc, self.bytes_of(name))?)
    }

    fn open_to_write(&self, name: Name) -> io::Result<MemoryDisk<A>> {
        self.refuse_absent(name)?;
        Ok(MemoryDisk::new(self.alloc, b"")?)
    }

    fn create(&mut self, name: Name) -> io::Result<MemoryDisk<A>> {
        let file = MemoryDisk::new(self.alloc, b"")?;
        self.give(name)?;
        Ok(file)
    }

    fn draft(&mut self) -> io::Result<MemoryDraft<A>> {
        self.give(Name::Making)?;
        self.making = self.changes.len() as u64;
        Ok(MemoryDraft::of_number(self.alloc, self.making))
    }

    fn publish(&mut self, draft: MemoryDraft<A>, number: u64) -> io::Result<()> {
        self.refuse_absent(Name::Making)?;
        self.refuse_had(Name::Snapshot(number))?;
        self.make(Change {
            gone: Some(Name::Making),
            named: Some(Name::Snapshot(number)),
            draft: Some(draft),
            cut: None,
        })?;
        Ok(())
    }

    fn remove(&mut self, name: Name) -> io::Result<()> {
        self.refuse_absent(name)?;
        self.make(Change {
            gone: Some(name),
            named: None,
            draft: None,
            cut: None,
        })?;
        Ok(())
    }

    fn shorten(&mut self, name: Name, _size: u64) -> io::Result<()> {
        self.refuse_absent(name)?;
        self.make(Change {
            gone: None,
            named: None,
            draft: None,
            cut: Some(name),
        })?;
        Ok(())
    }

    fn sync(&mut self) -> io::Result<()> {
        self.synced = self.changes.len();
        Ok(())
    }

    fn draw_key(&mut self) -> io::Result<[u8; KEY_SIZE]> {
        Ok(DRAWN)
    }
}
