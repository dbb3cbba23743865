//! A directory as a broker sees it.

use crate::names::Name;
use journal::Disk;
use journal::layout::KEY_SIZE;
use snapshot_drafts::DraftFile;
use std::alloc::Allocator;
use std::io;

/// What stands at a name.
#[derive(Clone, Copy, PartialEq, Eq)]
pub enum Kind {
    /// Nothing.
    Nothing,
    /// A regular file.
    File,
    /// A directory, a link, a pipe or another thing that is no regular file.
    Other,
}

/// A directory whose files grow at their ends, but for a snapshot in the making, which is written at byte offsets. Each method
/// is one call of the system, but for the list of names, for a file that is opened to be written, and for one that is shortened.
/// So each can fail by itself.
///
/// All that is said of its names is said where they are known (`state`): of a directory of the operating system nothing can
/// be proved. After a call that failed nothing is known of the names that it touches; but a snapshot gets its name as a whole
/// or not at all, and a name that was there before a file was to be made at it is there still. A sync of the names that failed
/// is remembered (`unsure`): what it left is never taken for certain.
///
/// Files are shortened by the directory, so that what a step may cut is said by its names. It isn't proved that no other file
/// is cut: a file that is opened to be read is a `Disk`, which has a call that cuts. In a directory of the operating system
/// such a file can't be written to.
pub trait Directory {
    ghost use Rattle.std.specs.Prelude.{◌≡◌, ◌⊎◌, ℕ, List, Bool, Some, true, false, [], IfOk, IfSome, OnErr, OnOk};
    ghost use Rattle.std.specs.List.{Contains};
    ghost use Rattle.data_directory.specs.declared.names.Name.{Name};
    ghost use Rattle.data_directory.specs.declared.names.Name.TheVariants.{Making};
    ghost use Rattle.journal.specs.Readers.{KeepsItsWord};
    ghost use Rattle.data_directory.specs.Directories.{AreCertain, Becomes, DirectoryState, HasItsBytes, IsName, IsNone, IsPublished, IsThere, KeepsCertain, KeepsOthers, Publishes, is_file};

    /// A file that is open for reading, and for appending where it was made or opened so.
    type File: Disk + Drop;

    /// A file that is open for writing at byte offsets.
    type Draft: DraftFile + Drop;

    /// What is known of it.
    ghost state: { Self → DirectoryState };

    /// A file is the one that was opened by a name. Nothing but `open` and `open_to_write` says so.
    ghost gives: { Self → Name → Self.File → Type 0 };

    /// Whether a sync of the names has failed.
    ghost unsure: { Self → Bool };

    /// A key is one that was drawn. Nothing but `draw_key` says so.
    ghost is_drawn: { List ℕ → Type 0 };

    /// The names of a broker's files that are there, in any order. Others are passed over.
    fn names<A: Allocator + Copy>(&self, alloc: A) -> io::Result<Vec<Name, A>>
        ensures { IfOk result (λ names. (name : Name) → (state self.now).there name ≡ Some true
            → Contains names.items name) };

    /// What stands at a name. It is asked without opening it.
    fn kind(&self, name: Name) -> io::Result<Kind>
        ensures { IfOk result (λ kind. IsThere (state self.now) name (is_file kind)) };

    /// Whether a sync of the names has failed, or a file was to be made and the directory was found to be another one or gone.
    /// Then nothing more is to be done in it.
    fn is_unsure(&self) -> bool
        ensures { result ≡ unsure self.now };

    /// Opens a file that is there, to read it and to sync it.
    fn open(&self, name: Name) -> io::Result<Self::File>
        ensures was_there { OnOk result (IsThere (state self.now) name true) }
        ensures is_its_file { IfOk result (gives self.now name) }
        ensures has_its_bytes { IfOk result (λ file.
            HasItsBytes (state self.now) name (Self.File.seen file)) };

    /// Opens a journal that is there, to go on with it: it is read, appended to, cut, and bytes of it are written again. What
    /// its last group says was on the disk when it was written is on the disk still: this is trusted.
    fn open_to_write(&self, name: Name) -> io::Result<Self::File>
        ensures was_there { OnOk result (IsThere (state self.now) name true) }
        ensures is_its_file { IfOk result (gives self.now name) }
        ensures keeps_its_word { IfOk result (λ file.
            KeepsItsWord (Self.File.seen file) (Self.File.may_leave file)) };

    /// Makes a file that isn't there yet, and opens it. A file that has the name keeps it, also where this fails.
    fn create(&mut self, name: Name) -> io::Result<Self::File>
        ensures was_absent { OnOk result (IsThere (state self.old) name false) }
        ensures spares { (state self.old).there name ≡ Some true → (state self.new).there name ≡ Some true }
        ensures makes { OnOk result (Becomes name true (state self.old) (state self.new)) }
        ensures keeps_others { KeepsOthers (IsName name) (state self.old) (state self.new) }
        ensures keeps_certain { KeepsCertain (IsName name) (state self.old) (state self.new) }
        ensures keeps_unsure { OnOk result (unsure self.new ≡ unsure self.old) };

    /// Makes the file of a snapshot in the making, which isn't there yet, and opens it. It has no byte.
    fn draft(&mut self) -> io::Result<Self::Draft>
        ensures is_empty { IfOk result (λ file. IfSome (Self.Draft.seen file) (λ bytes. bytes ≡ [])) }
        ensures is_the_one { IfOk result (λ file. Self.Draft.number file ≡ (state self.new).making) }
        ensures makes { OnOk result (Becomes Making true (state self.old) (state self.new)) }
        ensures keeps_others { KeepsOthers (IsName Making) (state self.old) (state self.new) }
        ensures keeps_certain { KeepsCertain (IsName Making) (state self.old) (state self.new) }
        ensures keeps_unsure { OnOk result (unsure self.new ≡ unsure self.old) };

    /// Gives a snapshot in the making, whose bytes are on the disk for certain, the name of its number, which no file has. It is
    /// the last one that was made.
    fn publish(&mut self, draft: Self::Draft, number: u64) -> io::Result<()>
        requires is_synced { Self.Draft.synced draft ≡ Self.Draft.seen draft }
        requires is_the_one { Self.Draft.number draft ≡ (state self.old).making }
        ensures publishes { OnOk result
            (Publishes number (Self.Draft.seen draft) (state self.old) (state self.new)) }
        ensures is_whole { OnErr result (KeepsOthers IsNone (state self.old) (state self.new)
            ⊎ Publishes number (Self.Draft.seen draft) (state self.old) (state self.new)) }
        ensures keeps_others { KeepsOthers (IsPublished number) (state self.old) (state self.new) }
        ensures keeps_unsure { OnOk result (unsure self.new ≡ unsure self.old) };

    /// Removes a file.
    fn remove(&mut self, name: Name) -> io::Result<()>
        ensures removes { OnOk result (Becomes name false (state self.old) (state self.new)) }
        ensures keeps_others { KeepsOthers (IsName name) (state self.old) (state self.new) }
        ensures keeps_certain { KeepsCertain (IsName name) (state self.old) (state self.new) }
        ensures keeps_unsure { OnOk result (unsure self.new ≡ unsure self.old) };

    /// Cuts a file to so many bytes; one that has no more is left as it is.
    fn shorten(&mut self, name: Name, size: u64) -> io::Result<()>
        ensures keeps_names { (other : Name) → (state self.new).there other ≡ (state self.old).there other }
        ensures keeps_others { KeepsOthers (IsName name) (state self.old) (state self.new) }
        ensures keeps_certain { KeepsCertain IsNone (state self.old) (state self.new) }
        ensures keeps_unsure { OnOk result (unsure self.new ≡ unsure self.old) };

    /// After it, a crash leaves the names that are there. Once it failed it does nothing more, and fails.
    fn sync(&mut self) -> io::Result<()>
        ensures certain { OnOk result (AreCertain (state self.new)) }
        ensures remembers { OnOk result (unsure self.old ≡ false) }
        ensures fails { OnErr result (unsure self.new ≡ true) }
        ensures keeps_unsure { OnOk result (unsure self.new ≡ unsure self.old) }
        ensures keeps_names { KeepsOthers IsNone (state self.old) (state self.new) };

    /// Bytes that are drawn at random, for the key of a new journal.
    fn draw_key(&mut self) -> io::Result<[u8; KEY_SIZE]>
        ensures is_drawn { IfOk result is_drawn }
        ensures same { state self.new ≡ state self.old }
        ensures keeps_unsure { OnOk result (unsure self.new ≡ unsure self.old) };
}
