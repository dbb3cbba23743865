//! A directory that is looked at, and not started.

ghost use Rattle.std.specs.Prelude.{◌≡◌, IfOk, IsErr, MatchBool};
ghost use Rattle.kept_starts.specs.Rows.{IsTakenRow, IsTopRow};
ghost use Rattle.kept_starts.specs.Starts.{FormerLead, TellsFiles};

use crate::configuration::bad_topics;
use crate::faults::StartFault;
use crate::recovering::{Former, Newest, former_of, newest_seen, size_of};
use crate::snapshot::{Shape, config_in};
use crate::standing::{Numbers, Row, highest_of, names_of, numbers_in, sort_numbers, standing_of};
use crate::starting::{Found, found_of, nothing_found};
use crate::telling::{FileFound, Telling, Watching, What};
use data_directory::{Directory, Kind, Name};
use segment::BatchStore;
use std::alloc::{AllocError, Allocator};
use std::io::{Error, ErrorKind};

/// How often a check begins again at most.
const MOST_AGAIN: usize = 3;

/// What is said where a directory isn't left alone for as long as it is read.
const CHANGED: &str = "its files changed while it was read";

/// What a directory has.
#[derive(Drop)]
pub struct Checked<A: Allocator> {
    /// The files that are there: those of the row in the order in which a start reads them, up to the one at fault, which
    /// isn't among them; then the others. None is left out where memory lasts.
    pub files: Vec<FileFound, A>,
    /// What a start would find, or why it would refuse the directory.
    pub verdict: Result<Found, StartFault<A>>,
}

/// A snapshot's own configuration is asked for: where that is refused, the snapshot, which is of this version, is at fault.
fn own_fault<A: Allocator>(row: Row, version: i16, why: StartFault<A>) -> StartFault<A> {
    match why {
        StartFault::Configuration(_)
        | StartFault::OtherRole(_)
        | StartFault::OtherTopic {
            name: _,
            partitions: _,
        } => bad_topics(Name::Snapshot(row.snapshot), version),
        why => why,
    }
}

/// Reads all of a row but its last journal, as a start does that asks for what its snapshot has.
fn former_seen<S: BatchStore, D: Directory, W: Watching>(
    alloc: S::Alloc,
    directory: &D,
    row: Row,
    told: &mut Telling<'_, W, S::Alloc>,
) -> Result<Former<S>, StartFault<S::Alloc>>
    ensures leads { IfOk result (λ former. FormerLead (D.state directory.now)
        (D.gives directory.now) D.File.seen former.read.row.snapshot former.read.row.last
        former.stood former.node) }
    ensures row { IfOk result (λ former. IsTopRow (D.state directory.now) row.snapshot row.last
        → IsTakenRow (D.state directory.now) (D.gives directory.now) D.File.seen
        former.read.row.snapshot former.read.row.last) }
{
    let (config, version) = config_in(alloc, directory, row.snapshot)?;
    match former_of(alloc, directory, &config, row, Shape::Former, told) {
        Ok(former) => Ok(former),
        Err(why) => Err(own_fault(row, version, why)),
    }
}

/// Reads a row as a start does that asks for what its snapshot has, but that the last journal is opened to be read alone.
fn read_row<S: BatchStore, D: Directory, W: Watching>(
    alloc: S::Alloc,
    directory: &D,
    row: Row,
    told: &mut Telling<'_, W, S::Alloc>,
) -> Result<Found, StartFault<S::Alloc>>
    ensures tells { IfOk result (λ found. IsTopRow (D.state directory.now) row.snapshot row.last
        → TellsFiles (D.state directory.now) (D.gives directory.now) D.File.seen found) }
{
    let former = former_seen(alloc, directory, row, told)?;
    let newest: Newest<S, D::File> = newest_seen(alloc, directory, former, told)?;
    let (at, size) = (newest.reader.at(), newest.reader.size());
    Ok(found_of(newest.read, newest.frames, at, size))
}

/// What a start would find.
#[tactic(auto, using(crate::proofs::Taking::told_none))]
fn judge<S: BatchStore, D: Directory, W: Watching>(
    alloc: S::Alloc,
    directory: &D,
    told: &mut Telling<'_, W, S::Alloc>,
) -> Result<Found, StartFault<S::Alloc>>
    ensures tells { IfOk result
        (TellsFiles (D.state directory.now) (D.gives directory.now) D.File.seen) }
{
    let Some(row) = standing_of(alloc, directory)? else {
        return Ok(nothing_found());
    };
    read_row::<S, D, W>(alloc, directory, row, told)
}

/// The file that is at fault.
fn name_at_fault<A: Allocator>(why: &StartFault<A>) -> Option<Name> {
    match why {
        StartFault::Damaged {
            name,
            at: _,
            why: _,
        }
        | StartFault::Later(name, _)
        | StartFault::Missing(name)
        | StartFault::NotRegular(name)
        | StartFault::OfAnother(name, _)
        | StartFault::Failed(Some(name), _) => Some(*name),
        _ => None,
    }
}

/// Whether a file may have gone, or got shorter, while it was looked at.
fn may_have_gone<A: Allocator>(why: &StartFault<A>) -> bool {
    match why {
        StartFault::Failed(_, why) => {
            why.kind() == ErrorKind::NotFound || why.kind() == ErrorKind::UnexpectedEof
        }
        _ => false,
    }
}

/// What is to be told of the files that weren't read.
#[derive(Clone, Copy)]
struct Rest {
    /// The highest snapshot, if there is one.
    top: Option<u64>,
    /// Behind this number a journal was being made, if the directory is sound.
    last: Option<u64>,
    /// The file at fault.
    fault: Option<Name>,
}

impl Rest {
    /// What a file of this number is that wasn't read.
    fn lower(self, number: u64) -> What {
        match self.top {
            Some(top) if number < top => What::Below(top),
            _ => What::Unread,
        }
    }

    /// What a journal is that wasn't read.
    fn journal(self, number: u64) -> What {
        match self.last {
            Some(last) if number > last => What::Unfinished,
            _ => self.lower(number),
        }
    }
}

/// Whether a file was told.
fn is_told(files: &[FileFound], name: Name) -> bool {
    files.iter().any(|file| file.name == name)
}

/// Adds a file that wasn't read, unless it was told, or is at fault. What is no regular file isn't opened.
fn add_file<D: Directory, A: Allocator>(
    directory: &D,
    files: &mut Vec<FileFound, A>,
    rest: Rest,
    name: Name,
    what: What,
) -> Result<(), AllocError> {
    if rest.fault == Some(name) || is_told(files, name) {
        return Ok(());
    }
    match directory.kind(name) {
        Ok(Kind::File) => {}
        _ => return Ok(()),
    }
    let size = size_of(directory, name);
    Ok(files.push(FileFound { name, size, what })?)
}

/// Adds the snapshots of these numbers that weren't read.
fn add_snapshots<D: Directory, A: Allocator>(
    directory: &D,
    files: &mut Vec<FileFound, A>,
    rest: Rest,
    numbers: &[u64],
) -> Result<(), AllocError> {
    for number in numbers {
        let name = Name::Snapshot(*number);
        add_file(directory, files, rest, name, rest.lower(*number))?;
    }
    Ok(())
}

/// Adds the journals of these numbers that weren't read.
fn add_journals<D: Directory, A: Allocator>(
    directory: &D,
    files: &mut Vec<FileFound, A>,
    rest: Rest,
    numbers: &[u64],
) -> Result<(), AllocError> {
    for number in numbers {
        let name = Name::Journal(*number);
        add_file(directory, files, rest, name, rest.journal(*number))?;
    }
    Ok(())
}

/// Adds all files that weren't read.
fn add_rest<D: Directory, A: Allocator + Copy>(
    alloc: A,
    directory: &D,
    names: &[Name],
    last: Option<u64>,
    fault: Option<Name>,
    files: &mut Vec<FileFound, A>,
) -> Result<(), AllocError> {
    let mut numbers = numbers_in(alloc, names)?;
    sort_numbers(&mut numbers);
    let rest = Rest {
        top: highest_of(&numbers.snapshots),
        last,
        fault,
    };
    add_snapshots(directory, files, rest, &numbers.snapshots)?;
    add_journals(directory, files, rest, &numbers.journals)?;
    if names.contains(&Name::Making) {
        add_file(directory, files, rest, Name::Making, What::Making)?;
    }
    Ok(())
}

/// Looks at a directory once, which had these names a moment ago.
fn check_once<S: BatchStore, D: Directory, W: Watching>(
    alloc: S::Alloc,
    directory: &D,
    names: &[Name],
    watch: &mut W,
) -> Checked<S::Alloc>
    ensures tells { IfOk result.verdict
        (TellsFiles (D.state directory.now) (D.gives directory.now) D.File.seen) }
{
    let mut told = Telling::new(alloc, watch);
    let verdict = judge::<S, D, W>(alloc, directory, &mut told);
    let mut files = told.into_files();
    let (last, fault) = match &verdict {
        Ok(found) => (Some(found.journal), None),
        Err(why) => (None, name_at_fault(why)),
    };
    match add_rest(alloc, directory, names, last, fault, &mut files) {
        Ok(()) => Checked { files, verdict },
        Err(_) => Checked {
            files,
            verdict: Err(StartFault::OutOfMemory),
        },
    }
}

/// Whether two lists have the same names.
fn are_same(before: &[Name], after: &[Name]) -> bool {
    before.len() == after.len() && before.iter().all(|name| after.contains(name))
}

/// Looks at a directory once, and tells whether no name came or went meanwhile.
fn check_between<S: BatchStore, D: Directory, W: Watching>(
    alloc: S::Alloc,
    directory: &D,
    watch: &mut W,
) -> (Checked<S::Alloc>, bool)
    ensures tells { IfOk result.0.verdict
        (TellsFiles (D.state directory.now) (D.gives directory.now) D.File.seen) }
{
    let names = match names_of(alloc, directory) {
        Ok(names) => names,
        Err(why) => {
            let files = Vec::new(alloc);
            let verdict = Err(why);
            return (Checked { files, verdict }, true);
        }
    };
    let checked = check_once::<S, D, W>(alloc, directory, &names, watch);
    let is_same = match names_of(alloc, directory) {
        Ok(after) => are_same(&names, &after),
        Err(_) => false,
    };
    (checked, is_same)
}

/// Whether a verdict counts: no name came or went meanwhile, and a fault was met once before in such a time, as a broker that runs
/// may have been about to cut what a failed write had left.
fn is_certain<A: Allocator>(
    verdict: &Result<Found, StartFault<A>>,
    is_same: bool,
    was_refused: bool,
) -> bool {
    match verdict {
        Ok(_) => is_same,
        Err(StartFault::OutOfMemory) => true,
        Err(why) => is_same && was_refused && !may_have_gone(why),
    }
}

/// What counts of the last look: nothing, where names came or went meanwhile.
fn told_last<A: Allocator>(checked: Checked<A>, is_same: bool) -> Checked<A>
    ensures { MatchBool is_same (result ≡ checked) (IsErr result.verdict) }
{
    if is_same {
        return checked;
    }
    let why = match checked.verdict {
        Err(StartFault::OutOfMemory) => StartFault::OutOfMemory,
        _ => StartFault::Failed(None, Error::other(CHANGED)),
    };
    Checked {
        files: checked.files,
        verdict: Err(why),
    }
}

/// Reads a directory as a start does, and tells what is there, and what a start would recover or refuse. Nothing of it changes:
/// no file is opened but to be read. What would be asked of the topics isn't judged.
///
/// A broker may run in it and take snapshots meanwhile, so that files come and go: then it begins again, three times at most,
/// and what it met last counts, unless names came or went then too: that is an error. `watch` is told how far it is.
pub fn check<S: BatchStore, D: Directory, W: Watching>(
    alloc: S::Alloc,
    directory: &D,
    watch: &mut W,
) -> Checked<S::Alloc>
    ensures tells { IfOk result.verdict
        (TellsFiles (D.state directory.now) (D.gives directory.now) D.File.seen) }
{
    let mut was_refused = false;
    for _ in 0..MOST_AGAIN {
        let (checked, is_same) = check_between::<S, D, W>(alloc, directory, watch);
        if is_certain(&checked.verdict, is_same, was_refused) {
            return checked;
        }
        was_refused = is_same && checked.verdict.is_err();
    }
    let (checked, is_same) = check_between::<S, D, W>(alloc, directory, watch);
    told_last(checked, is_same)
}
