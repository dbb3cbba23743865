//! The start of a broker with a directory.

ghost use Rattle.std.specs.Prelude.{◌≡◌, ◌⊎◌, ◌+◌, ◌≤◌, ◌||◌, not, None, false, true, IfErr, IfOk, IfSome, MatchBool, OnErr, OnOk};
ghost use Rattle.broker_state.specs.ConfigValues.{config_value};
ghost use Rattle.broker_state.specs.State.{State};
ghost use Rattle.journal.specs.Readers.{KeepsItsWord};
ghost use Rattle.data_directory.specs.declared.names.Name.TheVariants.{Journal as JournalOf};
ghost use Rattle.data_directory.specs.Directories.{AreCertain, IsName, KeepsOthers};
ghost use Rattle.kept_rotations.specs.Steps.{FoldsNames, HasCurrentHead, IsBelow};
ghost use Rattle.kept_starts.specs.Growth.{HoldsStill, KnowsSnapshots};
ghost use Rattle.kept_starts.specs.Removals.{HasRowThen, HasWholeRow, IsOld, KeepsRow, Removes, StaysWhole, StopsStanding};
ghost use Rattle.kept_starts.specs.Refusals.{IsFailure, RefusesUnchanged};
ghost use Rattle.kept_starts.specs.Rows.{IsShortened, IsTakenRow, IsTopRow};
ghost use Rattle.kept_rotations.specs.declared.opening.TheConstants.{MEANING};
ghost use Rattle.kept_starts.specs.Starts.{BeginsWith, GoesOnBehind, GoesOnMeaning, IsBehind, IsCurrent, IsEmptyIf, IsFolded, IsReadUp, IsRecovered, IsStarted, LeadAsAsked, RotatesFrom, TakesFiles};

use crate::faults::{StartFault, as_failure, failed};
use crate::making::{make_files, remove_unfinished};
use crate::recovering::{Newest, RowRead, former_of, newest_of, resume_last, sync_read};
use crate::snapshot::Shape;
use crate::standing::{FIRST_ROW, Row, names_of, standing_of};
use crate::telling::{Telling, Watching};
use broker_state::Config;
use data_directory::{Directory, Name};
use journal::JournalError;
use kept_rotations::{FoldFault, Keeper, KeptFiles, Missed, Rotation, RotationFault};
use segment::BatchStore;
use std::alloc::Allocator;
use std::io::{Error, ErrorKind};

/// What was found in a directory.
#[derive(Clone, Copy, PartialEq, Eq)]
pub struct Found {
    /// Whether the directory was new.
    pub is_new: bool,
    /// Whether topics or partitions were added to what its files had.
    pub has_grown: bool,
    /// The number of the highest snapshot that was there, or was made.
    pub snapshot: u64,
    /// How many frames were handled again.
    pub frames: u64,
    /// The number of the last journal that was there, or was made.
    pub journal: u64,
    /// The size that it has behind the cut, in bytes.
    pub at: u64,
    /// How many bytes were cut behind it.
    pub cut: u64,
}

/// A broker that was started, and what was found.
#[derive(Drop)]
pub struct Started<S: BatchStore, D: Directory> {
    /// The broker, which keeps its changes.
    pub keeper: Keeper<S, S::Alloc, D::File>,
    /// The snapshots that are taken of it.
    pub rotation: Rotation<D::Draft, S::Alloc>,
    /// What was found.
    pub found: Found,
}

/// How a broker is to keep what it does.
#[derive(Clone, Copy, PartialEq, Eq)]
pub struct Keeping {
    /// Whether a snapshot is taken at the start, whatever is there.
    pub is_folded: bool,
    /// A snapshot is taken once the journals have so many bytes, and more than the last one.
    pub most_journal: u64,
}

/// What it means that the last journal failed, which has this number.
fn journal_failed<A: Allocator>(last: u64, why: JournalError) -> StartFault<A>
    ensures { IsFailure result }
{
    let name = Some(Name::Journal(last));
    match why {
        JournalError::OnDisk(why) => failed(name, why),
        _ => failed(name, Error::from(ErrorKind::Other)),
    }
}

/// What it means that no snapshot was taken, where the last journal had this number.
fn not_folded<A: Allocator>(last: u64, why: FoldFault) -> StartFault<A>
    ensures { IsFailure result }
{
    match why {
        FoldFault::Missed(Missed::OutOfMemory) => StartFault::OutOfMemory,
        FoldFault::Missed(Missed::Failed(name, why)) => failed(Some(name), why),
        FoldFault::Missed(Missed::Unlike) => {
            failed(Some(Name::Making), Error::from(ErrorKind::Other))
        }
        FoldFault::Rotation(RotationFault::Directory(name, why)) => failed(name, why),
        FoldFault::Rotation(RotationFault::Journal(why)) => journal_failed(last, why),
    }
}

/// Removes a file of this number. Where it can't be removed it stays, and the lowest number of such files is given.
fn remove_or_note<D: Directory>(
    directory: &mut D,
    name: Name,
    number: u64,
    again: Option<u64>,
) -> Option<u64>
    ensures { KeepsOthers (IsName name) (D.state directory.old) (D.state directory.new) }
{
    match (directory.remove(name), again) {
        (Ok(()), again) => again,
        (Err(_), Some(lower)) => Some(lower.min(number)),
        (Err(_), None) => Some(number),
    }
}

/// Removes files with a number below that of the snapshot, whose name is on the disk for certain. One that can't be removed is
/// passed over: it is tried again while the broker runs. The lowest number of such files is given.
#[tactic(auto, using(crate::proofs::Removing::one_snapshot, crate::proofs::Removing::one_journal))]
fn remove_lower<D: Directory>(directory: &mut D, names: &[Name], snapshot: u64) -> Option<u64>
    requires is_certain { AreCertain (D.state directory.old) }
    ensures keeps_others { KeepsOthers (IsBelow snapshot) (D.state directory.old)
        (D.state directory.new) }
{
    let mut again = None;
    for name in names {
        match name {
            Name::Snapshot(number) | Name::Journal(number) if *number < snapshot => {
                again = remove_or_note(directory, *name, *number, again);
            }
            _ => {}
        }
    }
    again
}

/// Removes the journal behind the last one, if it was being made.
fn remove_next<D: Directory, A: Allocator>(
    directory: &mut D,
    last: u64,
    has_unfinished: bool,
) -> Result<(), StartFault<A>>
    ensures keeps_others { KeepsOthers (IsName (JournalOf (last + 1))) (D.state directory.old)
        (D.state directory.new) }
    ensures fails { IfErr result IsFailure }
{
    match last.checked_add(1) {
        Some(next) if has_unfinished => remove_unfinished(directory, Name::Journal(next)),
        _ => Ok(()),
    }
}

/// Removes a journal that was being made, and has the names on the disk for certain, as a start that was ended may have left
/// them unsynced; then what the snapshot has taken the place of. Gives the lowest number of a file that couldn't be removed.
#[tactic(auto, using(crate::proofs::Removing::next_alone, crate::proofs::Removing::next_synced, crate::proofs::Removing::settled))]
fn settle_names<D: Directory, A: Allocator + Copy>(
    alloc: A,
    directory: &mut D,
    row: Row,
    has_unfinished: bool,
) -> Result<Option<u64>, StartFault<A>>
    ensures keeps_others { KeepsOthers (IsOld row.snapshot row.last) (D.state directory.old)
        (D.state directory.new) }
    ensures fails { IfErr result IsFailure }
{
    remove_next(directory, row.last, has_unfinished)?;
    match directory.sync() {
        Ok(()) => {}
        Err(why) => return Err(failed(None, why)),
    }
    let names = names_of(alloc, directory)?;
    Ok(remove_lower(directory, &names, row.snapshot))
}

/// Which files there are, and how large they are; and the lowest number of a file that is to be removed still.
fn files_of(read: RowRead, is_current: bool, again: Option<u64>) -> KeptFiles
    ensures is_the_row { (result.snapshot ≡ read.row.snapshot) × (result.last ≡ read.row.last) }
    ensures current { result.is_current ≡ is_current }
{
    KeptFiles {
        snapshot: read.row.snapshot,
        last: read.row.last,
        lowest: read.row.snapshot,
        snapshot_size: read.snapshot_size,
        journals_size: read.journals_size,
        is_current,
        again,
    }
}

/// What is found where none of a broker's files is, or none but such as were being made.
pub(crate) fn nothing_found() -> Found
    ensures { result.is_new ≡ true }
{
    Found {
        is_new: true,
        has_grown: false,
        snapshot: 0,
        frames: 0,
        journal: 0,
        at: 0,
        cut: 0,
    }
}

/// What was found of a row whose last journal was read up to an offset.
pub(crate) fn found_of(read: RowRead, frames: u64, at: u64, size: u64) -> Found
    ensures tells { (result.snapshot ≡ read.row.snapshot) × (result.journal ≡ read.row.last) }
    ensures grown { result.has_grown ≡ read.is_grown }
    ensures old { result.is_new ≡ false }
{
    Found {
        is_new: false,
        has_grown: read.is_grown,
        snapshot: read.row.snapshot,
        frames,
        journal: read.row.last,
        at,
        cut: size.saturating_sub(at),
    }
}

/// The broker of a row goes on with the last journal. A snapshot in the making goes first, as what is written again may need its
/// room. Then all that was read is on the disk for certain, and what is of no use in the directory is removed.
#[tactic(auto, using(crate::proofs::GoingOn::started_up, crate::proofs::GoingOn::begins_cut, crate::proofs::Removing::making_alone, crate::proofs::Removing::making_then))]
fn go_on<S: BatchStore + Drop, D: Directory>(
    alloc: S::Alloc,
    directory: &mut D,
    newest: Newest<S, D::File>,
    keeping: Keeping,
) -> Result<Started<S, D>, StartFault<S::Alloc>>
    requires recovered { (former : State) × IsRecovered D.File.seen former
        × IsReadUp D.File.seen former newest.reader newest.node }
    requires keeps_its_word { KeepsItsWord (D.File.seen newest.reader.disk)
        (D.File.may_leave newest.reader.disk) }
    ensures is_started { IfOk result (λ s. IsStarted D.File.seen s.keeper) }
    ensures holds { IfOk result (λ s. s.keeper.world.state ≡ newest.node) }
    ensures tells { IfOk result (λ s. (s.found.snapshot ≡ newest.read.row.snapshot)
        × (s.found.journal ≡ newest.read.row.last)) }
    ensures grown { IfOk result (λ s. s.found.has_grown ≡ newest.read.is_grown) }
    ensures rotates { IfOk result (λ s. (s.rotation.files.snapshot ≡ newest.read.row.snapshot)
        × (s.rotation.files.last ≡ newest.read.row.last) × (s.rotation.draft ≡ None)) }
    ensures current { IfOk result (λ s. s.rotation.files.is_current ≡ newest.is_current) }
    ensures begins { IfOk result (λ s. BeginsWith (D.File.seen s.keeper.journal.disk)
        newest.reader.head) }
    ensures removes { KeepsOthers (IsOld newest.read.row.snapshot newest.read.row.last)
        (D.state directory.old) (D.state directory.new) }
    ensures fails { IfErr result IsFailure }
{
    let read = newest.read;
    let (at, size) = (newest.reader.at(), newest.reader.size());
    remove_unfinished(directory, Name::Making)?;
    let keeper = resume_last(
        alloc,
        Name::Journal(read.row.last),
        newest.node,
        newest.reader,
    )?;
    match sync_read(directory, read.row) {
        Ok(()) => {}
        Err(why) => return Err(why),
    }
    let again = match settle_names(alloc, directory, read.row, read.has_unfinished) {
        Ok(again) => again,
        Err(why) => return Err(why),
    };
    let files = files_of(read, newest.is_current, again);
    Ok(Started {
        keeper,
        rotation: Rotation::new(alloc, files, keeping.most_journal),
        found: found_of(read, newest.frames, at, size),
    })
}

/// Takes a snapshot at once, before any client comes.
fn fold<S: BatchStore + Drop, D: Directory>(
    directory: &mut D,
    started: &mut Started<S, D>,
) -> Result<(), StartFault<S::Alloc>>
    ensures keeps { OnOk result (IsStarted D.File.seen started.old.keeper
        → IsStarted D.File.seen started.new.keeper) }
    ensures keeps_the_world { OnOk result
        (started.new.keeper.world ≡ started.old.keeper.world) }
    ensures keeps_what_was_found { OnOk result (started.new.found ≡ started.old.found) }
    ensures folds { OnOk result (IsFolded started.old.rotation started.new.rotation) }
    ensures are_there { OnOk result (HasRowThen (D.state directory.old) (D.state directory.new)
        started.old.rotation.files.last started.new.rotation.files.last
        started.old.keeper.world.state) }
    ensures names { FoldsNames started.old.keeper started.old.rotation (D.state directory.old)
        (D.state directory.new) }
    ensures means { OnOk result (HasCurrentHead D.File.seen started.old.keeper started.new.keeper
        started.old.rotation started.new.rotation) }
    ensures fails { IfErr result IsFailure }
{
    let last = started.rotation.files().last;
    match started.rotation.fold(&mut started.keeper, directory) {
        Ok(()) => Ok(()),
        Err(why) => Err(not_folded(last, why)),
    }
}

/// Whether a snapshot is to be taken at once: where it is asked for, where topics are added, and where the last journal's frames mean
/// something else than those that come.
fn is_fold_due(keeping: Keeping, is_of_this_meaning: bool, is_grown: bool) -> bool
    ensures { result ≡ (keeping.is_folded || is_grown || not is_of_this_meaning) }
{
    keeping.is_folded || is_grown || !is_of_this_meaning
}

/// Takes a snapshot at once if one is due.
fn fold_if_due<S: BatchStore + Drop, D: Directory>(
    is_due: bool,
    directory: &mut D,
    started: &mut Started<S, D>,
) -> Result<(), StartFault<S::Alloc>>
    ensures keeps { OnOk result (IsStarted D.File.seen started.old.keeper
        → IsStarted D.File.seen started.new.keeper) }
    ensures keeps_the_world { OnOk result
        (started.new.keeper.world ≡ started.old.keeper.world) }
    ensures keeps_what_was_found { OnOk result (started.new.found ≡ started.old.found) }
    ensures folds { OnOk result (MatchBool is_due
        (IsFolded started.old.rotation started.new.rotation
        × HasRowThen (D.state directory.old) (D.state directory.new)
        started.old.rotation.files.last started.new.rotation.files.last
        started.old.keeper.world.state)
        ((started.new.rotation ≡ started.old.rotation) × (directory.new ≡ directory.old))) }
    ensures means { OnOk result (MatchBool is_due
        (HasCurrentHead D.File.seen started.old.keeper started.new.keeper
        started.old.rotation started.new.rotation)
        (started.new.keeper.journal ≡ started.old.keeper.journal)) }
    ensures names { OnErr result (FoldsNames started.old.keeper started.old.rotation
        (D.state directory.old) (D.state directory.new)) }
    ensures fails { IfErr result IsFailure }
{
    if is_due {
        return fold(directory, started);
    }
    Ok(())
}

/// Refuses a journal of this start's own that has frames: none came since it was made.
fn check_empty<A: Allocator>(last: u64, count: u64) -> Result<(), StartFault<A>>
    ensures { OnOk result (count ≡ 0) }
{
    if count > 0 {
        return Err(StartFault::Failed(
            Some(Name::Journal(last)),
            Error::from(ErrorKind::InvalidData),
        ));
    }
    Ok(())
}

/// Refuses, where a snapshot is read again that was just taken, a last journal that has frames.
fn check_made<A: Allocator>(shape: Shape, last: u64, count: u64) -> Result<(), StartFault<A>>
    ensures { OnOk result (IsEmptyIf shape count) }
{
    match shape {
        Shape::Former => Ok(()),
        Shape::Asked => check_empty(last, count),
    }
}

/// Reads the files that stand in a directory, of which the last journal is to be gone on with. Nothing of the directory changes.
fn read_standing<S: BatchStore, D: Directory, W: Watching>(
    alloc: S::Alloc,
    directory: &D,
    config: &Config<S::Alloc>,
    row: Row,
    shape: Shape,
    watch: &mut W,
) -> Result<Newest<S, D::File>, StartFault<S::Alloc>>
    ensures leads { IfOk result (λ newest. LeadAsAsked (D.state directory.now)
        (D.gives directory.now) D.File.seen (config_value config.now) shape newest.read.is_grown
        newest.read.row.snapshot newest.read.row.last newest.node) }
    ensures row { IfOk result (λ newest. IsTopRow (D.state directory.now) row.snapshot row.last
        → IsTakenRow (D.state directory.now) (D.gives directory.now) D.File.seen
        newest.read.row.snapshot newest.read.row.last) }
    ensures shortens { IfOk result (λ newest. IsShortened row newest.read.row) }
    ensures recovered { IfOk result (λ newest. (former : State) × IsRecovered D.File.seen former
        × IsReadUp D.File.seen former newest.reader newest.node) }
    ensures keeps_its_word { IfOk result (λ newest. KeepsItsWord
        (D.File.seen newest.reader.disk) (D.File.may_leave newest.reader.disk)) }
    ensures means { IfOk result (λ newest. newest.is_of_this_meaning ≡ true
        → newest.reader.head.meaning ≡ MEANING) }
    ensures current { IfOk result (λ newest. newest.is_current ≡ true
        → IsCurrent newest.reader.head) }
{
    let mut told = Telling::new(alloc, watch);
    let former = former_of(alloc, directory, config, row, shape, &mut told)?;
    let newest: Newest<S, D::File> = newest_of(alloc, directory, former, &mut told)?;
    check_made(shape, newest.read.row.last, newest.count)?;
    Ok(newest)
}

/// Starts the broker of files that stand in a directory, and takes a snapshot where that is due. Where more is asked for than the
/// snapshot has, its configuration is the snapshot's.
fn start_standing<S: BatchStore + Drop, D: Directory, W: Watching>(
    alloc: S::Alloc,
    directory: &mut D,
    config: &Config<S::Alloc>,
    row: Row,
    keeping: Keeping,
    shape: Shape,
    watch: &mut W,
) -> Result<Started<S, D>, StartFault<S::Alloc>>
    requires in_order { row.snapshot ≤ row.last }
    ensures is_started { IfOk result (λ s. IsStarted D.File.seen s.keeper) }
    ensures leads { IfOk result (λ s. LeadAsAsked (D.state directory.old) (D.gives directory.old)
        D.File.seen (config_value config.now) shape s.found.has_grown
        s.found.snapshot s.found.journal s.keeper.world.state) }
    ensures row { IfOk result (λ s. IsTopRow (D.state directory.old) row.snapshot row.last
        → IsTakenRow (D.state directory.old) (D.gives directory.old) D.File.seen
        s.found.snapshot s.found.journal) }
    ensures of_the_row { IfOk result (λ s. IsShortened row
        (record { snapshot = s.found.snapshot; last = s.found.journal })) }
    ensures rotates { IfOk result (λ s. (s.rotation.draft ≡ None)
        × GoesOnBehind s.found.snapshot s.found.journal s.rotation.files) }
    ensures folds { IfOk result (λ s. (keeping.is_folded ≡ true) ⊎ (s.found.has_grown ≡ true)
        → IsBehind s.found s.rotation.files
        × HasWholeRow (D.state directory.new) s.rotation.files.last s.keeper.world.state) }
    ensures removes { IfOk result (λ s. Removes (D.state directory.old) (D.state directory.new)
        s.found s.rotation.files s.keeper.world.state) }
    ensures means { IfOk result (λ s. GoesOnMeaning D.File.seen s.rotation s.keeper.journal) }
    ensures stops { OnErr result (StopsStanding (D.state directory.old) (D.gives directory.old)
        D.File.seen (config_value config.now) shape row (D.state directory.new)) }
    ensures refuses { IfErr result
        (RefusesUnchanged (D.state directory.old) (D.state directory.new)) }
{
    let newest: Newest<S, D::File> = read_standing(alloc, directory, config, row, shape, watch)?;
    let is_due = is_fold_due(keeping, newest.is_of_this_meaning, newest.read.is_grown);
    let mut started = match go_on(alloc, directory, newest, keeping) {
        Ok(started) => started,
        Err(why) => return Err(why),
    };
    match fold_if_due(is_due, directory, &mut started) {
        Ok(()) => Ok(started),
        Err(why) => Err(why),
    }
}

/// Adds the topics and partitions that are asked for to a broker of which a snapshot was just taken: it is read again with
/// them, and another one is taken.
#[tactic(auto, using(crate::proofs::GoingOn::behind_in_order))]
fn grow<S: BatchStore + Drop, D: Directory, W: Watching>(
    alloc: S::Alloc,
    directory: &mut D,
    config: &Config<S::Alloc>,
    former: Started<S, D>,
    keeping: Keeping,
    watch: &mut W,
) -> Result<Started<S, D>, StartFault<S::Alloc>>
    requires behind { IsBehind former.found former.rotation.files }
    requires whole { HasWholeRow (D.state directory.old) former.rotation.files.last
        former.keeper.world.state }
    ensures is_started { IfOk result (λ s. IsStarted D.File.seen s.keeper) }
    ensures keeps_what_was_found { IfOk result (λ s. s.found ≡ former.found) }
    ensures folds { IfOk result (λ s. (s.rotation.draft ≡ None)
        × IsBehind s.found s.rotation.files
        × HasWholeRow (D.state directory.new) s.rotation.files.last s.keeper.world.state) }
    ensures holds { IfOk result (λ s. HoldsStill (KnowsSnapshots D.state D.File.seen)
        former.keeper.world.state s.keeper.world.state) }
    ensures rotates { IfOk result (λ s. former.found.has_grown ≡ true
        → RotatesFrom s.found s.rotation) }
    ensures means { IfOk result (λ s. GoesOnMeaning D.File.seen s.rotation s.keeper.journal) }
    ensures stops { OnErr result (StaysWhole (KnowsSnapshots D.state D.File.seen)
        (D.state directory.new) former.rotation.files.last former.keeper.world.state) }
    ensures fails { IfErr result IsFailure }
{
    let found = former.found;
    let files = former.rotation.files();
    // Called for its clause alone.
    former.keeper.node().state().know_sound();
    drop(former);
    let row = Row {
        snapshot: files.snapshot,
        last: files.last,
    };
    let folding = Keeping {
        is_folded: true,
        ..keeping
    };
    match start_standing(alloc, directory, config, row, folding, Shape::Asked, watch) {
        Ok(mut started) => {
            started.found = found;
            Ok(started)
        }
        Err(why) => Err(as_failure(why)),
    }
}

/// The row that stands in a directory; where none does, that of the files that are made.
fn row_of<S: BatchStore, D: Directory>(
    alloc: S::Alloc,
    directory: &mut D,
    config: &Config<S::Alloc>,
    standing: Option<Row>,
) -> Result<Row, StartFault<S::Alloc>>
    ensures found { IfOk result (λ row. IfSome standing (λ found. (row ≡ found)
        × (directory.new ≡ directory.old))) }
    ensures in_order { IfOk result (λ row. IfSome standing (λ found. found.snapshot ≤ found.last)
        → row.snapshot ≤ row.last) }
    ensures none { OnErr result (standing ≡ None) }
    ensures refuses { IfErr result
        (RefusesUnchanged (D.state directory.old) (D.state directory.new)) }
{
    match standing {
        Some(row) => Ok(row),
        None => {
            make_files::<S, D>(alloc, directory, config)?;
            Ok(FIRST_ROW)
        }
    }
}

/// What a fault means: of files that this start made it is no refusal.
fn fault_of<A: Allocator>(is_new: bool, why: StartFault<A>) -> StartFault<A>
    ensures { MatchBool is_new (IsFailure result) (result ≡ why) }
{
    if is_new { as_failure(why) } else { why }
}

/// Refuses files of this start's own that have less than is asked for: they were made with all of it.
fn check_as_asked<A: Allocator>(found: Found) -> Result<(), StartFault<A>>
    ensures as_asked { OnOk result (found.is_new ≡ true → found.has_grown ≡ false) }
    ensures new { OnErr result (found.is_new ≡ true) }
    ensures fails { IfErr result IsFailure }
{
    if found.is_new && found.has_grown {
        return Err(failed(
            Some(Name::Snapshot(FIRST_ROW.snapshot)),
            Error::from(ErrorKind::InvalidData),
        ));
    }
    Ok(())
}

/// Starts a broker of this configuration with a directory: judges its files and handles the journals' frames again, and
/// only then cuts what is behind the last sound group, and removes files that are of no use; or makes its files, if it has
/// none. What was read is on the disk for certain behind it, whatever a start before found there. Where topics or partitions
/// are asked for that it doesn't have, they are added, by a snapshot. The first producer id that is asked for counts for a new
/// directory alone. A file below the snapshot that can't be removed stays, and is tried again while the broker runs. `watch` is told
/// how far it is.
///
/// # Errors
///
/// The first [`StartFault`] that is found: of the names, of the snapshot, of the configuration, of each journal's head and
/// its groups, from the snapshot's number on; then the directory is as it was. `Failed` and `OutOfMemory` may come later.
/// A file of this start's own that can't be read again is `Failed`.
pub fn start<S: BatchStore + Drop, D: Directory, W: Watching>(
    alloc: S::Alloc,
    directory: &mut D,
    config: &Config<S::Alloc>,
    keeping: Keeping,
    watch: &mut W,
) -> Result<Started<S, D>, StartFault<S::Alloc>>
    ensures is_started { IfOk result (λ s. IsStarted D.File.seen s.keeper) }
    ensures takes_its_files { IfOk result (λ s. TakesFiles (KnowsSnapshots D.state D.File.seen)
        (D.state directory.old) (D.gives directory.old) D.File.seen (config_value config.now)
        s.found s.keeper.world.state) }
    ensures rotates { IfOk result (λ s. RotatesFrom s.found s.rotation) }
    ensures removes { IfOk result (λ s. s.found.is_new ≡ false
        → Removes (D.state directory.old) (D.state directory.new) s.found s.rotation.files
        s.keeper.world.state) }
    ensures means { IfOk result (λ s. GoesOnMeaning D.File.seen s.rotation s.keeper.journal) }
    ensures keeps_the_row { OnErr result (KeepsRow (KnowsSnapshots D.state D.File.seen)
        (D.state directory.old) (D.gives directory.old) D.File.seen (D.state directory.new)) }
    ensures refuses { IfErr result
        (RefusesUnchanged (D.state directory.old) (D.state directory.new)) }
{
    let standing = standing_of(alloc, directory)?;
    let row = row_of::<S, D>(alloc, directory, config, standing)?;
    let begun = start_standing(alloc, directory, config, row, keeping, Shape::Former, watch);
    let mut started = match begun {
        Ok(started) => started,
        Err(why) => return Err(fault_of(standing.is_none(), why)),
    };
    started.found.is_new = standing.is_none();
    match check_as_asked(started.found) {
        Ok(()) => {}
        Err(why) => return Err(why),
    }
    if started.found.has_grown {
        return grow(alloc, directory, config, started, keeping, watch);
    }
    Ok(started)
}
