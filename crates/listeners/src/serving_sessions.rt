//! The sessions of a broker, as connections visit them: those of one that keeps nothing on disk, and those of one that keeps
//! its changes in a journal.

ghost use Rattle.std.specs.Prelude.{◌≡◌, None};

use crate::marks::bytes_behind;
use crate::options::SyncWay;
use crate::reports::is_over;
use broker_state::BrokerState;
use cleaning_policy::Marks;
use data_directory::KeepsCleanings;
use kept_rotations::id_of;
use kept_starts::sessions::{Plainly, Seat, Session, Sessions, Visit};
use kept_starts::{
    CommitError, Directory, Done, JournalError, Keeper, Missed, Name, Place, Put, Rotation,
    RotationFault, Sent, Started,
};
use segment::BatchStore;
use snapshot_drafts::snapshot_size;
use std::alloc::{AllocError, Global};
use std::collections::VecDeque;
use std::io::{Error, Read, Result as IoResult, Write};
use std::marker::Model;
use std::time::{Duration, Instant};

/// A round notes no more once it has so many bytes of frames.
const FULL_GROUP: usize = 1_048_576;

/// So many bytes are synced at once, whatever the time.
const MOST_UNSYNCED: u64 = 4_194_304;

/// Why what was done can't be kept.
#[derive(Drop)]
pub(crate) enum Unkept {
    /// A request was done in part, for want of memory.
    OutOfMemory,
    /// The journal took no more.
    Journal(Name, JournalError),
    /// It isn't certain which files the directory has.
    Directory(Option<Name>, Error),
}

/// The sessions of a broker. What the calls do that `Sessions` has too is said there.
pub(crate) trait ServedSessions {
    type Store: BatchStore;

    /// What the broker holds.
    fn state(&self) -> &BrokerState<Self::Store>;

    /// Is told that what partitions have may have changed.
    fn measure(&mut self);

    /// Whether what is known of passes is kept over restarts.
    fn keeps_marks(&self) -> bool;

    /// Whether what was written of it last stands behind a journal that isn't the last one.
    fn has_marks_elsewhere(&self) -> bool;

    /// Writes it, and gives whether it could: not where it isn't known where the last group of the journal begins.
    fn write_marks(&mut self, known: &[(Place, Marks)]) -> IoResult<bool>;

    fn open(&mut self) -> Result<u64, AllocError>;

    fn visit<R: Read>(
        &mut self,
        number: u64,
        clock: u64,
        seat: &mut Seat,
        from: &mut R,
    ) -> Option<Visit>;

    /// Has a session visited again whose first frame was put off, once the partition at this place may change.
    fn put_off(&mut self, number: u64, place: Place) -> Result<(), AllocError>;

    /// Sends a session what it is owed, unless that is to be kept before.
    fn send<W: Write>(&mut self, number: u64, seat: &mut Seat, to: &mut W) -> Option<Sent>;

    fn close(&mut self, number: u64) -> bool;

    fn session(&self, number: u64) -> Option<&Session<Global>>;

    fn next_woken(&mut self, clock: u64) -> Option<u64>;

    fn is_waiting(&self, number: u64) -> bool;

    fn awaited(&self, number: u64) -> usize;

    fn next_due(&self) -> Option<u128>;

    /// Whether so much was done since it was put where it is kept that no more is to be.
    fn is_full(&self) -> bool;

    /// Puts what was done where it is kept, and gives what wasn't done beside for that. What is owed may leave once it is synced,
    /// where that is due.
    fn put(&mut self, clock: u64) -> Result<Option<Missed>, Unkept>;

    /// Whether something that was put isn't synced, and will be.
    fn is_to_sync(&self) -> bool;

    /// Whether that is to be synced now, before what is owed leaves. Where it isn't, it will be by `sync_at`.
    fn is_sync_due(&mut self, now: Instant) -> bool;

    /// When it is to be synced, though nothing is done.
    fn sync_at(&self) -> Option<Instant>;

    /// Syncs all that was put.
    fn sync(&mut self) -> Result<(), Unkept>;

    /// The file that is synced, if there is one.
    fn journal(&self) -> Option<Name>;

    /// Makes the next step of what is to be done beside, if there is one, and gives what was done and wasn't.
    fn tend(&mut self, clock: u64) -> Result<Done, Unkept>;

    /// Whether another step is to follow at once.
    fn is_tending(&self, clock: u64) -> bool;

    /// When the next step is to be made by the clock, though nothing is done.
    fn tend_at(&self) -> Option<u64>;
}

/// No step was made.
fn nothing_done() -> Done {
    Done {
        missed: None,
        taken: None,
    }
}

impl<S: BatchStore> ServedSessions for Sessions<S, Global> {
    type Store = S;

    fn state(&self) -> &BrokerState<S> {
        self.node().state()
    }

    fn measure(&mut self) {}

    fn keeps_marks(&self) -> bool {
        false
    }

    fn has_marks_elsewhere(&self) -> bool {
        false
    }

    fn write_marks(&mut self, _known: &[(Place, Marks)]) -> IoResult<bool> {
        Ok(false)
    }

    fn open(&mut self) -> Result<u64, AllocError> {
        self.open()
    }

    fn visit<R: Read>(
        &mut self,
        number: u64,
        clock: u64,
        seat: &mut Seat,
        from: &mut R,
    ) -> Option<Visit> {
        self.visit(number, clock, &mut Plainly, seat, from)
    }

    fn put_off(&mut self, _number: u64, _place: Place) -> Result<(), AllocError> {
        // Each partition may change at any time.
        Err(AllocError)
    }

    fn send<W: Write>(&mut self, number: u64, seat: &mut Seat, to: &mut W) -> Option<Sent> {
        match self.send(number, seat, to)? {
            Ok(flushed) => Some(Sent::Bytes(flushed)),
            Err(why) => Some(Sent::Failed(why)),
        }
    }

    fn close(&mut self, number: u64) -> bool {
        self.close(number)
    }

    fn session(&self, number: u64) -> Option<&Session<Global>> {
        self.session(number)
    }

    fn next_woken(&mut self, clock: u64) -> Option<u64> {
        self.next_woken(clock)
    }

    fn is_waiting(&self, number: u64) -> bool {
        self.is_waiting(number)
    }

    fn awaited(&self, number: u64) -> usize {
        self.awaited(number)
    }

    fn next_due(&self) -> Option<u128> {
        self.next_due()
    }

    fn is_full(&self) -> bool {
        false
    }

    fn put(&mut self, _clock: u64) -> Result<Option<Missed>, Unkept> {
        Ok(None)
    }

    fn is_to_sync(&self) -> bool {
        false
    }

    fn is_sync_due(&mut self, _now: Instant) -> bool {
        false
    }

    fn sync_at(&self) -> Option<Instant> {
        None
    }

    fn sync(&mut self) -> Result<(), Unkept> {
        Ok(())
    }

    fn journal(&self) -> Option<Name> {
        None
    }

    fn tend(&mut self, _clock: u64) -> Result<Done, Unkept> {
        Ok(nothing_done())
    }

    fn is_tending(&self, _clock: u64) -> bool {
        false
    }

    fn tend_at(&self) -> Option<u64> {
        None
    }
}

/// The sessions of a broker that keeps its changes in the journals of a directory, and takes snapshots.
#[derive(Drop)]
pub(crate) struct Kept<S: BatchStore + Drop, D: Directory + Drop> {
    directory: D,
    keeper: Keeper<S, Global, D::File>,
    rotation: Rotation<D::Draft, Global>,
    sync: SyncWay,
    /// When the journal is to be synced, if something in it isn't.
    sync_at: Option<Instant>,
    /// A partition for which a frame was put off, until its image is in the snapshot.
    wanted: Option<Place>,
    /// The sessions whose first frame was put off.
    put_off: VecDeque<u64>,
    /// How many of these are to be visited again, from the first on.
    woken: usize,
    alloc: Global,
    /// The number of the journal to which a group was put last, and the byte offset at which that begins there.
    group: Option<(u64, u64)>,
    /// The number of the journal behind which what is known of passes was written last.
    marks: Option<u64>,
}

impl<S: BatchStore + Drop, D: Directory + Drop> Model for Kept<S, D> {
    ghost use Rattle.kept_starts.specs.Below.{IsTheOne};

    ghost Value = { D };

    ghost view = { λ k. k.directory };

    // The snapshot that is written is the directory's one in the making.
    ghost invariant = { λ k. IsTheOne D.Draft.number k.rotation (D.state k.directory) };
}

impl<S: BatchStore + Drop, D: Directory + Drop> Kept<S, D> {
    /// A broker that was started with a directory, and whose journal is synced in this way. What is known of passes stands there
    /// behind the journal of this number, if any is known.
    pub(crate) fn new(
        alloc: Global,
        directory: D,
        started: Started<S, D>,
        marks: Option<u64>,
        sync: SyncWay,
    ) -> Kept<S, D>
    where
        S: BatchStore<Alloc = Global>,
        requires not_begun { started.rotation.draft ≡ None }
    {
        Kept {
            directory,
            keeper: started.keeper,
            rotation: started.rotation,
            sync,
            sync_at: None,
            wanted: None,
            put_off: VecDeque::new(alloc),
            woken: 0,
            alloc,
            group: None,
            marks,
        }
    }

    /// The name of the journal to which groups go.
    fn last_journal(&self) -> Name {
        Name::Journal(self.rotation.files().last)
    }

    /// Whether what was put is to be synced: so many milliseconds after it was put, or where much isn't synced.
    fn is_over_for(&mut self, now: Instant, patience: u32) -> bool {
        if self.sync_at.is_none() {
            self.sync_at = now.checked_add(Duration::from_millis(u64::from(patience)));
        }
        self.keeper.unsynced() >= MOST_UNSYNCED || is_over(self.sync_at, now)
    }

    /// The number of the last journal, and the byte offset at which its last group begins; 0 where it has none. None where that isn't
    /// known: the group was there when the broker was started.
    fn last_group(&self) -> Option<(u64, u64)> {
        let last = self.rotation.files().last;
        match self.group {
            Some((number, at)) if number == last => Some((last, at)),
            _ if self.keeper.journal_end() == self.keeper.journal_start() => Some((last, 0)),
            _ => None,
        }
    }

    /// Forgets when the journal is to be synced, where it is: a snapshot that begins syncs it.
    fn forget_synced(&mut self) {
        if self.keeper.unsynced() == 0 {
            self.sync_at = None;
        }
    }
}

impl<S: BatchStore + Drop, D: Directory + KeepsCleanings + Drop> ServedSessions for Kept<S, D> {
    type Store = S;

    fn state(&self) -> &BrokerState<S> {
        self.keeper.node().state()
    }

    fn measure(&mut self) {
        let id = id_of(self.rotation.files().last, &self.keeper.journal_key());
        let state = self.keeper.node().state();
        if let Ok(size) = snapshot_size(self.alloc, id, state) {
            self.rotation.note_size(size);
        }
    }

    fn keeps_marks(&self) -> bool {
        true
    }

    fn has_marks_elsewhere(&self) -> bool {
        matches!(self.marks, Some(number) if number != self.rotation.files().last)
    }

    fn write_marks(&mut self, known: &[(Place, Marks)]) -> IoResult<bool> {
        let Some((number, at)) = self.last_group() else {
            return Ok(false);
        };
        let bytes = bytes_behind(
            self.alloc,
            &self.directory,
            &self.keeper,
            (number, at),
            known,
        )?;
        let Some(bytes) = bytes else {
            return Ok(false);
        };
        self.directory.write_cleanings(&bytes)?;
        self.marks = Some(number);
        Ok(true)
    }

    fn open(&mut self) -> Result<u64, AllocError> {
        self.keeper.open()
    }

    fn visit<R: Read>(
        &mut self,
        number: u64,
        clock: u64,
        seat: &mut Seat,
        from: &mut R,
    ) -> Option<Visit> {
        self.keeper.answer(number, clock, seat, from)
    }

    fn put_off(&mut self, number: u64, place: Place) -> Result<(), AllocError> {
        // It is visited again behind the next image.
        self.wanted = Some(place);
        match self.put_off.push_back(number) {
            Ok(_) => Ok(()),
            Err(_) => Err(AllocError),
        }
    }

    fn send<W: Write>(&mut self, number: u64, seat: &mut Seat, to: &mut W) -> Option<Sent> {
        self.keeper.send(number, seat, to)
    }

    fn close(&mut self, number: u64) -> bool {
        self.keeper.close(number)
    }

    fn session(&self, number: u64) -> Option<&Session<Global>> {
        self.keeper.session(number)
    }

    fn next_woken(&mut self, clock: u64) -> Option<u64> {
        if self.woken > 0 {
            self.woken -= 1;
            return self.put_off.pop_front();
        }
        self.keeper.next_woken(clock)
    }

    fn is_waiting(&self, number: u64) -> bool {
        self.keeper.is_waiting(number)
    }

    fn awaited(&self, number: u64) -> usize {
        self.keeper.awaited(number)
    }

    fn next_due(&self) -> Option<u128> {
        self.keeper.next_due()
    }

    fn is_full(&self) -> bool {
        self.keeper.noted() >= FULL_GROUP
    }

    fn put(&mut self, clock: u64) -> Result<Option<Missed>, Unkept> {
        let journal = self.last_journal();
        let end = self.keeper.journal_end();
        let put = self
            .rotation
            .put_group(&mut self.keeper, &mut self.directory, clock, Put::Append);
        if self.keeper.journal_end() > end {
            self.group = Some((self.rotation.files().last, end));
        }
        match put {
            Ok(missed) => Ok(missed),
            Err(CommitError::OutOfMemory) => Err(Unkept::OutOfMemory),
            Err(CommitError::Journal(why)) => Err(Unkept::Journal(journal, why)),
        }
    }

    fn is_to_sync(&self) -> bool {
        match self.sync {
            SyncWay::Never => false,
            SyncWay::Always | SyncWay::Every(_) => self.keeper.unsynced() > 0,
        }
    }

    fn is_sync_due(&mut self, now: Instant) -> bool {
        match self.sync {
            SyncWay::Always => true,
            SyncWay::Every(patience) => self.is_over_for(now, patience),
            SyncWay::Never => false,
        }
    }

    fn sync_at(&self) -> Option<Instant> {
        self.sync_at
    }

    fn sync(&mut self) -> Result<(), Unkept> {
        self.sync_at = None;
        match self.keeper.sync() {
            Ok(()) => Ok(()),
            Err(why) => Err(Unkept::Journal(self.last_journal(), why)),
        }
    }

    fn journal(&self) -> Option<Name> {
        Some(self.last_journal())
    }

    fn tend(&mut self, clock: u64) -> Result<Done, Unkept> {
        let journal = self.last_journal();
        let wanted = self.wanted.take();
        let step = self
            .rotation
            .step(&mut self.keeper, &mut self.directory, wanted, clock);
        self.woken = self.put_off.len();
        self.forget_synced();
        match step {
            Ok(done) => Ok(done),
            Err(RotationFault::Journal(why)) => Err(Unkept::Journal(journal, why)),
            Err(RotationFault::Directory(name, why)) => Err(Unkept::Directory(name, why)),
        }
    }

    fn is_tending(&self, clock: u64) -> bool {
        self.rotation.is_going(clock)
    }

    fn tend_at(&self) -> Option<u64> {
        self.rotation.due_at(self.keeper.journal_end())
    }
}
