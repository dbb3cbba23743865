//! What is known of passes of cleaning, kept in a directory: the file `cleanings`. A start takes it where it holds behind the journals
//! that were read, and else removes it.

ghost use Rattle.std.specs.Prelude.{◌≡◌, ◌≤◌, IfErr, IfOk};

use crate::keeping::say_failed_at;
use crate::reports::{Reason, say};
use crate::upkeep::{Upkeep, topic_at};
use broker_state::BrokerState;
use cleaning_marks::{
    GroupSeen, JournalPlace, JournalSeen, MarksError, PartitionMarks, believe, group_seen,
    head_seen, judge_marks, put_marks,
};
use cleaning_policy::Marks;
use data_directory::{Cleanings, Folder, KeepsCleanings};
use journal::layout::FRAMES_AT;
use journal::{Disk, OpenError, ReadError, Reader, read_bytes};
use kept_starts::{Directory, Keeper, Name, Place, Started};
use segment::BatchStore;
use std::alloc::{Alloc, AllocError, Global};
use std::fs::{File, Files};
use std::io::{Error, ErrorKind, Result as IoResult, Write};
use std::random::RandomSource;
use std::string::String;

/// The file's name.
const CLEANINGS: &str = "cleanings";

/// The most bytes that the file may have: more than marks of two million partitions with short names take.
const MOST_BYTES: usize = 268_435_456;

/// What is known of passes of former runs.
#[derive(Drop)]
pub(crate) struct KnownMarks {
    /// The bytes of the file; none where there is no file that is believed.
    bytes: Vec<u8>,
    /// The number of the journal behind which it holds.
    journal: Option<u64>,
}

impl KnownMarks {
    /// Nothing is known.
    fn none(alloc: Global) -> KnownMarks {
        KnownMarks {
            bytes: Vec::new(alloc),
            journal: None,
        }
    }

    /// The number of the journal behind which it holds, where something is known.
    pub(crate) fn journal(&self) -> Option<u64> {
        self.journal
    }
}

/// Puts back what is known of the partitions that a broker has.
pub(crate) fn put_back_all<S: BatchStore>(
    upkeep: &mut Upkeep,
    state: &BrokerState<S>,
    known: &KnownMarks,
) {
    let Ok(file) = judge_marks(&known.bytes) else {
        return;
    };
    for kept in file.partitions {
        upkeep.put_back(state, kept.topic, kept.partition, kept.marks());
    }
}

// ---- the place in a journal

/// A journal whose groups were read.
#[derive(Clone, Copy)]
struct ReadJournal {
    number: u64,
    key: i64,
    /// How many bytes its head has.
    start: u64,
    /// The byte offset behind its groups.
    end: u64,
}

/// What a failed read says of itself.
fn io_of(why: ReadError) -> Error {
    match why {
        ReadError::OnDisk(why) => why,
        ReadError::OutOfMemory => Error::from(ErrorKind::OutOfMemory),
    }
}

/// The group that begins at a byte offset of a journal, or its head where that is 0.
fn seen_at<D: Disk>(
    alloc: Global,
    disk: &D,
    journal: ReadJournal,
    at: u64,
) -> IoResult<Option<GroupSeen>> {
    let mut bytes = Vec::new(alloc);
    let size = if at == 0 {
        usize::try_from(journal.start).unwrap_or(0)
    } else {
        FRAMES_AT
    };
    match at.checked_add(size as u64) {
        Some(end) if end <= journal.end => {}
        _ => return Ok(None),
    }
    match read_bytes(disk, at, size, &mut bytes) {
        Ok(()) => {}
        Err(why) => return Err(io_of(why)),
    }
    if at == 0 {
        return Ok(head_seen(journal.start, &bytes));
    }
    Ok(group_seen(journal.key, at, &bytes))
}

/// The journal to which a broker appends.
fn last_journal<S: BatchStore + Drop, D: Disk + Drop>(
    number: u64,
    keeper: &Keeper<S, Global, D>,
) -> ReadJournal {
    ReadJournal {
        number,
        key: i64::from_be_bytes(keeper.journal_key()),
        start: keeper.journal_start(),
        end: keeper.journal_end(),
    }
}

/// A journal before the last one, whose groups were all read.
fn former_journal<D: Directory>(
    alloc: Global,
    directory: &D,
    number: u64,
) -> IoResult<Option<ReadJournal>> {
    let disk = directory.open(Name::Journal(number))?;
    match Reader::open(disk, alloc) {
        Ok(reader) => Ok(Some(ReadJournal {
            number,
            key: i64::from_be_bytes(reader.head().key),
            start: reader.head().size() as u64,
            end: reader.size(),
        })),
        Err(OpenError::OnDisk(why)) => Err(why),
        Err(_) => Ok(None),
    }
}

/// The journal behind which a file holds, if a start has read it.
fn journal_of<S: BatchStore<Alloc = Global> + Drop, D: Directory>(
    alloc: Global,
    directory: &D,
    started: &Started<S, D>,
    place: &JournalPlace,
) -> IoResult<Option<ReadJournal>> {
    let files = started.rotation.files();
    if place.number < files.snapshot || place.number > files.last {
        return Ok(None);
    }
    if place.number == files.last {
        return Ok(Some(last_journal(files.last, &started.keeper)));
    }
    former_journal(alloc, directory, place.number)
}

/// What a start has seen of the journal behind which a file holds; of another one, where that isn't there.
fn journal_seen<S: BatchStore<Alloc = Global> + Drop, D: Directory>(
    alloc: Global,
    directory: &D,
    started: &Started<S, D>,
    place: &JournalPlace,
) -> IoResult<JournalSeen> {
    let Some(journal) = journal_of(alloc, directory, started, place)? else {
        return Ok(JournalSeen {
            number: 0,
            key: 0,
            read: 0,
            group: None,
        });
    };
    let disk = directory.open(Name::Journal(journal.number))?;
    Ok(JournalSeen {
        number: journal.number,
        key: journal.key,
        read: journal.end,
        group: seen_at(alloc, &disk, journal, place.group_at)?,
    })
}

// ---- a start

/// What is wrong with a file's bytes, or with the journal behind which they hold, in words; none where they are believed.
fn fault_of<S: BatchStore<Alloc = Global> + Drop, D: Directory>(
    alloc: Global,
    directory: &D,
    started: &Started<S, D>,
    bytes: &[u8],
) -> IoResult<Option<String>> {
    let file = match judge_marks(bytes) {
        Ok(file) => file,
        Err(MarksError::BadVersion) => {
            return Ok(Some(String::from_str(alloc, "of a later version")?));
        }
        Err(why) => return Ok(Some(format!(in alloc; "damaged: {why}")?)),
    };
    let seen = journal_seen(alloc, directory, started, &file.place)?;
    match believe(&file.place, &seen) {
        Ok(()) => Ok(None),
        Err(why) => Ok(Some(format!(in alloc; "not behind these journals: {why}")?)),
    }
}

/// The number of the journal behind which a file holds.
fn number_in(bytes: &[u8]) -> Option<u64> {
    match judge_marks(bytes) {
        Ok(file) => Some(file.place.number),
        Err(_) => None,
    }
}

/// Removes the file so that a power cut doesn't bring it back.
fn remove_for_certain<D: Directory + KeepsCleanings>(directory: &mut D) -> IoResult<()> {
    if directory.remove_cleanings()? {
        directory.sync()?;
    }
    Ok(())
}

/// Says why the file is removed, and removes it: it could be believed later else, once its journal has grown. Where it can't be
/// removed, that is said, and the status given.
fn remove<D: Directory + KeepsCleanings, E: Write>(
    alloc: Global,
    directory: &mut D,
    path: &str,
    words: IoResult<String>,
    err: &mut E,
) -> Result<KnownMarks, u8>
    ensures is_status { IfErr result (λ status. status ≤ 4) }
{
    let told = match words {
        Ok(words) => format!(in alloc; "cleanings: {words}; removed\n"),
        Err(why) => {
            let why = Reason(&why);
            format!(in alloc; "cleanings: {why}; removed\n")
        }
    };
    say(told, err);
    match remove_for_certain(directory) {
        Ok(()) => Ok(KnownMarks::none(alloc)),
        Err(why) => Err(say_failed_at(alloc, path, CLEANINGS, &why, err)),
    }
}

/// What is known of former runs' passes in a directory from which a broker was started, where it is believed; else it is said why not,
/// and the file is removed. Where it can't be removed, that is said, and the status given.
fn known_in<S: BatchStore<Alloc = Global> + Drop, D: Directory + KeepsCleanings, E: Write>(
    alloc: Global,
    directory: &mut D,
    started: &Started<S, D>,
    path: &str,
    err: &mut E,
) -> Result<KnownMarks, u8>
    ensures is_status { IfErr result (λ status. status ≤ 4) }
{
    let bytes = match directory.read_cleanings(MOST_BYTES) {
        Ok(Cleanings::Bytes(bytes)) => bytes,
        Ok(Cleanings::Nothing) => return Ok(KnownMarks::none(alloc)),
        Ok(Cleanings::NoFile) => {
            let line = String::from_str(alloc, "cleanings: not a regular file; passed over\n");
            say(line, err);
            return Ok(KnownMarks::none(alloc));
        }
        Ok(Cleanings::TooLarge(_)) => {
            let words = String::from_str(alloc, "too large");
            return remove(alloc, directory, path, words.map_err(Error::from), err);
        }
        Err(why) => return remove(alloc, directory, path, Err(why), err),
    };
    match fault_of(alloc, directory, started, &bytes) {
        Ok(None) => {
            let journal = number_in(&bytes);
            Ok(KnownMarks { bytes, journal })
        }
        Ok(Some(words)) => remove(alloc, directory, path, Ok(words), err),
        Err(why) => remove(alloc, directory, path, Err(why), err),
    }
}

/// A broker that was started with a directory, and what is known of former runs' passes there, where it is believed; else it is said
/// why not, and the file is removed. Where it can't be removed, that is said, and the status given.
pub(crate) fn settle<S: BatchStore<Alloc = Global> + Drop, D: Directory + KeepsCleanings, E: Write>(
    alloc: Global,
    directory: &mut D,
    started: Started<S, D>,
    path: &str,
    err: &mut E,
) -> Result<(Started<S, D>, KnownMarks), u8>
    ensures is_status { IfErr result (λ status. status ≤ 4) }
    ensures keeps_the_broker { IfOk result (λ x. x.0 ≡ started) }
{
    let known = known_in(alloc, directory, &started, path, err)?;
    Ok((started, known))
}

/// What the file of a directory is, as one line without its end; none where there is no such file.
pub(crate) fn line_of<R: Files<File = File> + RandomSource + Alloc + Clone + Drop>(
    alloc: Global,
    folder: &Folder<'_, R>,
) -> Result<Option<String>, AllocError> {
    let line = match folder.read_cleanings(MOST_BYTES) {
        Ok(Cleanings::Bytes(bytes)) => bytes_line(alloc, &bytes)?,
        Ok(Cleanings::Nothing) => return Ok(None),
        Ok(Cleanings::NoFile) => String::from_str(alloc, "cleanings: not a regular file")?,
        Ok(Cleanings::TooLarge(size)) => format!(in alloc; "cleanings: {size} bytes, too large")?,
        Err(why) => {
            let why = Reason(&why);
            format!(in alloc; "cleanings: {why}")?
        }
    };
    Ok(Some(line))
}

/// What a file of these bytes is.
fn bytes_line(alloc: Global, bytes: &[u8]) -> Result<String, AllocError> {
    let size = bytes.len();
    match judge_marks(bytes) {
        Ok(file) => {
            let journal = Name::Journal(file.place.number);
            let (count, end) = (file.partitions.len(), file.place.size);
            format!(in alloc;
                "cleanings: {size} bytes, {count} partitions, behind {journal} to {end}"
            )
        }
        Err(MarksError::BadVersion) => {
            format!(in alloc; "cleanings: {size} bytes, of a later version")
        }
        Err(why) => format!(in alloc; "cleanings: {size} bytes, damaged: {why}"),
    }
}

// ---- writing

/// The bytes of the file behind all groups of a broker's journal, of which the last one begins at a byte offset; 0 where there is
/// none.
pub(crate) fn bytes_behind<S: BatchStore + Drop, D: Directory>(
    alloc: Global,
    directory: &D,
    keeper: &Keeper<S, Global, D::File>,
    (number, group_at): (u64, u64),
    known: &[(Place, Marks)],
) -> IoResult<Option<Vec<u8>>> {
    let journal = last_journal(number, keeper);
    let disk = directory.open(Name::Journal(number))?;
    let Some(group) = seen_at(alloc, &disk, journal, group_at)? else {
        return Ok(None);
    };
    let place = JournalPlace {
        number,
        key: journal.key,
        size: journal.end,
        group_at,
        group_crc: group.crc,
    };
    let partitions = named(alloc, keeper.node().state(), known)?;
    let mut bytes = Vec::new(alloc);
    put_marks(alloc, place, &partitions, &mut bytes)?;
    Ok(Some(bytes))
}

/// What is known of partitions, with their names.
fn named<'a, S: BatchStore>(
    alloc: Global,
    state: &'a BrokerState<S>,
    known: &[(Place, Marks)],
) -> Result<Vec<PartitionMarks<'a>>, AllocError> {
    let mut partitions = Vec::new(alloc);
    for (place, marks) in known {
        let Some(topic) = topic_at(state, *place) else {
            continue;
        };
        partitions.push(PartitionMarks {
            topic,
            partition: i32::try_from(place.partition).unwrap_or(i32::MAX),
            marks: *marks,
        })?;
    }
    Ok(partitions)
}
