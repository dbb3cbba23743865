//! A broker that keeps its changes in a directory: its start, and why there is none or it ends.

ghost use Rattle.std.specs.Prelude.{◌≡◌, ◌≤◌, None, IfErr, IfOk};

use crate::marks::{KnownMarks, settle};
use crate::options::KeptOptions;
use crate::progress::Progress;
use crate::reports::{Reason, say};
use crate::serving_sessions::Unkept;
use kept_starts::{
    Config, Directory, Folder, FolderError, Found, JournalError, Keeping, Name, Role, StartFault,
    Started, start,
};
use segment::{BatchStore, ProgramStore};
use std::alloc::{Alloc, AllocError, Global};
use std::fs::{File, Files};
use std::io::{Error, ErrorKind, Write};
use std::random::RandomSource;
use std::string::String;
use std::time::Clock;
use subcommands::{DONE, FAILED, FAULTY, NO_MEMORY, REFUSED, refuse_configuration};

/// The store of the program's brokers.
pub(crate) type Store = ProgramStore<Global>;

/// Says that there is no memory, and answers the status.
pub(crate) fn say_no_memory<E: Write>(alloc: Global, err: &mut E) -> u8
    ensures { result ≡ 3 }
{
    say(String::from_str(alloc, "kbroker: out of memory\n"), err);
    NO_MEMORY
}

/// Says why a call on a directory or a file failed, and answers the status.
pub(crate) fn say_failed<E: Write>(
    alloc: Global,
    directory: &str,
    name: Option<Name>,
    why: &Error,
    err: &mut E,
) -> u8
    ensures { (3 ≤ result) × (result ≤ 4) }
{
    if matches!(why.kind(), ErrorKind::OutOfMemory) {
        return say_no_memory(alloc, err);
    }
    let reason = Reason(why);
    match name {
        Some(name) => say(
            format!(in alloc; "kbroker: {directory}/{name}: {reason}\n"),
            err,
        ),
        None => say(format!(in alloc; "kbroker: {directory}: {reason}\n"), err),
    }
    FAILED
}

/// Says why a call on a file of a directory failed that is none of its snapshots and journals, and answers the status.
pub(crate) fn say_failed_at<E: Write>(
    alloc: Global,
    directory: &str,
    name: &str,
    why: &Error,
    err: &mut E,
) -> u8
    ensures { (3 ≤ result) × (result ≤ 4) }
{
    if matches!(why.kind(), ErrorKind::OutOfMemory) {
        return say_no_memory(alloc, err);
    }
    let reason = Reason(why);
    say(
        format!(in alloc; "kbroker: {directory}/{name}: {reason}\n"),
        err,
    );
    FAILED
}

/// Says why what was done can't be kept, and answers the status.
pub(crate) fn fail_keeping<E: Write>(
    alloc: Global,
    directory: &str,
    why: &Unkept,
    err: &mut E,
) -> u8
    ensures is_status { result ≤ 4 }
{
    match why {
        Unkept::OutOfMemory => say_no_memory(alloc, err),
        Unkept::Journal(name, JournalError::OnDisk(why)) => {
            say_failed(alloc, directory, Some(*name), why, err)
        }
        Unkept::Journal(name, why) => {
            say(
                format!(in alloc; "kbroker: {directory}/{name}: {why}\n"),
                err,
            );
            FAILED
        }
        Unkept::Directory(name, why) => say_failed(alloc, directory, *name, why, err),
    }
}

/// What is wrong with a file, in words; none where it isn't a file that is at fault.
fn words_of(alloc: Global, why: &StartFault<Global>) -> Result<Option<String>, AllocError> {
    let words = match why {
        StartFault::Damaged { name, at, why } => {
            format!(in alloc; "{name}: damaged at byte {at}: {why}")?
        }
        StartFault::Later(name, why) => format!(in alloc; "{name}: of a later version: {why}")?,
        StartFault::Missing(name) => format!(in alloc; "{name}: missing")?,
        StartFault::NotRegular(name) => format!(in alloc; "{name}: not a regular file")?,
        StartFault::OfAnother(name, other) => {
            format!(in alloc; "{name}: of another directory than {other}")?
        }
        StartFault::OtherRole(_)
        | StartFault::OtherTopic {
            name: _,
            partitions: _,
        }
        | StartFault::Configuration(_)
        | StartFault::OutOfMemory
        | StartFault::Failed(_, _) => return Ok(None),
    };
    Ok(Some(words))
}

/// How a directory's topic differs from the one that is asked for, in words.
fn topic_words(alloc: Global, name: &[u8], partitions: usize) -> Result<String, AllocError> {
    let topic = std::str::from_utf8(name).unwrap_or("?");
    match partitions {
        1 => format!(in alloc; "topic {topic}: 1 partition"),
        _ => format!(in alloc; "topic {topic}: {partitions} partitions"),
    }
}

/// How a directory's configuration differs from the one that is asked for, in words; none where it doesn't.
fn other_of(alloc: Global, why: &StartFault<Global>) -> Result<Option<String>, AllocError> {
    let words = match why {
        StartFault::OtherRole(Role::Leader) => String::from_str(alloc, "role: leader")?,
        StartFault::OtherRole(Role::Follower) => String::from_str(alloc, "role: follower")?,
        StartFault::OtherTopic { name, partitions } => topic_words(alloc, name, *partitions)?,
        _ => return Ok(None),
    };
    Ok(Some(words))
}

/// Says a line of a file of a directory.
fn say_of<E: Write>(alloc: Global, directory: &str, words: &str, err: &mut E) {
    say(format!(in alloc; "kbroker: {directory}/{words}\n"), err);
}

/// Says why a broker doesn't start with a directory, and answers the status.
pub(crate) fn refuse<E: Write>(
    alloc: Global,
    directory: &str,
    why: StartFault<Global>,
    err: &mut E,
) -> Result<u8, AllocError>
    ensures is_status { IfOk result (λ status. (1 ≤ status) × (status ≤ 4)) }
{
    if let Some(words) = words_of(alloc, &why)? {
        say_of(alloc, directory, &words, err);
        return Ok(REFUSED);
    }
    if let Some(words) = other_of(alloc, &why)? {
        say(format!(in alloc; "kbroker: {directory}: {words}\n"), err);
        return Ok(FAULTY);
    }
    match why {
        StartFault::Configuration(why) => Ok(refuse_configuration(why, err)),
        StartFault::Failed(name, why) => Ok(say_failed(alloc, directory, name, &why, err)),
        _ => Err(AllocError),
    }
}

/// What was found in a directory, in words.
fn found_words(alloc: Global, directory: &str, found: &Found) -> Result<String, AllocError> {
    let Found {
        is_new,
        snapshot,
        frames,
        journal,
        at,
        cut,
        has_grown: _,
    } = *found;
    if is_new {
        return format!(in alloc; "recovered 0 frames; {directory} is new\n");
    }
    let journal = Name::Journal(journal);
    if cut > 0 {
        return format!(in alloc;
            "recovered snapshot {snapshot}, {frames} frames; cut {cut} bytes of {journal} at {at}\n"
        );
    }
    format!(in alloc; "recovered snapshot {snapshot}, {frames} frames\n")
}

/// Opens a directory and locks it, or says why it can't, and gives the status.
fn opened<'a, R: Files<File = File> + RandomSource + Alloc + Clone + Drop, E: Write>(
    rt: &'a R,
    alloc: Global,
    directory: &'a str,
    err: &mut E,
) -> Result<Folder<'a, R>, u8>
    ensures { IfErr result (λ status. status ≤ 4) }
{
    match Folder::open(rt, alloc, directory) {
        Ok(folder) => Ok(folder),
        Err(FolderError::InUse) => {
            say(format!(in alloc; "kbroker: {directory}: in use\n"), err);
            Err(FAILED)
        }
        Err(FolderError::Failed(why)) => Err(say_failed(alloc, directory, None, &why, err)),
    }
}

/// A directory, the broker that was started with it, and what is known of passes of former runs. The directory stays locked as long as
/// the folder is there.
type InFolder<'a, R> = (Folder<'a, R>, Started<Store, Folder<'a, R>>, KnownMarks);

/// Starts a broker with a directory, and says how far it is while that takes long.
fn begin<'a, R: Clock + Files<File = File> + RandomSource + Alloc + Clone + Drop, E: Write>(
    rt: &'a R,
    alloc: Global,
    folder: &mut Folder<'a, R>,
    config: &Config<Global>,
    keeping: Keeping,
    err: &mut E,
) -> Result<Started<Store, Folder<'a, R>>, StartFault<Global>>
    ensures not_begun { IfOk result (λ started. started.rotation.draft ≡ None) }
{
    let mut progress = Progress::new(rt, alloc, "recovering", err);
    start(alloc, folder, config, keeping, &mut progress)
}

/// Starts a broker with a directory, and says what was found there; or says why there is none, and gives the status.
pub(crate) fn started_in<
    'a,
    R: Clock + Files<File = File> + RandomSource + Alloc + Clone + Drop,
    E: Write,
>(
    rt: &'a R,
    alloc: Global,
    config: &Config<Global>,
    directory: &'a str,
    keeping: Keeping,
    err: &mut E,
) -> Result<InFolder<'a, R>, u8>
    ensures is_status { IfErr result (λ status. status ≤ 4) }
    ensures not_begun { IfOk result (λ x. x.1.rotation.draft ≡ None) }
{
    let mut folder = opened(rt, alloc, directory, err)?;
    match begin(rt, alloc, &mut folder, config, keeping, err) {
        Ok(started) => {
            say(found_words(alloc, directory, &started.found), err);
            let (started, known) = settle(alloc, &mut folder, started, directory, err)?;
            Ok((folder, started, known))
        }
        Err(why) => match refuse(alloc, directory, why, err) {
            Ok(status) => Err(status),
            Err(_) => Err(say_no_memory(alloc, err)),
        },
    }
}

/// How a broker is to keep what it does.
pub(crate) fn keeping_of(kept: &KeptOptions, snapshot_after: u64) -> Keeping {
    Keeping {
        is_folded: kept.is_folded,
        most_journal: snapshot_after,
    }
}

/// The number of the last snapshot of a broker that is over.
fn last_snapshot<S: BatchStore + Drop, D: Directory>(started: Started<S, D>) -> u64 {
    started.rotation.files().snapshot
}

/// Starts a broker with a directory, takes a snapshot, and says which; answers the status.
pub(crate) fn fold<
    'a,
    R: Clock + Files<File = File> + RandomSource + Alloc + Clone + Drop,
    E: Write,
>(
    rt: &'a R,
    alloc: Global,
    config: &'a Config<Global>,
    kept: &'a KeptOptions,
    snapshot_after: u64,
    err: &mut E,
) -> u8
    ensures is_status { result ≤ 4 }
{
    let keeping = keeping_of(kept, snapshot_after);
    let (_folder, started, _known) = match started_in(
        rt,
        alloc,
        config,
        &kept.directory,
        keeping,
        err,
    ) {
        Ok(started) => started,
        Err(status) => return status,
    };
    let number = last_snapshot(started);
    say(format!(in alloc; "folded into snapshot {number}\n"), err);
    DONE
}
