//! A directory is read without a start, and what stands in it is told.

ghost use Rattle.std.specs.Prelude.{◌≡◌, ◌≤◌, IfErr, IfOk, OnErr};

use crate::keeping::{Store, refuse, say_failed, say_no_memory};
use crate::marks::line_of;
use crate::progress::Progress;
use crate::reports::say;
use kept_starts::{Checked, FileFound, Folder, Found, Name, Role, StartFault, What, check};
use std::alloc::{Alloc, AllocError, Global};
use std::fs::{File, Files};
use std::io::{ErrorKind, Write};
use std::random::RandomSource;
use std::string::String;
use std::time::Clock;
use subcommands::{DONE, FAILED, FAULTY};

/// Says that a path is no data directory, and answers the status.
fn say_none<E: Write>(alloc: Global, directory: &str, err: &mut E) -> u8
    ensures { result ≡ 2 }
{
    say(
        format!(in alloc; "kbroker: {directory}: no data directory\n"),
        err,
    );
    FAULTY
}

/// Opens a directory to read it, or says why it can't, and gives the status.
fn looked<'a, R: Files<File = File> + RandomSource + Alloc + Clone + Drop, E: Write>(
    rt: &'a R,
    alloc: Global,
    directory: &'a str,
    err: &mut E,
) -> Result<Folder<'a, R>, u8>
    ensures { IfErr result (λ status. status ≤ 4) }
{
    match Folder::look(rt, alloc, directory) {
        Ok(folder) => Ok(folder),
        Err(why) if matches!(why.kind(), ErrorKind::NotFound | ErrorKind::NotADirectory) => {
            Err(say_none(alloc, directory, err))
        }
        Err(why) => Err(say_failed(alloc, directory, None, &why, err)),
    }
}

/// The role of a broker, in a word.
fn role_word(role: Role) -> &'static str {
    match role {
        Role::Leader => "leader",
        Role::Follower => "follower",
    }
}

/// What a file is, in words.
fn what_words(alloc: Global, what: &What) -> Result<String, AllocError> {
    match *what {
        What::Snapshot {
            version,
            role,
            topics,
            partitions,
        } => {
            let role = role_word(role);
            format!(in alloc; "version {version}, {role}, {topics} topics, {partitions} partitions")
        }
        What::Journal {
            version,
            groups,
            frames,
            end,
        } => format!(in alloc; "version {version}, {groups} groups, {frames} frames, to {end}"),
        What::Below(snapshot) => {
            let snapshot = Name::Snapshot(snapshot);
            format!(in alloc; "below {snapshot}")
        }
        What::Unfinished => String::from_str(alloc, "was being made"),
        What::Making => String::from_str(alloc, "in the making"),
        What::Unread => String::from_str(alloc, "not read"),
    }
}

/// The line of a file.
fn file_line(alloc: Global, found: &FileFound) -> Result<String, AllocError> {
    let words = what_words(alloc, &found.what)?;
    let (name, size) = (found.name, found.size);
    format!(in alloc; "{name}: {size} bytes, {words}\n")
}

/// The line of what a start would do with a directory.
fn start_line(alloc: Global, directory: &str, found: &Found) -> Result<String, AllocError> {
    let Found {
        is_new,
        snapshot,
        frames,
        journal,
        at,
        cut,
        has_grown: _,
    } = *found;
    if is_new {
        return format!(in alloc; "a start would make {directory}'s files anew\n");
    }
    if cut > 0 {
        let journal = Name::Journal(journal);
        return format!(in alloc;
            "a start would recover snapshot {snapshot}, {frames} frames; cut {cut} bytes of {journal} at {at}\n"
        );
    }
    format!(in alloc; "a start would recover snapshot {snapshot}, {frames} frames\n")
}

/// Why not all is told of a directory.
#[derive(Clone, Copy)]
enum Untold {
    OutOfMemory,
    /// The output takes no more.
    Unwritten,
}

impl From<AllocError> for Untold {
    fn from(_: AllocError) -> Untold {
        Untold::OutOfMemory
    }
}

/// Writes a line.
fn tell<W: Write>(line: &str, out: &mut W) -> Result<(), Untold> {
    match out.write_all(line.as_bytes()) {
        Ok(()) => Ok(()),
        Err(_) => Err(Untold::Unwritten),
    }
}

/// Tells of each file what it is.
fn tell_files<W: Write>(alloc: Global, files: &[FileFound], out: &mut W) -> Result<(), Untold> {
    for found in files {
        tell(&file_line(alloc, found)?, out)?;
    }
    Ok(())
}

/// Tells what was found in a directory, and gives the status: 0 for no fault.
fn tell_all<W: Write, E: Write>(
    alloc: Global,
    directory: &str,
    checked: Checked<Global>,
    cleanings: Option<String>,
    out: &mut W,
    err: &mut E,
) -> Result<u8, Untold>
    ensures is_status { IfOk result (λ status. status ≤ 4) }
    ensures refuses { IfOk result (λ status. OnErr checked.verdict (1 ≤ status)) }
{
    let Checked { files, verdict } = checked;
    if verdict.is_ok() && files.is_empty() {
        return Ok(say_none(alloc, directory, err));
    }
    tell_files(alloc, &files, out)?;
    if let Some(line) = cleanings {
        tell(&format!(in alloc; "{line}\n")?, out)?;
    }
    match verdict {
        Ok(found) => tell(&start_line(alloc, directory, &found)?, out)?,
        Err(why) => {
            flush(out)?;
            return Ok(refuse(alloc, directory, why, err)?);
        }
    }
    flush(out)?;
    Ok(DONE)
}

/// Has all that was written leave.
fn flush<W: Write>(out: &mut W) -> Result<(), Untold> {
    match out.flush() {
        Ok(()) => Ok(()),
        Err(_) => Err(Untold::Unwritten),
    }
}

/// Reads a directory, and says how far it is while that takes long.
fn read<R: Clock + Files<File = File> + RandomSource + Alloc + Clone + Drop, E: Write>(
    rt: &R,
    alloc: Global,
    folder: &Folder<'_, R>,
    err: &mut E,
) -> Checked<Global> {
    let mut progress = Progress::new(rt, alloc, "checking", err);
    check::<Store, _, _>(alloc, folder, &mut progress)
}

/// Reads a directory as a start does, and changes nothing, whether or not a broker runs in it. On `out` comes a line of each of its
/// files, in the order in which a start reads them, one of the file of passes of cleaning, if there is one, and then one of what a start
/// would recover. Answers a status: 0 a start would
/// take it; 1 a file of it is damaged, missing, of a later version, of another directory or not a regular file; 2 it is no data
/// directory; 3 out of memory; 4 a call of the system failed, or `out` takes no more. Where it isn't 0, the last line on `err` says
/// why. On `err` come lines on how far it is, too, where it takes long.
pub fn check_directory<
    R: Clock + Files<File = File> + RandomSource + Alloc + Clone + Drop,
    W: Write,
    E: Write,
>(rt: &R, alloc: Global, directory: &str, out: &mut W, err: &mut E) -> u8
    ensures is_status { result ≤ 4 }
{
    let folder = match looked(rt, alloc, directory, err) {
        Ok(folder) => folder,
        Err(status) => return status,
    };
    let checked = read(rt, alloc, &folder, err);
    let Ok(cleanings) = line_of(alloc, &folder) else {
        return say_no_memory(alloc, err);
    };
    match tell_all(alloc, directory, checked, cleanings, out, err) {
        Ok(status) => status,
        Err(Untold::OutOfMemory) => say_no_memory(alloc, err),
        Err(Untold::Unwritten) => {
            say(String::from_str(alloc, "kbroker: write failed\n"), err);
            FAILED
        }
    }
}
