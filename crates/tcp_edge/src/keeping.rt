//! What `kbroker start` keeps on disk: in which directory, when it is synced, and whether a snapshot is all that is wanted.

ghost use Rattle.std.specs.Prelude.{◌≡◌, ℕ, IfOk, IfErr, MatchOption, option_map};
ghost use Rattle.listeners.specs.declared.options.SyncWay.{SyncWay};
ghost use Rattle.clap.specs.Words.{first_of, found_of, rows_of};
ghost use Rattle.tcp_edge.specs.Asked.{IsMemoryOrKept};
ghost use Rattle.tcp_edge.specs.CommandLine.{folds};
ghost use Rattle.tcp_edge.specs.Keeping.{IsKept, IsMilliseconds, IsSyncWay, SyncsBy};

use crate::asked::ArgumentsFault;
use clap::ArgMatches;
use listeners::{KeptOptions, SyncWay};
use std::alloc::Global;
use std::fmt;
use std::string::String;

/// The most milliseconds that may pass before a journal is synced.
const MOST_MILLISECONDS: u32 = 60_000;

/// What is wrong with what a command line says is kept.
#[derive(Clone, Copy)]
pub(crate) enum KeptFault {
    /// It says when to sync, and no directory.
    Alone,
    /// It asks for a snapshot, and says no directory.
    Fold,
    /// What it says of when to sync is none of what may stand there.
    Sync,
}

impl fmt::Display for KeptFault {
    fn fmt<W: fmt::Write>(&self, f: &mut fmt::Formatter<W>) -> fmt::Result {
        f.write_str(match self {
            KeptFault::Alone => "'--sync <WHEN>' needs '--data <DIR>'",
            KeptFault::Fold => "'--fold' needs '--data <DIR>'",
            KeptFault::Sync => {
                "invalid value for '--sync <WHEN>': \
                not always, never or a number of milliseconds from 1 to 60000"
            }
        })
    }
}

/// Reads a number of milliseconds, from 1 to 60,000 in decimal digits.
fn read_milliseconds(word: &str) -> Option<u32>
    ensures { MatchOption result ((n : ℕ) → ¬ IsMilliseconds word.now n) (IsMilliseconds word.now) }
{
    if word.starts_with("+") {
        return None;
    }
    match word.parse::<u32>() {
        Ok(count) if 1 <= count && count <= MOST_MILLISECONDS => Some(count),
        _ => None,
    }
}

/// Reads when a journal is synced.
fn read_sync(word: &str) -> Option<SyncWay>
    ensures { MatchOption result ((way : SyncWay) → ¬ IsSyncWay word.now way) (IsSyncWay word.now) }
{
    if word == "always" {
        return Some(SyncWay::Always);
    }
    if word == "never" {
        return Some(SyncWay::Never);
    }
    match read_milliseconds(word) {
        Some(count) => Some(SyncWay::Every(count)),
        None => None,
    }
}

/// When a journal is synced, by what is said of it: always where nothing is.
fn way_of(said: Option<&str>) -> Option<SyncWay>
    ensures { MatchOption result
        ((way : SyncWay) → ¬ SyncsBy (option_map (λ word. word.now) said.entry) way)
        (SyncsBy (option_map (λ word. word.now) said.entry)) }
{
    match said {
        Some(word) => read_sync(word),
        None => Some(SyncWay::Always),
    }
}

/// The value of an option, if it is given.
#[tactic(auto, using(crate::proofs::Arguments::first_row))]
pub(crate) fn given<'a>(matches: &ArgMatches<'a>, name: &str) -> Option<&'a str>
    ensures { option_map (λ word. word.now) result
        ≡ first_of name.now (rows_of (found_of matches.now)) }
{
    matches.get_str(name)
}

/// Whether a snapshot is all that is wanted.
fn is_folded(matches: &ArgMatches<'_>) -> bool
    ensures { result ≡ folds (rows_of (found_of matches.now)) }
{
    match given(matches, "fold") {
        Some(word) => word == "true",
        None => false,
    }
}

/// What is kept, and when it is synced; nothing where no directory is given.
///
/// # Errors
///
/// `Alone` where the matches say when to sync, and give no directory; `Fold` where they ask for a snapshot, and give none;
/// `Sync` where what they say of when to sync is none of what may stand there; out of memory.
pub(crate) fn kept_of(
    alloc: Global,
    matches: &ArgMatches<'_>,
) -> Result<Option<KeptOptions>, ArgumentsFault>
    ensures kept { IfOk result (IsKept (rows_of (found_of matches.now))) }
    ensures fault { IfErr result (IsMemoryOrKept (rows_of (found_of matches.now))) }
{
    let said = given(matches, "sync");
    let is_folded = is_folded(matches);
    let Some(directory) = given(matches, "data") else {
        return match said {
            Some(_) => Err(ArgumentsFault::Kept(KeptFault::Alone)),
            None if is_folded => Err(ArgumentsFault::Kept(KeptFault::Fold)),
            None => Ok(None),
        };
    };
    let Some(sync) = way_of(said) else {
        return Err(ArgumentsFault::Kept(KeptFault::Sync));
    };
    let directory = String::from_str(alloc, directory)?;
    Ok(Some(KeptOptions {
        directory,
        sync,
        is_folded,
    }))
}
