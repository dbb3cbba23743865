//! When the broker of `kbroker start` cleans by itself.

ghost use Rattle.std.specs.Prelude.{◌<◌, ℕ, IfOk, IfErr, MatchOption, option_map};
ghost use Rattle.clap.specs.Words.{found_of, rows_of};
ghost use Rattle.tcp_edge.specs.declared.cleaning.CleanAt.{CleanAt};
ghost use Rattle.tcp_edge.specs.Asked.{IsCleaningRefusal};
ghost use Rattle.tcp_edge.specs.Cleaning.{AreGiven, AreNone, AreSeconds, AreSettings, CleansAt, IsCleanAt, IsCleaning, IsPercent, lag_of, within_of};

use crate::asked::{ArgumentsFault, given_count_of};
use crate::keeping::given;
use clap::ArgMatches;
use cleaning_policy::Settings;
use std::fmt;

/// The greatest percentage at which a partition is cleaned.
const MOST_PERCENT: u32 = 99;

/// For how many seconds records stay whole where it isn't said.
const LAG: u32 = 10;

/// After how many seconds a partition is cleaned at the latest where it isn't said.
const WITHIN: u32 = 86_400;

/// How many seconds a deletion stays where it isn't said.
const KEEP_DELETES: u32 = 86_400;

/// How many milliseconds a second has.
const MILLISECONDS: u64 = 1_000;

/// What is wrong with what a command line says of cleanings.
#[derive(Clone, Copy)]
pub(crate) enum CleaningFault {
    /// What it says of when to clean is none of what may stand there.
    At,
    /// It says what stays whole, where nothing is cleaned.
    Lag,
    /// It says when to clean at the latest, where nothing is cleaned.
    Within,
    /// It says how long deletions stay, where nothing is cleaned.
    KeepDeletes,
    /// A partition would be due before what stays whole may be cleaned.
    Short,
}

impl fmt::Display for CleaningFault {
    fn fmt<W: fmt::Write>(&self, f: &mut fmt::Formatter<W>) -> fmt::Result {
        f.write_str(match self {
            CleaningFault::At => {
                "invalid value for '--clean-at <PERCENT>': not never or a number from 1 to 99"
            }
            CleaningFault::Lag => {
                "'--clean-lag <SECONDS>' needs '--clean-at <PERCENT>' with a number"
            }
            CleaningFault::Within => {
                "'--clean-within <SECONDS>' needs '--clean-at <PERCENT>' with a number"
            }
            CleaningFault::KeepDeletes => {
                "'--keep-deletes <SECONDS>' needs '--clean-at <PERCENT>' with a number"
            }
            CleaningFault::Short => {
                "'--clean-within <SECONDS>', 86400 unless given, is less than \
                '--clean-lag <SECONDS>'"
            }
        })
    }
}

/// When a partition is cleaned.
#[derive(Clone, Copy)]
pub(crate) enum CleanAt {
    /// Where so many hundredths of it came since its last cleaning.
    Percent(u32),
    /// Never.
    Never,
}

/// The seconds that a command line gives for cleanings.
#[derive(Clone, Copy)]
pub(crate) struct GivenSeconds {
    pub(crate) lag: Option<u32>,
    pub(crate) within: Option<u32>,
    pub(crate) keep_deletes: Option<u32>,
}

/// Reads a percentage, from 1 to 99 in decimal digits.
fn read_percent(word: &str) -> Option<u32>
    ensures { MatchOption result ((n : ℕ) → ¬ IsPercent word.now n) (IsPercent word.now) }
{
    if word.starts_with("+") {
        return None;
    }
    match word.parse::<u32>() {
        Ok(count) if 1 <= count && count <= MOST_PERCENT => Some(count),
        _ => None,
    }
}

/// Reads when a partition is cleaned.
fn read_clean_at(word: &str) -> Option<CleanAt>
    ensures { MatchOption result ((way : CleanAt) → ¬ IsCleanAt word.now way) (IsCleanAt word.now) }
{
    if word == "never" {
        return Some(CleanAt::Never);
    }
    match read_percent(word) {
        Some(count) => Some(CleanAt::Percent(count)),
        None => None,
    }
}

/// When a partition is cleaned, by what is said of it: never where nothing is.
fn way_of(said: Option<&str>) -> Option<CleanAt>
    ensures { MatchOption result
        ((way : CleanAt) → ¬ CleansAt (option_map (λ word. word.now) said.entry) way)
        (CleansAt (option_map (λ word. word.now) said.entry)) }
{
    match said {
        Some(word) => read_clean_at(word),
        None => Some(CleanAt::Never),
    }
}

/// The seconds that are given.
fn seconds_of(matches: &ArgMatches<'_>) -> GivenSeconds
    ensures { AreSeconds (rows_of (found_of matches.now)) result }
{
    GivenSeconds {
        lag: given_count_of(matches, "clean-lag"),
        within: given_count_of(matches, "clean-within"),
        keep_deletes: given_count_of(matches, "keep-deletes"),
    }
}

/// The first of the seconds that are given, as the fault that they are where nothing is cleaned.
fn first_given(seconds: GivenSeconds) -> Option<CleaningFault>
    ensures { MatchOption result (AreNone seconds) (AreGiven seconds) }
{
    if seconds.lag.is_some() {
        return Some(CleaningFault::Lag);
    }
    if seconds.within.is_some() {
        return Some(CleaningFault::Within);
    }
    if seconds.keep_deletes.is_some() {
        return Some(CleaningFault::KeepDeletes);
    }
    None
}

/// When partitions are cleaned at a percentage; `None` where one would be due before the lag is over.
fn settings_of(percent: u32, seconds: GivenSeconds) -> Option<Settings>
    ensures { MatchOption result (within_of seconds < lag_of seconds) (AreSettings percent seconds) }
{
    let lag = seconds.lag.unwrap_or(LAG);
    let within = seconds.within.unwrap_or(WITHIN);
    let keep_deletes = seconds.keep_deletes.unwrap_or(KEEP_DELETES);
    if within < lag {
        return None;
    }
    Some(Settings {
        percent: u64::from(percent),
        lag: MILLISECONDS * u64::from(lag),
        within: MILLISECONDS * u64::from(within),
        keep_deletes: MILLISECONDS * u64::from(keep_deletes),
    })
}

/// When partitions are cleaned; `None` where they never are.
///
/// # Errors
///
/// `At` where what the matches say of it is none of what may stand there; `Lag`, `Within` and `KeepDeletes` where they
/// give these, and nothing is cleaned; `Short` where a partition would be due before the lag is over.
pub(crate) fn cleaning_of(matches: &ArgMatches<'_>) -> Result<Option<Settings>, ArgumentsFault>
    ensures cleaning { IfOk result (IsCleaning (rows_of (found_of matches.now))) }
    ensures fault { IfErr result (IsCleaningRefusal (rows_of (found_of matches.now))) }
{
    let Some(way) = way_of(given(matches, "clean-at")) else {
        return Err(ArgumentsFault::Cleaning(CleaningFault::At));
    };
    let seconds = seconds_of(matches);
    match way {
        CleanAt::Never => match first_given(seconds) {
            Some(fault) => Err(ArgumentsFault::Cleaning(fault)),
            None => Ok(None),
        },
        CleanAt::Percent(percent) => match settings_of(percent, seconds) {
            Some(settings) => Ok(Some(settings)),
            None => Err(ArgumentsFault::Cleaning(CleaningFault::Short)),
        },
    }
}
