//! The program's calls, each of which parses its arguments anew.

ghost use Rattle.std.specs.Prelude.{◌≡◌, ◌≢◌, ◌≤◌, ◌⊎◌, ◌+◌, ◌^◌, ℕ, false, List, None, IfOk, MatchOption, codes, map};
ghost use Rattle.broker_state.specs.Configs.{IsValidConfig};
ghost use Rattle.broker_state.specs.State.{ConfigValue};
ghost use Rattle.clap.specs.Words.{Row};
ghost use Rattle.tcp_edge.specs.Addresses.{IsUnfit};
ghost use Rattle.tcp_edge.specs.Asked.{AsksForOther, AsksForOtherThan, IsDirectory, IsStarter};
ghost use Rattle.tcp_edge.specs.CommandLine.{AsksForHelp, AsksForMerge, AsksForTable, Finds, HasMistake, HasTopics, IsConfigOf, IsPort, NamesReplay, NamesSession, topic_words};
ghost use Rattle.listeners.specs.Below.{PrintsMerge};
ghost use Rattle.listeners.specs.Below.{IsUntouched};
ghost use Rattle.listeners.specs.Below.{RunsMerge, RunsTable};
ghost use Rattle.listeners.specs.Below.{RunsSession};
ghost use Rattle.listeners.specs.Below.{PrintsTable};

use crate::command_line::CommandLine;
use listeners::{StartOptions, check_directory, start};
use std::alloc::{Alloc, AllocError, Global};
use std::convert::AsStr;
use std::fs::{File, Files};
use std::io::{Read, Write};
use std::net::{Net, TcpListener};
use std::random::RandomSource;
use std::string::String;
use std::time::Clock;
use streams::{Sink, Source};

/// Runs the program on its arguments, of which the first is its name, and answers its status: 0
/// done, 1 input refused, 2 a faulty command line or configuration, 3 out of memory, 4 a read or a
/// write failed. A status of 1, 3 or 4 comes with one line on `err`. Arguments that ask for a broker
/// that listens, or for a look at a directory, are left to `run_serve`, `run_start` and `run_check`: the
/// status is 2, and nothing is printed.
pub fn run_line<S: AsStr, R: Read, W: Write, E: Write>(
    alloc: Global,
    arguments: &[S],
    source: &mut Source<R>,
    sink: &mut Sink<W>,
    err: &mut E,
) -> u8
    ensures is_status { result ≤ 4 }

    ensures done_complains_of_nothing { result ≡ 0 → err.new ≡ err.old }
    ensures faulty_does_nothing { result ≡ 2 → IsUntouched source.old source.new sink.old sink.new }
    ensures few_reads { source.new.reads ≤ source.old.reads + 2 ^ 32 }
    // Where it is done, it printed a text of help, which needs no input, the table of the input, the merge
    // of two images, or it was asked for a session or a script.
    ensures done_prints_help_or_table_or_merge_or_serves_or_replays { result ≡ 0
        → (source.new ≡ source.old) ⊎ PrintsTable
        source.old.left source.new.left sink.old.taken sink.new.taken ⊎ PrintsMerge
        source.old.left source.new.left sink.old.taken sink.new.taken
        ⊎ NamesSession (map S.text arguments.now)
        ⊎ NamesReplay (map S.text arguments.now) }
    // Asked for the table, it prints the table or says why there is none.
    ensures table { AsksForTable (map S.text arguments.now)
        → RunsTable source.old source.new sink.old sink.new result }
    // Asked for a merge, it prints the merge or says why there is none.
    ensures merge { AsksForMerge (map S.text arguments.now)
        → RunsMerge source.old source.new sink.old sink.new result }
    // Asked for a session, it refuses only words that are no topics, and a configuration. Otherwise it
    // answers what was read, as a new broker of the configuration.
    ensures session_fault_has_a_cause { (rows : List Row)
        → Finds (map S.text arguments.now) (codes "session") rows → result ≡ 2
        → (¬ HasTopics (topic_words rows))
        ⊎ ((g : ConfigValue) × IsConfigOf rows 9092 g × ¬ IsValidConfig g) }
    ensures session { (rows : List Row)
        → Finds (map S.text arguments.now) (codes "session") rows → result ≢ 2
        → ((result ≡ 3) × IsUntouched source.old source.new sink.old sink.new)
        ⊎ ((g : ConfigValue) × IsConfigOf rows 9092 g
        × RunsSession g source.old source.new sink.old sink.new result) }
    ensures replay_is_no_fault { (rows : List Row)
        → Finds (map S.text arguments.now) (codes "replay") rows → result ≢ 2 }
    // Arguments in which clap finds a mistake are refused, and those that ask for help are not.
    ensures mistake_is_refused { HasMistake (map S.text arguments.now) → (2 ≤ result)
        × IsUntouched source.old source.new sink.old sink.new }
    ensures help_is_no_fault { AsksForHelp (map S.text arguments.now) → (result ≢ 1) × (result ≢ 2)
        × (source.new ≡ source.old) × (result ≡ 0 → sink.new.failed ≡ false)
        × (result ≡ 3 → sink.new ≡ sink.old) }
    // A broker that listens is left to `run_serve`.
    ensures serve_is_left { (rows : List Row)
        → Finds (map S.text arguments.now) (codes "serve") rows → (2 ≤ result) × (result ≤ 3)
        × IsUntouched source.old source.new sink.old sink.new }
    ensures serve_says_nothing { (rows : List Row)
        → Finds (map S.text arguments.now) (codes "serve") rows → HasTopics (topic_words rows)
        → result ≡ 2 → err.new ≡ err.old }
    // One that listens for many is left to `run_start`.
    ensures start_is_left { (rows : List Row)
        → Finds (map S.text arguments.now) (codes "start") rows → (2 ≤ result) × (result ≤ 3)
        × IsUntouched source.old source.new sink.old sink.new }
    ensures start_says_nothing { (rows : List Row)
        → Finds (map S.text arguments.now) (codes "start") rows → ¬ IsUnfit rows
        → result ≡ 2 → err.new ≡ err.old }
    // A look at a directory is left to `run_check`.
    ensures check_is_left { (rows : List Row)
        → Finds (map S.text arguments.now) (codes "check") rows → (2 ≤ result) × (result ≤ 3)
        × IsUntouched source.old source.new sink.old sink.new }
    ensures check_says_nothing { (rows : List Row)
        → Finds (map S.text arguments.now) (codes "check") rows → result ≡ 2 → err.new ≡ err.old }
{
    CommandLine::parse(alloc, arguments).run(alloc, source, sink, err)
}

/// The port that the arguments ask to listen on; none where they have a fault, or ask for something
/// else. That is for `run_line`, as what this answers is for `run_serve`.
///
/// # Errors
///
/// `AllocError` where there is no memory to look them up.
pub fn serve_port<S: AsStr>(alloc: Global, arguments: &[S]) -> Result<Option<u16>, AllocError>
    ensures other_has_none { AsksForOther (map S.text arguments.now) → IfOk result (λ port. port ≡ None) }
    // There is none only where an argument in the place of a topic isn't one.
    ensures is_asked_for { (rows : List Row) → Finds (map S.text arguments.now) (codes "serve") rows
        → IfOk result (λ port. MatchOption port (¬ HasTopics (topic_words rows))
        (λ port. IsPort rows port × HasTopics (topic_words rows))) }
{
    CommandLine::parse(alloc, arguments).serve_port()
}

/// Serves connections of a listener as the arguments ask, and answers the status: 0 as many as they
/// say were served, 2 the configuration is refused, 3 out of memory, 4 the listener or a write to
/// `out` failed. A status of 3 or 4 comes with one line on `err`. Where the arguments ask for no broker
/// that listens, the status is 2, and nothing is done.
pub fn run_serve<S: AsStr, W: Write, E: Write>(
    alloc: Global,
    listener: &TcpListener,
    arguments: &[S],
    out: &mut W,
    err: &mut E,
) -> u8
    ensures is_status { result ≤ 4 }
    ensures other_is_not_done { AsksForOther (map S.text arguments.now) → (2 ≤ result) × (result ≤ 3)
        × (out.new ≡ out.old) }
    ensures other_says_nothing { AsksForOther (map S.text arguments.now) → result ≡ 2 → err.new ≡ err.old }
    ensures no_topics_is_not_done { (rows : List Row)
        → Finds (map S.text arguments.now) (codes "serve") rows → ¬ HasTopics (topic_words rows)
        → (2 ≤ result) × (result ≤ 3) × (out.new ≡ out.old) }
    ensures no_topics_says_nothing { (rows : List Row)
        → Finds (map S.text arguments.now) (codes "serve") rows → ¬ HasTopics (topic_words rows)
        → result ≡ 2 → err.new ≡ err.old }
{
    CommandLine::parse(alloc, arguments).serve(alloc, listener, out, err)
}

/// What the arguments ask of a broker that listens for many connections at once; none where they have a
/// fault, or ask for something else. That is for `run_line`, as what this answers is for `run_start`.
///
/// # Errors
///
/// `AllocError` where there is no memory to look them up.
pub fn start_options<S: AsStr>(
    alloc: Global,
    arguments: &[S],
) -> Result<Option<StartOptions>, AllocError>
    ensures other_has_none { AsksForOtherThan (codes "start") (map S.text arguments.now)
        → IfOk result (λ options. options ≡ None) }
    // There is none only where an address, `--sync` or a topic isn't what may stand there.
    ensures is_asked_for { (rows : List Row) → Finds (map S.text arguments.now) (codes "start") rows
        → IfOk result (λ options. MatchOption options (IsUnfit rows) (IsStarter rows)) }
{
    CommandLine::parse(alloc, arguments).start_options()
}

/// Listens for many connections at once, as the options say, and answers the status: 2 the configuration
/// is refused, 3 out of memory, 4 the listener failed. It doesn't end otherwise.
pub fn run_start<
    R: Net + Clock + Files<File = File> + RandomSource + Alloc + Clone + Drop,
    W: Write,
    E: Write,
>(rt: &R, alloc: Global, options: StartOptions, out: &mut W, err: &mut E) -> u8
    ensures is_status { result ≤ 4 }
{
    start(rt, alloc, options, out, err)
}

/// The directory that the arguments ask to look at; none where they have a fault, or ask for something else.
/// That is for `run_line`, as what this answers is for `run_check`.
///
/// # Errors
///
/// `AllocError` where there is no memory to look them up.
pub fn checked_directory<S: AsStr>(
    alloc: Global,
    arguments: &[S],
) -> Result<Option<String>, AllocError>
    ensures other_has_none { AsksForOtherThan (codes "check") (map S.text arguments.now)
        → IfOk result (λ directory. directory ≡ None) }
    // Where one is asked for, there is one, or no memory.
    ensures is_asked_for { (rows : List Row) → Finds (map S.text arguments.now) (codes "check") rows
        → IfOk result (λ directory. MatchOption directory ⊥ (IsDirectory rows)) }
{
    CommandLine::parse(alloc, arguments).checked_directory()
}

/// Reads a data directory without starting a broker, and changes nothing. Says of each file what it is, and what
/// a start would recover, cut or refuse. Answers the status: 0 a start would take it, 1 a start would refuse one
/// of its files, 2 it is no data directory, 3 out of memory, 4 a call of the system failed or `out` takes no
/// more.
pub fn run_check<
    R: Clock + Files<File = File> + RandomSource + Alloc + Clone + Drop,
    W: Write,
    E: Write,
>(rt: &R, alloc: Global, directory: &str, out: &mut W, err: &mut E) -> u8
    ensures is_status { result ≤ 4 }
{
    check_directory(rt, alloc, directory, out, err)
}
