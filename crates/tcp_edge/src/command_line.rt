//! A command line, parsed once: what it asks for is done, or it is refused.

ghost use Rattle.std.specs.Prelude.{◌≡◌, ◌≢◌, ◌≤◌, ◌⊎◌, ◌+◌, ◌^◌, ℕ, false, List, None, IfOk, MatchOption, codes, map};
ghost use Rattle.broker_state.specs.Configs.{IsValidConfig};
ghost use Rattle.broker_state.specs.State.{ConfigValue};
ghost use Rattle.clap.specs.Words.{Row};
ghost use Rattle.tcp_edge.specs.Addresses.{IsUnfit};
ghost use Rattle.tcp_edge.specs.Asked.{AsksForOther, AsksForOtherThan, IfLeft, IfMerge, IfReplay, IfSession, IfTable, IsDirectory, IsListener, IsOutOfMemory, IsParsed, IsStarter};
ghost use Rattle.tcp_edge.specs.CommandLine.{AsksForHelp, AsksForMerge, AsksForTable, Finds, HasMistake, HasTopics, IsConfigOf, IsPort, NamesReplay, NamesSession, topic_words};
ghost use Rattle.listeners.specs.Below.{PrintsMerge};
ghost use Rattle.listeners.specs.Below.{IsUntouched};
ghost use Rattle.listeners.specs.Below.{RunsMerge, RunsTable};
ghost use Rattle.listeners.specs.Below.{RunsSession};
ghost use Rattle.listeners.specs.Below.{PrintsTable};

use crate::asked::{ArgumentsFault, Asked, parse};
use crate::refusals::refuse_line;
use listeners::{
    FAULTY, ServeOptions, SessionError, SessionFault, StartOptions, fail_session, listen,
    run_merge, run_replay, run_session, run_table_subcommand,
};
use std::alloc::{AllocError, Global};
use std::convert::AsStr;
use std::io::{Read, Write};
use std::marker::Model;
use std::net::TcpListener;
use std::string::String;
use streams::{Sink, Source};

/// The arguments of a command line, of which the first is the program's name, and what they ask for.
/// Contracts see it as the arguments' texts.
///
/// ```
/// let line = CommandLine::parse(rt.alloc(), &arguments);
/// let status = line.run(rt.alloc(), &mut source, &mut sink, &mut rt.stderr());
/// ```
#[derive(Drop)]
pub struct CommandLine<'a, S: AsStr> {
    arguments: &'a [S],
    parsed: Result<Asked, ArgumentsFault>,
}

impl<'a, S: AsStr> Model for CommandLine<'a, S> {
    ghost Value = { List (List ℕ) };

    ghost view = { λ line. map S.text line.arguments.now };

    ghost invariant = { λ line. IsParsed (map S.text line.arguments.now) line.parsed };
}

/// Nothing, where a command line has this fault, unless there was no memory to look at it.
fn nothing_asked<T>(why: &ArgumentsFault) -> Result<Option<T>, AllocError>
    ensures { IfOk result (λ asked. (asked ≡ None) × ¬ IsOutOfMemory why.now) }
{
    if why.is_out_of_memory() {
        return Err(AllocError);
    }
    Ok(None)
}

/// Does what was asked for, but for a broker that listens and a look at a directory, and answers the status.
fn run_asked<R: Read, W: Write, E: Write>(
    alloc: Global,
    asked: Asked,
    source: &mut Source<R>,
    sink: &mut Sink<W>,
    err: &mut E,
) -> u8
    ensures is_status { result ≤ 4 }
    ensures done_complains_of_nothing { result ≡ 0 → err.new ≡ err.old }
    ensures faulty_does_nothing { result ≡ 2 → IsUntouched source.old source.new sink.old sink.new }
    ensures few_reads { source.new.reads ≤ source.old.reads + 2 ^ 32 }
    ensures table { IfTable asked (RunsTable source.old source.new sink.old sink.new result) }
    ensures merge { IfMerge asked (RunsMerge source.old source.new sink.old sink.new result) }
    ensures session { IfSession asked (λ config.
        RunsSession config source.old source.new sink.old sink.new result) }
    ensures replay_is_no_fault { IfReplay asked (result ≢ 2) }
    ensures left_is_faulty { IfLeft asked (result ≡ 2) }
    ensures left_does_nothing { IfLeft asked (IsUntouched source.old source.new sink.old sink.new
        × (err.new ≡ err.old)) }
{
    match asked {
        Asked::Table => run_table_subcommand(alloc, source, sink, err),
        Asked::Session(config) => run_session(alloc, config, source, sink, err),
        Asked::Replay => run_replay(alloc, source, sink, err),
        Asked::Merge => run_merge(alloc, source, sink, err),
        Asked::Serve(_) | Asked::Start(_) | Asked::Check(_) => FAULTY,
    }
}

impl<'a, S: AsStr> CommandLine<'a, S> {
    /// Looks the arguments up.
    pub fn parse(alloc: Global, arguments: &'a [S]) -> CommandLine<'a, S>
        ensures { result ≡ map S.text arguments.entry.now }
    {
        let parsed = parse(alloc, arguments);
        CommandLine { arguments, parsed }
    }

    /// Does what is asked for, and answers the status, as `run_line` does.
    #[tactic(auto, using(crate::proofs::Arguments::table_fault))]
    pub fn run<R: Read, W: Write, E: Write>(
        self,
        alloc: Global,
        source: &mut Source<R>,
        sink: &mut Sink<W>,
        err: &mut E,
    ) -> u8
        ensures is_status { result ≤ 4 }
        ensures done_complains_of_nothing { result ≡ 0 → err.new ≡ err.old }
        ensures faulty_does_nothing { result ≡ 2 → IsUntouched source.old source.new sink.old sink.new }
        ensures few_reads { source.new.reads ≤ source.old.reads + 2 ^ 32 }
        // Where it is done, it printed a text of help, which needs no input, the table of the input, the merge
        // of two images, or it was asked for a session or a script.
        ensures done_prints_help_or_table_or_merge_or_serves_or_replays { result ≡ 0
            → (source.new ≡ source.old) ⊎ PrintsTable
            source.old.left source.new.left sink.old.taken sink.new.taken ⊎ PrintsMerge
            source.old.left source.new.left sink.old.taken sink.new.taken
            ⊎ NamesSession self.entry
            ⊎ NamesReplay self.entry }
        // Asked for the table, it prints the table or says why there is none.
        ensures table { AsksForTable self.entry
            → RunsTable source.old source.new sink.old sink.new result }
        // Asked for a merge, it prints the merge or says why there is none.
        ensures merge { AsksForMerge self.entry
            → RunsMerge source.old source.new sink.old sink.new result }
        // Asked for a session, it refuses only words that are no topics, and a configuration. Otherwise it
        // answers what was read, as a new broker of the configuration.
        ensures session_fault_has_a_cause { (rows : List Row)
            → Finds self.entry (codes "session") rows → result ≡ 2
            → (¬ HasTopics (topic_words rows))
            ⊎ ((g : ConfigValue) × IsConfigOf rows 9092 g × ¬ IsValidConfig g) }
        ensures session { (rows : List Row)
            → Finds self.entry (codes "session") rows → result ≢ 2
            → ((result ≡ 3) × IsUntouched source.old source.new sink.old sink.new)
            ⊎ ((g : ConfigValue) × IsConfigOf rows 9092 g
            × RunsSession g source.old source.new sink.old sink.new result) }
        ensures replay_is_no_fault { (rows : List Row)
            → Finds self.entry (codes "replay") rows → result ≢ 2 }
        // Arguments in which clap finds a mistake are refused, and those that ask for help are not.
        ensures mistake_is_refused { HasMistake self.entry → (2 ≤ result)
            × IsUntouched source.old source.new sink.old sink.new }
        ensures help_is_no_fault { AsksForHelp self.entry → (result ≢ 1) × (result ≢ 2)
            × (source.new ≡ source.old) × (result ≡ 0 → sink.new.failed ≡ false)
            × (result ≡ 3 → sink.new ≡ sink.old) }
        // A broker that listens is left to `run_serve`.
        ensures serve_is_left { (rows : List Row)
            → Finds self.entry (codes "serve") rows → (2 ≤ result) × (result ≤ 3)
            × IsUntouched source.old source.new sink.old sink.new }
        ensures serve_says_nothing { (rows : List Row)
            → Finds self.entry (codes "serve") rows → HasTopics (topic_words rows)
            → result ≡ 2 → err.new ≡ err.old }
        // One that listens for many is left to `run_start`.
        ensures start_is_left { (rows : List Row)
            → Finds self.entry (codes "start") rows → (2 ≤ result) × (result ≤ 3)
            × IsUntouched source.old source.new sink.old sink.new }
        ensures start_says_nothing { (rows : List Row)
            → Finds self.entry (codes "start") rows → ¬ IsUnfit rows
            → result ≡ 2 → err.new ≡ err.old }
        // A look at a directory is left to `run_check`.
        ensures check_is_left { (rows : List Row)
            → Finds self.entry (codes "check") rows → (2 ≤ result) × (result ≤ 3)
            × IsUntouched source.old source.new sink.old sink.new }
        ensures check_says_nothing { (rows : List Row)
            → Finds self.entry (codes "check") rows → result ≡ 2 → err.new ≡ err.old }
    {
        let parsed = self.parsed;
        match parsed {
            Ok(asked) => run_asked(alloc, asked, source, sink, err),
            Err(why) => refuse_line(alloc, &why, sink, err),
        }
    }

    /// The port to listen on, as `serve_port` has it.
    ///
    /// # Errors
    ///
    /// `AllocError` where there was no memory to look the arguments up.
    #[tactic(auto, using(crate::proofs::Arguments::port_found, crate::proofs::Arguments::topic_fault))]
    pub fn serve_port(&self) -> Result<Option<u16>, AllocError>
        ensures other_has_none { AsksForOther self.now → IfOk result (λ port. port ≡ None) }
        // There is none only where an argument in the place of a topic isn't one.
        ensures is_asked_for { (rows : List Row) → Finds self.now (codes "serve") rows
            → IfOk result (λ port. MatchOption port (¬ HasTopics (topic_words rows))
            (λ port. IsPort rows port × HasTopics (topic_words rows))) }
    {
        match &self.parsed {
            Ok(asked) => Ok(asked.serve_port()),
            Err(why) => nothing_asked(why),
        }
    }

    /// A broker that listens for one connection after the other, if it is asked for.
    #[tactic(auto, using(crate::proofs::Arguments::options_found, crate::proofs::Arguments::topic_fault))]
    fn serve_options(self) -> Result<Option<ServeOptions>, AllocError>
        ensures other { AsksForOther self.entry → IfOk result (λ options. options ≡ None) }
        ensures serve { (rows : List Row) → Finds self.entry (codes "serve") rows
            → IfOk result (λ options. MatchOption options (¬ HasTopics (topic_words rows)) (IsListener rows)) }
    {
        let parsed = self.parsed;
        match parsed {
            Ok(asked) => Ok(asked.serve_options()),
            Err(why) => nothing_asked(&why),
        }
    }

    /// Serves connections of a listener, and answers the status, as `run_serve` does.
    pub fn serve<W: Write, E: Write>(
        self,
        alloc: Global,
        listener: &TcpListener,
        out: &mut W,
        err: &mut E,
    ) -> u8
        ensures is_status { result ≤ 4 }
        ensures other_is_not_done { AsksForOther self.entry → (2 ≤ result) × (result ≤ 3)
            × (out.new ≡ out.old) }
        ensures other_says_nothing { AsksForOther self.entry → result ≡ 2 → err.new ≡ err.old }
        ensures no_topics_is_not_done { (rows : List Row)
            → Finds self.entry (codes "serve") rows → ¬ HasTopics (topic_words rows)
            → (2 ≤ result) × (result ≤ 3) × (out.new ≡ out.old) }
        ensures no_topics_says_nothing { (rows : List Row)
            → Finds self.entry (codes "serve") rows → ¬ HasTopics (topic_words rows)
            → result ≡ 2 → err.new ≡ err.old }
    {
        match self.serve_options() {
            Ok(Some(options)) => listen(alloc, listener, options, out, err),
            Ok(None) => FAULTY,
            Err(_) => fail_session(&SessionFault::Stopped(SessionError::OutOfMemory), err),
        }
    }

    /// Whether a broker that listens for many connections at once is asked for.
    pub fn is_start(&self) -> bool
        ensures other_is_not { AsksForOtherThan (codes "start") self.now → result ≡ false }
    {
        match &self.parsed {
            Ok(asked) => asked.is_start(),
            Err(_) => false,
        }
    }

    /// A broker that listens for many connections at once, as `start_options` has it.
    ///
    /// # Errors
    ///
    /// `AllocError` where there was no memory to look the arguments up.
    pub fn start_options(self) -> Result<Option<StartOptions>, AllocError>
        ensures other_has_none { AsksForOtherThan (codes "start") self.entry
            → IfOk result (λ options. options ≡ None) }
        // There is none only where an address, `--sync` or a topic isn't what may stand there.
        ensures is_asked_for { (rows : List Row) → Finds self.entry (codes "start") rows
            → IfOk result (λ options. MatchOption options (IsUnfit rows) (IsStarter rows)) }
    {
        let parsed = self.parsed;
        match parsed {
            Ok(asked) => Ok(asked.start_options()),
            Err(why) => nothing_asked(&why),
        }
    }

    /// Whether a look at a directory is asked for.
    pub fn is_check(&self) -> bool
        ensures other_is_not { AsksForOtherThan (codes "check") self.now → result ≡ false }
    {
        match &self.parsed {
            Ok(asked) => asked.is_check(),
            Err(_) => false,
        }
    }

    /// The directory to look at, as `checked_directory` has it.
    ///
    /// # Errors
    ///
    /// `AllocError` where there was no memory to look the arguments up.
    pub fn checked_directory(self) -> Result<Option<String>, AllocError>
        ensures other_has_none { AsksForOtherThan (codes "check") self.entry
            → IfOk result (λ directory. directory ≡ None) }
        // Where one is asked for, there is one, or no memory.
        ensures is_asked_for { (rows : List Row) → Finds self.entry (codes "check") rows
            → IfOk result (λ directory. MatchOption directory ⊥ (IsDirectory rows)) }
    {
        let parsed = self.parsed;
        match parsed {
            Ok(asked) => Ok(asked.checked_directory()),
            Err(why) => nothing_asked(&why),
        }
    }
}
