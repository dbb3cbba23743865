//! What a command line asks for.

ghost use Rattle.std.specs.Prelude.{◌≡◌, ◌≢◌, ℕ, pos, List, Some, IfOk, IfErr, IsErrAnd, MatchResult, codes, map};
ghost use Rattle.std.specs.Bool.{MatchBool};
ghost use Rattle.broker_state.specs.ConfigValues.{config_value};
ghost use Rattle.clap.specs.Words.{Kinds, Row, Text, found_of, one_of, rows_of, subcommand_name_of, subcommand_rows_of};
ghost use Rattle.tcp_edge.specs.Asked.{IfNamed, IsAsked, IsCheckSaid, IsConfigFault, IsDirectory, IsDirectoryOf, IsFaulty, IsListener, IsOutOfMemory, IsServeOptionsOf, IsServePortOf, IsStarter, IsStartFault, IsStartOptionsOf, IsStartSaid, IsStop};
ghost use Rattle.tcp_edge.specs.CommandLine.{Finds, IsConfigAt, IsFirstProducer, IsGivenNumber, IsNumberOf, IsPort, Names, Stops, role_of, topic_words};

use crate::addresses::{AddressFault, advertised_of, listen_of};
use crate::cleaning::{CleaningFault, cleaning_of};
use crate::commands::command;
use crate::keeping::{KeptFault, kept_of};
use crate::topics::topics_of;
use broker_state::{Config, ConfigError, Role};
use clap::error::ErrorKind;
use clap::{ArgMatches, Error};
use listeners::{ServeOptions, StartOptions};
use std::alloc::{AllocError, Global};
use std::convert::AsStr;
use std::string::String;

/// The number of the program's broker.
const NODE_ID: i32 = 1;

/// Where clients reach it.
const HOST: &str = "127.0.0.1";

/// The port that a session's broker names.
const SESSION_PORT: u16 = 9092;

/// What a command line without a fault asks for.
#[derive(Drop)]
pub(crate) enum Asked {
    /// The table of a stream of batches.
    Table,
    /// The replies to a stream of requests, by a broker of this configuration.
    Session(Config<Global>),
    /// A broker that listens for one connection after the other.
    Serve(ServeOptions),
    /// A broker that listens for many connections at once.
    Start(StartOptions),
    /// What a start would find in this directory.
    Check(String),
    /// What comes of a script's lines.
    Replay,
    /// Two images merged.
    Merge,
}

/// Why a command line asks for nothing.
#[derive(Drop)]
pub(crate) enum ArgumentsFault {
    /// What `clap` says of it; requests for help, and out of memory.
    Clap(Error),
    /// An address that is none.
    Address(AddressFault),
    /// What it says of when to sync, or that it says so without a directory.
    Kept(KeptFault),
    /// What it says of cleanings.
    Cleaning(CleaningFault),
    /// The first argument in the place of a topic that is none.
    Topic(ConfigError),
}

impl Asked {
    /// The port of the broker that listens for one connection after the other, if it was asked for.
    pub(crate) fn serve_port(&self) -> Option<u16>
        ensures { IsServePortOf self.now result }
    {
        match self {
            Asked::Serve(options) => Some(options.config.port),
            _ => None,
        }
    }

    /// The broker that listens for one connection after the other, if it was asked for.
    pub(crate) fn serve_options(self) -> Option<ServeOptions>
        ensures { IsServeOptionsOf self result }
    {
        match self {
            Asked::Serve(options) => Some(options),
            Asked::Table => None,
            Asked::Session(_config) => None,
            Asked::Start(_options) => None,
            Asked::Check(_directory) => None,
            Asked::Replay | Asked::Merge => None,
        }
    }

    /// Whether a broker that listens for many connections at once was asked for.
    pub(crate) fn is_start(&self) -> bool
        ensures { IsStartSaid self.now result }
    {
        matches!(self, Asked::Start(_))
    }

    /// The broker that listens for many connections at once, if it was asked for.
    pub(crate) fn start_options(self) -> Option<StartOptions>
        ensures { IsStartOptionsOf self result }
    {
        match self {
            Asked::Start(options) => Some(options),
            Asked::Table => None,
            Asked::Session(_config) => None,
            Asked::Serve(_options) => None,
            Asked::Check(_directory) => None,
            Asked::Replay | Asked::Merge => None,
        }
    }

    /// Whether a look at a directory was asked for.
    pub(crate) fn is_check(&self) -> bool
        ensures { IsCheckSaid self.now result }
    {
        matches!(self, Asked::Check(_))
    }

    /// The directory to look at, if that was asked for.
    pub(crate) fn checked_directory(self) -> Option<String>
        ensures { IsDirectoryOf self result }
    {
        match self {
            Asked::Check(directory) => Some(directory),
            Asked::Table => None,
            Asked::Session(_config) => None,
            Asked::Serve(_options) => None,
            Asked::Start(_options) => None,
            Asked::Replay | Asked::Merge => None,
        }
    }
}

impl ArgumentsFault {
    /// Whether there was no memory to look at the arguments.
    pub(crate) fn is_out_of_memory(&self) -> bool
        ensures { MatchBool result (IsOutOfMemory self.now) (¬ IsOutOfMemory self.now) }
    {
        match self {
            ArgumentsFault::Clap(error) => matches!(error.kind(), ErrorKind::OutOfMemory),
            ArgumentsFault::Address(_) | ArgumentsFault::Kept(_) => false,
            ArgumentsFault::Cleaning(_) | ArgumentsFault::Topic(_) => false,
        }
    }
}

impl From<AllocError> for ArgumentsFault {
    ghost from_gives = { λ _ fault. IsOutOfMemory fault };

    fn from(error: AllocError) -> ArgumentsFault {
        ArgumentsFault::Clap(Error::from(error))
    }
}

/// A leader, unless a follower was asked for.
#[tactic(auto, using(crate::proofs::Arguments::first_row))]
fn role_of(matches: &ArgMatches<'_>) -> Role
    ensures { result ≡ role_of (rows_of (found_of matches.now)) }
{
    match matches.get_str("role") {
        Some(role) if role == "follower" => Role::Follower,
        _ => Role::Leader,
    }
}

/// The producer id that the broker gives out first; 0 where there is none in the matches.
fn first_producer_of(matches: &ArgMatches<'_>) -> i64
    ensures { IsFirstProducer (rows_of (found_of matches.now)) result }
{
    matches.get_one::<i64>("first-producer").unwrap_or(0)
}

/// The configuration of a broker that clients reach at a host and a port.
fn config_of(
    alloc: Global,
    matches: &ArgMatches<'_>,
    host: &str,
    port: u16,
) -> Result<Config<Global>, ArgumentsFault>
    ensures config { IfOk result (λ config.
        IsConfigAt (rows_of (found_of matches.now)) host.now port (config_value config)) }
    ensures fault { IfErr result (IsConfigFault (topic_words (rows_of (found_of matches.now)))) }
{
    let arguments = matches.get_strs("topics").unwrap_or(&[]);
    Ok(Config {
        role: role_of(matches),
        node_id: NODE_ID,
        host: String::from_str(alloc, host)?,
        port,
        topics: topics_of(alloc, arguments)?,
        first_producer: first_producer_of(matches),
    })
}

/// The port to listen at; 0 where there is none in the matches.
fn port_of(matches: &ArgMatches<'_>) -> u16
    ensures { IsPort (rows_of (found_of matches.now)) result }
{
    matches.get_one::<u16>("port").unwrap_or(0)
}

/// A count; 0 where there is none in the matches.
fn count_of(matches: &ArgMatches<'_>, name: &str) -> u32
    ensures { IsNumberOf 32 (one_of name.now (rows_of (found_of matches.now))) result }
{
    matches.get_one::<u32>(name).unwrap_or(0)
}

/// A count, if there is one in the matches.
pub(crate) fn given_count_of(matches: &ArgMatches<'_>, name: &str) -> Option<u32>
    ensures { IsGivenNumber 32 (one_of name.now (rows_of (found_of matches.now))) result }
{
    matches.get_one::<u32>(name)
}

/// An amount of bytes or of seconds; 0 where there is none in the matches.
fn amount_of(matches: &ArgMatches<'_>, name: &str) -> u64
    ensures { IsNumberOf 64 (one_of name.now (rows_of (found_of matches.now))) result }
{
    matches.get_one::<u64>(name).unwrap_or(0)
}

/// A broker that listens for one connection after the other.
fn serve_options_of(alloc: Global, matches: &ArgMatches<'_>) -> Result<ServeOptions, ArgumentsFault>
    ensures options { IfOk result (IsListener (rows_of (found_of matches.now))) }
    ensures fault { IfErr result (IsConfigFault (topic_words (rows_of (found_of matches.now)))) }
{
    let port = port_of(matches);
    let connections = count_of(matches, "connections");
    let config = config_of(alloc, matches, HOST, port)?;
    Ok(ServeOptions {
        config,
        connections,
    })
}

/// A broker that listens for many connections at once.
///
/// # Errors
///
/// The first fault, of the address to listen at, that to advertise, what is kept, cleanings, and the topics,
/// in this order; out of memory.
fn start_options_of(alloc: Global, matches: &ArgMatches<'_>) -> Result<StartOptions, ArgumentsFault>
    ensures options { IfOk result (IsStarter (rows_of (found_of matches.now))) }
    ensures fault { IfErr result (IsStartFault (rows_of (found_of matches.now))) }
{
    let most_connections = count_of(matches, "most-connections");
    let most_per_address = given_count_of(matches, "most-per-address");
    let most_held = amount_of(matches, "most-held");
    let idle = amount_of(matches, "idle");
    let snapshot_after = amount_of(matches, "snapshot-after");
    let listen = listen_of(matches)?;
    let advertised = advertised_of(alloc, matches, listen)?;
    let kept = kept_of(alloc, matches)?;
    let cleaning = cleaning_of(matches)?;
    let config = config_of(alloc, matches, &advertised.host, advertised.port)?;
    Ok(StartOptions {
        config,
        listen,
        most_connections,
        most_per_address,
        most_held,
        idle,
        snapshot_after,
        cleaning,
        kept,
    })
}

/// The directory to look at; an empty name where there is none in the matches.
#[tactic(auto, using(crate::proofs::Arguments::first_row))]
fn directory_of(alloc: Global, matches: &ArgMatches<'_>) -> Result<String, ArgumentsFault>
    ensures directory { IfOk result (IsDirectory (rows_of (found_of matches.now))) }
    ensures fault { IfErr result IsOutOfMemory }
{
    let directory = matches.get_str("directory").unwrap_or("");
    Ok(String::from_str(alloc, directory)?)
}

/// What the matches of a subcommand without arguments ask for: `table` if they are of none of the others.
#[tactic(auto, using(crate::proofs::Arguments::name_found))]
fn asked_plainly(matches: &ArgMatches<'_>) -> Asked
    ensures asked { (name : Text) (rows : List Row)
        → subcommand_rows_of matches.now ≡ Some (name, rows)
        → name ≢ codes "session" → name ≢ codes "serve" → name ≢ codes "start"
        → name ≢ codes "check" → IsAsked name rows result }
    ensures named { IfNamed result (λ name. subcommand_name_of matches.now ≡ Some name) }
{
    match matches.subcommand_matches("replay") {
        Some(_) => return Asked::Replay,
        None => {}
    }
    match matches.subcommand_matches("merge") {
        Some(_) => Asked::Merge,
        None => Asked::Table,
    }
}

/// What the matches ask for.
#[tactic(auto, using(crate::proofs::Arguments::name_found, crate::proofs::Arguments::session_fault, crate::proofs::Arguments::serve_fault, crate::proofs::Arguments::start_fault, crate::proofs::Arguments::check_fault))]
fn asked_by(alloc: Global, matches: &ArgMatches<'_>) -> Result<Asked, ArgumentsFault>
    ensures asked { (name : Text) (rows : List Row)
        → subcommand_rows_of matches.now ≡ Some (name, rows)
        → MatchResult result (IsAsked name rows) (IsFaulty name rows) }
    ensures named { IfOk result (λ asked.
        IfNamed asked (λ name. subcommand_name_of matches.now ≡ Some name)) }
{
    match matches.subcommand_matches("session") {
        Some(inner) => return Ok(Asked::Session(config_of(alloc, inner, HOST, SESSION_PORT)?)),
        None => {}
    }
    match matches.subcommand_matches("serve") {
        Some(inner) => return Ok(Asked::Serve(serve_options_of(alloc, inner)?)),
        None => {}
    }
    match matches.subcommand_matches("start") {
        Some(inner) => return Ok(Asked::Start(start_options_of(alloc, inner)?)),
        None => {}
    }
    match matches.subcommand_matches("check") {
        Some(inner) => Ok(Asked::Check(directory_of(alloc, inner)?)),
        None => Ok(asked_plainly(matches)),
    }
}

/// Looks the arguments up, of which the first is the program's name.
pub(crate) fn parse<S: AsStr>(alloc: Global, arguments: &[S]) -> Result<Asked, ArgumentsFault>
    ensures asked { (name : Text) (rows : List Row) → Finds (map S.text arguments.now) name rows
        → MatchResult result (IsAsked name rows) (IsFaulty name rows) }
    ensures named { IfOk result (λ asked.
        IfNamed asked (λ name. Names (map S.text arguments.now) name)) }
    ensures stopped { (kinds : Kinds) → Stops (map S.text arguments.now) kinds
        → IsErrAnd result (IsStop kinds) }
{
    match command(alloc)?.try_get_matches_from(arguments) {
        Ok(matches) => asked_by(alloc, &matches),
        Err(error) => Err(ArgumentsFault::Clap(error)),
    }
}
