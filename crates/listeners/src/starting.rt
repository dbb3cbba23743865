//! A broker that listens for many connections at once, from its start on.

ghost use Rattle.std.specs.Prelude.{◌+◌, ◌<◌, ◌≤◌};

use crate::accepting::{Acceptor, Entrance};
use crate::connections::Connections;
use crate::keeping::{fail_keeping, fold, keeping_of, started_in};
use crate::marks::{KnownMarks, put_back_all};
use crate::options::{KeptOptions, StartOptions};
use crate::reports::{Reason, Reports, say};
use crate::rounds::{Bounds, Rounds, Stop, wall_millis};
use crate::serving_sessions::{Kept, ServedSessions};
use crate::upkeep::Upkeep;
use cleaning_policy::Settings;
use data_directory::KeepsCleanings;
use kept_starts::Directory;
use kept_starts::sessions::Sessions;
use libc::RLIMIT_NOFILE;
use libc::types::rlimit;
use mio::{Events, Poll};
use segment::{BatchStore, ProgramStore};
use std::alloc::{Alloc, AllocError, Global};
use std::fs::{File, Files};
use std::io::{Error, ErrorKind, Result as IoResult, Write};
use std::net::{Net, SocketAddr};
use std::random::RandomSource;
use std::time::{Clock, Instant};
use subcommands::{
    Config, ConfigError, FAILED, NO_MEMORY, Node, TopicConfig, refuse_configuration,
};

/// How many files stay free for other uses than connections.
const OTHER_FILES: u64 = 32;

/// How many events one wait gives at the most.
const EVENTS: usize = 1_024;

/// How many files the system allows to be open at once; 2^64 - 1 where it doesn't say.
fn open_files() -> u64 {
    let mut limit = rlimit {
        rlim_cur: u64::MAX,
        rlim_max: u64::MAX,
    };
    if libc::getrlimit(RLIMIT_NOFILE, &mut limit) != 0 {
        return u64::MAX;
    }
    limit.rlim_cur
}

/// Says why a broker can't listen at an address, or no longer, and answers the status: 3 out of memory, 4
/// for all else.
fn fail_at<E: Write>(alloc: Global, address: SocketAddr, why: &Error, err: &mut E) -> u8
    ensures is_status { (3 ≤ result) × (result ≤ 4) }
{
    let reason = Reason(why);
    say(format!(in alloc; "kbroker: {address}: {reason}\n"), err);
    match why.kind() {
        ErrorKind::OutOfMemory => NO_MEMORY,
        _ => FAILED,
    }
}

/// How many connections there may be at once, where so many files may be open and so many connections
/// are asked for.
fn most_connections(files: u64, asked: u64) -> u64
    ensures at_least_one { 1 ≤ result }
    ensures others_have_files { 1 < result → result + OTHER_FILES ≤ files }
    ensures no_more_than_asked { 1 < result → result ≤ asked }
{
    files.saturating_sub(OTHER_FILES).min(asked).max(1)
}

/// A copy of a configuration.
fn copy_of(alloc: Global, config: &Config<Global>) -> Result<Config<Global>, AllocError> {
    let mut topics = Vec::new(alloc);
    for topic in &config.topics {
        topics.push(TopicConfig {
            name: topic.name.clone()?,
            partitions: topic.partitions,
        })?;
    }
    Ok(Config {
        role: config.role,
        node_id: config.node_id,
        host: config.host.clone()?,
        port: config.port,
        topics,
        first_producer: config.first_producer,
    })
}

/// Why there is no broker of a configuration.
fn fault_of(alloc: Global, config: &Config<Global>) -> Option<ConfigError> {
    let Ok(config) = copy_of(alloc, config) else {
        return Some(ConfigError::OutOfMemory);
    };
    Node::<ProgramStore<Global>>::new(alloc, config).err()
}

/// A configuration that names a port; port 0 stands for the one at which the broker listens.
fn config_at(config: Config<Global>, port: u16) -> Config<Global> {
    let mut listening = config;
    if listening.port == 0 {
        listening.port = port;
    }
    listening
}

/// A broker at a socket that listens, before its first round.
///
/// # Errors
///
/// The system gives no events or no time, or there is no memory.
fn set_up<R: Net + Clock, B: ServedSessions + Drop>(
    rt: &R,
    alloc: Global,
    sessions: B,
    upkeep: Upkeep,
    acceptor: Acceptor,
    bounds: Bounds,
) -> IoResult<Rounds<B>> {
    let poll = Poll::new(rt)?;
    let events = Events::with_capacity(alloc, EVENTS)?;
    let now = Instant::now(rt)?;
    let mut listening = acceptor;
    listening.register(poll.registry())?;
    let connections = Connections::new(alloc, sessions, upkeep);
    let reports = Reports::new(alloc);
    Ok(Rounds::new(
        alloc,
        poll,
        events,
        listening,
        connections,
        reports,
        bounds,
        now,
    ))
}

/// Listens for connections and serves them, until it can no longer.
///
/// # Errors
///
/// The system gives no more events or connections, or no memory at the start; or what was done can't be kept.
fn listen<R: Net + Clock, B: ServedSessions + Drop, W: Write, E: Write>(
    rt: &R,
    alloc: Global,
    sessions: B,
    upkeep: Upkeep,
    acceptor: Acceptor,
    bounds: Bounds,
    out: &mut W,
    err: &mut E,
) -> Result<(), Stop> {
    let address = acceptor.address();
    let mut rounds = set_up(rt, alloc, sessions, upkeep, acceptor, bounds)?;
    say(format!(in alloc; "listening {address}\n"), out);
    rounds.run(rt, err)
}

/// Says how many connections there may be, where these are fewer than were asked for.
fn say_most<E: Write>(alloc: Global, files: u64, most: u64, asked: u64, err: &mut E) {
    if most < asked {
        say(
            format!(in alloc;
                "connections: {most} of {asked}, as the system allows {files} open files\n"
            ),
            err,
        );
    }
}

/// Says when partitions are cleaned.
fn say_cleaning<E: Write>(alloc: Global, cleaning: Option<Settings>, err: &mut E) {
    let line = match cleaning {
        Some(settings) => {
            let Settings {
                percent,
                lag,
                within,
                keep_deletes,
            } = settings;
            let (lag, within, keep) = (lag / 1_000, within / 1_000, keep_deletes / 1_000);
            format!(in alloc;
                "cleaning at {percent} %, lag {lag} s, within {within} s, deletes kept {keep} s\n"
            )
        }
        None => String::from_str(alloc, "nothing is cleaned by itself\n"),
    };
    say(line, err);
}

/// Listens and serves the sessions of a broker, until it can no longer. `marks` is what is known of passes over its directory, where it
/// keeps its changes in one.
///
/// # Errors
///
/// It can't listen, or no longer; out of memory at the start; or what was done can't be kept.
fn serve_sessions<R: Net + Clock, B: ServedSessions + Drop, W: Write, E: Write>(
    rt: &R,
    alloc: Global,
    sessions: B,
    cleaning: Option<Settings>,
    marks: Option<&KnownMarks>,
    entrance: Entrance,
    bounds: Bounds,
    out: &mut W,
    err: &mut E,
) -> Result<(), Stop> {
    let wall = wall_millis(rt);
    let mut upkeep = match Upkeep::new(alloc, cleaning, wall, marks.is_some(), sessions.state()) {
        Ok(upkeep) => upkeep,
        Err(why) => return Err(Stop::Listening(Error::from(why))),
    };
    if let Some(marks) = marks {
        put_back_all(&mut upkeep, sessions.state(), marks);
    }
    let acceptor = entrance.open(rt)?;
    if marks.is_none() {
        say(
            String::from_str(alloc, "nothing is kept on disk: --data DIR keeps it\n"),
            err,
        );
    }
    say_cleaning(alloc, cleaning, err);
    listen(rt, alloc, sessions, upkeep, acceptor, bounds, out, err)
}

/// Serves as a broker that keeps nothing on disk, and answers the status.
fn start_unkept<R: Net + Clock, W: Write, E: Write>(
    rt: &R,
    alloc: Global,
    config: Config<Global>,
    cleaning: Option<Settings>,
    entrance: Entrance,
    bounds: Bounds,
    out: &mut W,
    err: &mut E,
) -> u8
    ensures is_status { result ≤ 4 }
{
    let address = entrance.address();
    let node: Node<ProgramStore<Global>> = match Node::new(alloc, config) {
        Ok(node) => node,
        Err(why) => return refuse_configuration(why, err),
    };
    let sessions = match Sessions::new(alloc, node) {
        Ok(sessions) => sessions,
        Err(why) => return fail_at(alloc, address, &Error::from(why), err),
    };
    match serve_sessions(
        rt, alloc, sessions, cleaning, None, entrance, bounds, out, err,
    ) {
        Ok(()) | Err(Stop::Keeping(_)) => FAILED,
        Err(Stop::Listening(why)) => fail_at(alloc, address, &why, err),
    }
}

/// Listens and serves the sessions of a broker that keeps its changes in a directory, until it can no longer.
///
/// # Errors
///
/// It can't listen, or no longer; out of memory at the start; or what was done can't be kept.
fn serve_kept<
    R: Net + Clock,
    S: BatchStore + Drop,
    D: Directory + KeepsCleanings + Drop,
    W: Write,
    E: Write,
>(
    rt: &R,
    alloc: Global,
    sessions: Kept<S, D>,
    cleaning: Option<Settings>,
    marks: &KnownMarks,
    entrance: Entrance,
    bounds: Bounds,
    out: &mut W,
    err: &mut E,
) -> Result<(), Stop> {
    let known = Some(marks);
    serve_sessions(
        rt, alloc, sessions, cleaning, known, entrance, bounds, out, err,
    )
}

/// Serves as a broker that keeps its changes in a directory, and answers the status.
fn start_kept<
    'a,
    R: Net + Clock + Files<File = File> + RandomSource + Alloc + Clone + Drop,
    W: Write,
    E: Write,
>(
    rt: &'a R,
    alloc: Global,
    config: Config<Global>,
    kept: &'a KeptOptions,
    snapshot_after: u64,
    cleaning: Option<Settings>,
    entrance: Entrance,
    bounds: Bounds,
    out: &mut W,
    err: &mut E,
) -> u8
    ensures is_status { result ≤ 4 }
{
    let address = entrance.address();
    let keeping = keeping_of(kept, snapshot_after);
    let (folder, started, marks) = match started_in(
        rt,
        alloc,
        &config,
        &kept.directory,
        keeping,
        err,
    ) {
        Ok(started) => started,
        Err(status) => return status,
    };
    let sessions = Kept::new(alloc, folder, started, marks.journal(), kept.sync);
    match serve_kept(
        rt, alloc, sessions, cleaning, &marks, entrance, bounds, out, err,
    ) {
        Ok(()) => FAILED,
        Err(Stop::Listening(why)) => fail_at(alloc, address, &why, err),
        Err(Stop::Keeping(why)) => fail_keeping(alloc, &kept.directory, &why, err),
    }
}

/// Runs a broker that listens for many connections at once, and serves them side by side, each frame
/// of any of them by itself. It goes on until it is ended from outside. Answers a status only where it
/// can't: 2 the configuration is refused, and nothing listened; 3 out of memory; 4 it can't listen, or
/// can no longer. The last line on `err` says why. Where it is to keep what it acknowledges in a directory, it
/// answers 1 too, where that is damaged, of a later program, or has files of another one; 2, where it is of another
/// configuration; and 4, where a call on its files fails, also later. Then what wasn't kept hasn't left. Where it is to take a
/// snapshot alone, it does, listens nowhere, and answers 0.
///
/// At a port that is given it listens once it can answer, so behind a recovery; where the system chooses the port, from the
/// start. On `out` comes the line `listening ADDRESS:PORT` once it listens and can answer. On `err` come lines on
/// connections that ended, at most 100 in a second, on others that can't be accepted, and on snapshots that were taken or not; a line
/// each five seconds on how far a recovery is; and at most one in ten seconds on a sync that took over a second. Neither ends
/// the broker by failing, and neither should be one that waits: [`PromptStream`](crate::PromptStream).
pub fn start<
    R: Net + Clock + Files<File = File> + RandomSource + Alloc + Clone + Drop,
    W: Write,
    E: Write,
>(rt: &R, alloc: Global, options: StartOptions, out: &mut W, err: &mut E) -> u8
    ensures is_status { result ≤ 4 }
{
    if let Some(why) = fault_of(alloc, &options.config) {
        return refuse_configuration(why, err);
    }
    if let Some(kept) = &options.kept
        && kept.is_folded
    {
        return fold(
            rt,
            alloc,
            &options.config,
            kept,
            options.snapshot_after,
            err,
        );
    }
    let bounds = Bounds {
        most_per_address: options.most_per_address,
        most_held: options.most_held,
        idle: options.idle,
    };
    let files = open_files();
    let asked = u64::from(options.most_connections);
    let most = most_connections(files, asked);
    let entrance = match Entrance::new(rt, options.listen, most as usize) {
        Ok(entrance) => entrance,
        Err(why) => return fail_at(alloc, options.listen, &why, err),
    };
    say_most(alloc, files, most, asked, err);
    let config = config_at(options.config, entrance.address().port());
    let (after, cleaning) = (options.snapshot_after, options.cleaning);
    match options.kept {
        Some(kept) => start_kept(
            rt, alloc, config, &kept, after, cleaning, entrance, bounds, out, err,
        ),
        None => start_unkept(rt, alloc, config, cleaning, entrance, bounds, out, err),
    }
}
