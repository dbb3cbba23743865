//! The commands and arguments that the program takes.

ghost use Rattle.std.specs.Prelude.{◌≡◌, [], IfOk, codes, false};
ghost use Rattle.clap.specs.Words.{App, app_of, new_app, rule_of, with_subcommand};
ghost use Rattle.tcp_edge.specs.CommandLine.{IsRoles, IsSubcommand, Roles, kbroker, session_app, serve_app, role_rule, first_producer_rule, top, topics_rule, port_rule, connections_rule, start_app, listen_rule, advertise_rule, most_connections_rule, most_per_address_rule, most_held_rule, idle_rule, data_rule, sync_rule, snapshot_after_rule, fold_rule, clean_at_rule, clean_lag_rule, clean_within_rule, keep_deletes_rule, check_app, directory_rule};

use clap::builder::ValueParser;
use clap::{Arg, ArgAction, Command, value_parser};
use std::alloc::{AllocError, Global};

const ABOUT: &str = "A message broker with compacted topics";

const ABOUT_TABLE: &str =
    "Prints the latest value of each key of a topic. Reads record batches, back to \
back, from standard input, and writes a line KEY=VALUE for each key that has a value, sorted by key bytes";

const ABOUT_SESSION: &str =
    "Reads Kafka requests from standard input, back to back, and writes the \
responses to standard output, as a new broker with these topics";

const ABOUT_SERVE: &str =
    "Listens on 127.0.0.1 as a new broker with these topics, serves one connection \
at a time, and prints a line for each";

const ABOUT_START: &str =
    "Runs a broker with these topics, a new one or the one that a directory keeps, \
and serves many connections at once, until it is stopped";

const ABOUT_CHECK: &str =
    "Reads a data directory without starting a broker, and changes nothing. Says of each \
file what it is, and what a start would recover, cut or refuse";

const ABOUT_REPLAY: &str =
    "Reads a script from standard input, applies its events to the replicas of one \
partition, and prints the result of each";

const ABOUT_MERGE: &str =
    "Reads the images of two replicas of a partition from standard input, each after \
its size (4 bytes, big-endian), and writes the image of the merged replica to standard output";

const SCRIPT: &str = "\
The first line of a script is 'copies N', for 1 to 8 replicas. Replica 0 is the leader. Each other line
is one of these. Replicas, batches and images are numbered from 0.
  produce ITEM ..                        sends a batch to the leader: base O, or repeat O
  produce-as PRODUCER EPOCH SEQ ITEM ..  sends it as a producer's batch
  deliver REPLICA BATCH                  delivers a batch to a follower: added, or repeat
  clean REPLICA UPTO TOMB                compacts a replica: cleaned RECORDS TOMBSTONES BATCHES
  send REPLICA                           takes an image of a replica: image I
  merge REPLICA IMAGE                    merges an image into a follower: merged
  trim REPLICA START                     drops what is below an offset: trimmed
  table REPLICA                          prints a line KEY=VALUE for each key, and end
  cover REPLICA                          prints the ranges of offsets that it has seen, or none
An ITEM is KEY=VALUE, or KEY to delete the key; %XX is a byte. What is refused prints refused NAME.

Example: printf 'copies 1\\nproduce a=1 b=2\\ntable 0\\n' | kbroker replay";

const EXAMPLE_SESSION: &str = "Example: kbroker session orders:3 prices:1 < requests > replies";

const EXAMPLE_SERVE: &str = "Example: kbroker serve --port 9092 --connections 10 orders:3 prices:1";

const EXAMPLE_START: &str =
    "Example: kbroker start --listen 0.0.0.0:9092 --advertise broker.example.com:9092 orders:3 prices:1";

const EXAMPLE_CHECK: &str = "Example: kbroker check /var/lib/kbroker";

const HELP_TOPICS: &str = "A topic's name and its number of partitions, such as orders:3";

const HELP_ROLE: &str = "What the broker is for its partitions: a leader assigns their offsets, a \
follower holds replicas";

const HELP_PORT: &str = "The port to listen on; 0 for any free port";

const HELP_FIRST_PRODUCER: &str = "The first producer id that the broker gives out";

const HELP_CONNECTIONS: &str = "How many connections to serve before it exits";

const HELP_LISTEN: &str =
    "The IP address and port to listen on, an IPv6 address in brackets; port 0 \
for any free port";

const HELP_ADVERTISE: &str =
    "The host and port that clients are told to connect to, if not the address \
that it listens on";

const HELP_MOST_CONNECTIONS: &str = "The maximum number of connections at once";

const HELP_MOST_PER_ADDRESS: &str =
    "The maximum number of connections at once from one IP address, above which a new one is \
closed; without it, there is none";

const HELP_MOST_HELD: &str =
    "The maximum number of bytes of memory that are kept for requests and replies of \
all connections together; above it, the connection with the most is closed, among those of the IP address with the most";

const HELP_IDLE: &str =
    "The number of seconds without a request or a reply after which a connection is closed";

const HELP_DATA: &str =
    "The directory that it keeps its data in, and recovers from when it starts again; \
without it, the data is in memory only";

const HELP_SYNC: &str =
    "When changes are synced to disk: always (before any reply shows them; the default), \
never (left to the operating system), or within so many milliseconds, 1 to 60000";

const HELP_SNAPSHOT_AFTER: &str =
    "Takes a snapshot once the journals since the last one have at least this many bytes, \
and at least as many as that snapshot";

const HELP_FOLD: &str = "Takes a snapshot as a checkpoint of all data, and exits";

const HELP_CLEAN_AT: &str =
    "Compacts a partition by itself once this percentage of it, 1 to 99, was written since its last \
compaction (Kafka's min.cleanable.dirty.ratio), or never (the default)";

const HELP_CLEAN_LAG: &str =
    "The number of seconds, 0 to 31536000, for which records that were written aren't compacted \
(Kafka's min.compaction.lag.ms); 10 by default";

const HELP_CLEAN_WITHIN: &str =
    "The number of seconds, 1 to 31536000, after which a partition is compacted at the latest, however \
little was written (Kafka's max.compaction.lag.ms); 86400 by default";

const HELP_KEEP_DELETES: &str =
    "The number of seconds, 0 to 315360000, for which a deletion can still be read after what it deletes \
was compacted away (Kafka's delete.retention.ms); 86400 by default";

const HELP_DIRECTORY: &str =
    "The data directory of a broker, also of one that runs, or a copy of it";

static ROLES: [&str; 2] = ["leader", "follower"];

/// The words of roles.
fn roles<'a>() -> &'a [&'a str]
    ensures { IsRoles result }
{
    ROLES.as_slice()
}

/// The topics, at least one.
fn topics_arg<'a>(alloc: Global) -> Arg<'a>
    ensures rule { rule_of result ≡ topics_rule }
    ensures local { result.global ≡ false }
{
    Arg::new(alloc, "topics")
        .value_name("TOPIC:N")
        .help(HELP_TOPICS)
        .required(true)
        .num_args(1..)
}

/// The role, one of these words.
fn role_arg<'a>(alloc: Global, roles: &'a [&'a str]) -> Arg<'a>
    ensures rule { rule_of result ≡ role_rule roles.entry }
    ensures local { result.global ≡ false }
{
    Arg::new(alloc, "role")
        .long("role")
        .value_name("ROLE")
        .help(HELP_ROLE)
        .value_parser(roles)
        .default_value("leader")
}

/// The first producer id.
fn first_producer_arg<'a>(alloc: Global) -> Arg<'a>
    ensures rule { rule_of result ≡ first_producer_rule }
    ensures local { result.global ≡ false }
{
    Arg::new(alloc, "first-producer")
        .long("first-producer")
        .value_name("N")
        .help(HELP_FIRST_PRODUCER)
        .value_parser(value_parser!(i64).range(0..))
        .default_value("0")
}

/// The port.
fn port_arg<'a>(alloc: Global) -> Arg<'a>
    ensures rule { rule_of result ≡ port_rule }
    ensures local { result.global ≡ false }
{
    Arg::new(alloc, "port")
        .long("port")
        .value_name("P")
        .help(HELP_PORT)
        .required(true)
        .value_parser(value_parser!(u16))
}

/// The number of connections.
fn connections_arg<'a>(alloc: Global) -> Arg<'a>
    ensures rule { rule_of result ≡ connections_rule }
    ensures local { result.global ≡ false }
{
    Arg::new(alloc, "connections")
        .long("connections")
        .value_name("C")
        .help(HELP_CONNECTIONS)
        .required(true)
        .value_parser(value_parser!(u32))
}

/// The address to listen at.
fn listen_arg<'a>(alloc: Global) -> Arg<'a>
    ensures rule { rule_of result ≡ listen_rule }
    ensures local { result.global ≡ false }
{
    Arg::new(alloc, "listen")
        .long("listen")
        .value_name("ADDRESS:PORT")
        .help(HELP_LISTEN)
        .default_value("127.0.0.1:9092")
}

/// The address that clients are told.
fn advertise_arg<'a>(alloc: Global) -> Arg<'a>
    ensures rule { rule_of result ≡ advertise_rule }
    ensures local { result.global ≡ false }
{
    Arg::new(alloc, "advertise")
        .long("advertise")
        .value_name("HOST:PORT")
        .help(HELP_ADVERTISE)
}

/// The most connections.
fn most_connections_arg<'a>(alloc: Global) -> Arg<'a>
    ensures rule { rule_of result ≡ most_connections_rule }
    ensures local { result.global ≡ false }
{
    Arg::new(alloc, "most-connections")
        .long("most-connections")
        .value_name("N")
        .help(HELP_MOST_CONNECTIONS)
        .value_parser(value_parser!(u32).range(1..))
        .default_value("10000")
}

/// The most connections of one address.
fn most_per_address_arg<'a>(alloc: Global) -> Arg<'a>
    ensures rule { rule_of result ≡ most_per_address_rule }
    ensures local { result.global ≡ false }
{
    Arg::new(alloc, "most-per-address")
        .long("most-per-address")
        .value_name("N")
        .help(HELP_MOST_PER_ADDRESS)
        .value_parser(value_parser!(u32).range(1..))
}

/// The most bytes that are held.
fn most_held_arg<'a>(alloc: Global) -> Arg<'a>
    ensures rule { rule_of result ≡ most_held_rule }
    ensures local { result.global ≡ false }
{
    Arg::new(alloc, "most-held")
        .long("most-held")
        .value_name("BYTES")
        .help(HELP_MOST_HELD)
        .value_parser(value_parser!(i64).range(1..))
        .default_value("1073741824")
}

/// The seconds after which an idle connection ends.
fn idle_arg<'a>(alloc: Global) -> Arg<'a>
    ensures rule { rule_of result ≡ idle_rule }
    ensures local { result.global ≡ false }
{
    Arg::new(alloc, "idle")
        .long("idle")
        .value_name("SECONDS")
        .help(HELP_IDLE)
        .value_parser(value_parser!(u32).range(1..))
        .default_value("600")
}

/// The directory of what is kept.
fn data_arg<'a>(alloc: Global) -> Arg<'a>
    ensures rule { rule_of result ≡ data_rule }
    ensures local { result.global ≡ false }
{
    Arg::new(alloc, "data")
        .long("data")
        .value_name("DIR")
        .help(HELP_DATA)
        .value_parser(ValueParser::NonEmptyString)
}

/// When what is kept is synced.
fn sync_arg<'a>(alloc: Global) -> Arg<'a>
    ensures rule { rule_of result ≡ sync_rule }
    ensures local { result.global ≡ false }
{
    Arg::new(alloc, "sync")
        .long("sync")
        .value_name("WHEN")
        .help(HELP_SYNC)
}

/// The bytes of the journals after which a snapshot is taken.
fn snapshot_after_arg<'a>(alloc: Global) -> Arg<'a>
    ensures rule { rule_of result ≡ snapshot_after_rule }
    ensures local { result.global ≡ false }
{
    Arg::new(alloc, "snapshot-after")
        .long("snapshot-after")
        .value_name("BYTES")
        .help(HELP_SNAPSHOT_AFTER)
        .value_parser(value_parser!(i64).range(1..))
        .default_value("67108864")
}

/// Whether a snapshot is all that is wanted.
fn fold_arg<'a>(alloc: Global) -> Arg<'a>
    ensures rule { rule_of result ≡ fold_rule }
    ensures local { result.global ≡ false }
{
    Arg::new(alloc, "fold")
        .long("fold")
        .help(HELP_FOLD)
        .action(ArgAction::SetTrue)
}

/// When a partition is cleaned.
fn clean_at_arg<'a>(alloc: Global) -> Arg<'a>
    ensures rule { rule_of result ≡ clean_at_rule }
    ensures local { result.global ≡ false }
{
    Arg::new(alloc, "clean-at")
        .long("clean-at")
        .value_name("PERCENT")
        .help(HELP_CLEAN_AT)
}

/// The seconds for which records stay whole.
fn clean_lag_arg<'a>(alloc: Global) -> Arg<'a>
    ensures rule { rule_of result ≡ clean_lag_rule }
    ensures local { result.global ≡ false }
{
    Arg::new(alloc, "clean-lag")
        .long("clean-lag")
        .value_name("SECONDS")
        .help(HELP_CLEAN_LAG)
        .value_parser(value_parser!(u32).range(0..=31_536_000))
}

/// The seconds after which a partition is cleaned at the latest.
fn clean_within_arg<'a>(alloc: Global) -> Arg<'a>
    ensures rule { rule_of result ≡ clean_within_rule }
    ensures local { result.global ≡ false }
{
    Arg::new(alloc, "clean-within")
        .long("clean-within")
        .value_name("SECONDS")
        .help(HELP_CLEAN_WITHIN)
        .value_parser(value_parser!(u32).range(1..=31_536_000))
}

/// The seconds for which a deletion stays.
fn keep_deletes_arg<'a>(alloc: Global) -> Arg<'a>
    ensures rule { rule_of result ≡ keep_deletes_rule }
    ensures local { result.global ≡ false }
{
    Arg::new(alloc, "keep-deletes")
        .long("keep-deletes")
        .value_name("SECONDS")
        .help(HELP_KEEP_DELETES)
        .value_parser(value_parser!(u32).range(0..=315_360_000))
}

/// The directory that is looked at.
fn directory_arg<'a>(alloc: Global) -> Arg<'a>
    ensures rule { rule_of result ≡ directory_rule }
    ensures local { result.global ≡ false }
{
    Arg::new(alloc, "directory")
        .value_name("DIR")
        .help(HELP_DIRECTORY)
        .required(true)
        .value_parser(ValueParser::NonEmptyString)
}

/// The subcommand `session`.
fn session<'a>(alloc: Global, roles: &'a [&'a str]) -> Result<Command<'a>, AllocError>
    ensures { IfOk result (IsSubcommand (session_app roles.entry)) }
{
    Command::new(alloc, "session")
        .about(ABOUT_SESSION)
        .after_help(EXAMPLE_SESSION)
        .arg(role_arg(alloc, roles))?
        .arg(first_producer_arg(alloc))?
        .arg(topics_arg(alloc))
}

/// The subcommand `serve`.
fn serve<'a>(alloc: Global, roles: &'a [&'a str]) -> Result<Command<'a>, AllocError>
    ensures { IfOk result (IsSubcommand (serve_app roles.entry)) }
{
    Command::new(alloc, "serve")
        .about(ABOUT_SERVE)
        .after_help(EXAMPLE_SERVE)
        .arg(port_arg(alloc))?
        .arg(role_arg(alloc, roles))?
        .arg(first_producer_arg(alloc))?
        .arg(connections_arg(alloc))?
        .arg(topics_arg(alloc))
}

/// The subcommand `start`.
fn start<'a>(alloc: Global, roles: &'a [&'a str]) -> Result<Command<'a>, AllocError>
    ensures { IfOk result (IsSubcommand (start_app roles.entry)) }
{
    Command::new(alloc, "start")
        .about(ABOUT_START)
        .after_help(EXAMPLE_START)
        .arg(listen_arg(alloc))?
        .arg(advertise_arg(alloc))?
        .arg(role_arg(alloc, roles))?
        .arg(first_producer_arg(alloc))?
        .arg(most_connections_arg(alloc))?
        .arg(most_per_address_arg(alloc))?
        .arg(most_held_arg(alloc))?
        .arg(idle_arg(alloc))?
        .arg(data_arg(alloc))?
        .arg(sync_arg(alloc))?
        .arg(snapshot_after_arg(alloc))?
        .arg(fold_arg(alloc))?
        .arg(clean_at_arg(alloc))?
        .arg(clean_lag_arg(alloc))?
        .arg(clean_within_arg(alloc))?
        .arg(keep_deletes_arg(alloc))?
        .arg(topics_arg(alloc))
}

/// The subcommand `check`.
fn check<'a>(alloc: Global) -> Result<Command<'a>, AllocError>
    ensures { IfOk result (IsSubcommand check_app) }
{
    Command::new(alloc, "check")
        .about(ABOUT_CHECK)
        .after_help(EXAMPLE_CHECK)
        .arg(directory_arg(alloc))
}

/// The command, with a subcommand more, where both were made. Only here a command is let go.
fn add_subcommand<'a>(
    kbroker: Result<Command<'a>, AllocError>,
    subcommand: Result<Command<'a>, AllocError>,
) -> Result<Command<'a>, AllocError>
    ensures { IfOk result (λ command. (base app : App) → IfOk kbroker.entry (λ k. app_of k ≡ base)
        → IfOk subcommand.entry (IsSubcommand app)
        → app_of command ≡ with_subcommand base app.top) }
{
    let kbroker = kbroker?;
    match subcommand {
        Ok(subcommand) => kbroker.subcommand(subcommand),
        Err(error) => Err(error),
    }
}

/// The subcommand `replay`.
fn replay<'a>(alloc: Global) -> Command<'a>
    ensures { IsSubcommand (new_app (codes "replay")) result }
{
    Command::new(alloc, "replay")
        .about(ABOUT_REPLAY)
        .after_help(SCRIPT)
}

/// The subcommand `merge`.
fn merge<'a>(alloc: Global) -> Command<'a>
    ensures { IsSubcommand (new_app (codes "merge")) result }
{
    Command::new(alloc, "merge").about(ABOUT_MERGE)
}

/// The subcommand `table`.
fn table<'a>(alloc: Global) -> Command<'a>
    ensures { IsSubcommand (new_app (codes "table")) result }
{
    Command::new(alloc, "table").about(ABOUT_TABLE)
}

/// The command, without its subcommands.
fn alone<'a>(alloc: Global) -> Command<'a>
    ensures { app_of result ≡ record { top = top; subs = [] } }
{
    Command::new(alloc, "kbroker")
        .version("0.1.0")
        .about(ABOUT)
        .subcommand_required(true)
}

/// What the program can be asked for.
pub(crate) fn command<'a>(alloc: Global) -> Result<Command<'a>, AllocError>
    ensures { IfOk result (λ command. (roles : Roles) × IsRoles roles
        × (app_of command ≡ kbroker roles)) }
{
    let roles = roles();
    let first = add_subcommand(Ok(alone(alloc)), Ok(table(alloc)));
    let second = add_subcommand(first, session(alloc, roles));
    let third = add_subcommand(second, serve(alloc, roles));
    let fourth = add_subcommand(third, start(alloc, roles));
    let fifth = add_subcommand(fourth, check(alloc));
    let sixth = add_subcommand(fifth, Ok(replay(alloc)));
    add_subcommand(sixth, Ok(merge(alloc)))
}
