//! What brokers that listen are asked for.

use cleaning_policy::Settings;
use std::alloc::Global;
use std::net::SocketAddr;
use std::string::String;
use subcommands::Config;

/// A broker that listens for one connection after the other, at the port of its configuration.
#[derive(Drop)]
pub struct ServeOptions {
    pub config: Config<Global>,
    /// How many connections it serves.
    pub connections: u32,
}

/// When a journal is synced.
#[derive(Clone, Copy, PartialEq, Eq)]
pub enum SyncWay {
    /// Before anything leaves that it keeps.
    Always,
    /// So many milliseconds after it grew at the latest, from 1 to 60,000; but never within the handling of one request.
    Every(u32),
    /// When the system does.
    Never,
}

/// Where a broker keeps what it acknowledged, and when it syncs.
#[derive(Drop)]
pub struct KeptOptions {
    /// The directory of its files.
    pub directory: String,
    /// When its journal is synced.
    pub sync: SyncWay,
    /// Whether a snapshot is taken, and nothing else done.
    pub is_folded: bool,
}

/// A broker that listens for many connections at once.
#[derive(Drop)]
pub struct StartOptions {
    /// Its host and port are those that clients are told; port 0 stands for the port that it gets.
    pub config: Config<Global>,
    /// Where it listens; port 0 for any that is free.
    pub listen: SocketAddr,
    /// The most connections at once, from 1.
    pub most_connections: u32,
    /// The most connections of one address at once, from 1; there is no such bound where this is `None`.
    pub most_per_address: Option<u32>,
    /// The most bytes of memory that are kept for what all connections together hold and are owed, from 1.
    pub most_held: u64,
    /// After how many seconds a connection ends on which nothing moved, from 1.
    pub idle: u64,
    /// A snapshot is taken once the journals have so many bytes, and more than the last one; from 1.
    pub snapshot_after: u64,
    /// When partitions are cleaned; they aren't by the broker itself where this is `None`.
    pub cleaning: Option<Settings>,
    /// Where what it acknowledged is kept; it is kept in memory alone where this is `None`.
    pub kept: Option<KeptOptions>,
}
