//! The addresses of `kbroker start`: where it listens, and where its clients are told to reach it.

ghost use Rattle.std.specs.Prelude.{◌≡◌, ◌≢◌, ◌⊎◌, ℕ, [], None, IfOk, IfErr, MatchBool, MatchOption, codes};
ghost use Rattle.std.specs.declared.net.socket_addr.SocketAddr.{SocketAddr};
ghost use Rattle.std.specs.String.{string_bytes};
ghost use Rattle.clap.specs.Words.{Text, found_of, rows_of};
ghost use Rattle.tcp_edge.specs.Addresses.{Advertises, AdvertisesBy, IsHost, IsHostAndPort, IsListen, IsUnspecified};
ghost use Rattle.tcp_edge.specs.Asked.{IsMemoryOr, IsStartFault};
ghost use Rattle.tcp_edge.specs.CommandLine.{IsTextAndNumber};

use crate::asked::ArgumentsFault;
use clap::ArgMatches;
use std::alloc::Global;
use std::fmt;
use std::net::SocketAddr;
use std::string::String;

/// What is wrong with the addresses of a command line.
#[derive(Clone, Copy)]
pub(crate) enum AddressFault {
    /// The one to listen at is none.
    Listen,
    /// The one to advertise is none.
    Advertise,
    /// None is advertised, and that to listen at is no particular one.
    Unspecified,
}

impl fmt::Display for AddressFault {
    fn fmt<W: fmt::Write>(&self, f: &mut fmt::Formatter<W>) -> fmt::Result {
        f.write_str(match self {
            AddressFault::Listen => {
                "invalid value for '--listen <ADDRESS:PORT>': \
                not an IP address and a port, as 127.0.0.1:9092 or [::1]:9092"
            }
            AddressFault::Advertise => {
                "invalid value for '--advertise <HOST:PORT>': \
                not a host and a port, as localhost:9092"
            }
            AddressFault::Unspecified => {
                "'--advertise <HOST:PORT>' is required where '--listen <ADDRESS:PORT>' \
                is 0.0.0.0 or [::]"
            }
        })
    }
}

/// What clients are told.
#[derive(Drop)]
pub(crate) struct Advertised {
    pub(crate) host: String,
    /// 0 for the port that the broker gets.
    pub(crate) port: u16,
}

/// The address to listen at.
///
/// # Errors
///
/// `Listen` where the matches have none.
pub(crate) fn listen_of(matches: &ArgMatches<'_>) -> Result<SocketAddr, ArgumentsFault>
    ensures listen { IfOk result (IsListen (rows_of (found_of matches.now))) }
    ensures fault { IfErr result (IsStartFault (rows_of (found_of matches.now))) }
{
    match matches.get_one::<SocketAddr>("listen") {
        Some(address) => Ok(address),
        None => Err(ArgumentsFault::Address(AddressFault::Listen)),
    }
}

/// Reads some text and a port, in decimal digits behind the last `:`.
fn read_port(argument: &str) -> Option<(&str, u16)>
    ensures { MatchOption result ((text : Text) (n : ℕ) → ¬ IsTextAndNumber 16 argument.now text n)
        (λ read. IsTextAndNumber 16 argument.now read.0.now read.1) }
{
    let Some((front, digits)) = argument.rsplit_once(":") else {
        return None;
    };
    if digits.starts_with("+") {
        return None;
    }
    match digits.parse::<u16>() {
        Ok(port) => Some((front, port)),
        Err(_) => None,
    }
}

/// A host without the brackets of an IPv6 address.
fn without_brackets(host: &str) -> &str
    ensures { IsHost host.now result.now }
{
    let Some(behind) = host.strip_prefix("[") else {
        return host;
    };
    match behind.strip_suffix("]") {
        Some(address) => address,
        None => host,
    }
}

/// Whether there is nothing, or nothing between brackets.
fn is_no_host(host: &str) -> bool
    ensures { MatchBool result ((host.now ≡ []) ⊎ (host.now ≡ codes "[]"))
        ((host.now ≢ []) × (host.now ≢ codes "[]")) }
{
    host.is_empty() || host == "[]"
}

/// What an argument says that clients are told.
fn read_advertised(alloc: Global, argument: &str) -> Result<Advertised, ArgumentsFault>
    ensures advertises { IfOk result (λ a. IsHostAndPort argument.now (string_bytes a.host) a.port) }
    ensures fault { IfErr result
        (IsMemoryOr ((host : Text) (port : ℕ) → ¬ IsHostAndPort argument.now host port)) }
{
    let Some((front, port)) = read_port(argument) else {
        return Err(ArgumentsFault::Address(AddressFault::Advertise));
    };
    if is_no_host(front) {
        return Err(ArgumentsFault::Address(AddressFault::Advertise));
    }
    let host = String::from_str(alloc, without_brackets(front))?;
    Ok(Advertised { host, port })
}

/// What clients are told of a broker that listens at an address, where nothing else is said.
fn advertised_at(alloc: Global, listen: SocketAddr) -> Result<Advertised, ArgumentsFault>
    ensures advertises { IfOk result (λ a. AdvertisesBy None listen (string_bytes a.host) a.port) }
    ensures fault { IfErr result (IsMemoryOr (IsUnspecified listen)) }
{
    let ip = listen.ip();
    if ip.is_unspecified() {
        return Err(ArgumentsFault::Address(AddressFault::Unspecified));
    }
    Ok(Advertised {
        host: format!(in alloc; "{ip}")?,
        port: listen.port(),
    })
}

/// What clients are told.
///
/// # Errors
///
/// `Advertise` where the matches have no host and port; `Unspecified` where they don't say, and the
/// address that it listens at is no particular one; out of memory.
pub(crate) fn advertised_of(
    alloc: Global,
    matches: &ArgMatches<'_>,
    listen: SocketAddr,
) -> Result<Advertised, ArgumentsFault>
    ensures advertises { IfOk result (λ a.
        Advertises (rows_of (found_of matches.now)) listen (string_bytes a.host) a.port) }
    ensures fault { IsListen (rows_of (found_of matches.now)) listen
        → IfErr result (IsStartFault (rows_of (found_of matches.now))) }
{
    match matches.get_str("advertise") {
        Some(argument) => read_advertised(alloc, argument),
        None => advertised_at(alloc, listen),
    }
}
