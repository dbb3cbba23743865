//! A broker that listens: connections are served one after the other.

ghost use Rattle.std.specs.Prelude.{◌≡◌, ◌≤◌, IfOk, IfErr};
ghost use Rattle.broker_state.specs.Configs.{ConfigFault};
ghost use Rattle.broker_state.specs.ConfigValues.{config_value};
ghost use Rattle.broker_state.specs.State.{new_state};
ghost use Rattle.listeners.specs.Ports.{at_port};

use crate::connection::{Connection, Replies, Requests};
use crate::options::ServeOptions;
use segment::ProgramStore;
use std::alloc::Global;
use std::io::{Result as IoResult, Write};
use std::net::{TcpListener, TcpStream};
use streams::{Sink, Source};
use subcommands::{
    Config, ConfigError, DONE, Ended, Node, SessionError, SessionFault, fail_session,
    refuse_configuration, serve,
};

/// How a connection's line names what ended it, other than the end of its input.
fn name_of(why: &SessionError) -> &'static str {
    match why {
        SessionError::Frame { index: _, why: _ } => "Frame",
        SessionError::Read => "Read",
        SessionError::Write => "Write",
        SessionError::OutOfMemory => "OutOfMemory",
    }
}

/// Prints a connection's line.
fn report<W: Write>(
    number: u32,
    answered: &Result<Ended, SessionError>,
    out: &mut W,
) -> IoResult<()> {
    match answered {
        Ok(ended) => writeln!(out, "connection {number}: frames {}", ended.frames)?,
        Err(why) => writeln!(out, "connection {number}: {}", name_of(why))?,
    }
    out.flush()
}

/// Answers the frames of a connection.
fn serve_stream(
    alloc: Global,
    node: &mut Node<ProgramStore<Global>>,
    stream: &TcpStream,
) -> Result<Ended, SessionError> {
    let _ = stream.set_nodelay(true);
    let connection = Connection::new(alloc, stream, stream);
    let mut source = Source::new(Requests(&connection));
    let mut sink = Sink::new(Replies(&connection));
    let answered = serve(alloc, node, &mut source, &mut sink);
    if !connection.finish() {
        return Err(SessionError::Write);
    }
    answered
}

/// Serves so many connections, and prints a line for each.
fn serve_connections<W: Write>(
    alloc: Global,
    node: &mut Node<ProgramStore<Global>>,
    listener: &TcpListener,
    connections: u32,
    out: &mut W,
) -> Result<(), SessionError> {
    for number in 0..connections {
        let Ok((stream, _)) = listener.accept() else {
            return Err(SessionError::Read);
        };
        let answered = serve_stream(alloc, node, &stream);
        if report(number, &answered, out).is_err() {
            return Err(SessionError::Write);
        }
    }
    Ok(())
}

/// A new broker of a configuration, but for the port: that is the one that it listens on.
fn node_at(
    alloc: Global,
    config: Config<Global>,
    port: u16,
) -> Result<Node<ProgramStore<Global>>, ConfigError>
    ensures is_new { IfOk result (λ node. node ≡ new_state (at_port (config_value config) port)) }
    ensures refuses { IfErr result (ConfigFault (at_port (config_value config) port)) }
{
    let mut listening = config;
    listening.port = port;
    Node::new(alloc, listening)
}

/// Prints the line `listening PORT`.
fn announce<W: Write>(port: u16, out: &mut W) -> IoResult<()> {
    writeln!(out, "listening {port}")?;
    out.flush()
}

/// Serves connections at the port that the listener has, as the options say, and answers the status: 0
/// as many as they say were served, 2 the configuration is refused, 3 out of memory, 4 the listener or a
/// write to `out` failed. A status of 3 or 4 comes with one line on `err`.
pub fn listen<W: Write, E: Write>(
    alloc: Global,
    listener: &TcpListener,
    options: ServeOptions,
    out: &mut W,
    err: &mut E,
) -> u8
    ensures is_status { result ≤ 4 }
{
    let port = match listener.local_addr() {
        Ok(address) => address.port(),
        Err(_) => return fail_session(&SessionFault::Stopped(SessionError::Read), err),
    };
    let mut node = match node_at(alloc, options.config, port) {
        Ok(node) => node,
        Err(why) => return refuse_configuration(why, err),
    };
    if announce(port, out).is_err() {
        return fail_session(&SessionFault::Stopped(SessionError::Write), err);
    }
    match serve_connections(alloc, &mut node, listener, options.connections, out) {
        Ok(()) => DONE,
        Err(why) => fail_session(&SessionFault::Stopped(why), err),
    }
}
