//! The broker's program: its arguments, its standard streams and its socket, given to the library.
#![tactic(auto)]

ghost use Rattle.std.specs.Prelude.{◌≡◌, ◌≤◌};
ghost use Rattle.std.specs.IoError.{error_kind};

use std::io::ErrorKind;
use std::net::{Ipv4Addr, TcpListener};
use std::process::ExitCode;
use std::{env, io};
use streams::{Sink, Source};
use tcp_edge::{
    CommandLine, Connection, FAILED, FAULTY, NO_MEMORY, PromptStream, Replies, Requests, run_check,
    run_start,
};

/// The arguments of the command line, the program's name first.
fn arguments(rt: &HostRuntime) -> io::Result<Vec<String>> {
    let mut arguments = Vec::new(rt.alloc());
    for argument in env::args(rt)? {
        arguments.push(argument)?;
    }
    Ok(arguments)
}

/// Says why there are no arguments, and answers the status.
fn no_arguments(rt: &HostRuntime, why: &io::Error) -> u8
    ensures out_of_memory { error_kind why.now ≡ ErrorKind.OutOfMemory → result ≡ 3 }
    ensures not_text { error_kind why.now ≡ ErrorKind.InvalidData → result ≡ 2 }
    ensures is_status { (2 ≤ result) × (result ≤ 4) }
{
    match why.kind() {
        ErrorKind::OutOfMemory => {
            let _ = eprintln!(rt; "kbroker: out of memory");
            NO_MEMORY
        }
        ErrorKind::InvalidData => {
            let _ = eprintln!(rt; "error: an argument is not text");
            FAULTY
        }
        _ => {
            let _ = eprintln!(rt; "kbroker: read failed");
            FAILED
        }
    }
}

/// Says that there is no memory, and answers the status.
fn no_memory(rt: &HostRuntime) -> u8
    ensures { result ≡ 3 }
{
    let _ = eprintln!(rt; "kbroker: out of memory");
    NO_MEMORY
}

/// Listens on a port as the command line asks.
fn listen(rt: &HostRuntime, port: u16, line: CommandLine<'_, String>) -> u8
    ensures { result ≤ 4 }
{
    let Ok(listener) = TcpListener::bind(rt, (Ipv4Addr::LOCALHOST, port)) else {
        let _ = eprintln!(rt; "kbroker: read failed");
        return FAILED;
    };
    line.serve(rt.alloc(), &listener, &mut rt.stdout(), &mut rt.stderr())
}

/// Listens for many connections at once, as the command line asks. Nobody who reads what it prints, or
/// doesn't, holds it up.
fn start(rt: &HostRuntime, line: CommandLine<'_, String>) -> u8
    ensures { result ≤ 4 }
{
    match line.start_options() {
        Ok(Some(options)) => {
            let mut out = PromptStream::stdout(rt.stdout());
            let mut err = PromptStream::stderr(rt.stderr());
            run_start(rt, rt.alloc(), options, &mut out, &mut err)
        }
        Ok(None) => FAULTY,
        Err(_) => no_memory(rt),
    }
}

/// Looks at a data directory, as the command line asks.
fn check(rt: &HostRuntime, line: CommandLine<'_, String>) -> u8
    ensures { result ≤ 4 }
{
    match line.checked_directory() {
        Ok(Some(directory)) => run_check(
            rt,
            rt.alloc(),
            &directory,
            &mut rt.stdout(),
            &mut rt.stderr(),
        ),
        Ok(None) => FAULTY,
        Err(_) => no_memory(rt),
    }
}

/// Does on the standard streams what the command line asks for, and answers the status. What is printed
/// leaves in large pieces, and before the next read.
fn run_on_streams(rt: &HostRuntime, line: CommandLine<'_, String>) -> u8
    ensures { result ≤ 4 }
{
    let connection = Connection::new(rt.alloc(), rt.stdin(), rt.stdout());
    let mut source = Source::new(Requests(&connection));
    let mut sink = Sink::new(Replies(&connection));
    let status = line.run(rt.alloc(), &mut source, &mut sink, &mut rt.stderr());
    if connection.finish() || status == FAILED {
        return status;
    }
    let _ = eprintln!(rt; "kbroker: write failed");
    FAILED
}

/// Does what the arguments ask for, and answers the status.
fn run(rt: &HostRuntime, arguments: &[String]) -> u8
    ensures { result ≤ 4 }
{
    let line = CommandLine::parse(rt.alloc(), arguments);
    if line.is_start() {
        return start(rt, line);
    }
    if line.is_check() {
        return check(rt, line);
    }
    match line.serve_port() {
        Ok(Some(port)) => listen(rt, port, line),
        Ok(None) => run_on_streams(rt, line),
        Err(_) => no_memory(rt),
    }
}

fn main(rt: HostRuntime) -> ExitCode {
    let status = match arguments(&rt) {
        Ok(arguments) => run(&rt, &arguments),
        Err(why) => no_arguments(&rt, &why),
    };
    ExitCode::from(status)
}
