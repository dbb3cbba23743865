//! The ports that command lines ask to listen on.
use std::alloc::{AllocError, Global};
use tcp_edge::serve_port;

/// The arguments of a line.
fn arguments_of(alloc: Global, line: &str) -> Result<Vec<&str>, AllocError> {
    let mut arguments = Vec::new(alloc);
    for argument in line.split(' ') {
        arguments.push(argument)?;
    }
    Ok(arguments)
}

/// Whether a line has this port.
fn has_port(alloc: Global, line: &str, port: Option<u16>) -> bool {
    match arguments_of(alloc, line) {
        Ok(arguments) => serve_port(alloc, &arguments) == Ok(port),
        Err(_) => false,
    }
}

/// Lines, and their ports. `tests/rows/command_lines.rows` has more of them.
static PORTS: [(&str, Option<u16>); 2] = [
    (
        "kbroker serve --connections=4294967295 --port=65535 t:1 u:0",
        Some(65535),
    ),
    ("kbroker session t:1", None),
];

/// The first line whose port is another.
fn first_wrong(alloc: Global) -> Option<&'static str> {
    let mut wrong = None;
    for (line, port) in &PORTS {
        if wrong.is_none() && !has_port(alloc, line, *port) {
            wrong = Some(*line);
        }
    }
    wrong
}

#[test]
fn ports(rt: HostRuntime) {
    let wrong = first_wrong(rt.alloc());
    assert!(rt; wrong.is_none(), "{wrong:?}");
}
