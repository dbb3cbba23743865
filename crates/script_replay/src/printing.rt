//! What is printed of a script's lines.

use crate::line::BadLine;
use cluster::{EventError, Outcome};
use content::{CleanReport, Delivered};
use std::alloc::{AllocError, Allocator};
use std::fmt::Display;
use std::io::Write;
use std::string::String;
use streams::Sink;
use table_lines::{BUFFER_SIZE, pass_on, put, put_line};

/// Why a line is not done, or not printed.
#[derive(Clone, Copy, PartialEq, Eq)]
pub(crate) enum LineFault {
    /// It is none of a script's.
    BadLine,
    OutOfMemory,
    Write,
}

impl From<AllocError> for LineFault {
    fn from(_error: AllocError) -> LineFault {
        LineFault::OutOfMemory
    }
}

impl From<BadLine> for LineFault {
    fn from(_error: BadLine) -> LineFault {
        LineFault::BadLine
    }
}

/// Adds the line that says what came of an event.
fn add_outcome<A: Allocator + Copy>(
    text: &mut String<A>,
    outcome: Outcome,
) -> Result<(), AllocError> {
    match outcome {
        Outcome::Based {
            base,
            repeat: false,
        } => writeln!(text, "base {base}"),
        Outcome::Based { base, repeat: true } => writeln!(text, "repeat {base}"),
        Outcome::Delivered(Delivered::Added) => writeln!(text, "added"),
        Outcome::Delivered(Delivered::Repeat) => writeln!(text, "repeat"),
        Outcome::Cleaned(report) => add_report(text, report),
        Outcome::Sent { image } => writeln!(text, "image {image}"),
        Outcome::Merged => writeln!(text, "merged"),
        Outcome::Trimmed => writeln!(text, "trimmed"),
    }
}

/// Adds the line that says what a cleaning removed.
fn add_report<A: Allocator + Copy>(
    text: &mut String<A>,
    report: CleanReport,
) -> Result<(), AllocError> {
    writeln!(
        text,
        "cleaned {} {} {}",
        report.records, report.tombstones, report.batches
    )
}

/// Lines on their way to a sink, through a buffer that never grows.
#[derive(Drop)]
pub(crate) struct Printer<'w, W: Write, A: Allocator + Copy> {
    sink: &'w mut Sink<W>,
    buffer: Vec<u8, A>,
    /// A line that is made.
    text: String<A>,
}

impl<'w, W: Write, A: Allocator + Copy> Printer<'w, W, A> {
    /// Takes the memory of the buffer.
    pub(crate) fn new(alloc: A, sink: &'w mut Sink<W>) -> Result<Printer<'w, W, A>, AllocError> {
        Ok(Printer {
            sink,
            buffer: Vec::with_capacity(alloc, BUFFER_SIZE)?,
            text: String::new(alloc),
        })
    }

    /// Hands all that waits to the sink, and flushes it.
    pub(crate) fn finish(&mut self) -> Result<(), LineFault> {
        if pass_on(&mut self.buffer, self.sink).is_err() || self.sink.finish().is_err() {
            return Err(LineFault::Write);
        }
        Ok(())
    }

    fn put(&mut self, bytes: &[u8]) -> Result<(), LineFault> {
        put(&mut self.buffer, self.sink, bytes).map_err(|_| LineFault::Write)
    }

    /// Prints what is made of a line.
    fn put_text(&mut self) -> Result<(), LineFault> {
        let put = put(&mut self.buffer, self.sink, self.text.as_bytes());
        self.text.clear();
        put.map_err(|_| LineFault::Write)
    }

    /// Prints what came of an event.
    pub(crate) fn outcome(&mut self, outcome: Outcome) -> Result<(), LineFault> {
        add_outcome(&mut self.text, outcome)?;
        self.put_text()
    }

    /// Prints the name of a refusal.
    pub(crate) fn refused<E: Display>(&mut self, why: &E) -> Result<(), LineFault> {
        writeln!(self.text, "refused {why}")?;
        self.put_text()
    }

    /// Prints the lines of a table, and `end`.
    pub(crate) fn table(&mut self, rows: &[(&[u8], &[u8])]) -> Result<(), LineFault> {
        for (key, value) in rows {
            if put_line(&mut self.buffer, self.sink, key, value).is_err() {
                return Err(LineFault::Write);
            }
        }
        self.put(b"end\n")
    }

    /// Prints ranges, or `none`.
    pub(crate) fn ranges(&mut self, ranges: &[(i64, i64)]) -> Result<(), LineFault> {
        if ranges.is_empty() {
            return self.put(b"none\n");
        }
        let mut space = "";
        for (first, last) in ranges {
            write!(self.text, "{space}{first}-{last}")?;
            self.put_text()?;
            space = " ";
        }
        self.put(b"\n")
    }
}
