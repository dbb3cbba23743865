//! Scripts, replayed over a cluster.

ghost use Rattle.std.specs.Prelude.{◌≡◌, ◌+◌, ◌^◌, ◌≤◌, false, IsErrOf, OnOk};

use crate::error::ReplayError;
use crate::items::{Items, encode_items};
use crate::line::{Line, Producer, parse_line};
use crate::printing::{LineFault, Printer};
use crate::script::Script;
use batch_codec::EncodeError;
use cluster::{Cluster, ClusterError, Event, EventError};
use partition_log::PartitionLog;
use segment::BatchStore;
use std::alloc::Allocator;
use std::io::{Read, Write};
use std::mem;
use streams::{FillError, Sink, Source};

/// A cluster, as the lines of a script make it.
#[derive(Drop)]
struct Stage<S: BatchStore> {
    alloc: S::Alloc,
    /// None before the line `copies`.
    cluster: Option<Cluster<S>>,
    /// The encoding of the last batch, whose room the next one uses.
    batch: Vec<u8, S::Alloc>,
}

impl<S: BatchStore> Stage<S> {
    fn new(alloc: S::Alloc) -> Stage<S> {
        Stage {
            alloc,
            cluster: None,
            batch: Vec::new(alloc),
        }
    }

    /// Makes the cluster, once.
    fn start(&mut self, copies: usize) -> Result<(), LineFault> {
        if self.cluster.is_some() {
            return Err(LineFault::BadLine);
        }
        match Cluster::new(self.alloc, copies) {
            Ok(cluster) => {
                self.cluster = Some(cluster);
                Ok(())
            }
            Err(ClusterError::BadCopies) => Err(LineFault::BadLine),
            Err(ClusterError::OutOfMemory) => Err(LineFault::OutOfMemory),
        }
    }

    /// Makes an event happen, and prints what came of it.
    fn step<W: Write>(
        &mut self,
        event: &Event<S::Alloc>,
        printer: &mut Printer<'_, W, S::Alloc>,
    ) -> Result<(), LineFault> {
        let Some(cluster) = &mut self.cluster else {
            return Err(LineFault::BadLine);
        };
        match cluster.step(event) {
            Ok(outcome) => printer.outcome(outcome),
            Err(EventError::OutOfMemory) => Err(LineFault::OutOfMemory),
            Err(why) => printer.refused(&why),
        }
    }

    /// Sends the batch whose encoding is there.
    fn send_batch<W: Write>(
        &mut self,
        printer: &mut Printer<'_, W, S::Alloc>,
    ) -> Result<(), LineFault> {
        let event = Event::Produce {
            bytes: mem::replace(&mut self.batch, Vec::new(self.alloc)),
        };
        let done = self.step(&event, printer);
        match event {
            Event::Produce { bytes } => self.batch = bytes,
            _ => {}
        }
        done
    }

    /// Sends a batch to the leader.
    fn produce<W: Write>(
        &mut self,
        producer: Producer,
        items: Items<'_>,
        printer: &mut Printer<'_, W, S::Alloc>,
    ) -> Result<(), LineFault> {
        if self.cluster.is_none() {
            return Err(LineFault::BadLine);
        }
        match encode_items(self.alloc, producer, items, &mut self.batch) {
            Ok(()) => self.send_batch(printer),
            Err(EncodeError::OutOfMemory) => Err(LineFault::OutOfMemory),
            Err(why) => printer.refused(&why),
        }
    }

    /// A copy, if there is one of this number.
    fn copy(&self, copy: usize) -> Result<Option<&PartitionLog<S>>, LineFault> {
        match &self.cluster {
            Some(cluster) => Ok(cluster.copy(copy)),
            None => Err(LineFault::BadLine),
        }
    }

    /// Prints a copy's table.
    fn table<W: Write>(
        &self,
        copy: usize,
        printer: &mut Printer<'_, W, S::Alloc>,
    ) -> Result<(), LineFault> {
        match self.copy(copy)? {
            Some(copy) => {
                let rows = copy.table()?;
                printer.table(&rows)
            }
            None => printer.refused(&EventError::NoCopy),
        }
    }

    /// Prints the ranges of the offsets that a copy has seen.
    fn cover<W: Write>(
        &self,
        copy: usize,
        printer: &mut Printer<'_, W, S::Alloc>,
    ) -> Result<(), LineFault> {
        match self.copy(copy)? {
            Some(copy) => printer.ranges(copy.cover().ranges()),
            None => printer.refused(&EventError::NoCopy),
        }
    }

    /// Does what a line says, and prints what comes of it.
    fn act<W: Write>(
        &mut self,
        line: Line<'_>,
        printer: &mut Printer<'_, W, S::Alloc>,
    ) -> Result<(), LineFault> {
        let event = match line {
            Line::Copies { count } => return self.start(count),
            Line::Produce { producer, items } => return self.produce(producer, items, printer),
            Line::Table { copy } => return self.table(copy, printer),
            Line::Cover { copy } => return self.cover(copy, printer),
            Line::Deliver { copy, batch } => Event::Deliver { copy, batch },
            Line::Clean {
                copy,
                upto,
                tomb_before,
            } => Event::Clean {
                copy,
                upto,
                tomb_before,
            },
            Line::CleanPart { copy, part } => Event::CleanPart { copy, part },
            Line::Send { copy } => Event::Send { copy },
            Line::Merge { copy, image } => Event::Merge { copy, image },
            Line::Trim { copy, start } => Event::Trim { copy, start },
        };
        self.step(&event, printer)
    }

    /// Does a line, given without its line feed. An empty one is skipped.
    fn do_line<W: Write>(
        &mut self,
        line: &[u8],
        printer: &mut Printer<'_, W, S::Alloc>,
    ) -> Result<(), LineFault> {
        if line.is_empty() {
            return Ok(());
        }
        self.act(parse_line(line)?, printer)
    }
}

/// Why a script stops at a line.
fn stopped_at(line: u64, why: LineFault) -> ReplayError {
    match why {
        LineFault::BadLine => ReplayError::BadLine { line },
        LineFault::OutOfMemory => ReplayError::OutOfMemory,
        LineFault::Write => ReplayError::Write,
    }
}

/// Does the lines of a script, in turn.
fn do_lines<S: BatchStore, R: Read, W: Write>(
    stage: &mut Stage<S>,
    script: &mut Script<S::Alloc>,
    source: &mut Source<R>,
    printer: &mut Printer<'_, W, S::Alloc>,
) -> Result<(), ReplayError>
    ensures few_reads { source.new.reads ≤ source.old.reads + script.old.reads_left }
    ensures fails_no_read { OnOk result (source.new.failed ≡ false) }
    ensures only_a_read_error_fails_the_source { ¬ IsErrOf result ReplayError.Read
        → source.new.failed ≡ source.old.failed }
{
    for line in 1..u64::MAX {
        let size = match script.hold_line(source) {
            Ok(Some(size)) => size,
            Ok(None) => return Ok(()),
            Err(FillError::Read) => return Err(ReplayError::Read),
            Err(FillError::OutOfMemory) => return Err(ReplayError::OutOfMemory),
        };
        match stage.do_line(script.front(size), printer) {
            Ok(()) => {}
            Err(why) => return Err(stopped_at(line, why)),
        }
        script.pass(size);
    }
    Err(ReplayError::Read)
}

/// Does the lines of a script over a cluster of its own.
fn do_script<S: BatchStore, R: Read, W: Write>(
    alloc: S::Alloc,
    source: &mut Source<R>,
    printer: &mut Printer<'_, W, S::Alloc>,
) -> Result<(), ReplayError>
    ensures few_reads { source.new.reads ≤ source.old.reads + 2 ^ 32 }
    ensures fails_no_read { OnOk result (source.new.failed ≡ false) }
    ensures only_a_read_error_fails_the_source { ¬ IsErrOf result ReplayError.Read
        → source.new.failed ≡ source.old.failed }
{
    let mut stage: Stage<S> = Stage::new(alloc);
    let mut script = Script::new(alloc);
    do_lines(&mut stage, &mut script, source, printer)
}

/// Reads a script to the end of the input, makes its events happen in a new cluster, and prints what
/// comes of each line. A line is done, and its print handed on, before the next one is looked at; what is
/// printed goes through a buffer, which is emptied and flushed at the end, also where the script stops
/// before.
///
/// # Errors
///
/// The first thing that stops it. The lines before were done, and what came of them is printed. Where
/// that can't be printed, the write that failed is the first thing, also before a line that is bad and
/// before memory that is missing: what waits in the buffer stands in front of them.
///
/// A source of which a read failed before isn't read: the answer is `Read`. A sink of which a write
/// failed before isn't written: the answer is `Write`.
pub fn replay<S: BatchStore, R: Read, W: Write>(
    alloc: S::Alloc,
    source: &mut Source<R>,
    sink: &mut Sink<W>,
) -> Result<(), ReplayError>
    ensures few_reads { source.new.reads ≤ source.old.reads + 2 ^ 32 }
    ensures fails_no_read { OnOk result (source.new.failed ≡ false) }
{
    let Ok(mut printer) = Printer::new(alloc, sink) else {
        return Err(ReplayError::OutOfMemory);
    };
    let done = do_script::<S, R, W>(alloc, source, &mut printer);
    if done == Err(ReplayError::Write) {
        return done;
    }
    match printer.finish() {
        Ok(()) => done,
        Err(_) => Err(ReplayError::Write),
    }
}
