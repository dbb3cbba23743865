//! The table of a stream of batches.

ghost use Rattle.std.specs.Prelude.{◌≡◌, ◌<◌, ◌+◌, ◌^◌, ◌≤◌, false, [], length, IfOk, OnOk, IfErr, OnErr, IsErrOf, MatchBool, MatchResult};
ghost use Rattle.std.specs.Bool.{OnFalse};
ghost use Rattle.std.specs.Io.KnownBytes.{Appends};
ghost use Rattle.batch_codec.specs.declared.error.BatchError.TheVariants.{Short};
ghost use Rattle.batch_codec.specs.Refusals.{FirstFault};
ghost use Rattle.content.specs.Content.{empty};
ghost use Rattle.subcommands.specs.declared.error.Refusal.TheVariants.{View};
ghost use Rattle.subcommands.specs.declared.error.TableError.TheVariants.{Batch};
ghost use Rattle.subcommands.specs.Input.{TakesBatches, DeliversNext, ReadsCopy, StopsBatch, StopsIntake, StopsPrinting};
ghost use Rattle.subcommands.specs.Tables.{content_lines, PrintsTable};
ghost use Rattle.subcommands.specs.Refused.{FailsTable};
ghost use Rattle.subcommands.specs.Ends.{HasFailedNone};

use crate::error::{Refusal, TableError};
use batch_codec::{BatchError, view};
use bytes::BytesMut;
use partition_log::{DeliverError, PartitionLog};
use segment::{BatchStore, ProgramStore};
use std::alloc::Allocator;
use std::io::{Read, Write};
use streams::{FillError, MOST_READS, Sink, Source, fill};
use table_lines::{BUFFER_SIZE, write_lines};

/// What was taken of the input: a copy, and how many batches were delivered to it.
#[derive(Drop)]
struct Intake<S: BatchStore> {
    log: PartitionLog<S>,
    count: u64,
}

/// The answer where what comes after the batches that were taken is refused.
fn refused<S: BatchStore>(intake: &Intake<S>, why: Refusal) -> TableError
    ensures { result ≡ Batch intake.now.count why }
{
    TableError::Batch {
        index: intake.count,
        why,
    }
}

/// Delivers the batch at the front, if there is one, and gives the number of its bytes. No more than
/// 2^64 - 1 batches are taken.
fn deliver_next<S: BatchStore>(
    intake: &mut Intake<S>,
    bytes: &[u8],
) -> Result<Option<usize>, TableError>
    ensures delivers_next { MatchResult result
        (λ size. DeliversNext bytes.now size
        intake.old.log intake.new.log intake.old.count intake.new.count)
        (StopsBatch intake.old.log intake.old.count bytes.now) }
    ensures unchanged { OnErr result
        ((intake.new.log ≡ intake.old.log) × (intake.new.count ≡ intake.old.count)) }
{
    let batch = match view(bytes) {
        Ok(batch) => batch,
        Err(BatchError::Short) => return Ok(None),
        Err(why) => return Err(refused(intake, Refusal::View(why))),
    };
    let Some(count) = intake.count.checked_add(1) else {
        return Err(TableError::OutOfMemory);
    };
    match intake.log.deliver(&batch) {
        Ok(_) => {}
        Err(DeliverError::OutOfMemory) => return Err(TableError::OutOfMemory),
        Err(why) => return Err(refused(intake, Refusal::Deliver(why))),
    }
    intake.count = count;
    Ok(Some(batch.bytes().len()))
}

/// Takes the batch at the front, and tells whether a whole one was there.
fn take_batch<S: BatchStore>(
    intake: &mut Intake<S>,
    held: &mut BytesMut<S::Alloc>,
) -> Result<bool, TableError>
    ensures more { IfOk result (λ more. MatchBool more
        (TakesBatches held.old.items held.new.items
        intake.old.log intake.new.log intake.old.count intake.new.count)
        ((held.new.items ≡ held.old.items) × (intake.new.log ≡ intake.old.log)
        × (intake.new.count ≡ intake.old.count))) }
    ensures fewer { IfOk result (λ more. MatchBool more
        (length held.new.items < length held.old.items)
        (held.new.items ≡ held.old.items)) }
    ensures short { IfOk result (λ more. OnFalse more (FirstFault Short held.old.items)) }

    ensures stops { IfErr result (StopsBatch intake.old.log intake.old.count held.old.items) }
    ensures unchanged { OnErr result ((held.new.items ≡ held.old.items)
        × (intake.new.log ≡ intake.old.log) × (intake.new.count ≡ intake.old.count)) }
{
    let Some(size) = deliver_next(intake, held.as_slice())? else {
        return Ok(false);
    };
    held.advance(size);
    Ok(true)
}

/// Takes each whole batch that is held.
fn take_batches<S: BatchStore>(
    intake: &mut Intake<S>,
    held: &mut BytesMut<S::Alloc>,
) -> Result<(), TableError>
    ensures taken { TakesBatches held.old.items held.new.items
        intake.old.log intake.new.log intake.old.count intake.new.count }
    ensures short { OnOk result (FirstFault Short held.new.items) }
    ensures stops { IfErr result (StopsBatch intake.new.log intake.new.count held.new.items) }
{
    while take_batch(intake, held)? {}
    Ok(())
}

/// The answer at the end of the input, where `held` is too little for a batch.
fn end_input<S: BatchStore>(intake: &Intake<S>, held: &BytesMut<S::Alloc>) -> Result<(), TableError>
    ensures all_taken { OnOk result (held.now.items ≡ []) }
    ensures short { IfErr result (λ e. (e ≡ Batch intake.now.count (View Short))
        × (0 < length held.now.items)) }
{
    if held.is_empty() {
        return Ok(());
    }
    Err(refused(intake, Refusal::View(BatchError::Short)))
}

/// Takes each batch to the end of the input, in any order, where none was taken before. Each read is
/// followed by taking what it completed.
#[tactic(auto, using(crate::proofs::Intake::none_taken, crate::proofs::Intake::few_reads, crate::proofs::Intake::all_reads))]
fn take_input<S: BatchStore, R: Read>(
    intake: &mut Intake<S>,
    held: &mut BytesMut<S::Alloc>,
    source: &mut Source<R>,
) -> Result<(), TableError>
    requires no_batch { intake.old.log ≡ empty }
    requires no_count { intake.old.count ≡ 0 }
    requires nothing_held { held.old.items ≡ [] }
    ensures read { OnOk result (ReadsCopy source.old.left source.new.left intake.new.log) }
    ensures stops { IfErr result (StopsIntake source.old source.new) }
    ensures fails_no_read { OnOk result (source.new.failed ≡ false) }
    ensures few_reads { source.new.reads ≤ source.old.reads + 2 ^ 32 }
{
    for _ in 0..MOST_READS {
        match fill(source, held, usize::MAX) {
            Ok(true) => {}
            Ok(false) => return end_input(intake, held),
            Err(FillError::Read) => return Err(TableError::Read),
            Err(FillError::OutOfMemory) => return Err(TableError::OutOfMemory),
        }
        take_batches(intake, held)?;
    }
    Err(TableError::Read)
}

/// Reads batches to the end of the input, in any order.
fn read_log<S: BatchStore, R: Read>(
    alloc: S::Alloc,
    source: &mut Source<R>,
) -> Result<PartitionLog<S>, TableError>
    ensures read { IfOk result (ReadsCopy source.old.left source.new.left) }
    ensures stops { IfErr result (StopsIntake source.old source.new) }
    ensures fails_no_read { OnOk result (source.new.failed ≡ false) }
    ensures few_reads { source.new.reads ≤ source.old.reads + 2 ^ 32 }
{
    let mut intake = Intake {
        log: PartitionLog::new(alloc),
        count: 0,
    };
    take_input(&mut intake, &mut BytesMut::new(alloc), source)?;
    Ok(intake.log)
}

/// Writes the table of what a copy holds. All memory is taken before the first write.
fn print_log<S: BatchStore, W: Write>(
    alloc: S::Alloc,
    log: &PartitionLog<S>,
    sink: &mut Sink<W>,
) -> Result<(), TableError>
    ensures writes_lines { OnOk result
        (Appends sink.old.taken sink.new.taken (content_lines log.now)) }
    ensures fails_nothing { OnOk result (sink.new.failed ≡ false) }
    ensures stops { IfErr result (StopsPrinting log.now sink.old sink.new) }
    ensures only_a_write_error_fails_the_sink { ¬ IsErrOf result TableError.Write
        → sink.new.failed ≡ sink.old.failed }
{
    let Ok(rows) = log.table() else {
        return Err(TableError::OutOfMemory);
    };
    let Ok(mut buffer) = Vec::with_capacity(alloc, BUFFER_SIZE) else {
        return Err(TableError::OutOfMemory);
    };
    if write_lines(&mut buffer, sink, &rows).is_err() {
        return Err(TableError::Write);
    }
    Ok(())
}

/// Reads record batches to the end of the input, and writes the table of their records: a line
/// `KEY=VALUE` for each key that has a value, by rising key bytes. Nothing is written before the
/// input was accepted whole, and all memory was taken. The input is held once, as the log.
///
/// # Errors
///
/// A batch that is refused, with its number from 0; a read, write or flush that fails; no end within
/// 2^32 reads; out of memory, or 2^64 batches, which no input reaches. A source of which a read failed before isn't read, and a sink of which a
/// write failed before isn't written.
pub fn run_table<A: Allocator + Copy, R: Read, W: Write>(
    alloc: A,
    source: &mut Source<R>,
    sink: &mut Sink<W>,
) -> Result<(), TableError>
    // What was read, to the reader's end, is batches end to end, each accepted by a copy that those
    // before it were delivered to; what was written is the lines of that copy's table.
    ensures prints_table { OnOk result (PrintsTable
        source.old.left source.new.left sink.old.taken sink.new.taken) }
    ensures fails_nothing { OnOk result (HasFailedNone source.new sink.new) }
    // Whatever stops it: why the table is not printed, or not all of it.
    ensures fails { IfErr result (FailsTable source.old source.new sink.old sink.new) }
    ensures few_reads { source.new.reads ≤ source.old.reads + 2 ^ 32 }
    ensures only_a_read_error_fails_the_source { ¬ IsErrOf result TableError.Read
        → source.new.failed ≡ false }
    ensures only_a_write_error_fails_the_sink { ¬ IsErrOf result TableError.Write
        → sink.new.failed ≡ sink.old.failed }
{
    let log = read_log::<ProgramStore<A>, R>(alloc, source)?;
    print_log(alloc, &log, sink)
}
