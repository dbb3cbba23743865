//! The subcommand `merge`: what it prints, and how it answers.

ghost use Rattle.std.specs.Prelude.{◌≡◌, ◌+◌, ◌^◌, ◌≤◌, false, IfOk, OnOk, IfErr, IsErrOf};
ghost use Rattle.std.specs.Io.KnownBytes.{Appends};
ghost use Rattle.subcommands.specs.Input.{StopsImages, CutsImage};
ghost use Rattle.subcommands.specs.Tables.{ReadsAll};
ghost use Rattle.subcommands.specs.Merges.{PrintsMerge, FailsMerge};
ghost use Rattle.subcommands.specs.Ends.{HasFailedNone};
ghost use Rattle.subcommands.specs.Runs.{RunsMerge};
ghost use Rattle.subcommands.specs.Status.{images_status};

use crate::error::ImagesError;
use crate::image_pairs::merge_images;
use crate::merge_fault::MergeFault;
use crate::status::{DONE, images_status};
use bytes::BytesMut;
use std::alloc::Allocator;
use std::io::{Read, Write};
use streams::{FillError, MOST_READS, Sink, Source, fill};

/// Reads to the end of the input.
#[tactic(auto, using(crate::proofs::Intake::few_reads, crate::proofs::Intake::all_reads, crate::proofs::Images::nothing_held))]
fn read_all<A: Allocator + Copy, R: Read>(
    alloc: A,
    source: &mut Source<R>,
) -> Result<BytesMut<A>, ImagesError>
    ensures reads { IfOk result (λ input.
        ReadsAll source.old.left source.new.left input.items) }
    ensures fails_no_read { OnOk result (source.new.failed ≡ false) }
    ensures stops { IfErr result (StopsImages source.old source.new) }
    ensures few_reads { source.new.reads ≤ source.old.reads + 2 ^ 32 }
{
    let mut input = BytesMut::new(alloc);
    for _ in 0..MOST_READS {
        match fill(source, &mut input, usize::MAX) {
            Ok(true) => {}
            Ok(false) => return Ok(input),
            Err(FillError::Read) => return Err(ImagesError::Read),
            Err(FillError::OutOfMemory) => return Err(ImagesError::OutOfMemory),
        }
    }
    Err(ImagesError::Read)
}

/// Writes an image, and flushes the sink.
#[tactic(auto, using(crate::proofs::Images::image_lost, crate::proofs::Images::image_unflushed))]
fn print_image<W: Write>(image: &[u8], sink: &mut Sink<W>) -> Result<(), ImagesError>
    ensures writes { OnOk result (Appends sink.old.taken sink.new.taken image.now) }
    ensures fails_nothing { OnOk result (sink.new.failed ≡ false) }
    ensures stops { IfErr result (CutsImage image.now sink.old sink.new) }
    ensures keeps_flag { OnOk result (sink.new.failed ≡ sink.old.failed) }
{
    if sink.send(image).is_err() {
        return Err(ImagesError::Write);
    }
    if sink.finish().is_err() {
        return Err(ImagesError::Write);
    }
    Ok(())
}

/// Reads the images of two copies of a partition, each behind its size, an int32, to the end of the
/// input, and writes the image of their merge. Nothing is written before it is made.
///
/// # Errors
///
/// The first fault of the images; a read, write or flush that fails; no end within 2^32 reads; out of
/// memory. A source of which a read failed before isn't read, and a sink of which a write failed before
/// isn't written.
pub fn merge_stream<A: Allocator + Copy, R: Read, W: Write>(
    alloc: A,
    source: &mut Source<R>,
    sink: &mut Sink<W>,
) -> Result<(), ImagesError>
    ensures prints_the_merge { OnOk result (PrintsMerge
        source.old.left source.new.left sink.old.taken sink.new.taken) }
    ensures fails_nothing { OnOk result (HasFailedNone source.new sink.new) }
    // Whatever stops it: why the image is not printed, or not all of it.
    ensures fails { IfErr result (FailsMerge source.old source.new sink.old sink.new) }
    ensures few_reads { source.new.reads ≤ source.old.reads + 2 ^ 32 }
    ensures only_a_read_error_fails_the_source { ¬ IsErrOf result ImagesError.Read
        → source.new.failed ≡ false }
    ensures only_a_write_error_fails_the_sink { ¬ IsErrOf result ImagesError.Write
        → sink.new.failed ≡ sink.old.failed }
{
    let input = read_all(alloc, source)?;
    match merge_images(alloc, input.as_slice()) {
        Ok(image) => print_image(&image, sink),
        Err(MergeFault::OutOfMemory) => Err(ImagesError::OutOfMemory),
        Err(why) => Err(ImagesError::Images(why)),
    }
}

/// Runs the subcommand `merge`: prints the merge of the two images that the source gives, and answers
/// the status, 0 done, 1 the images are refused, 3 out of memory, 4 a read or a write failed. A status
/// that is not 0 comes with one line on `err`.
pub fn run_merge<A: Allocator + Copy, R: Read, W: Write, E: Write>(
    alloc: A,
    source: &mut Source<R>,
    sink: &mut Sink<W>,
    err: &mut E,
) -> u8
    ensures is_status { result ≤ 4 }
    ensures done_complains_of_nothing { result ≡ 0 → err.new ≡ err.old }
    ensures runs { RunsMerge source.old source.new sink.old sink.new result }
    ensures few_reads { source.new.reads ≤ source.old.reads + 2 ^ 32 }
{
    match merge_stream(alloc, source, sink) {
        Ok(()) => DONE,
        Err(why) => {
            let _ = writeln!(err, "kbroker: {why}");
            images_status(why)
        }
    }
}
