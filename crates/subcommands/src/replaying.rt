//! The subcommand `replay`: how it answers.

ghost use Rattle.std.specs.Prelude.{◌≡◌, ◌≢◌, ◌+◌, ◌^◌, ◌≤◌};
ghost use Rattle.subcommands.specs.Status.{replay_status};

use crate::status::{DONE, replay_status};
use script_replay::replay;
use segment::ProgramStore;
use std::alloc::Allocator;
use std::io::{Read, Write};
use streams::{Sink, Source};

/// Runs the subcommand `replay`: makes the events of the script that the source gives happen, prints what
/// comes of each, and answers the status, 0 done, 1 a line is bad, 3 out of memory, 4 a read or a write
/// failed. A status that is not 0 comes with one line on `err`; what was printed before stays.
pub fn run_replay<A: Allocator + Copy, R: Read, W: Write, E: Write>(
    alloc: A,
    source: &mut Source<R>,
    sink: &mut Sink<W>,
    err: &mut E,
) -> u8
    ensures is_status { (result ≤ 4) × (result ≢ 2) }
    ensures done_complains_of_nothing { result ≡ 0 → err.new ≡ err.old }
    ensures few_reads { source.new.reads ≤ source.old.reads + 2 ^ 32 }
{
    match replay::<ProgramStore<A>, R, W>(alloc, source, sink) {
        Ok(()) => DONE,
        Err(why) => {
            let _ = writeln!(err, "kbroker: {why}");
            replay_status(why)
        }
    }
}
