//! The subcommand `table`: what it prints, and how it answers.

ghost use Rattle.std.specs.Prelude.{◌≡◌, ◌+◌, ◌^◌, ◌≤◌};
ghost use Rattle.subcommands.specs.Runs.{RunsTable};

use crate::status::{DONE, table_status};
use crate::table::run_table;
use std::alloc::Allocator;
use std::io::{Read, Write};
use streams::{Sink, Source};

/// Runs the subcommand `table`: prints the table of what the source gives, and answers the status,
/// 0 done, 1 the input is refused, 3 out of memory, 4 a read or a write failed. A status that is
/// not 0 comes with one line on `err`.
pub fn run_table_subcommand<A: Allocator + Copy, R: Read, W: Write, E: Write>(
    alloc: A,
    source: &mut Source<R>,
    sink: &mut Sink<W>,
    err: &mut E,
) -> u8
    ensures is_status { result ≤ 4 }
    ensures done_complains_of_nothing { result ≡ 0 → err.new ≡ err.old }
    ensures runs { RunsTable source.old source.new sink.old sink.new result }
    ensures few_reads { source.new.reads ≤ source.old.reads + 2 ^ 32 }
{
    match run_table(alloc, source, sink) {
        Ok(()) => DONE,
        Err(why) => {
            let _ = writeln!(err, "kbroker: {why}");
            table_status(why)
        }
    }
}
