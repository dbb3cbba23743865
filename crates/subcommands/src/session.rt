//! A session: request frames come in, and their replies go out.

ghost use Rattle.std.specs.Prelude.{◌≡◌, ◌≢◌, ◌≤◌, ◌+◌, ◌^◌, false, IfErr, OnOk};
ghost use Rattle.broker_state.specs.ConfigValues.{config_value};
ghost use Rattle.broker_state.specs.Configs.{IsValidConfig};
ghost use Rattle.subcommands.specs.Answering.{AnswersFrom, FailsAs, RefusesFrom};
ghost use Rattle.subcommands.specs.SessionRuns.{RunsSession};
ghost use Rattle.subcommands.specs.Status.{session_status};

use crate::error::SessionFault;
use crate::status::{DONE, FAULTY, NO_MEMORY, fail_session};
use broker_core::{Config, ConfigError, Node, SessionError, serve};
use segment::{BatchStore, ProgramStore};
use std::alloc::Allocator;
use std::io::{Read, Write};
use streams::{Sink, Source};

/// Says on one line of `err` why there is no broker of a configuration, and answers the status: 3 out of
/// memory, 2 for all else.
pub fn refuse_configuration<E: Write>(why: ConfigError, err: &mut E) -> u8
    ensures is_status { (2 ≤ result) × (result ≤ 3) }
    ensures out_of_memory { why ≡ ConfigError.OutOfMemory → result ≡ 3 }
    ensures faulty { why ≢ ConfigError.OutOfMemory → result ≡ 2 }
{
    match why {
        ConfigError::OutOfMemory => fail_session(
            &SessionFault::Stopped(SessionError::OutOfMemory),
            err,
        ),
        _ => {
            let _ = writeln!(err, "configuration: {why}");
            FAULTY
        }
    }
}

/// Answers the frames that come from the source, to its end, and flushes the sink, also where it stops
/// before.
///
/// # Errors
///
/// The first thing that stops it, as of `serve`; the end of the input within a frame. `Write` also where
/// all was answered and the flush fails, or the sink had failed before.
pub fn answer_frames<S: BatchStore, A: Allocator + Copy, R: Read, W: Write>(
    alloc: A,
    node: &mut Node<S>,
    source: &mut Source<R>,
    sink: &mut Sink<W>,
) -> Result<(), SessionFault>
    // What was read, to the reader's end, is frames, and what was written answers them all.
    ensures answers { OnOk result (AnswersFrom node.old
        source.old.left source.new.left sink.old.taken sink.new.taken node.new) }
    // What was read is frames, which were answered, and then one that is refused or incomplete.
    ensures refuses { IfErr result (λ why. session_status why ≡ 1 → RefusesFrom node.old
        source.old.left source.new.left sink.old.taken sink.new.taken node.new) }
    // Whatever stops it: the frames before were answered, and this is why no more were.
    ensures fails { IfErr result (FailsAs node.old source.old source.new sink.old sink.new node.new) }
    ensures reads { OnOk result (source.new.failed ≡ false) }
    ensures flushes { OnOk result (sink.new.failed ≡ false) }
    ensures few_reads { source.new.reads ≤ source.old.reads + 2 ^ 32 }
{
    let answered = serve(alloc, node, source, sink);
    let flushed = sink.finish();
    let ended = match answered {
        Ok(ended) => ended,
        Err(why) => return Err(SessionFault::Stopped(why)),
    };
    if flushed.is_err() {
        return Err(SessionFault::Stopped(SessionError::Write));
    }
    if ended.rest != 0 {
        return Err(SessionFault::EndsInside);
    }
    Ok(())
}

/// Runs the subcommand `session`: answers the frames that the source gives, as a new broker of a
/// configuration, and answers the status: 0 all were answered, 1 a frame is refused or incomplete,
/// 2 the configuration is refused, 3 out of memory, 4 a read or a write failed. A status that is not 0
/// comes with one line on `err`.
pub fn run_session<A: Allocator + Copy, R: Read, W: Write, E: Write>(
    alloc: A,
    config: Config<A>,
    source: &mut Source<R>,
    sink: &mut Sink<W>,
    err: &mut E,
) -> u8
    ensures is_status { result ≤ 4 }
    ensures done_complains_of_nothing { result ≡ 0 → err.new ≡ err.old }
    ensures invalid_is_a_fault { ¬ IsValidConfig (config_value config) → result ≡ 2 }
    ensures runs { RunsSession (config_value config)
        source.old source.new sink.old sink.new result }
    ensures few_reads { source.new.reads ≤ source.old.reads + 2 ^ 32 }
{
    let mut node: Node<ProgramStore<A>> = match Node::new(alloc, config) {
        Ok(node) => node,
        Err(why) => return refuse_configuration(why, err),
    };
    match answer_frames(alloc, &mut node, source, sink) {
        Ok(()) => DONE,
        Err(why) => fail_session(&why, err),
    }
}
