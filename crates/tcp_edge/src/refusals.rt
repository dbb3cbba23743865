//! Why a command line asks for nothing, as it is said.

ghost use Rattle.std.specs.Prelude.{◌≡◌, ◌≢◌, ◌≤◌, ◌⊎◌, ℕ, false};
ghost use Rattle.clap.specs.Words.{kind_of};
ghost use Rattle.tcp_edge.specs.Asked.{IsBadValue, IsHelp, IsMistake, IsOutOfMemory};

use crate::addresses::AddressFault;
use crate::asked::ArgumentsFault;
use crate::cleaning::CleaningFault;
use crate::keeping::KeptFault;
use clap::Error;
use clap::error::ErrorKind;
use listeners::{DONE, FAILED, FAULTY, NO_MEMORY, refuse_configuration};
use std::alloc::Global;
use std::io::Write;
use streams::Sink;

/// Says that there is no memory, and answers the status.
fn say_no_memory<E: Write>(err: &mut E) -> u8
    ensures { result ≡ 3 }
{
    let _ = writeln!(err, "kbroker: out of memory");
    NO_MEMORY
}

/// Says that a write failed, and answers the status.
fn say_write_failed<E: Write>(err: &mut E) -> u8
    ensures { result ≡ 4 }
{
    let _ = writeln!(err, "kbroker: write failed");
    FAILED
}

/// Prints what `clap` says of the arguments, and answers the status.
fn explain<W: Write, E: Write>(alloc: Global, error: &Error, sink: &mut Sink<W>, err: &mut E) -> u8
    ensures is_status { (result ≤ 4) × (result ≢ 1) }
    ensures done_complains_of_nothing { result ≡ 0 → err.new ≡ err.old }
    ensures out_of_memory { kind_of error.now ≡ ErrorKind.OutOfMemory → result ≡ 3 }
    ensures mistake { (kind_of error.now ≢ ErrorKind.DisplayHelp)
        → (kind_of error.now ≢ ErrorKind.DisplayVersion) → (2 ≤ result) × (sink.new ≡ sink.old) }
    ensures help { (kind_of error.now ≡ ErrorKind.DisplayHelp)
        ⊎ (kind_of error.now ≡ ErrorKind.DisplayVersion) → result ≢ 2 }
    ensures faulty_prints_nothing { result ≡ 2 → sink.new ≡ sink.old }
    ensures out_of_memory_prints_nothing { result ≡ 3 → sink.new ≡ sink.old }
    ensures done_has_not_failed { result ≡ 0 → sink.new.failed ≡ false }
{
    if matches!(error.kind(), ErrorKind::OutOfMemory) {
        return say_no_memory(err);
    }
    let Ok(text) = format!(in alloc; "{error}") else {
        return say_no_memory(err);
    };
    if error.use_stderr() {
        return match err.write_all(text.as_bytes()) {
            Ok(()) => FAULTY,
            Err(_) => say_write_failed(err),
        };
    }
    if sink.send(text.as_bytes()).is_err() || sink.finish().is_err() {
        return say_write_failed(err);
    }
    DONE
}

/// Says on one line of `err` what is wrong with an address, and answers the status.
fn refuse_address<E: Write>(why: AddressFault, err: &mut E) -> u8
    ensures { result ≡ 2 }
{
    let _ = writeln!(err, "error: {why}");
    FAULTY
}

/// Says on one line of `err` what is wrong with what is kept, and answers the status.
fn refuse_kept<E: Write>(why: KeptFault, err: &mut E) -> u8
    ensures { result ≡ 2 }
{
    let _ = writeln!(err, "error: {why}");
    FAULTY
}

/// Says on one line of `err` what is wrong with what is said of cleanings, and answers the status.
fn refuse_cleaning<E: Write>(why: CleaningFault, err: &mut E) -> u8
    ensures { result ≡ 2 }
{
    let _ = writeln!(err, "error: {why}");
    FAULTY
}

/// Says why a command line asks for nothing, and answers the status.
pub(crate) fn refuse_line<W: Write, E: Write>(
    alloc: Global,
    why: &ArgumentsFault,
    sink: &mut Sink<W>,
    err: &mut E,
) -> u8
    ensures is_status { (result ≤ 4) × (result ≢ 1) }
    ensures done_complains_of_nothing { result ≡ 0 → err.new ≡ err.old }
    ensures out_of_memory { IsOutOfMemory why.now → result ≡ 3 }
    ensures mistake { IsMistake why.now → (2 ≤ result) × (sink.new ≡ sink.old) }
    ensures help { IsHelp why.now → result ≢ 2 }
    ensures bad_value { IsBadValue why.now → (2 ≤ result) × (result ≤ 3) × (sink.new ≡ sink.old) }
    ensures faulty_prints_nothing { result ≡ 2 → sink.new ≡ sink.old }
    ensures out_of_memory_prints_nothing { result ≡ 3 → sink.new ≡ sink.old }
    ensures done_has_not_failed { result ≡ 0 → sink.new.failed ≡ false }
{
    match why {
        ArgumentsFault::Clap(error) => explain(alloc, error, sink, err),
        ArgumentsFault::Address(fault) => refuse_address(*fault, err),
        ArgumentsFault::Kept(fault) => refuse_kept(*fault, err),
        ArgumentsFault::Cleaning(fault) => refuse_cleaning(*fault, err),
        ArgumentsFault::Topic(fault) => refuse_configuration(*fault, err),
    }
}
