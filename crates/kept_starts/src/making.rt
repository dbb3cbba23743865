//! The files of a new directory.

ghost use Rattle.std.specs.Prelude.{◌≡◌, IfErr, IfOk};
ghost use Rattle.data_directory.specs.Directories.{IsName, KeepsOthers};
ghost use Rattle.kept_starts.specs.Refusals.{IsFailure, RefusesUnchanged};

use crate::configuration::asked_config;
use crate::faults::{StartFault, failed};
use crate::standing::FIRST;
use broker_state::{BrokerState, Config, ConfigError};
use data_directory::{Directory, Kind, Name};
use journal::Before;
use journal::layout::KEY_SIZE;
use kept_rotations::{id_of, make_journal, write_whole};
use segment::BatchStore;
use snapshot_drafts::DraftError;
use std::alloc::Allocator;
use std::io::{self, Error, ErrorKind};

/// Removes what has the name of a file that was being made, if anything has. It was judged before that it is a file.
fn remove_any<D: Directory>(directory: &mut D, name: Name) -> io::Result<()>
    ensures { KeepsOthers (IsName name) (D.state directory.old) (D.state directory.new) }
{
    match directory.kind(name)? {
        Kind::Nothing => Ok(()),
        Kind::File => directory.remove(name),
        Kind::Other => Err(Error::from(ErrorKind::InvalidData)),
    }
}

/// Removes a file that was being made, if it is there.
pub(crate) fn remove_unfinished<D: Directory, A: Allocator>(
    directory: &mut D,
    name: Name,
) -> Result<(), StartFault<A>>
    ensures keeps_others { KeepsOthers (IsName name) (D.state directory.old) (D.state directory.new) }
    ensures fails { IfErr result IsFailure }
{
    match remove_any(directory, name) {
        Ok(()) => Ok(()),
        Err(why) => Err(failed(Some(name), why)),
    }
}

/// What it means that a snapshot isn't written.
fn not_written<A: Allocator>(why: DraftError) -> StartFault<A>
    ensures { IsFailure result }
{
    match why {
        DraftError::OutOfMemory => StartFault::OutOfMemory,
        DraftError::OnDisk(why) => failed(Some(Name::Making), why),
        DraftError::OtherSize | DraftError::Unfinished => {
            failed(Some(Name::Making), Error::from(ErrorKind::Other))
        }
    }
}

/// What the first journal says of what stood before it: that nothing did.
const NOTHING: Before = Before {
    number: 0,
    key: [0; KEY_SIZE],
    size: 0,
};

/// Makes the snapshot of a broker to which nothing was done yet, and whose journal has this key. It is on the disk for certain
/// before it gets its name.
fn make_snapshot<S: BatchStore, D: Directory>(
    alloc: S::Alloc,
    directory: &mut D,
    key: &[u8; KEY_SIZE],
    state: &BrokerState<S>,
) -> Result<D::Draft, StartFault<S::Alloc>>
    ensures is_synced { IfOk result (λ whole. D.Draft.synced whole ≡ D.Draft.seen whole) }
    ensures is_the_one { IfOk result (λ whole. D.Draft.number whole
        ≡ (D.state directory.new).making) }
    ensures fails { IfErr result IsFailure }
{
    let file = match directory.draft() {
        Ok(file) => file,
        Err(why) => return Err(failed(Some(Name::Making), why)),
    };
    match write_whole(alloc, file, id_of(FIRST, key), state) {
        Ok(whole) => Ok(whole),
        Err(why) => Err(not_written(why)),
    }
}

/// What it means that a file isn't made: where a sync of names failed, the directory is at fault.
fn not_made<D: Directory, A: Allocator>(directory: &D, name: Name, why: Error) -> StartFault<A>
    ensures { IsFailure result }
{
    let at_fault = if directory.is_unsure() {
        None
    } else {
        Some(name)
    };
    failed(at_fault, why)
}

/// Gives the snapshot its name, for certain.
fn name_snapshot<D: Directory>(directory: &mut D, whole: D::Draft) -> io::Result<()>
    requires is_synced { D.Draft.synced whole ≡ D.Draft.seen whole }
    requires is_the_one { D.Draft.number whole ≡ (D.state directory.old).making }
{
    directory.publish(whole, FIRST)?;
    directory.sync()
}

/// A broker of a configuration to which nothing was done yet.
pub(crate) fn new_broker<S: BatchStore>(
    alloc: S::Alloc,
    config: &Config<S::Alloc>,
    first_producer: i64,
) -> Result<BrokerState<S>, StartFault<S::Alloc>> {
    match BrokerState::new(alloc, asked_config(alloc, config, first_producer)?) {
        Ok(state) => Ok(state),
        Err(ConfigError::OutOfMemory) => Err(StartFault::OutOfMemory),
        Err(why) => Err(StartFault::Configuration(why)),
    }
}

/// Makes the files of a directory that has none, but for some that were being made. What was removed of these is
/// gone for certain before the snapshot has its name.
pub(crate) fn make_files<S: BatchStore, D: Directory>(
    alloc: S::Alloc,
    directory: &mut D,
    config: &Config<S::Alloc>,
) -> Result<(), StartFault<S::Alloc>>
    ensures refuses { IfErr result
        (RefusesUnchanged (D.state directory.old) (D.state directory.new)) }
{
    let state: BrokerState<S> = new_broker(alloc, config, config.first_producer)?;
    remove_unfinished(directory, Name::Making)?;
    remove_unfinished(directory, Name::Journal(FIRST))?;
    let key = match make_journal(directory, FIRST, NOTHING) {
        Ok(journal) => journal.key(),
        Err(why) => return Err(not_made(directory, Name::Journal(FIRST), why)),
    };
    let whole = make_snapshot(alloc, directory, &key, &state)?;
    match name_snapshot(directory, whole) {
        Ok(()) => Ok(()),
        Err(why) => Err(not_made(directory, Name::Snapshot(FIRST), why)),
    }
}
