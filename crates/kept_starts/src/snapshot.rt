//! The broker that a snapshot holds.

ghost use Rattle.std.specs.Prelude.{◌≡◌, false, true, IfOk, OnOk};
ghost use Rattle.std.specs.Int.{cast_unsigned, w64};
ghost use Rattle.broker_state.specs.ConfigValues.{config_value};
ghost use Rattle.broker_state.specs.State.{ConfigValue};
ghost use Rattle.data_directory.specs.Directories.{HasItsBytes, IsThere};
ghost use Rattle.data_directory.specs.declared.names.Name.TheVariants.{Snapshot as SnapshotOf};
ghost use Rattle.snapshots.specs.Heads.{StartsWithHead, snapshot_view};
ghost use Rattle.kept_starts.specs.Growth.{HasTopicsOf, IsSetUp, takes_its_own};
ghost use Rattle.kept_starts.specs.Starts.{HoldsImages, IsFrontOf, SnapshotHolds};

use crate::configuration::{
    asked_config, asks_more, bad_topics, check_configuration, counts_of, former_config, own_config,
    role_of,
};
use crate::faults::{Damage, LaterWhy, StartFault, failed, unread};
use crate::making::new_broker;
use crate::offsets::{Field, version_in, version_of};
use crate::reading::read_front;
use crate::telling::{Telling, Watching};
use broker_state::{BrokerState, Config, ConfigError};
use data_directory::{Directory, Name};
use journal::Disk;
use kept_rotations::Node;
use segment::BatchStore;
use snapshots::{SnapshotError, SnapshotHead, judge_head};
use state_snapshots::{RestoreFault, restore_snapshot};
use std::alloc::Allocator;

/// The broker that a snapshot holds.
#[derive(Drop)]
pub(crate) struct Restored<S: BatchStore> {
    pub(crate) node: Node<S>,
    /// Whether more is asked for than it has.
    pub(crate) is_grown: bool,
    /// The size of the snapshot, in bytes.
    pub(crate) size: u64,
    /// The key of the journal of its number; none where it is of version 0.
    pub(crate) journal_key: Option<i64>,
}

/// A snapshot's file, of which the first bytes were read.
#[derive(Drop)]
struct Front<D: Disk, A: Allocator> {
    disk: D,
    /// How many bytes it has.
    size: u64,
    /// The first ones.
    bytes: Vec<u8, A>,
}

/// What it means that bytes don't begin with a head.
fn head_fault<A: Allocator>(name: Name, bytes: &[u8], why: SnapshotError) -> StartFault<A> {
    let at = match why {
        SnapshotError::Short => bytes.len() as u64,
        SnapshotError::BadMark => 4,
        SnapshotError::BadVersion => return StartFault::Later(name, LaterWhy::BadVersion),
        SnapshotError::BadSize => Field::Size.at(version_in(bytes)),
        SnapshotError::BadCrc => 0,
        SnapshotError::BadFields => Field::Number.at(version_in(bytes)),
    };
    StartFault::Damaged {
        name,
        at,
        why: Damage::Snapshot(why),
    }
}

/// What it means that the images of a snapshot of this version aren't read.
fn restore_fault<A: Allocator>(name: Name, version: i16, why: RestoreFault) -> StartFault<A> {
    match why {
        RestoreFault::OutOfMemory => StartFault::OutOfMemory,
        RestoreFault::OnDisk(why) => failed(Some(name), why),
        RestoreFault::Damaged { at, why } => StartFault::Damaged {
            name,
            at,
            why: Damage::Image(why),
        },
        RestoreFault::Refused { at, why } => StartFault::Damaged {
            name,
            at,
            why: Damage::Copy(why),
        },
        RestoreFault::EarlyProducer => StartFault::Damaged {
            name,
            at: Field::NextProducer.at(version),
            why: Damage::EarlyProducer,
        },
    }
}

/// What it means that there is no broker of a configuration. Of a snapshot's own the snapshot is at fault.
fn config_fault<A: Allocator>(
    name: Name,
    version: i16,
    is_its_own: bool,
    why: ConfigError,
) -> StartFault<A> {
    match (why, is_its_own) {
        (ConfigError::OutOfMemory, _) => StartFault::OutOfMemory,
        (_, true) => bad_topics(name, version),
        (why, false) => StartFault::Configuration(why),
    }
}

/// How the broker of a snapshot is set up: with what is asked for, or with what the snapshot has of it.
#[derive(Clone, Copy, PartialEq, Eq)]
pub(crate) enum Shape {
    /// As the snapshot says, where more is asked for.
    Former,
    /// As is asked for.
    Asked,
}

/// Whether the broker of a snapshot is set up as that says.
fn takes_its_own(shape: Shape, is_grown: bool) -> bool
    ensures { result ≡ takes_its_own shape is_grown }
{
    match shape {
        Shape::Former => is_grown,
        Shape::Asked => false,
    }
}

/// The configuration of the broker of a snapshot: what is asked for, or the snapshot's own. Then that which is asked for is judged
/// too, as it comes into its place later.
fn config_of<S: BatchStore>(
    alloc: S::Alloc,
    config: &Config<S::Alloc>,
    own: Config<S::Alloc>,
    first_producer: i64,
    is_its_own: bool,
) -> Result<Config<S::Alloc>, StartFault<S::Alloc>>
    ensures as_before { IfOk result (λ set_up. is_its_own ≡ true
        → config_value set_up ≡ config_value own) }
    ensures as_asked { IfOk result (λ set_up. is_its_own ≡ false
        → HasTopicsOf (config_value config.now) (config_value set_up)) }
{
    if is_its_own {
        new_broker::<S>(alloc, config, first_producer)?;
        return Ok(own);
    }
    Ok(asked_config(alloc, config, first_producer)?)
}

/// Refuses a snapshot of another number than its name has.
fn check_number<A: Allocator>(number: u64, head: &SnapshotHead<'_>) -> Result<(), StartFault<A>>
    ensures { OnOk result (cast_unsigned w64 head.now.number ≡ number) }
{
    if head.number.cast_unsigned() != number {
        return Err(StartFault::Damaged {
            name: Name::Snapshot(number),
            at: Field::Number.at(version_of(head)),
            why: Damage::BadNumber,
        });
    }
    Ok(())
}

/// The head of a snapshot, which has the number of its name, and the images behind it.
fn head_in<A: Allocator>(
    number: u64,
    bytes: &[u8],
) -> Result<(SnapshotHead<'_>, &[u8]), StartFault<A>>
    ensures stands { IfOk result (λ x. StartsWithHead (snapshot_view x.0)
        x.0.journal_key bytes.now x.1.now) }
    ensures says { IfOk result (λ x. cast_unsigned w64 x.0.number ≡ number) }
{
    let (head, images) = match judge_head(bytes) {
        Ok(found) => found,
        Err(why) => return Err(head_fault(Name::Snapshot(number), bytes, why)),
    };
    check_number(number, &head)?;
    Ok((head, images))
}

/// Tells what a snapshot is of that was read.
fn tell_snapshot<W: Watching, A: Allocator>(
    name: Name,
    head: &SnapshotHead<'_>,
    size: u64,
    told: &mut Telling<'_, W, A>,
) -> Result<(), StartFault<A>> {
    let role = role_of(name, head)?;
    let (topics, partitions) = counts_of(&head.topics);
    Ok(told.end_snapshot(version_of(head), role, topics, partitions, size)?)
}

/// Restores the broker of a snapshot that stands in a file, of which the first bytes were read. Tells whether more is asked for
/// than it has, and the key of its journal.
fn restore_from<S: BatchStore, D: Disk, W: Watching>(
    alloc: S::Alloc,
    front: &Front<D, S::Alloc>,
    number: u64,
    config: &Config<S::Alloc>,
    shape: Shape,
    told: &mut Telling<'_, W, S::Alloc>,
) -> Result<(Node<S>, bool, Option<i64>), StartFault<S::Alloc>>
    requires { IsFrontOf (D.seen front.now.disk) front.now.bytes.items }
    ensures { IfOk result (λ r. (set_up : ConfigValue)
        × (held : HoldsImages (D.seen front.now.disk) set_up r.0)
        × (cast_unsigned w64 held.head.number ≡ number) × (held.key ≡ r.2)
        × IsSetUp (config_value config.now) shape r.1 held.head set_up) }
{
    let name = Name::Snapshot(number);
    let bytes = front.bytes.as_slice();
    let (head, images) = head_in(number, bytes)?;
    check_configuration(alloc, name, config, &head)?;
    let own = former_config(alloc, name, config, &head)?;
    let is_grown = asks_more(config, &own);
    let is_its_own = takes_its_own(shape, is_grown);
    let set_up = config_of::<S>(alloc, config, own, head.first_producer, is_its_own)?;
    let mut state = match BrokerState::new(alloc, set_up) {
        Ok(state) => state,
        Err(why) => return Err(config_fault(name, version_of(&head), is_its_own, why)),
    };
    let at = bytes.len().saturating_sub(images.len()) as u64;
    match restore_snapshot(alloc, &front.disk, &head, at, &mut state, told) {
        Ok(()) => {}
        Err(why) => return Err(restore_fault(name, version_of(&head), why)),
    }
    tell_snapshot(name, &head, front.size, told)?;
    Ok((Node::from_state(state), is_grown, head.journal_key))
}

/// The first bytes of a directory's snapshot.
fn open_front<D: Directory, A: Allocator + Copy>(
    alloc: A,
    directory: &D,
    number: u64,
) -> Result<Front<D::File, A>, StartFault<A>>
    ensures was_there { OnOk result (IsThere (D.state directory.now) (SnapshotOf number) true) }
    ensures is_its_file { IfOk result (λ front. D.gives directory.now (SnapshotOf number) front.disk) }
    ensures has_its_bytes { IfOk result (λ front. HasItsBytes (D.state directory.now)
        (SnapshotOf number) (D.File.seen front.disk)) }
    ensures is_front { IfOk result (λ front. IsFrontOf (D.File.seen front.disk) front.bytes.items) }
{
    let name = Name::Snapshot(number);
    let disk = match directory.open(name) {
        Ok(disk) => disk,
        Err(why) => return Err(failed(Some(name), why)),
    };
    let size = match disk.len() {
        Ok(size) => size,
        Err(why) => return Err(failed(Some(name), why)),
    };
    match read_front(alloc, &disk) {
        Ok(bytes) => Ok(Front { disk, size, bytes }),
        Err(why) => Err(unread(name, why)),
    }
}

/// What a directory's snapshot says that its broker was set up with, and its version.
pub(crate) fn config_in<D: Directory, A: Allocator + Copy>(
    alloc: A,
    directory: &D,
    number: u64,
) -> Result<(Config<A>, i16), StartFault<A>> {
    let front = open_front(alloc, directory, number)?;
    let (head, _) = head_in(number, &front.bytes)?;
    let config = own_config(alloc, Name::Snapshot(number), &head)?;
    Ok((config, version_of(&head)))
}

/// Restores the broker of a directory's snapshot.
#[tactic(auto, using(crate::proofs::Taking::snapshot_holds))]
pub(crate) fn restore_node<S: BatchStore, D: Directory, W: Watching>(
    alloc: S::Alloc,
    directory: &D,
    number: u64,
    config: &Config<S::Alloc>,
    shape: Shape,
    told: &mut Telling<'_, W, S::Alloc>,
) -> Result<Restored<S>, StartFault<S::Alloc>>
    ensures is_of_its_file { IfOk result (λ r. (held : SnapshotHolds (D.state directory.now)
        (D.gives directory.now) D.File.seen number r.journal_key r.node)
        × IsSetUp (config_value config.now) shape r.is_grown held.holds.head held.config) }
{
    told.begin(Name::Snapshot(number));
    let front = open_front(alloc, directory, number)?;
    let (node, is_grown, journal_key) = restore_from(alloc, &front, number, config, shape, told)?;
    Ok(Restored {
        node,
        is_grown,
        size: front.size,
        journal_key,
    })
}
