//! What tells of each record whether a later one has its key.

ghost use Rattle.std.specs.Prelude.{◌≡◌, ◌≤◌, ℤ, length, drop, IfOk};
ghost use Rattle.std.specs.Option.{option_map};
ghost use Rattle.content.specs.Records.{LogRecord};
ghost use Rattle.swept_contents.specs.Swept.{is_before};
ghost use Rattle.cleaning_progress.specs.Progress.{found, newest_of};
ghost use Rattle.cleaner.specs.Later.{outdated_of, TellsLater};
ghost use Rattle.cleaner.specs.Plans.{InOrder};

use crate::latest::{Latest, is_outdated};
use crate::reach::latest_in;
use cleaning_progress::Progress;
use segment::BatchStore;
use std::alloc::{AllocError, Allocator};

/// What tells of each record whether a later one has its key.
#[derive(Drop)]
pub(crate) enum Later<'a, A: Allocator + Copy> {
    /// The latest offset of each key, as a walk found them.
    Walked(Latest<'a, A>),
    /// What is known of the keys of a copy.
    Known(&'a Progress<A>),
}

/// Whether something is known behind an offset.
fn is_behind(offset: i64, newest: Option<i64>) -> bool
    ensures { result ≡ is_before offset newest }
{
    match newest {
        Some(newest) => offset < newest,
        None => false,
    }
}

/// Whether it is known that a later record has the key of a record at an offset.
fn is_known_outdated<A: Allocator + Copy>(
    progress: &Progress<A>,
    key: Option<&[u8]>,
    offset: i64,
) -> bool
    ensures { result ≡ is_before offset (found (newest_of progress.now.newest) (option_map (λ k. k.now) key.entry)) }
{
    match key {
        Some(key) => is_behind(offset, progress.newest(key)),
        None => false,
    }
}

impl<'a, A: Allocator + Copy> Later<'a, A> {
    /// Whether a later record has the key of a record at an offset.
    pub(crate) fn is_outdated(&self, key: Option<&'a [u8]>, offset: i64) -> bool
        ensures { (x : LogRecord) → x.0 ≡ offset → x.1.key ≡ option_map (λ k. k.now) key.entry
            → result ≡ outdated_of self.now x }
    {
        match self {
            Later::Walked(latest) => is_outdated(latest, key, offset),
            Later::Known(progress) => is_known_outdated(progress, key, offset),
        }
    }
}

/// What tells of the batches from an index on that lie wholly below the bound: what is known of the copy, where that
/// goes as far as the bound, and else the latest offset of each key, for which it takes a walk.
pub(crate) fn later_in<'a, S: BatchStore>(
    alloc: S::Alloc,
    batches: &'a S,
    first: usize,
    upto: i64,
    progress: &'a Progress<S::Alloc>,
) -> Result<Later<'a, S::Alloc>, AllocError>
    requires within { first ≤ length (S.batches batches.now) }
    requires order { (low : ℤ) × InOrder low (drop first (S.batches batches.now)) }
    ensures { IfOk result (λ later. TellsLater later progress.now upto
        (drop first (S.batches batches.now))) }
{
    if progress.known_to() == upto {
        return Ok(Later::Known(progress));
    }
    Ok(Later::Walked(latest_in(alloc, batches, first, upto)?))
}
