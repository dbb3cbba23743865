//! Cleanings of copies.

ghost use Rattle.std.specs.Prelude.{◌≡◌, ◌+◌, ◌<◌, length, IfOk, OnOk, OnErr};
ghost use Rattle.cluster.specs.Events.{Cleans};
ghost use Rattle.cluster.specs.Parts.{clean_outcome, cleaned, reported};

use crate::cluster::Cluster;
use crate::event::{EventError, Outcome};
use content::{CleanReport, CleaningPart};
use partition_log::{LeaderLog, PartitionLog};
use segment::BatchStore;
use std::alloc::AllocError;

/// How much of a copy is cleaned.
#[derive(Clone, Copy)]
pub(crate) enum Cleaning {
    /// All of it.
    Whole { upto: i64, tomb_before: i64 },
    /// A part of it.
    Part(CleaningPart),
}

/// The outcome of a cleaning.
fn outcome(answer: Result<CleanReport, AllocError>) -> Result<Outcome, EventError>
    ensures { result ≡ clean_outcome answer }
{
    match answer {
        Ok(report) => Ok(Outcome::Cleaned(report)),
        Err(_) => Err(EventError::OutOfMemory),
    }
}

/// Cleans the leader's copy.
fn clean_log<S: BatchStore>(
    log: &mut LeaderLog<S>,
    cleaning: Cleaning,
) -> Result<CleanReport, AllocError>
    ensures cleans { OnOk result (log.new ≡ cleaned cleaning log.old) }
    ensures reports { IfOk result (λ report. report ≡ reported cleaning log.old) }
    ensures unchanged_on_error { OnErr result (log.new ≡ log.old) }
{
    match cleaning {
        Cleaning::Whole { upto, tomb_before } => log.clean(upto, tomb_before),
        Cleaning::Part(part) => log.clean_part(part),
    }
}

/// Cleans a follower.
fn clean_copy<S: BatchStore>(
    copy: &mut PartitionLog<S>,
    cleaning: Cleaning,
) -> Result<CleanReport, AllocError>
    ensures cleans { OnOk result (copy.new ≡ cleaned cleaning copy.old) }
    ensures reports { IfOk result (λ report. report ≡ reported cleaning copy.old) }
    ensures unchanged_on_error { OnErr result (copy.new ≡ copy.old) }
{
    match cleaning {
        Cleaning::Whole { upto, tomb_before } => copy.clean(upto, tomb_before),
        Cleaning::Part(part) => copy.clean_part(part),
    }
}

impl<S: BatchStore> Cluster<S> {
    fn clean_leader(&mut self, cleaning: Cleaning) -> Result<Outcome, EventError>
        ensures { Cleans self.old 0 (cleaned cleaning) (reported cleaning) self.new result }
    {
        outcome(clean_log(&mut self.leader, cleaning))
    }

    fn clean_follower(&mut self, follower: usize, cleaning: Cleaning) -> Result<Outcome, EventError>
        requires { follower < length self.old.followers }
        ensures { Cleans self.old (follower + 1) (cleaned cleaning) (reported cleaning) self.new result }
    {
        outcome(clean_copy(&mut self.followers[follower], cleaning))
    }

    /// Cleans a copy.
    pub(crate) fn clean(&mut self, copy: usize, cleaning: Cleaning) -> Result<Outcome, EventError>
        ensures { Cleans self.old copy (cleaned cleaning) (reported cleaning) self.new result }
    {
        if self.followers.len() < copy {
            return Err(EventError::NoCopy);
        }
        match copy.checked_sub(1) {
            None => self.clean_leader(cleaning),
            Some(follower) => self.clean_follower(follower, cleaning),
        }
    }
}
