//! Samples of a partition, newest first.

ghost use Rattle.std.specs.Prelude.{◌≡◌, take, IfOk, OnErr};
ghost use Rattle.cleaning_policy.specs.Samples.{has_passed, old_sample, asked_samples, is_known, is_crowded, with_sample};

use crate::values::{MOST_SAMPLES, Sample};
use std::alloc::{AllocError, Allocator};

/// Whether so much time has passed since then.
pub(crate) fn has_passed(since: u64, span: u64, now: u64) -> bool
    ensures { result ≡ has_passed since span now }
{
    span <= now && since <= now - span
}

/// The newest sample that is so old, if there is one.
#[tactic(auto, using(crate::proofs::Sampling::old_more, crate::proofs::Sampling::old_found))]
pub(crate) fn old_sample(samples: &[Sample], lag: u64, now: u64) -> Option<Sample>
    ensures { result ≡ old_sample lag now samples.now }
{
    for sample in samples {
        if has_passed(sample.time, lag, now) {
            return Some(*sample);
        }
    }
    None
}

/// How many samples can still be asked for.
#[tactic(auto, using(crate::proofs::Sampling::asked_all, crate::proofs::Sampling::asked_to))]
fn asked_count(samples: &[Sample], lag: u64, now: u64) -> usize
    ensures { take result samples.now ≡ asked_samples lag now samples.now }
{
    for (i, sample) in samples.iter().enumerate() {
        if has_passed(sample.time, lag, now) {
            return i + 1;
        }
    }
    samples.len()
}

/// Whether the newest sample says the same.
fn is_known(samples: &[Sample], x: Sample) -> bool
    ensures { result ≡ is_known x samples.now }
{
    if samples.is_empty() {
        return false;
    }
    samples[0].end == x.end && samples[0].came == x.came
}

/// Whether the newest sample makes room for a newer one.
fn is_crowded(samples: &[Sample], lag: u64) -> bool
    ensures { result ≡ is_crowded lag samples.now }
{
    if samples.len() < 2 {
        return false;
    }
    samples[0].time.saturating_sub(samples[1].time) < lag / 8 || MOST_SAMPLES <= samples.len()
}

/// Adds a sample.
///
/// # Errors
///
/// Out of memory: the samples are as they were.
fn put_sample<A: Allocator>(
    samples: &mut Vec<Sample, A>,
    lag: u64,
    x: Sample,
) -> Result<(), AllocError>
    ensures puts { IfOk result (λ _. samples.new.items ≡ with_sample lag x samples.old.items) }
    ensures same { OnErr result (samples.new.items ≡ samples.old.items) }
{
    if is_known(samples, x) {
        return Ok(());
    }
    if is_crowded(samples, lag) {
        samples[0] = x;
        return Ok(());
    }
    samples.insert(0, x)?;
    Ok(())
}

/// Adds a sample, and lets go of those that nobody asks for any more.
///
/// # Errors
///
/// Out of memory: the samples are as they were.
pub(crate) fn note_sample<A: Allocator>(
    samples: &mut Vec<Sample, A>,
    lag: u64,
    x: Sample,
) -> Result<(), AllocError>
    ensures notes { IfOk result (λ _.
        samples.new.items ≡ asked_samples lag x.time (with_sample lag x samples.old.items)) }
    ensures same { OnErr result (samples.new.items ≡ samples.old.items) }
{
    put_sample(samples, lag, x)?;
    let count = asked_count(samples, lag, x.time);
    samples.truncate(count);
    Ok(())
}
