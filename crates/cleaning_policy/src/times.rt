//! Times at which something may become due.

ghost use Rattle.std.specs.Prelude.{◌≡◌, ◌+◌, map};
ghost use Rattle.cleaning_policy.specs.Policies.{ripe_at, sooner, soonest};

use crate::values::{Mark, Sample};

/// The sooner of two times, the second where it lies behind now.
pub(crate) fn sooner(now: u64, found: Option<u64>, time: u64) -> Option<u64>
    ensures { result ≡ sooner now found time }
{
    if time <= now {
        return found;
    }
    match found {
        Some(other) => Some(if time < other { time } else { other }),
        None => Some(time),
    }
}

/// The sooner of two times, the second so long behind another.
pub(crate) fn sooner_behind(now: u64, found: Option<u64>, since: u64, span: u64) -> Option<u64>
    ensures { result ≡ sooner now found (since + span) }
{
    match since.checked_add(span) {
        Some(time) => sooner(now, found, time),
        None => found,
    }
}

/// A time, or when a mark gets ripe, where that is sooner.
pub(crate) fn ripe_before(
    now: u64,
    found: Option<u64>,
    mark: Option<Mark>,
    keep: u64,
) -> Option<u64>
    ensures { result ≡ soonest now found (ripe_at keep mark) }
{
    match mark {
        Some(mark) => sooner_behind(now, found, mark.ended, keep),
        None => found,
    }
}

/// A time, or when a sample gets so old, where that is sooner.
pub(crate) fn old_before(now: u64, found: Option<u64>, samples: &[Sample], lag: u64) -> Option<u64>
    ensures { result ≡ soonest now found (map (λ s. s.time + lag) samples.now) }
{
    let mut first = found;
    for sample in samples {
        first = sooner_behind(now, first, sample.time, lag);
    }
    first
}
