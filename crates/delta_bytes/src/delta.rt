//! A whole delta, judged where it stands.

ghost use Rattle.std.specs.Prelude.{IfOk, IfErr};
ghost use Rattle.copy_images.specs.Judging.{ranges_of};
ghost use Rattle.delta_bytes.specs.Deltas.{IsDeltaAt};
ghost use Rattle.delta_bytes.specs.Fronts.{Refuses};

use crate::body::judge_body;
use crate::error::DeltaError;
use crate::front::start_at;
use copy_images::front::body_of;
use copy_images::ranges::RangeBytes;

/// The parts of a delta, borrowed from its bytes.
#[derive(Drop)]
pub struct DeltaBytes<'a> {
    /// The sender's log start.
    pub start: i64,
    /// The ranges that the sender has seen, in order.
    pub ranges: &'a [RangeBytes],
    /// The ranges that were asked, in order.
    pub asked: &'a [RangeBytes],
    /// The entries behind their count.
    pub entries: &'a [u8],
}

/// Judges bytes as a delta. It takes no memory.
///
/// # Errors
///
/// The first fault in the order of the checks, which [`DeltaError`] gives.
pub fn judge_delta(bytes: &[u8]) -> Result<DeltaBytes<'_>, DeltaError>
    // What is accepted is a delta, and these are its parts.
    ensures accepts_a_delta { IfOk result (λ delta. IsDeltaAt bytes.now delta.start
        (ranges_of delta.ranges.now) (ranges_of delta.asked.now) delta.entries.now) }
    ensures refuses_for_the_first_fault { IfErr result (Refuses bytes.now) }
{
    let start = match start_at(bytes) {
        Ok(start) => start,
        Err(fault) => return Err(DeltaError::InFront(fault)),
    };
    match judge_body(body_of(bytes), start) {
        Ok(body) => Ok(DeltaBytes {
            start,
            ranges: body.ranges,
            asked: body.asked,
            entries: body.entries,
        }),
        Err(fault) => Err(DeltaError::InBody(fault)),
    }
}
