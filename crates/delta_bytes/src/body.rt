//! What stands between the front of a delta and its crc, judged where it stands.

ghost use Rattle.std.specs.Prelude.{ℤ, pos, ◌≤ℤ◌, List, IfOk, IfErr};
ghost use Rattle.copy_images.specs.Judging.{ranges_of};
ghost use Rattle.deltas.specs.Entries.{Entry};
ghost use Rattle.delta_bytes.specs.Faults.{HasBody, BodyFault};

use crate::counted::judge_counted;
use crate::error::BodyError;
use crate::ranges::ranges_at;
use copy_images::layout::COUNT_SIZE;
use copy_images::ranges::RangeBytes;

/// The parts of a delta behind its front, borrowed from its bytes.
#[derive(Drop)]
pub(crate) struct DeltaBody<'a> {
    /// The ranges that the sender has seen, in order.
    pub ranges: &'a [RangeBytes],
    /// The ranges that were asked, in order.
    pub asked: &'a [RangeBytes],
    /// The entries behind their count.
    pub entries: &'a [u8],
}

/// Judges what stands between the front of a delta and its crc, of a sender whose log start is `start`.
pub(crate) fn judge_body(bytes: &[u8], start: i64) -> Result<DeltaBody<'_>, BodyError>
    requires { pos 0 ≤ℤ start }
    ensures accepts { IfOk result (λ body. (entries : List Entry) × HasBody start bytes.now
        (ranges_of body.ranges.now) (ranges_of body.asked.now) body.entries.now entries) }
    ensures refuses_for_the_first_fault { IfErr result (BodyFault start bytes.now) }
{
    let sender = match ranges_at(bytes, start, 0) {
        Ok(cut) => cut,
        Err(fault) => return Err(BodyError::InRanges(fault)),
    };
    let asked = match ranges_at(sender.rest, 0, COUNT_SIZE) {
        Ok(cut) => cut,
        Err(fault) => return Err(BodyError::InRanges(fault)),
    };
    match judge_counted(sender.ranges, asked.ranges, asked.rest) {
        Ok(()) => Ok(DeltaBody {
            ranges: sender.ranges,
            asked: asked.ranges,
            entries: asked.rest,
        }),
        Err(fault) => Err(BodyError::InEntries(fault)),
    }
}
