//! The response to a cleaning.

ghost use Rattle.std.specs.Prelude.{◌≡◌, ◌≢◌, length, drop, [], Some, IfSome, IfNone};
ghost use Rattle.frame_fields.specs.Fields.{Encodes};
ghost use Rattle.frame_fields.specs.Reading.{Gives, read_fields};
ghost use Rattle.responses.specs.Clean.{clean_response, clean_value};
ghost use Rattle.responses.specs.declared.clean.CleanAnswer.{CleanAnswer};
ghost use Rattle.cleaning_frames.specs.Cleaning.{IsCleanReply};

use frame_fields::FieldFault;
use frame_fields::fields::{int16, int64};
use responses::clean::CleanAnswer;

/// The number of bytes of a response to a Clean, its size counted.
pub const CLEAN_REPLY_BYTES: usize = 34;

/// The fields of a response to a Clean, and the bytes after them.
#[tactic(auto, unfolding(frame_fields::specs::Reading::read_fields))]
fn answer_at(bytes: &[u8]) -> Result<(CleanAnswer, &[u8]), FieldFault>
    ensures { Gives (λ x. (clean_value x.0, x.1.now)) result (read_fields clean_response bytes.now) }
{
    let (code, rest) = int16(bytes)?;
    let (records, rest) = int64(rest)?;
    let (tombstones, rest) = int64(rest)?;
    let (batches, rest) = int64(rest)?;
    let answer = CleanAnswer {
        code,
        records,
        tombstones,
        batches,
    };
    Ok((answer, rest))
}

/// The answer that a response to a Clean has. The response begins with its size; size and correlation id aren't looked at.
/// `None` where it isn't as long as one.
pub fn read_clean_reply(bytes: &[u8]) -> Option<CleanAnswer>
    ensures reads { (answer : CleanAnswer) → IsCleanReply bytes.now answer → result ≡ Some answer }
    ensures read { IfSome result (λ answer. (length bytes.now ≡ CLEAN_REPLY_BYTES)
        × Encodes clean_response (clean_value answer) (drop 8 bytes.now) []) }
    ensures none { IfNone result (length bytes.now ≢ CLEAN_REPLY_BYTES) }
{
    if bytes.len() != CLEAN_REPLY_BYTES {
        return None;
    }
    match answer_at(&bytes[8..]) {
        Ok((answer, _)) => Some(answer),
        Err(_) => None,
    }
}
