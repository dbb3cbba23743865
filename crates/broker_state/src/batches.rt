//! The bytes that are sent for a batch.

ghost use Rattle.std.specs.Prelude.{◌≡◌, Some, None, IfOk, IfErr, OnOk};
ghost use Rattle.batch_codec.specs.Reading.{batch_of};
ghost use Rattle.answering.specs.Lists.{first_some};
ghost use Rattle.broker_state.specs.Batches.{batch_checks};

use crate::codes::batch_code;
use answering::ErrorCode;
use batch_codec::{BatchView, view};

/// The one batch that bytes are. It takes no memory.
///
/// # Errors
///
/// The code of the first fault of the batch at the front; `InvalidRecord` where bytes follow it.
pub fn one_batch(bytes: &[u8]) -> Result<BatchView<'_>, ErrorCode>
    ensures has_no_fault { OnOk result (first_some (batch_checks bytes.now) ≡ None) }
    ensures is_batch { IfOk result (λ batch. batch ≡ batch_of bytes.now) }
    ensures refuses { IfErr result (λ code. first_some (batch_checks bytes.now) ≡ Some code) }
{
    match view(bytes) {
        Ok(batch) if batch.bytes().len() < bytes.len() => Err(ErrorCode::InvalidRecord),
        Ok(batch) => Ok(batch),
        Err(fault) => Err(batch_code(fault)),
    }
}
