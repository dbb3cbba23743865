//! How each refusal of a batch is answered.

ghost use Rattle.std.specs.Prelude.{◌≡◌};
ghost use Rattle.broker_state.specs.Codes.{batch_code, append_refused};

use answering::{ErrorCode, Refused};
use batch_codec::BatchError;
use partition_log::AppendError;

/// The code that answers bytes that are no batch.
pub(crate) fn batch_code(fault: BatchError) -> ErrorCode
    ensures { result ≡ batch_code fault }
{
    match fault {
        BatchError::Short | BatchError::BadLength | BatchError::BadCrc => ErrorCode::CorruptMessage,
        BatchError::BadMagic => ErrorCode::UnsupportedForMessageFormat,
        BatchError::TooLarge => ErrorCode::MessageTooLarge,
        BatchError::Compressed => ErrorCode::UnsupportedCompression,
        BatchError::Transactional => ErrorCode::InvalidTransactionState,
        BatchError::Control
        | BatchError::BadAttributes
        | BatchError::BadCount
        | BatchError::BadRecord(_) => ErrorCode::InvalidRecord,
        BatchError::OutOfMemory => ErrorCode::StorageError,
    }
}

/// Why an entry is refused whose batch a leader does not append.
pub fn append_refused(fault: AppendError) -> Refused
    ensures { result ≡ append_refused fault }
{
    match fault {
        AppendError::NotWhole | AppendError::NoKey | AppendError::BadProducer => {
            Refused::Check(ErrorCode::InvalidRecord)
        }
        AppendError::OldEpoch => Refused::Check(ErrorCode::InvalidProducerEpoch),
        AppendError::OutOfOrder => Refused::Check(ErrorCode::OutOfOrderSequence),
        AppendError::OffsetsFull => Refused::Check(ErrorCode::UnknownServerError),
        AppendError::OutOfMemory => Refused::OutOfMemory,
    }
}
