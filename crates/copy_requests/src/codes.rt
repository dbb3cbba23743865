//! How each refusal of a delivery, of an image, of a delta and of a trim is answered.

ghost use Rattle.std.specs.Prelude.{◌≡◌};
ghost use Rattle.copy_requests.specs.Codes.{deliver_refused, image_refused, patch_refused, trim_code};

use answering::{ErrorCode, Refused};
use copy_deltas::PatchError;
use copy_images::ImageError;
use partition_log::{DeliverError, TrimError};

/// Why an entry is refused whose batch a copy does not take.
pub(crate) fn deliver_refused(fault: DeliverError) -> Refused
    ensures { result ≡ deliver_refused fault }
{
    match fault {
        DeliverError::NotWhole | DeliverError::NoKey => Refused::Check(ErrorCode::InvalidRecord),
        DeliverError::BadOffset => Refused::Check(ErrorCode::OffsetOutOfRange),
        DeliverError::Overlap => Refused::Check(ErrorCode::InvalidRequest),
        DeliverError::OutOfMemory => Refused::OutOfMemory,
    }
}

/// Why an entry is refused whose bytes are no image.
pub(crate) fn image_refused(fault: ImageError) -> Refused
    ensures { result ≡ image_refused fault }
{
    match fault {
        ImageError::Short
        | ImageError::BadMark
        | ImageError::BadVersion
        | ImageError::BadCrc
        | ImageError::BadCover
        | ImageError::BadBatch(_)
        | ImageError::Outside
        | ImageError::Extra => Refused::Check(ErrorCode::CorruptMessage),
        ImageError::OutOfMemory => Refused::OutOfMemory,
    }
}

/// Why an entry is refused whose delta a copy does not take.
pub(crate) fn patch_refused(fault: PatchError) -> Refused
    ensures { result ≡ patch_refused fault }
{
    match fault {
        PatchError::Short
        | PatchError::BadMark
        | PatchError::BadVersion
        | PatchError::BadCrc
        | PatchError::BadCover
        | PatchError::BadBatch(_)
        | PatchError::Outside
        | PatchError::Extra => Refused::Check(ErrorCode::CorruptMessage),
        PatchError::NotFor => Refused::Check(ErrorCode::InvalidRequest),
        PatchError::Disagree { .. } => Refused::Check(ErrorCode::InvalidRequest),
        PatchError::OutOfMemory => Refused::OutOfMemory,
    }
}

/// The code that answers an offset that a start can't move to.
pub(crate) fn trim_code(fault: TrimError) -> ErrorCode
    ensures { result ≡ trim_code fault }
{
    match fault {
        TrimError::BelowStart | TrimError::PastEnd => ErrorCode::OffsetOutOfRange,
        TrimError::NotABase => ErrorCode::InvalidRequest,
        TrimError::OutOfMemory => ErrorCode::StorageError,
    }
}
