//! The error codes of responses. Kafka's documentation, "Protocol Guide", section "Error Codes".

ghost use Rattle.std.specs.Prelude.{◌≡◌};
ghost use Rattle.answering.specs.Codes.{code_number};

/// Why an entry of a request failed.
#[derive(Clone, Copy, PartialEq, Eq)]
pub enum ErrorCode {
    /// Something else than the other codes say.
    UnknownServerError,
    /// An offset lies outside the log, or outside the range of offsets.
    OffsetOutOfRange,
    /// A batch is cut short, or its length or its checksum is wrong; or bytes are no image or no delta.
    CorruptMessage,
    /// There is no such topic, or it has no such partition.
    UnknownTopicOrPartition,
    /// The partition has no leader that this broker knows.
    LeaderNotAvailable,
    /// This broker does not lead the partition.
    NotLeader,
    /// A batch, an image, a delta, or a list of ranges is larger than the limit.
    MessageTooLarge,
    /// The metadata of a committed offset is longer than the limit.
    OffsetMetadataTooLarge,
    /// The topic has no valid name, or it is not to be written to.
    InvalidTopic,
    /// The required acknowledgements are none of 0, 1 and -1.
    InvalidRequiredAcks,
    /// A group's generation is named, and there are no generations here.
    IllegalGeneration,
    /// A group has no name.
    InvalidGroupId,
    /// The request is not answered in its own version.
    UnsupportedVersion,
    /// The request can't be answered as it is.
    InvalidRequest,
    /// The format of a batch is not this one.
    UnsupportedForMessageFormat,
    /// A batch does not follow what its producer sent before.
    OutOfOrderSequence,
    /// A batch is of an epoch that its producer has left.
    InvalidProducerEpoch,
    /// There are no transactions here.
    InvalidTransactionState,
    /// There was no memory for what was asked for; nothing was done.
    StorageError,
    /// Compressed records are not taken.
    UnsupportedCompression,
    /// A record or a batch is not valid.
    InvalidRecord,
}

impl ErrorCode {
    /// The number that stands for it in a response.
    pub fn number(self) -> i16
        ensures { result ≡ code_number self }
    {
        match self {
            ErrorCode::UnknownServerError => -1,
            ErrorCode::OffsetOutOfRange => 1,
            ErrorCode::CorruptMessage => 2,
            ErrorCode::UnknownTopicOrPartition => 3,
            ErrorCode::LeaderNotAvailable => 5,
            ErrorCode::NotLeader => 6,
            ErrorCode::MessageTooLarge => 10,
            ErrorCode::OffsetMetadataTooLarge => 12,
            ErrorCode::InvalidTopic => 17,
            ErrorCode::InvalidRequiredAcks => 21,
            ErrorCode::IllegalGeneration => 22,
            ErrorCode::InvalidGroupId => 24,
            ErrorCode::UnsupportedVersion => 35,
            ErrorCode::InvalidRequest => 42,
            ErrorCode::UnsupportedForMessageFormat => 43,
            ErrorCode::OutOfOrderSequence => 45,
            ErrorCode::InvalidProducerEpoch => 47,
            ErrorCode::InvalidTransactionState => 48,
            ErrorCode::StorageError => 56,
            ErrorCode::UnsupportedCompression => 76,
            ErrorCode::InvalidRecord => 87,
        }
    }
}
