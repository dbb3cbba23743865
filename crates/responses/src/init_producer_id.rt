//! The response to InitProducerId, version 0.

ghost use Rattle.std.specs.Prelude.{◌≡◌};
ghost use Rattle.frame_fields.specs.Fields.{encoded};
ghost use Rattle.responses.specs.InitProducerId.{init_producer_id_response, init_producer_id_value};

use byteorder::{BigEndian, ByteOrder};

/// The number of bytes of the fields.
pub const INIT_PRODUCER_ID_ANSWER_BYTES: usize = 16;

/// The answer to a producer that wants an id. With an error both numbers are -1.
#[derive(Clone, Copy)]
pub struct InitProducerIdAnswer {
    /// The error code, 0 for none.
    pub code: i16,
    /// The producer's id.
    pub producer_id: i64,
    /// The epoch that it begins with.
    pub epoch: i16,
}

/// The bytes of the fields. Nothing is throttled.
#[tactic(auto, unfolding(frame_fields::specs::Fields::encoded))]
pub fn init_producer_id_answer_bytes(
    answer: InitProducerIdAnswer,
) -> [u8; INIT_PRODUCER_ID_ANSWER_BYTES]
    ensures { result ≡ encoded init_producer_id_response (init_producer_id_value answer) }
{
    let mut bytes = [0; INIT_PRODUCER_ID_ANSWER_BYTES];
    BigEndian::write_i16(&mut bytes[4..6], answer.code);
    BigEndian::write_i64(&mut bytes[6..14], answer.producer_id);
    BigEndian::write_i16(&mut bytes[14..16], answer.epoch);
    bytes
}
