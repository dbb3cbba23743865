//! The response to Deliver, version 0.

ghost use Rattle.std.specs.Prelude.{◌≡◌};
ghost use Rattle.frame_fields.specs.Fields.{encoded};
ghost use Rattle.responses.specs.Deliver.{deliver_response, deliver_value};

use byteorder::{BigEndian, ByteOrder};

/// The number of bytes of the fields.
pub const DELIVER_ANSWER_BYTES: usize = 3;

/// The answer to a delivery.
#[derive(Clone, Copy)]
pub struct DeliverAnswer {
    /// The error code, 0 for none.
    pub code: i16,
    /// Whether the copy had seen the batch's offsets before, so that nothing changed; false where
    /// there is an error.
    pub repeat: bool,
}

/// The bytes of the fields.
#[tactic(auto, unfolding(frame_fields::specs::Fields::encoded))]
pub fn deliver_answer_bytes(answer: DeliverAnswer) -> [u8; DELIVER_ANSWER_BYTES]
    ensures { result ≡ encoded deliver_response (deliver_value answer) }
{
    let mut bytes = [0; DELIVER_ANSWER_BYTES];
    BigEndian::write_i16(&mut bytes[0..2], answer.code);
    bytes[2] = u8::from(answer.repeat);
    bytes
}
