//! The response to ForgetGroup, version 0.

ghost use Rattle.std.specs.Prelude.{◌≡◌};
ghost use Rattle.frame_fields.specs.Fields.{encoded};
ghost use Rattle.responses.specs.ForgetGroup.{forget_group_response, forget_group_value};

use byteorder::{BigEndian, ByteOrder};

/// The number of bytes of the fields.
pub const FORGET_GROUP_ANSWER_BYTES: usize = 6;

/// The answer to a group's being forgotten.
#[derive(Clone, Copy)]
pub struct ForgetGroupAnswer {
    /// The error code, 0 for none.
    pub code: i16,
    /// How many keys were forgotten, 0 where there is an error.
    pub count: i32,
}

/// The bytes of the fields.
#[tactic(auto, unfolding(frame_fields::specs::Fields::encoded))]
pub fn forget_group_answer_bytes(answer: ForgetGroupAnswer) -> [u8; FORGET_GROUP_ANSWER_BYTES]
    ensures { result ≡ encoded forget_group_response (forget_group_value answer) }
{
    let mut bytes = [0; FORGET_GROUP_ANSWER_BYTES];
    BigEndian::write_i16(&mut bytes[0..2], answer.code);
    BigEndian::write_i32(&mut bytes[2..6], answer.count);
    bytes
}
