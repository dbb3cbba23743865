//! The response to Get, version 0: `get_head`, and the value's bytes.

ghost use Rattle.std.specs.Prelude.{◌≡◌, ◌++◌, ℕ, ℤ, List, Option};
ghost use Rattle.std.specs.Option.{option_map};
ghost use Rattle.frame_fields.specs.Fields.{size32, be, encoded};
ghost use Rattle.frame_fields.specs.Types.{or_empty};
ghost use Rattle.responses.specs.Responses.{length_or_null};
ghost use Rattle.responses.specs.Get.{get_response, get_value, get_head_bytes};

use byteorder::{BigEndian, ByteOrder};

/// The number of bytes before the value.
pub const GET_HEAD_BYTES: usize = 6;

/// What stands before a value: the error code, 0 for none, and the number of the value's bytes.
/// `None` stands for null, which has no bytes. Where there is an error the value is null. Of more
/// than `MAX_COUNT` bytes the number can't be read.
#[tactic(auto, unfolding(frame_fields::specs::Fields::encoded))]
pub fn get_head(code: i16, value: Option<&[u8]>) -> [u8; GET_HEAD_BYTES]
    ensures { result ≡ get_head_bytes code (option_map (λ bytes. bytes.now) value.entry) }
{
    let mut bytes = [0; GET_HEAD_BYTES];
    BigEndian::write_i16(&mut bytes[0..2], code);
    bytes[2..6].copy_from_slice(&value_length(value));
    bytes
}

/// The number of the value's bytes, -1 for null.
fn value_length(value: Option<&[u8]>) -> [u8; 4]
    ensures { result ≡ be size32 (length_or_null (option_map (λ bytes. bytes.now) value.entry)) }
{
    match value {
        Some(bytes) => {
            let length = bytes.len().to_be_bytes();
            [length[4], length[5], length[6], length[7]]
        }
        None => (-1_i32).to_be_bytes(),
    }
}

/// The parts of a Get response.
#[tactic(auto, using(crate::proofs::BytesBehindHeads::get_parts))]
pub fn get_parts()
    ensures { (code : ℤ) (value : Option (List ℕ)) → encoded get_response (get_value code value)
        ≡ get_head_bytes code value ++ or_empty value }
{}
