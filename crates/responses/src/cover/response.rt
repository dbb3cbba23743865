//! What stands before the runs of a Cover response.

ghost use Rattle.std.specs.Prelude.{◌≡◌};
ghost use Rattle.responses.specs.Cover.{cover_head_bytes};

use byteorder::{BigEndian, ByteOrder};

/// The number of bytes before the runs.
pub const COVER_HEAD_BYTES: usize = 6;

/// What stands before the runs: the error code, 0 for none, and their count, 0 where there is an
/// error.
#[tactic(auto, unfolding(frame_fields::specs::Fields::encoded))]
pub fn cover_head(code: i16, count: u32) -> [u8; COVER_HEAD_BYTES]
    ensures { result ≡ cover_head_bytes code count }
{
    let mut bytes = [0; COVER_HEAD_BYTES];
    BigEndian::write_i16(&mut bytes[0..2], code);
    BigEndian::write_u32(&mut bytes[2..6], count);
    bytes
}
