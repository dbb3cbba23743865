//! What stands before the requests of an ApiVersions response.

ghost use Rattle.std.specs.Prelude.{◌≡◌};
ghost use Rattle.responses.specs.ApiVersions.{api_versions_head_bytes};

use byteorder::{BigEndian, ByteOrder};

/// The number of bytes before the requests.
pub const API_VERSIONS_HEAD_BYTES: usize = 6;

/// What stands before the requests: the error code, 0 for none, and their count.
#[tactic(auto, unfolding(frame_fields::specs::Fields::encoded))]
pub fn api_versions_head(code: i16, count: u32) -> [u8; API_VERSIONS_HEAD_BYTES]
    ensures { result ≡ api_versions_head_bytes code count }
{
    let mut bytes = [0; API_VERSIONS_HEAD_BYTES];
    BigEndian::write_i16(&mut bytes[0..2], code);
    BigEndian::write_u32(&mut bytes[2..6], count);
    bytes
}
