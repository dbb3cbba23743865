//! What stands before the topics of a Fetch response.

ghost use Rattle.std.specs.Prelude.{◌≡◌};
ghost use Rattle.responses.specs.Fetch.{fetch_head};

use byteorder::{BigEndian, ByteOrder};

/// The number of bytes before the topics.
pub const FETCH_HEAD_BYTES: usize = 8;

/// What stands before the topics: the throttle time, which is 0, and their count.
#[tactic(auto, unfolding(frame_fields::specs::Fields::encoded))]
pub fn fetch_head(topic_count: u32) -> [u8; FETCH_HEAD_BYTES]
    ensures { result ≡ fetch_head topic_count }
{
    let mut bytes = [0; FETCH_HEAD_BYTES];
    BigEndian::write_u32(&mut bytes[4..8], topic_count);
    bytes
}
