//! A request of an ApiVersions response.

ghost use Rattle.std.specs.Prelude.{◌≡◌};
ghost use Rattle.responses.specs.ApiVersions.{version_range_bytes};

use byteorder::{BigEndian, ByteOrder};

/// The number of bytes of a request.
pub const VERSION_RANGE_BYTES: usize = 6;

/// A request that is answered, and in which versions.
#[derive(Clone, Copy)]
pub struct VersionRange {
    /// Its api key.
    pub key: i16,
    /// The least version.
    pub least: i16,
    /// The greatest version.
    pub greatest: i16,
}

/// The bytes of a request.
#[tactic(auto, unfolding(frame_fields::specs::Fields::encoded))]
pub fn version_range_bytes(range: VersionRange) -> [u8; VERSION_RANGE_BYTES]
    ensures { result ≡ version_range_bytes range }
{
    let mut bytes = [0; VERSION_RANGE_BYTES];
    BigEndian::write_i16(&mut bytes[0..2], range.key);
    BigEndian::write_i16(&mut bytes[2..4], range.least);
    BigEndian::write_i16(&mut bytes[4..6], range.greatest);
    bytes
}
