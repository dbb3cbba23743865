//! A run of a Cover response.

ghost use Rattle.std.specs.Prelude.{◌≡◌};
ghost use Rattle.responses.specs.Cover.{cover_run_bytes};

use byteorder::{BigEndian, ByteOrder};

/// The number of bytes of a run.
pub const COVER_RUN_BYTES: usize = 16;

/// The bytes of a run: its first and its last offset.
#[tactic(auto, unfolding(frame_fields::specs::Fields::encoded))]
pub fn cover_run_bytes(run: (i64, i64)) -> [u8; COVER_RUN_BYTES]
    ensures { result ≡ cover_run_bytes run }
{
    let mut bytes = [0; COVER_RUN_BYTES];
    BigEndian::write_i64(&mut bytes[0..8], run.0);
    BigEndian::write_i64(&mut bytes[8..16], run.1);
    bytes
}
