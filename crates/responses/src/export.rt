//! The response to Export, versions 0 and 1: `export_head`, and the bytes of the image or of the delta.

ghost use Rattle.std.specs.Prelude.{◌≡◌, ◌++◌, ℕ, ℤ, List, length};
ghost use Rattle.frame_fields.specs.Fields.{encoded};
ghost use Rattle.responses.specs.Export.{export_response, export_value, export_head_bytes};

use byteorder::{BigEndian, ByteOrder};

/// The number of bytes before the image or the delta.
pub const EXPORT_HEAD_BYTES: usize = 6;

/// What stands before an image or a delta of `len` bytes: the error code, 0 for none, and that
/// length, 0 where there is an error. Of more than `MAX_COUNT` the length can't be read.
#[tactic(auto, unfolding(frame_fields::specs::Fields::encoded))]
pub fn export_head(code: i16, len: usize) -> [u8; EXPORT_HEAD_BYTES]
    ensures { result ≡ export_head_bytes code len }
{
    let mut bytes = [0; EXPORT_HEAD_BYTES];
    BigEndian::write_i16(&mut bytes[0..2], code);
    bytes[2..6].copy_from_slice(&len.to_be_bytes()[4..8]);
    bytes
}

/// The parts of an Export response.
#[tactic(auto, using(crate::proofs::BytesBehindHeads::export_parts))]
pub fn export_parts()
    ensures { (code : ℤ) (sent : List ℕ) → encoded export_response (export_value code sent)
        ≡ export_head_bytes code (length sent) ++ sent }
{}
