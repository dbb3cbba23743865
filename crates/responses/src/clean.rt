//! The response to Clean, version 0.

ghost use Rattle.std.specs.Prelude.{◌≡◌};
ghost use Rattle.frame_fields.specs.Fields.{encoded};
ghost use Rattle.responses.specs.Clean.{clean_response, clean_value};

use byteorder::{BigEndian, ByteOrder};

/// The number of bytes of the fields.
pub const CLEAN_ANSWER_BYTES: usize = 26;

/// The answer to a cleaning. The counts are 0 where there is an error.
#[derive(Clone, Copy)]
pub struct CleanAnswer {
    /// The error code, 0 for none.
    pub code: i16,
    /// How many records were removed because a later one has their key, tombstones among them.
    pub records: i64,
    /// How many tombstones were removed that no later record supersedes.
    pub tombstones: i64,
    /// How many batches were removed.
    pub batches: i64,
}

/// The bytes of the fields.
#[tactic(auto, unfolding(frame_fields::specs::Fields::encoded))]
pub fn clean_answer_bytes(answer: CleanAnswer) -> [u8; CLEAN_ANSWER_BYTES]
    ensures { result ≡ encoded clean_response (clean_value answer) }
{
    let mut bytes = [0; CLEAN_ANSWER_BYTES];
    BigEndian::write_i16(&mut bytes[0..2], answer.code);
    BigEndian::write_i64(&mut bytes[2..10], answer.records);
    BigEndian::write_i64(&mut bytes[10..18], answer.tombstones);
    BigEndian::write_i64(&mut bytes[18..26], answer.batches);
    bytes
}
