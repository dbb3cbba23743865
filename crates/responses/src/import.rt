//! The response to Import, versions 0 and 1.

ghost use Rattle.std.specs.Prelude.{◌≡◌};
ghost use Rattle.frame_fields.specs.Fields.{encoded};
ghost use Rattle.responses.specs.Import.{import_response, import_value};

/// The number of bytes of the fields.
pub const IMPORT_ANSWER_BYTES: usize = 2;

/// The answer to an import, of an image or of a delta.
#[derive(Clone, Copy)]
pub struct ImportAnswer {
    /// The error code, 0 for none.
    pub code: i16,
}

/// The bytes of the fields.
#[tactic(auto, unfolding(frame_fields::specs::Fields::encoded))]
pub fn import_answer_bytes(answer: ImportAnswer) -> [u8; IMPORT_ANSWER_BYTES]
    ensures { result ≡ encoded import_response (import_value answer) }
{
    answer.code.to_be_bytes()
}
