//! The response to Trim, version 0.

ghost use Rattle.std.specs.Prelude.{◌≡◌};
ghost use Rattle.frame_fields.specs.Fields.{encoded};
ghost use Rattle.responses.specs.Trim.{trim_response, trim_value};

/// The number of bytes of the fields.
pub const TRIM_ANSWER_BYTES: usize = 2;

/// The answer to a trim.
#[derive(Clone, Copy)]
pub struct TrimAnswer {
    /// The error code, 0 for none.
    pub code: i16,
}

/// The bytes of the fields.
#[tactic(auto, unfolding(frame_fields::specs::Fields::encoded))]
pub fn trim_answer_bytes(answer: TrimAnswer) -> [u8; TRIM_ANSWER_BYTES]
    ensures { result ≡ encoded trim_response (trim_value answer) }
{
    answer.code.to_be_bytes()
}
