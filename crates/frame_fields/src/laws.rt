//! Laws about the definitions alone. The functions do nothing: what they ensure is the law.
ghost use Rattle.std.specs.Prelude.{◌≡◌, ◌⊎◌, List, ℕ, Ok, Err};
ghost use Rattle.frame_fields.specs.Frames.{IsBytes, IsFrames, IsIncomplete, SizeFault, HasNoFrame};
ghost use Rattle.frame_fields.specs.declared.error.FieldFault.{FieldFault};
ghost use Rattle.frame_fields.specs.declared.error.FrameError.{FrameError};
ghost use Rattle.frame_fields.specs.Fields.{Fields, Value, Encodes, Breaks};
ghost use Rattle.frame_fields.specs.Reading.{read_fields};

/// Bytes are cut into frames in exactly one way: complete frames, and a rest that is incomplete or
/// whose size is refused.
pub fn frames_once()
    ensures one_cutting { (bytes rest other_rest : List ℕ) (frames others : List (List ℕ))
        → IsFrames bytes frames rest → HasNoFrame rest
        → IsFrames bytes others other_rest → HasNoFrame other_rest
        → (frames ≡ others) × (rest ≡ other_rest) }
    ensures every_stream_is_cut { (bytes : List ℕ) → IsBytes bytes
        → (frames : List (List ℕ)) × (rest : List ℕ) × IsFrames bytes frames rest × HasNoFrame rest }
    // A rest is incomplete or refused and not both, and it is refused for one reason.
    ensures incomplete_is_not_refused { (rest : List ℕ) (e : FrameError)
        → IsIncomplete rest → SizeFault e rest → ⊥ }
    ensures one_refusal { (rest : List ℕ) (e other : FrameError)
        → SizeFault e rest → SizeFault other rest → e ≡ other }
{}

/// Whatever the fields, bytes either begin with their encoding, in one way, or have one fault.
pub fn fields_once()
    ensures some_outcome { (d : Fields) (bytes : List ℕ) → IsBytes bytes
        → ((v : Value d) × (rest : List ℕ) × Encodes d v bytes rest)
        ⊎ ((e : FieldFault) × Breaks d e bytes) }
    ensures one_value { (d : Fields) (v w : Value d) (bytes rest more : List ℕ)
        → Encodes d v bytes rest → Encodes d w bytes more → (v ≡ w) × (rest ≡ more) }
    ensures one_fault { (d : Fields) (e f : FieldFault) (bytes : List ℕ)
        → Breaks d e bytes → Breaks d f bytes → e ≡ f }
    ensures never_both { (d : Fields) (v : Value d) (bytes rest : List ℕ) (e : FieldFault)
        → Encodes d v bytes rest → Breaks d e bytes → ⊥ }
{}

/// Reading from left to right finds exactly the encodings of fields, and exactly their faults.
pub fn reading_is_exact()
    ensures encoded_is_read { (d : Fields) (v : Value d) (bytes rest : List ℕ)
        → Encodes d v bytes rest → read_fields d bytes ≡ Ok (v, rest) }
    ensures read_is_encoded { (d : Fields) (v : Value d) (bytes rest : List ℕ) → IsBytes bytes
        → read_fields d bytes ≡ Ok (v, rest) → Encodes d v bytes rest }
    ensures broken_is_refused { (d : Fields) (e : FieldFault) (bytes : List ℕ)
        → Breaks d e bytes → read_fields d bytes ≡ Err e }
    ensures refused_is_broken { (d : Fields) (e : FieldFault) (bytes : List ℕ) → IsBytes bytes
        → read_fields d bytes ≡ Err e → Breaks d e bytes }
{}
