//! Laws about the definitions alone. The functions do nothing: what they ensure is the law.
ghost use Rattle.std.specs.Prelude.{◌≡◌, List, ℕ};
ghost use Rattle.frame_fields.specs.declared.error.FrameError.{FrameError};
ghost use Rattle.request_frames.specs.Requests.{RequestValue, IsRequest, IsRefused};

/// A frame is one request at most, has one refusal at most, and never both. With the contract of
/// `parse`, which answers one of them for any bytes, each frame has exactly one of them.
#[tactic(auto, using(crate::proofs::OneOutcome::one_refusal))]
pub fn one_outcome()
    ensures one_request { (frame : List ℕ) (q r : RequestValue)
        → IsRequest frame q → IsRequest frame r → q ≡ r }
    ensures one_refusal { (frame : List ℕ) (e d : FrameError)
        → IsRefused e frame → IsRefused d frame → e ≡ d }
    ensures never_both { (frame : List ℕ) (q : RequestValue) (e : FrameError)
        → IsRequest frame q → IsRefused e frame → ⊥ }
{}
