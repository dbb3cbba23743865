//! What ends no wait.

ghost use Rattle.std.specs.Prelude.{◌≡◌, ℕ, ℤ, true, List};
ghost use Rattle.content.specs.declared.part.CleaningPart.{CleaningPart};
ghost use Rattle.content.specs.Cleaning.{clean};
ghost use Rattle.content.specs.Parts.{clean_part};
ghost use Rattle.request_frames.specs.Fetch.{FetchValue};
ghost use Rattle.broker_state.specs.State.{State, content_at, with_content};
ghost use Rattle.fetch_waits.specs.Waiting.{fetch_waits};

/// A Fetch that waits, waits on where a partition is cleaned, all of it or a part, with any bounds.
pub fn a_cleaning_ends_no_wait()
    ensures whole { (s : State) (name : List ℕ) (p : ℤ) (q : FetchValue) (upto tomb_before : ℤ)
        → fetch_waits s q ≡ true
        → fetch_waits (with_content s name p (clean upto tomb_before (content_at s name p))) q ≡ true }
    ensures part { (s : State) (name : List ℕ) (p : ℤ) (q : FetchValue) (part : CleaningPart)
        → fetch_waits s q ≡ true
        → fetch_waits (with_content s name p (clean_part part (content_at s name p))) q ≡ true }
{}
