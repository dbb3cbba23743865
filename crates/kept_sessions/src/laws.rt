//! Laws of frames that are handled again.

ghost use Rattle.std.specs.Prelude.{◌≡◌, ℕ, List};
ghost use Rattle.broker_state.specs.State.{ConfigValue, State, new_state};
ghost use Rattle.exact_replies.specs.SameHeld.{AskForTheSame, HoldTheSame};
ghost use Rattle.kept_sessions.specs.Replaying.{Replays, ReplaysFrames};

/// Frames that are handled again in one state lead to one state; so do bytes that are frames.
pub fn frames_lead_to_one_state()
    ensures one_state { (s after other : State) (frames : List (List ℕ))
        → Replays s frames after → Replays s frames other → after ≡ other }
    ensures of_bytes { (bytes : List ℕ) (s after other : State) (count other_count : ℕ)
        → ReplaysFrames bytes s after count → ReplaysFrames bytes s other other_count
        → (after ≡ other) × (count ≡ other_count) }
{}

/// Frames that are handled again in two brokers that hold the same lead to two that hold the same. So a start may be given
/// another address, or the topics in another order: the journal's frames lead it to a broker that holds the same.
pub fn frames_lead_to_the_same_contents()
    ensures alike { (s t after : State) (frames : List (List ℕ))
        → HoldTheSame s t → Replays s frames after
        → (other : State) × Replays t frames other × HoldTheSame after other }
    ensures from_a_start { (g h : ConfigValue) (after : State) (frames : List (List ℕ))
        → AskForTheSame g h → Replays (new_state g) frames after
        → (other : State) × Replays (new_state h) frames other × HoldTheSame after other }
{}
