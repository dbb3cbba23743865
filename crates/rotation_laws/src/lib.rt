//! Rotations of what a broker keeps in its directory: snapshots and journals that come and go while frames are appended. The
//! definitions say what each file stands for, what is done to them and what a crash leaves; the functions do nothing, and
//! their clauses are the laws.
#![tactic(auto)]

ghost use Rattle.std.specs.Prelude.{◌≡◌, ℕ, List, []};
ghost use Rattle.std.specs.List.{fold};
ghost use Rattle.rotation_laws.specs.Directories.{Files, IsLeading, IsRecovered, Keeps};
ghost use Rattle.rotation_laws.specs.Rotations.{Acts, IsNew, MayLeave, Runs};

/// What the laws are about: any states, any frames, and any way in which frames lead from one state to another.
pub trait Leading {
    /// What a broker may hold.
    ghost State: { Type 0 };

    /// What is handled.
    ghost Frame: { Type 0 };

    /// From this state, by these frames, to that state.
    ghost leads: { State → List Frame → State → Type 0 };
}

/// Where a function gives the state after each frame, frames lead as the laws ask.
pub fn a_function_leads<X, F>()
    ensures { (step : X → F → X)
        → IsLeading (λ (s : X) (frames : List F) (after : X). after ≡ fold step s frames) }
{}

/// Each act leaves a directory that keeps all frames, with those that it appends.
pub fn each_act_keeps_all<L: Leading>()
    ensures { (first : L.State) (frames frames' : List L.Frame) (old new : Files L.State L.Frame)
        → Keeps L.leads first frames old
        → Acts L.leads first frames old frames' new → Keeps L.leads first frames' new }
{}

/// So does a crash in the middle of one more act, with some first ones of the frames that were being appended. Further acts,
/// and crashes, may follow.
pub fn a_crash_keeps_all<L: Leading>()
    ensures { (first : L.State) (frames frames' : List L.Frame) (now left : Files L.State L.Frame)
        → Keeps L.leads first frames now
        → MayLeave L.leads first frames now frames' left → Keeps L.leads first frames' left }
{}

/// A start of a directory that keeps some frames comes to the state to which they lead, if there is one, and to no other.
pub fn a_start_recovers_what_is_kept<L: Leading>()
    ensures finds { (first after : L.State) (frames : List L.Frame) (d : Files L.State L.Frame)
        → IsLeading L.leads → Keeps L.leads first frames d
        → L.leads first frames after → IsRecovered L.leads d after }
    ensures finds_no_other { (first recovered : L.State) (frames : List L.Frame)
        (d : Files L.State L.Frame) → IsLeading L.leads → Keeps L.leads first frames d
        → IsRecovered L.leads d recovered → L.leads first frames recovered }
{}

/// Over any number of appends and rotations, whatever a crash leaves of the directory in the middle of one more: a start comes
/// to the state to which all frames lead that were appended, with some first ones of those that were being appended, if there
/// is one, and to no other.
pub fn rotations_lose_nothing<L: Leading>()
    ensures finds { (first after : L.State) (acts : ℕ) (frames frames' : List L.Frame)
        (made now left : Files L.State L.Frame) → IsLeading L.leads → IsNew first made
        → Runs L.leads first acts [] made frames now
        → MayLeave L.leads first frames now frames' left
        → L.leads first frames' after → IsRecovered L.leads left after }
    ensures finds_no_other { (first recovered : L.State) (acts : ℕ)
        (frames frames' : List L.Frame) (made now left : Files L.State L.Frame)
        → IsLeading L.leads → IsNew first made → Runs L.leads first acts [] made frames now
        → MayLeave L.leads first frames now frames' left
        → IsRecovered L.leads left recovered → L.leads first frames' recovered }
{}
