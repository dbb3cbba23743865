//! The laws of rotations, of what a broker holds, of the frames that change it and of the topics that come to it; and of when a
//! snapshot is due.

ghost use Rattle.std.specs.Prelude.{◌≡◌, ◌≤◌, ◌+◌, ◌*◌, ℕ, List, [], false, Some};
ghost use Rattle.broker_state.specs.State.{State};
ghost use Rattle.journal.specs.declared.layout.TheConstants.{HEAD_SIZE};
ghost use Rattle.kept_rotations.specs.Due.{is_wide};
ghost use Rattle.kept_rotations.specs.Events.{Event, Leads};
ghost use Rattle.rotation_laws.specs.Directories.{Files, IsRecovered};
ghost use Rattle.rotation_laws.specs.Rotations.{IsNew, MayLeave, Runs};

use kept_sessions::laws::frames_lead_to_one_state;
use rotation_laws::{Leading, rotations_lose_nothing};

/// What a broker holds, frames that are handled again, and topics that are added.
pub struct Handling;

impl Leading for Handling {
    ghost use Rattle.broker_state.specs.State.{State as Held};
    ghost use Rattle.kept_rotations.specs.Events.{Event, Leads};

    ghost State = { Held };

    ghost Frame = { Event };

    ghost leads = { Leads };
}

/// Over any number of appends, rotations and starts that add topics, whatever a crash leaves of a directory in the middle of
/// one more: a start, which handles the journals' frames again behind the highest snapshot, comes to the state that the broker
/// has behind all frames that were appended and all topics that were added, with some first ones of the frames that were being
/// appended, and to no other.
pub fn rotations_lose_no_event()
    ensures finds { (first after : State) (acts : ℕ) (events events' : List Event)
        (made now left : Files State Event) → IsNew first made
        → Runs Leads first acts [] made events now → MayLeave Leads first events now events' left
        → Leads first events' after → IsRecovered Leads left after }
    ensures finds_no_other { (first recovered : State) (acts : ℕ) (events events' : List Event)
        (made now left : Files State Event) → IsNew first made
        → Runs Leads first acts [] made events now → MayLeave Leads first events now events' left
        → IsRecovered Leads left recovered → Leads first events' recovered }
{
    // Both are called for their clauses alone.
    frames_lead_to_one_state();
    rotations_lose_nothing::<Handling>();
}

/// Right behind a snapshot none is due for the room that files take, however few bytes journals are to have before one is: where the
/// last one has no more bytes than one would have now, and the journals little beside their heads.
pub fn none_is_due_for_room_behind_one()
    ensures { (most last journals now : ℕ) → last ≤ now → journals ≤ now + 2 * HEAD_SIZE
        → is_wide most last journals (Some now) ≡ false }
{}
