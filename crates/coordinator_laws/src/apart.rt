//! A request leaves the other groups.

ghost use Rattle.std.specs.Prelude.{◌≡◌, ℕ, List, false};
ghost use Rattle.std.specs.Str.{bytes_eq};
ghost use Rattle.group_coordinator.specs.Coordinators.{Groups, asked, group_named};
ghost use Rattle.group_coordinator.specs.Requests.{Request, group_of};
ghost use Rattle.coordinator_laws.specs.Ids.{tally_all};
ghost use Rattle.coordinator_laws.specs.Replies.{is_in_session};
ghost use Rattle.coordinator_laws.specs.Soundness.{AreSound};

/// A request, in a session in which nobody waits, leaves all groups that it doesn't name as they were.
pub fn others_are_left()
    ensures { (session : ℕ) (client : List ℕ) (q : Request) (v : Groups) → AreSound v
        → tally_all (is_in_session session) v.groups ≡ 0 → (name : List ℕ) → bytes_eq (group_of q) name ≡ false
        → group_named name (asked session client q v).groups ≡ group_named name v }
{}
