//! Generations have numbers of their own.

ghost use Rattle.std.specs.Prelude.{◌≡◌, ◌<◌, ◌++◌, List};
ghost use Rattle.group_coordinator.specs.declared.values.Settings.{Settings};
ghost use Rattle.group_coordinator.specs.Groups.{Group};
ghost use Rattle.group_coordinator.specs.Runs.{Act, behind_all};
ghost use Rattle.coordinator_laws.specs.Generations.{IsOf, GoesOn, HaveNumbers, AreGiven};

/// Behind any acts: no two groups have one generation, and none has a number above how many there were.
pub fn generations_have_numbers()
    ensures { (o : Settings) (acts : List Act) → HaveNumbers (behind_all o acts) }
{}

/// A group that has, behind further acts, the generation that a group had before, is that group. Where the generation
/// stands still, it stood before, and what members are told of its protocol and of its leader is what they were told
/// then. Where the members have their parts, they had them then, and have the same, or the leader gave them since: a
/// second time it gives nothing.
pub fn a_generation_is_one()
    ensures { (o : Settings) (later before : List Act) (g h : Group)
        → IsOf g (behind_all o before).groups → IsOf h (behind_all o (later ++ before)).groups
        → h.generation ≡ g.generation → 0 < g.generation → GoesOn g h }
{}

/// Behind any acts: where the members of a group have their parts, they are those that its leader sent, the last one for
/// each id, and nothing for who had none.
pub fn leaders_give_the_parts()
    ensures { (o : Settings) (acts : List Act) (h : Group) → IsOf h (behind_all o acts).groups → AreGiven h }
{}
