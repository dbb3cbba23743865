//! Worked by hand.

ghost use Rattle.std.specs.Prelude.{◌≡◌, codes, pos, negsuc, false, [], ◌∷◌, Some, None};
ghost use Rattle.group_coordinator.specs.declared.values.GroupError.TheVariants.{IllegalGeneration, Rebalancing, UnknownMember};
ghost use Rattle.group_coordinator.specs.declared.values.TheConstants.{LEAST_REBALANCE, LEAST_SESSION, MEMBER_BYTES, MOST_BYTES, MOST_GENERATION, MOST_IDS, MOST_SESSION, MOST_TIME, PROTOCOL_BYTES};
ghost use Rattle.group_coordinator.specs.Requests.Reply.{Given, Joined, Refused};
ghost use Rattle.group_coordinator.specs.Runs.{behind_all, replied};
ghost use Rattle.group_coordinator.specs.Runs.Act.{Release};
ghost use Rattle.group_coordinator.specs.Courses.{both_have_parts, course_heartbeat, course_id, course_join, course_settings, course_sync, leader_gives, one_is_silent, one_leaves, one_stays_away, one_waits, second_leaves, two_join};
ghost use Rattle.group_coordinator.specs.Coordinators.{commit_fault, no_groups};

/// Where a group has no members, a commit that names no generation is admitted, and one that names a generation
/// isn't.
pub fn a_group_without_members()
    ensures no_generation { commit_fault (103 ∷ []) (negsuc 0) [] (no_groups (record {
      start = 7;
      join_delay = 3000;
      follows = false;
    })) ≡ None }
    ensures a_generation { commit_fault (103 ∷ []) (pos 1) [] (no_groups (record {
      start = 7;
      join_delay = 3000;
      follows = false;
    })) ≡ Some IllegalGeneration }
{}

/// What the members of a small group are replied.
pub fn a_small_group()
    ensures leader { replied (Release 0) (behind_all course_settings two_join)
        ≡ Some (Joined (record { generation = 1; protocol = 114 ∷ []; leader = course_id 0; member = course_id 0; members = record { id = course_id 0; metadata = 1 ∷ [] } ∷ record { id = course_id 1; metadata = 2 ∷ [] } ∷ [] })) }
    ensures follower { replied (Release 1) (behind_all course_settings two_join)
        ≡ Some (Joined (record { generation = 1; protocol = 114 ∷ []; leader = course_id 0; member = course_id 1; members = [] })) }
    ensures gives { replied (leader_gives) (behind_all course_settings one_waits)
        ≡ Some (Given (9 ∷ [])) }
    ensures given { replied (Release 1) (behind_all course_settings (leader_gives ∷ one_waits))
        ≡ Some (Given (7 ∷ [])) }
    ensures heard { replied (course_heartbeat 0) (behind_all course_settings one_is_silent)
        ≡ Some (Refused Rebalancing) }
    ensures silent { replied (course_heartbeat 1) (behind_all course_settings one_is_silent)
        ≡ Some (Refused UnknownMember) }
    ensures anew { replied (Release 0) (behind_all course_settings one_stays_away)
        ≡ Some (Joined (record { generation = 2; protocol = 114 ∷ []; leader = course_id 0; member = course_id 0; members = record { id = course_id 0; metadata = 1 ∷ [] } ∷ record { id = course_id 2; metadata = 3 ∷ [] } ∷ [] })) }
    ensures away { replied (course_heartbeat 1) (behind_all course_settings one_stays_away)
        ≡ Some (Refused UnknownMember) }
    ensures stays { replied (course_heartbeat 0) (behind_all course_settings one_leaves)
        ≡ Some (Refused Rebalancing) }
    ensures leaves { replied (course_heartbeat 1) (behind_all course_settings one_leaves)
        ≡ Some (Refused UnknownMember) }
    ensures left { replied (Release 1) (behind_all course_settings (second_leaves ∷ one_waits))
        ≡ Some (Refused UnknownMember) }
    ensures again { replied (Release 1) (behind_all course_settings (course_sync 5 1 [] ∷ one_waits))
        ≡ Some (Refused Rebalancing) }
    ensures joined { replied (Release 1) (behind_all course_settings (course_join 2 [] 3 ∷ one_waits))
        ≡ Some (Refused Rebalancing) }
    ensures id { course_id 26 ≡ codes "c-0000000000000007-000000000000001a" }
    ensures least_session { LEAST_SESSION ≡ pos 1000 }
    ensures most_session { MOST_SESSION ≡ pos 1800000 }
    ensures least_rebalance { LEAST_REBALANCE ≡ pos 1000 }
    ensures most_bytes { MOST_BYTES ≡ 67108864 }
    ensures member_bytes { MEMBER_BYTES ≡ 256 }
    ensures protocol_bytes { PROTOCOL_BYTES ≡ 192 }
    ensures last_generation { MOST_GENERATION ≡ 2147483647 }
    ensures last_id { MOST_IDS ≡ 18446744073709551615 }
    ensures last_time { MOST_TIME ≡ 9223372036854775808 }
{}
