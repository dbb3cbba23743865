//! What cleanings, appends and later starts do to the records of a key, and what readers may rely on.

ghost use Rattle.std.specs.Prelude.{◌≡◌, ℕ, ℤ, ◌≤◌, ◌≤ℤ◌, ◌<ℤ◌, true, int_le, List, ◌++◌, [], ◌∷◌, Option, Some, slice_get};
ghost use Rattle.std.specs.List.{filter};
ghost use Rattle.std.specs.Int.{int_min};
ghost use Rattle.batch_codec.specs.Values.{BatchValue};
ghost use Rattle.batch_codec.specs.Offsets.{first_offset};
ghost use Rattle.cover_ranges.specs.Runs.{covers};
ghost use Rattle.content.specs.Content.{Content, IsContent, IsLogBatch, IsAcceptedStart, add, cut, end};
ghost use Rattle.content.specs.declared.part.CleaningPart.{CleaningPart};
ghost use Rattle.content.specs.Cleaning.{clean};
ghost use Rattle.content.specs.Parts.{clean_part, part_of, NoneIsAcross};
ghost use Rattle.cleaning_policy.specs.declared.values.Settings.{Settings};
ghost use Rattle.cleaning_policy.specs.declared.values.Frame.{Frame};
ghost use Rattle.cleaning_policy.specs.Histories.{Event, IsBounded, behind, said};
ghost use Rattle.cleaning_policy.specs.Histories.Call.{PutBack};
ghost use Rattle.cleaning_policy.specs.Partitions.{Part};
ghost use Rattle.cleaning_policy.specs.Policies.{Known};
ghost use Rattle.cleaning_policy.specs.declared.values.Marks.{Marks};
ghost use Rattle.cleaning_policy.specs.Readers.{IsAmong, is_left};
ghost use Rattle.cleaning_courses.specs.Keys.{records_in, records_of};
ghost use Rattle.cleaning_courses.specs.Places.{IsBetweenBatches, first_unseen, place_below};
ghost use Rattle.cleaning_courses.specs.Steps.{Step, time_of, content_after, HasComeTo, HasWholeEnds, MayFollow, IsCourse, LearnsInTime};
ghost use Rattle.cleaning_courses.specs.Steps.Step.{Clean};
ghost use Rattle.cleaning_courses.specs.Frames.{IsToldOf, AreOfPasses};
ghost use Rattle.cleaning_courses.specs.Timelines.{Moment, calls_of, steps_of, IsTimeline};

/// Cleaned up to an offset across which no batch lies, a copy has of each key just the records that the rule for
/// one key leaves. Where the copy has a gap, deletions behind it stay.
pub fn cleaning_goes_key_by_key()
    ensures without_a_gap { (key : Option (List ℕ)) (upto tomb_before : ℤ) (c : Content)
        → IsContent c → ((o : ℤ) → c.start ≤ℤ o → o <ℤ end c → covers c.cover o ≡ true)
        → NoneIsAcross upto c.kept
        → records_of key (clean upto tomb_before c)
        ≡ filter (is_left upto tomb_before (records_of key c)) (records_of key c) }
    ensures with_any_gaps { (key : Option (List ℕ)) (upto tomb_before : ℤ) (c : Content)
        → IsContent c → NoneIsAcross upto c.kept
        → records_of key (clean upto tomb_before c)
        ≡ filter (is_left upto (int_min tomb_before (first_unseen c)) (records_of key c))
        (records_of key c) }
{}

/// A cleaning up to any offset is one up to the last offset between batches below it: it takes batches whole.
pub fn a_cleaning_is_up_to_a_place()
    ensures same { (upto tomb_before : ℤ) (c : Content) → IsContent c
        → clean upto tomb_before c ≡ clean (place_below upto c) tomb_before c }
    ensures between { (upto : ℤ) (c : Content) → IsContent c
        → IsBetweenBatches c (place_below upto c) }
{}

/// A batch at the end puts its records of each key in front of those that there were, the latest first.
pub fn appending_puts_records_in_front()
    ensures { (key : Option (List ℕ)) (c : Content) (b : BatchValue)
        → IsContent c → IsLogBatch b → first_offset b ≡ end c
        → records_of key (add c b) ≡ records_in key (b ∷ []) ++ records_of key c }
{}

/// A later start, across which no batch lies, takes of each key the records below it.
pub fn a_later_start_takes_what_is_below()
    ensures { (key : Option (List ℕ)) (start : ℤ) (c : Content)
        → IsContent c → NoneIsAcross start c.kept
        → records_of key (cut start c) ≡ filter (λ x. int_le start x.offset) (records_of key c) }
{}

/// On a leader that its broker cleans in parts, or whole, up to offsets between batches, so that deletions go only below
/// where a pass was over long enough before: whoever was shown a record of a key finds, for so long, each later record of
/// the key, though it be a deletion, or one behind it; unless the start has moved past it, or somebody else's cleaning
/// took the last record of the key, a deletion. Anything may happen between the parts of a pass.
pub fn readers_learn_in_time()
    ensures { (keep now : ℕ) (c : Content) (steps : List Step) → IsCourse keep c steps
        → ((a : Step) → IsAmong a steps → time_of a ≤ now) → LearnsInTime keep now c steps }
{}

/// An offset at which the leader's copy ended lies between its batches from then on, whatever happens.
pub fn an_end_stays_between_batches()
    ensures { (keep : ℕ) (c : Content) (since before : List Step)
        → IsCourse keep c (since ++ before)
        → IsBetweenBatches (content_after c (since ++ before)) (end (content_after c before)) }
{}

/// Where a start may move to, by a request to trim, lies between batches.
pub fn an_accepted_start_is_between_batches()
    ensures { (c : Content) (start : ℤ) → IsContent c → IsAcceptedStart c start
        → (c.start ≤ℤ start) × IsBetweenBatches c start }
{}

/// A whole cleaning is a part from the start on up to its bound: no batch that it is to clean lies across its ends, and
/// with it a pass has come to its bound.
pub fn a_whole_cleaning_is_a_pass()
    ensures cleans { (upto tomb_before : ℤ) (c : Content) → IsContent c
        → clean_part (part_of upto tomb_before c.start upto) c ≡ clean upto tomb_before c }
    ensures has_whole_ends { (upto tomb_before : ℤ) (c : Content) → IsContent c
        → HasWholeEnds c (part_of upto tomb_before c.start upto) }
    ensures comes_to_its_bound { (keep time : ℕ) (upto tomb_before : ℤ) (c : Content) (before : List Step)
        → IsCourse keep c before → HasComeTo upto c
        (Clean time (part_of upto tomb_before (content_after c before).start upto) ∷ before) upto }
{}

/// A frame of a policy, done no sooner than it was given, is a cleaning that may come next on the leader, whole or of any
/// part across whose ends no batch lies, where what was said to the policy of the partition is so.
pub fn a_frame_may_follow()
    ensures { (o : Settings) (h : List Event) (now t : ℕ) (f : Frame) (p : CleaningPart) (c : Content)
        (steps : List Step) → IsBounded o h now f → now ≤ t → IsCourse o.keep_deletes c steps
        → IsToldOf h f.partition c steps → p.upto ≡ f.upto → p.tomb_before ≡ f.tomb_before
        → HasWholeEnds (content_after c steps) p
        → MayFollow o.keep_deletes c steps (Clean t p) }
{}

/// A course of a leader that keeps deletions longer is one that keeps them so long.
pub fn a_course_may_keep_longer()
    ensures { (keep longer : ℕ) (c : Content) (steps : List Step)
        → keep ≤ longer → IsCourse longer c steps → IsCourse keep c steps }
{}

/// A partition that its broker cleans by a policy's frames alone has a course of a leader that keeps deletions as
/// long as the policy's settings say, if it had one before, and if what was said to the policy of it is so.
pub fn a_policy_keeps_a_course()
    ensures { (o : Settings) (partition : ℕ) (c : Content) (earlier : List Step)
        (moments : List Moment) → IsTimeline o partition c earlier moments
        → IsCourse o.keep_deletes c (steps_of earlier moments) }
{
    cleaning_policy::laws::frames_are_bounded();
}

/// So readers of such a partition learn in time: whoever was shown a record of a key finds, for so long, each later
/// record of the key, though it be a deletion, or one behind it; unless the start has moved past it, or somebody
/// else's cleaning took the last record of the key, a deletion.
pub fn readers_of_a_policy_learn_in_time()
    ensures { (o : Settings) (partition now : ℕ) (c : Content) (earlier : List Step)
        (moments : List Moment) → IsTimeline o partition c earlier moments
        → ((a : Step) → IsAmong a (steps_of earlier moments) → time_of a ≤ now)
        → LearnsInTime o.keep_deletes now c (steps_of earlier moments) }
{
    a_policy_keeps_a_course();
    readers_learn_in_time();
}

/// A policy's marks of a partition are of passes that were: one had come to there by the mark's time.
pub fn marks_are_of_passes()
    ensures { (o : Settings) (partition : ℕ) (c : Content) (earlier : List Step)
        (moments : List Moment) (p : Part) → IsTimeline o partition c earlier moments
        → slice_get (behind o (calls_of moments)).parts partition ≡ Some p
        → AreOfPasses c (steps_of earlier moments) p.marks }
{}

/// Such marks may be put back later, over a restart too: what they say is so, whatever has happened to the partition
/// since, if the clock is behind all that.
pub fn marks_may_be_put_back()
    ensures { (now partition : ℕ) (marks : Marks) (v : Known) (c : Content)
        (since steps : List Step) → AreOfPasses c steps marks
        → ((a : Step) → IsAmong a (since ++ steps) → time_of a ≤ now)
        → IsToldOf (said (PutBack now partition marks) v) partition c (since ++ steps) }
{}
