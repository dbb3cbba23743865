//! What holds of a policy over any calls. The functions do nothing; their clauses are the laws.

ghost use Rattle.std.specs.Prelude.{◌≡◌, ◌⊎◌, ◌≤◌, ◌<◌, ◌+◌, ◌^◌, ◌<ℤ◌, ℕ, List, length, slice_get, None, Some, IfSome};
ghost use Rattle.std.specs.List.{AllByRecursion};
ghost use Rattle.cleaning_policy.specs.declared.values.TheConstants.{MOST_SAMPLES};
ghost use Rattle.cleaning_policy.specs.declared.values.Settings.{Settings};
ghost use Rattle.cleaning_policy.specs.declared.values.Pass.{Pass};
ghost use Rattle.cleaning_policy.specs.Partitions.{Part, IsIdle, due_pass};
ghost use Rattle.cleaning_policy.specs.Policies.{Known, next_pass, due_at, turns_before};
ghost use Rattle.cleaning_policy.specs.Histories.{Call, IsBounded, behind, history};
ghost use Rattle.cleaning_policy.specs.Histories.{Event};
ghost use Rattle.cleaning_policy.specs.Readers.{Act, IsAmong, IsCourse, LearnsInTime, MayFollow, time_of};
ghost use Rattle.cleaning_policy.specs.Readers.Act.{Cleaned};
ghost use Rattle.cleaning_policy.specs.Courses.{RepliesFollow};
ghost use Rattle.cleaning_policy.specs.declared.values.Frame.{Frame};

/// Behind any calls, whatever their times: the next frame cleans up to an offset that was told the lag ago as
/// its partition's end, and lets only deletions go below an offset up to which a pass cleaned that was over as
/// long ago as deletions are kept.
pub fn frames_are_bounded()
    ensures { (o : Settings) (calls : List Call) (now : ℕ)
        → IfSome (next_pass now (behind o calls) (behind o calls).pass)
        (λ q. IsBounded o (history o calls) now q.frame) }
{}

/// Where nothing is due now, nothing is before the time that is given for it, if nothing is said in between; nor
/// ever, where no time is given.
pub fn nothing_is_due_before()
    ensures { (v : Known) (now t : ℕ) → next_pass now v v.pass ≡ None → now ≤ t → t < 2 ^ 64
        → IfSome (due_at now v) (λ d. t < d) → next_pass t v v.pass ≡ None }
{}

/// The time that is given lies behind now: who waits for it doesn't spin.
pub fn due_at_lies_behind_now()
    ensures { (v : Known) (now : ℕ) → IfSome (due_at now v) (λ d. now < d) }
{}

/// Where a partition is due, the next pass is its own, or fewer have their turn before it than had: as long as it is
/// due, each other one has at most one pass.
pub fn a_due_partition_has_its_turn()
    ensures { (v : Known) (now i : ℕ) (p : Part) (d q : Pass) → slice_get v.parts i ≡ Some p
        → due_pass v.settings now i p ≡ Some d → next_pass now v v.pass ≡ Some q
        → (q.frame.partition ≡ i) ⊎ (turns_before (length v.parts) (q.frame.partition + 1) i
        < turns_before (length v.parts) v.turn i) }
{}

/// Where cleanings keep within the bounds of frames, whoever was shown a record of a key finds, for as long as deletions
/// are kept, the last record of that key, though it be a deletion.
pub fn readers_learn_in_time()
    ensures { (keep now : ℕ) (acts : List Act) → IsCourse keep acts
        → ((a : Act) → IsAmong a acts → time_of a ≤ now) → LearnsInTime keep now acts }
{}

/// A frame within its bounds, done no sooner than it was given, is a cleaning that readers can rely on, if each pass
/// that was said to be over had happened by then.
pub fn a_frame_may_follow()
    ensures { (o : Settings) (h : List Event) (now t : ℕ) (f : Frame) (acts : List Act)
        → IsBounded o h now f → now ≤ t → RepliesFollow h f.partition acts
        → MayFollow o.keep_deletes acts (Cleaned t f.upto f.tomb_before) }
{}

/// Few samples are kept of each partition, however often it is told of.
pub fn samples_are_few()
    ensures { (o : Settings) (calls : List Call)
        → AllByRecursion (λ p. length p.samples ≤ MOST_SAMPLES) (behind o calls).parts }
{}

/// Where nothing came since the last pass of a partition, its next one lets more deletions go than that: so behind a
/// few passes it comes to rest.
pub fn an_idle_partition_comes_to_rest()
    ensures { (o : Settings) (now i : ℕ) (p : Part) → IsIdle p
        → IfSome (due_pass o now i p) (λ d. p.marks.used <ℤ d.frame.tomb_before) }
{}
