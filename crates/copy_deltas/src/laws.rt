//! Laws of deltas as bytes, over the definitions alone: what the functions ensure is the law. They do
//! nothing, but for [`one_outcome`], which looks at a copy and bytes.

ghost use Rattle.std.specs.Prelude.{◌≡◌, ◌↔◌, ℕ, ◌≤◌, List, ◌++◌, length, Result, true};
ghost use Rattle.batch_codec.specs.Values.{BatchValue};
ghost use Rattle.cover_ranges.specs.Runs.{Runs, IsCanonical};
ghost use Rattle.content.specs.Content.{Content, IsContent};
ghost use Rattle.content.specs.Joins.{join, Agree};
ghost use Rattle.copy_images.specs.declared.layout.TheConstants.{MAX_COUNT};
ghost use Rattle.deltas.specs.Deltas.{Delta, IsDelta, delta_of};
ghost use Rattle.deltas.specs.Patches.{patch};
ghost use Rattle.deltas.specs.Accepting.{IsFor, Accepts};
ghost use Rattle.deltas.specs.Exchanges.{IsContentOf, Event, after_all};
ghost use Rattle.delta_bytes.specs.Deltas.{delta_encoding, IsDeltaOf};
ghost use Rattle.copy_deltas.specs.declared.error.PatchError.{PatchError};
ghost use Rattle.copy_deltas.specs.declared.error.PatchError.TheVariants.{OutOfMemory};
ghost use Rattle.copy_deltas.specs.Applying.{TakesDelta, RefusesDelta};
ghost use Rattle.copy_deltas.specs.Deciding.{accepts};
ghost use Rattle.copy_deltas.specs.Exchanging.{CanBeCounted, IsAnswered};
ghost use Rattle.copy_deltas.specs.Outcomes.{IsOutcome};

use crate::apply::check_delta;
use partition_log::PartitionLog;
use segment::BatchStore;

/// A valid content has a delta, whatever was asked, where its ranges, the asked ranges and its batches can
/// be counted. So what `write_delta` gives of such a copy is valid.
pub fn every_content_has_a_delta()
    ensures { (c : Content) (asked : Runs) → IsContent c → IsCanonical asked
        → length c.cover ≤ MAX_COUNT → length asked ≤ MAX_COUNT → length c.kept ≤ MAX_COUNT
        → IsDeltaOf (delta_encoding (delta_of c asked)) (delta_of c asked) }
{}

/// Whether a copy may take a delta can be found out batch by batch and list by list.
pub fn acceptance_is_decided()
    ensures { (c : Content) (e : Delta) → IsContent c → IsDelta e
        → (accepts c e ≡ true) ↔ Accepts c e }
{}

/// Of any copy and any bytes exactly one of these holds: that the copy may take them as a certain delta, or
/// that it refuses them for a certain reason, lack of memory left aside. There is no second one of any
/// content at all; and memory may lack only where there is a delta to take. So the contract of
/// [`check_delta`] leaves it one answer, and that of `apply_delta` one beside a lack of memory.
pub fn one_outcome<S: BatchStore>(copy: &PartitionLog<S>, bytes: &[u8])
    ensures one_holds { (a : Result Delta PatchError) × IsOutcome copy.now bytes.now a }
    ensures no_other { (c : Content) (bytes : List ℕ) (a b : Result Delta PatchError)
        → IsOutcome c bytes a → IsOutcome c bytes b → a ≡ b }
    ensures memory { (c : Content) (bytes : List ℕ)
        → RefusesDelta c bytes OutOfMemory ↔ ((e : Delta) × TakesDelta c bytes e) }
{
    // For its contract: its answer is one.
    let _ = check_delta(copy, bytes);
}

/// A copy y that agrees with x and knows what was asked may take x's delta, is refused it at most for lack
/// of memory, and ends as the merge of the two.
pub fn a_delta_of_one_that_agrees_is_a_merge()
    ensures taken { (x y : Content) (asked : Runs) → IsContent x → IsCanonical asked → IsFor y asked
        → Agree y x → CanBeCounted x asked
        → TakesDelta y (delta_encoding (delta_of x asked)) (delta_of x asked) }
    ensures only_memory_lacks { (x y : Content) (asked : Runs) (e : PatchError) → IsContent x
        → IsCanonical asked → IsFor y asked → Agree y x → CanBeCounted x asked
        → RefusesDelta y (delta_encoding (delta_of x asked)) e → e ≡ OutOfMemory }
    ensures merge { (x y : Content) (asked : Runs) → IsContent x → IsCanonical asked → IsFor y asked
        → Agree y x → patch y (delta_of x asked) ≡ join y x }
{}

/// A copy y of a log asks, and a copy x of it answers. Whatever has happened to y meanwhile, and though the
/// log has grown, y may take the answer's bytes and is refused them at most for lack of memory. It ends as
/// if it had been merged with x, and is a copy of the log.
pub fn an_answer_is_a_merge_later()
    ensures taken { (log more : List BatchValue) (x y : Content) (asked : Runs) (events : List Event)
        → IsAnswered log more x y asked events
        → TakesDelta (after_all y events) (delta_encoding (delta_of x asked)) (delta_of x asked) }
    ensures only_memory_lacks { (log more : List BatchValue) (x y : Content) (asked : Runs)
        (events : List Event) (e : PatchError) → IsAnswered log more x y asked events
        → RefusesDelta (after_all y events) (delta_encoding (delta_of x asked)) e → e ≡ OutOfMemory }
    ensures merge { (log more : List BatchValue) (x y : Content) (asked : Runs) (events : List Event)
        → IsAnswered log more x y asked events
        → patch (after_all y events) (delta_of x asked) ≡ join (after_all y events) x }
    ensures copy { (log more : List BatchValue) (x y : Content) (asked : Runs) (events : List Event)
        → IsAnswered log more x y asked events
        → IsContentOf (log ++ more) (patch (after_all y events) (delta_of x asked)) }
{}
