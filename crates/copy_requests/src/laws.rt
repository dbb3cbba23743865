//! Laws of what these requests are judged by, over the definitions alone. The functions do nothing: what
//! they ensure is the law.

ghost use Rattle.std.specs.Prelude.{◌≡◌, ◌≢◌, ◌↔◌, ℕ, ℤ, true, List, None, Some};
ghost use Rattle.batch_codec.specs.Values.{BatchValue};
ghost use Rattle.content.specs.declared.delivery.DeliverError.{DeliverError};
ghost use Rattle.cover_ranges.specs.Runs.{Runs, IsCanonical};
ghost use Rattle.content.specs.Content.{Content, IsContent, IsAcceptedStart};
ghost use Rattle.content.specs.Deliveries.{IsAccepted, Refuses};
ghost use Rattle.partition_log.specs.Appends.{IsGapless};
ghost use Rattle.partition_log.specs.Trims.{RefusesTrim};
ghost use Rattle.partition_log.specs.declared.trim.TrimError.{TrimError};
ghost use Rattle.partition_log.specs.declared.trim.TrimError.TheVariants as trim;
ghost use Rattle.deltas.specs.Deltas.{Delta};
ghost use Rattle.copy_images.specs.Reading.{IsBytes};
ghost use Rattle.copy_deltas.specs.declared.error.PatchError.{PatchError};
ghost use Rattle.copy_deltas.specs.declared.error.PatchError.TheVariants.{OutOfMemory};
ghost use Rattle.copy_deltas.specs.Applying.{TakesDelta, RefusesDelta};
ghost use Rattle.answering.specs.Lists.{first_some};
ghost use Rattle.copy_requests.specs.Codes.{patch_code, trim_code};
ghost use Rattle.copy_requests.specs.Deliver.{deliver_fault};
ghost use Rattle.copy_requests.specs.ExportDelta.{asked_fault};
ghost use Rattle.copy_requests.specs.Import.{is_gapless};
ghost use Rattle.copy_requests.specs.ImportDelta.{delta_faults};
ghost use Rattle.copy_requests.specs.Outcomes.{IsDeliverFault};
ghost use Rattle.copy_requests.specs.Trim.{trim_faults};

/// The fault for which a copy refuses a batch is the one that the checks of a reply find. They find none in
/// a batch that it takes.
pub fn deliver_faults()
    ensures refusal_is_fault { (c : Content) (b : BatchValue) (e : DeliverError) → IsContent c
        → Refuses c b e → IsDeliverFault e (deliver_fault c b) }
    ensures accepted_has_no_fault { (c : Content) (b : BatchValue) → IsContent c
        → IsAccepted c b → deliver_fault c b ≡ None }
{}

/// Whether a copy has no gap can be found out by its runs.
pub fn gaps_are_decided()
    ensures { (c : Content) → IsContent c → (is_gapless c ≡ true) ↔ IsGapless c }
{}

/// What may be asked for are the maximal ranges of a set of offsets, and nothing else.
pub fn asked_ranges_are_decided()
    ensures { (asked : Runs) → (asked_fault asked ≡ None) ↔ IsCanonical asked }
{}

/// The checks of a reply find a fault in bytes exactly where they are no delta that the copy may take, and
/// it is the one for which the copy refuses them.
pub fn delta_faults()
    ensures accepted { (c : Content) (bytes : List ℕ) → IsContent c → IsBytes bytes
        → (first_some (delta_faults c bytes) ≡ None) ↔ ((e : Delta) × TakesDelta c bytes e) }
    ensures refusal_is_fault { (c : Content) (bytes : List ℕ) (e : PatchError) → IsContent c
        → IsBytes bytes → e ≢ OutOfMemory → RefusesDelta c bytes e
        → first_some (delta_faults c bytes) ≡ Some (patch_code e) }
{}

/// The checks of a reply find a fault in a start exactly where it is not accepted of the copy, and it is
/// the one for which a copy refuses the start.
pub fn trim_faults()
    ensures accepted { (c : Content) (start : ℤ)
        → (first_some (trim_faults c start) ≡ None) ↔ IsAcceptedStart c start }
    ensures refusal_is_fault { (c : Content) (start : ℤ) (e : TrimError) → e ≢ trim.OutOfMemory
        → RefusesTrim c start e → first_some (trim_faults c start) ≡ Some (trim_code e) }
{}
