//! Laws of what a delta is, and of what it leaves: valid values, whoever sent the delta.

ghost use Rattle.std.specs.Prelude.{◌≡◌, ℤ, false, Some};
ghost use Rattle.batch_codec.specs.Values.{RecordValue};
ghost use Rattle.cover_ranges.specs.Runs.{Runs, covers, IsCanonical};
ghost use Rattle.content.specs.Records.{record_at};
ghost use Rattle.content.specs.Content.{Content, IsContent};
ghost use Rattle.deltas.specs.Entries.{sent};
ghost use Rattle.deltas.specs.Deltas.{Delta, IsDelta, delta_of};
ghost use Rattle.deltas.specs.Patches.{patch};
ghost use Rattle.deltas.specs.Accepting.{sent_part};

/// Any valid delta leaves a content of any content, whether the copy may take it or not.
pub fn a_patch_is_a_content()
    ensures { (c : Content) (e : Delta) → IsContent c → IsDelta e → IsContent (patch c e) }
{}

/// A content has a valid delta, whatever was asked.
pub fn the_delta_of_a_content_is_valid()
    ensures { (x : Content) (asked : Runs) → IsContent x → IsCanonical asked
        → IsDelta (delta_of x asked) }
{}

/// No record at an asked offset is sent, in any valid delta.
pub fn a_delta_sends_nothing_that_was_asked()
    ensures { (e : Delta) (o : ℤ) (r : RecordValue) → IsDelta e → record_at (sent e.entries) o ≡ Some r
        → covers e.asked o ≡ false }
{}

/// What a valid delta sends is a content of its own.
pub fn what_is_sent_is_a_content()
    ensures { (e : Delta) → IsDelta e → IsContent (sent_part e) }
{}
