//! Laws about responses: the parts of each kind, one after the other, are the encoding of its fields; and
//! the limits are those of the fields.

ghost use Rattle.std.specs.Prelude.{◌≤◌, ◌↔◌, ℕ};
ghost use Rattle.frame_fields.specs.Fields.{size16, size32, FitsLength};

pub use crate::api_versions::api_versions_parts;
pub use crate::cover::cover_parts;
pub use crate::export::export_parts;
pub use crate::fetch::fetch_parts;
pub use crate::find_coordinator::find_coordinator_parts;
pub use crate::get::get_parts;
pub use crate::list_offsets::list_offsets_parts;
pub use crate::metadata::metadata_parts;
pub use crate::offset_commit::offset_commit_parts;
pub use crate::offset_fetch::offset_fetch_parts;
use crate::parts::{MAX_BODY_BYTES, MAX_COUNT, MAX_STRING_BYTES};
pub use crate::produce::produce_parts;

/// The limits are the greatest lengths that the fields hold: a STRING's length is an INT16, and a
/// count, the length of records and a response's size are an INT32.
#[tactic(auto, using(crate::proofs::ResponseParts::limits))]
pub fn limits_fit()
    ensures strings { (n : ℕ) → (n ≤ MAX_STRING_BYTES) ↔ FitsLength size16 n }
    ensures counts { (n : ℕ) → (n ≤ MAX_COUNT) ↔ FitsLength size32 n }
    ensures sizes { (n : ℕ) → (n ≤ MAX_BODY_BYTES) ↔ FitsLength size32 n }
{}
