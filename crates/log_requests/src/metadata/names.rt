//! The names that a Metadata request asks for.

ghost use Rattle.std.specs.Prelude.{◌≡◌, map, IfOk};
ghost use Rattle.log_requests.specs.Metadata.{each_once};
ghost use Rattle.log_requests.specs.Metadata.Names.{metadata_names};

use frame_fields::{Array, Name};
use indexmap::IndexSet;
use std::alloc::{AllocError, Allocator};
use std::hash::{BuildHasherDefault, FoldHasher};

/// Names, each once, in the order in which they came.
pub(crate) type Names<'a, A> = IndexSet<&'a [u8], BuildHasherDefault<FoldHasher>, A>;

/// Each of the names once, where it comes first.
pub(crate) fn each_once<'a, A: Allocator + Copy>(
    alloc: A,
    names: Array<'a, Name<'a>>,
) -> Result<Names<'a, A>, AllocError>
    ensures { IfOk result (λ set. map (λ name. name.now) set.keys
        ≡ each_once (metadata_names names.entry)) }
{
    let mut set = IndexSet::new(alloc);
    for name in names {
        set.insert(name.0)?;
    }
    Ok(set)
}
