//! A caller.

ghost use Rattle.std.specs.Prelude.{◌≡◌, [], ◌∷◌, IfOk, IfSome};
ghost use Rattle.cleaning_policy.specs.Histories.{IsBounded};
ghost use Rattle.cleaning_policy.specs.Histories.Event.{Told};

use crate::policy::Policy;
use crate::values::{Extent, Frame, Settings};
use std::alloc::{AllocError, Allocator};

/// The first frame of a policy that is told of one partition, and asked some time later: it keeps within its bounds.
///
/// # Errors
///
/// Out of memory.
pub fn first_frame<A: Allocator + Copy>(
    alloc: A,
    settings: Settings,
    extent: Extent,
    told: u64,
    now: u64,
) -> Result<Option<Frame>, AllocError>
    ensures bounded { IfOk result (λ given.
        IfSome given (IsBounded settings (Told told 0 extent ∷ []) now)) }
{
    let mut policy = Policy::new(alloc, settings);
    policy.add(told)?;
    policy.tell(told, 0, extent)?;
    let frame = policy.next(now);
    Ok(frame)
}
