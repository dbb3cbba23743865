//! The hash of a key.

ghost use Rattle.std.specs.Prelude.{◌≡◌};
ghost use Rattle.key_index.specs.Hashes.{hash_of};

use std::hash::{FoldHasher, Hasher};

/// The hash of a key: a function of its bytes alone.
#[tactic(auto, unfolding(crate::specs::Hashes::hash_of))]
pub(crate) fn hash_of(key: &[u8]) -> u64
    ensures { result ≡ hash_of key.now }
{
    let mut hasher = FoldHasher::default();
    hasher.write(key);
    hasher.finish()
}
