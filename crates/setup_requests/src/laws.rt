//! Laws of what clients are told, over the definitions alone. The functions do nothing: what they ensure is
//! the law.

ghost use Rattle.std.specs.Prelude.{◌≡◌, ◌<ℤ◌, ◌↔◌, ℤ, true};
ghost use Rattle.request_frames.specs.Apis.{first_own_key, HasApi};
ghost use Rattle.setup_requests.specs.ApiVersions.{listed_ranges, lists, AreRising};

/// A client is told of a key and a version exactly where a request of these is read and the key is not one
/// of this project's own; and of each key once, by rising key.
pub fn the_list_is_the_table()
    ensures lists_the_table { (key version : ℤ) → (lists listed_ranges key version ≡ true)
        ↔ (HasApi key version × (key <ℤ first_own_key)) }
    ensures rises { AreRising listed_ranges }
{}
