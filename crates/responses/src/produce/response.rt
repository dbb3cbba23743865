//! What stands behind the topics of a Produce response.

ghost use Rattle.std.specs.Prelude.{◌≡◌};
ghost use Rattle.responses.specs.Produce.{produce_tail};

/// The number of bytes after the topics.
pub const PRODUCE_TAIL_BYTES: usize = 4;

/// What stands after the topics: the throttle time, which is 0.
#[tactic(auto, unfolding(frame_fields::specs::Fields::encoded))]
pub fn produce_tail() -> [u8; PRODUCE_TAIL_BYTES]
    ensures { result ≡ produce_tail }
{
    [0; PRODUCE_TAIL_BYTES]
}
