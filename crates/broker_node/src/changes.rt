//! What a request may change of a broker, and which requests may take long.

ghost use Rattle.std.specs.Prelude.{◌≡◌, is_some};
ghost use Rattle.request_frames.specs.Views.{request_body};
ghost use Rattle.broker_node.specs.Effects.{effect, is_change, is_dear, may_change, only_grows, places};
ghost use Rattle.broker_node.specs.Changes.{change_said, places_said};

use broker_state::GROUP_TOPIC;
use frame_fields::{Array, Topic};
use request_frames::{ProducePartition, RequestBody};

/// What a request may change of a broker.
#[derive(Clone, Copy)]
pub enum MayChange<'a, 'r> {
    /// Nothing: it only reads.
    Nothing,
    /// Which producer id is given out next, and no partition.
    NextId,
    /// One partition: its topic, and its index there.
    One(&'r [u8], i32),
    /// The partitions of the entries of a Produce request.
    Produced(&'a Array<'r, Topic<'r, ProducePartition<'r>>>),
}

/// What a request may change of a broker. The broker may not have such a partition.
pub fn what_may_change<'a, 'r>(body: &'a RequestBody<'r>) -> MayChange<'a, 'r>
    ensures changes { is_some (change_said result) ≡ is_change (effect (request_body body.now)) }
    ensures places { places_said result ≡ places (effect (request_body body.now)) }
{
    match body {
        RequestBody::Produce(asked) => MayChange::Produced(&asked.topics),
        RequestBody::OffsetCommit(_) | RequestBody::ForgetGroup(_) => {
            MayChange::One(GROUP_TOPIC, 0)
        }
        RequestBody::InitProducerId(_) => MayChange::NextId,
        RequestBody::Deliver(asked) => MayChange::One(asked.topic, asked.partition),
        RequestBody::Clean(asked) => MayChange::One(asked.topic, asked.partition),
        RequestBody::CleanPart(asked) => MayChange::One(asked.topic, asked.partition),
        RequestBody::Import(asked) => MayChange::One(asked.topic, asked.partition),
        RequestBody::ImportDelta(asked) => MayChange::One(asked.topic, asked.partition),
        RequestBody::Trim(asked) => MayChange::One(asked.topic, asked.partition),
        _ => MayChange::Nothing,
    }
}

/// Whether a request may change something of a broker. The others only read.
pub fn may_change(body: &RequestBody<'_>) -> bool
    ensures { result ≡ may_change (request_body body.now) }
{
    !matches!(what_may_change(body), MayChange::Nothing)
}

/// Whether a request only appends to partitions, or cleans one. A Fetch that waits is due by what is appended
/// alone.
pub fn only_grows(body: &RequestBody<'_>) -> bool
    ensures { result ≡ only_grows (effect (request_body body.now)) }
{
    match body {
        RequestBody::Produce(_) | RequestBody::OffsetCommit(_) | RequestBody::ForgetGroup(_) =>
            true,
        RequestBody::Clean(_) => true,
        RequestBody::CleanPart(_) => true,
        _ => false,
    }
}

/// Whether a request may take long where a partition has much: it looks through the log, makes an image of
/// it, or takes one in.
pub fn is_dear(body: &RequestBody<'_>) -> bool
    ensures { result ≡ is_dear (request_body body.now) }
{
    matches!(
        body,
        RequestBody::ListOffsets(_)
            | RequestBody::OffsetFetch(_)
            | RequestBody::Clean(_)
            | RequestBody::CleanPart(_)
            | RequestBody::Export(_)
            | RequestBody::ExportDelta(_)
            | RequestBody::Import(_)
            | RequestBody::ImportDelta(_)
            | RequestBody::Get(_)
            | RequestBody::ForgetGroup(_)
    )
}
