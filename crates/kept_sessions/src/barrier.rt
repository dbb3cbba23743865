//! Partitions that may not change yet.

ghost use Rattle.std.specs.Prelude.{◌≡◌, ◌++◌, true, not, [], is_some, map, IfNone, IfSome, OnErr, OnOk};
ghost use Rattle.std.specs.List.{filter};
ghost use Rattle.frame_fields.specs.Arrays.{values};
ghost use Rattle.frame_fields.specs.Types.{topic, topic_request};
ghost use Rattle.request_frames.specs.Produce.{produce_partition, produce_partition_value};
ghost use Rattle.request_frames.specs.Views.{request_body};
ghost use Rattle.broker_state.specs.Places.{IsPlaceOf};
ghost use Rattle.broker_node.specs.Effects.{produced_to};
ghost use Rattle.kept_sessions.specs.Barring.{AreFree, AvoidsBarred, IsBarredAmong, IsFree, MeetsBarred, all_places, content_at_place, entries_to, is_barred, is_same_place, topic_places};

use broker_node::{MayChange, what_may_change};
use broker_state::{BrokerState, Place};
use frame_fields::{Array, Topic, Topics};
use request_frames::{ProducePartition, RequestBody};
use segment::BatchStore;
use std::alloc::{AllocError, Allocator};
use std::marker::Model;

/// The places of the partitions that are barred: these may not change.
#[derive(Drop)]
pub(crate) struct Barrier<A: Allocator + Copy> {
    places: Vec<Place, A>,
}

impl<A: Allocator + Copy> Model for Barrier<A> {
    ghost use Rattle.std.specs.Prelude.{List};
    ghost use Rattle.broker_state.specs.declared.place.Place.{Place};

    ghost Value = { List Place };

    ghost view = { λ b. b.places.items };
}

/// Whether two places are the same.
fn is_same_place(place: Place, other: Place) -> bool
    ensures { result ≡ is_same_place place other }
{
    place.topic == other.topic && place.partition == other.partition
}

/// Puts the places of a topic's first partitions behind others.
fn push_places<A: Allocator + Copy>(
    places: &mut Vec<Place, A>,
    topic: usize,
    count: usize,
) -> Result<(), AllocError>
    ensures { OnOk result (places.new.items ≡ places.old.items ++ topic_places topic count) }
{
    for partition in 0..count {
        places.push(Place { topic, partition })?;
    }
    Ok(())
}

/// Puts the places of all partitions behind others.
fn push_all<S: BatchStore, A: Allocator + Copy>(
    places: &mut Vec<Place, A>,
    state: &BrokerState<S>,
) -> Result<(), AllocError>
    ensures { OnOk result (places.new.items ≡ places.old.items ++ all_places state.now) }
{
    let topics = state.topics();
    for index in 0..topics.len() {
        push_places(places, index, topics[index].partition_count())?;
    }
    Ok(())
}

impl<A: Allocator + Copy> Barrier<A> {
    /// Nothing is barred. It takes no memory.
    pub(crate) fn new(alloc: A) -> Barrier<A>
        ensures { result ≡ [] }
    {
        Barrier {
            places: Vec::new(alloc),
        }
    }

    /// Bars all partitions of a broker.
    ///
    /// # Errors
    ///
    /// Out of memory: nothing is barred.
    pub(crate) fn raise<S: BatchStore>(&mut self, state: &BrokerState<S>) -> Result<(), AllocError>
        ensures raises { OnOk result (self.new ≡ all_places state.now) }
        ensures bars_all { OnOk result ((place : Place)
            → is_some (content_at_place state.now place) ≡ true → is_barred self.new place ≡ true) }
        ensures none_on_error { OnErr result (self.new ≡ []) }
    {
        self.places.clear();
        let raised = push_all(&mut self.places, state);
        if raised.is_err() {
            self.places.clear();
        }
        raised
    }

    /// Bars a partition no more.
    pub(crate) fn lift(&mut self, place: Place)
        ensures { self.new ≡ filter (λ other. not (is_same_place other place)) self.old }
    {
        self.places.retain(|other| !is_same_place(*other, place));
    }

    /// Bars nothing any more.
    pub(crate) fn lift_all(&mut self)
        ensures { self.new ≡ [] }
    {
        self.places.clear();
    }

    /// Whether a partition is barred.
    fn bars(&self, place: Place) -> bool
        ensures { result ≡ is_barred self.now place }
    {
        self.places.iter().any(|other| is_same_place(place, *other))
    }

    /// The place of a topic's partition, if it is barred.
    fn stops_at<S: BatchStore>(
        &self,
        state: &BrokerState<S>,
        topic: &[u8],
        partition: i32,
    ) -> Option<Place>
        ensures stops { IfSome result (λ place. (is_barred self.now place ≡ true)
            × IsPlaceOf state.now topic.now partition place) }
        ensures passes { IfNone result (IsFree self.now state.now
            (record { topic = topic.now; partition = partition })) }
    {
        let place = state.place_of(topic, partition)?;
        if self.bars(place) { Some(place) } else { None }
    }

    /// The first of a topic's partitions to which a request appends that is barred.
    fn stops_topic<'a, S: BatchStore>(
        &self,
        state: &BrokerState<S>,
        topic: Topic<'a, ProducePartition<'a>>,
    ) -> Option<Place>
        ensures stops { IfSome result (IsBarredAmong self.now state.now (entries_to topic.entry.name.now
            (map produce_partition_value (values produce_partition topic.entry.partitions)))) }
        ensures passes { IfNone result (AreFree self.now state.now (entries_to topic.entry.name.now
            (map produce_partition_value (values produce_partition topic.entry.partitions)))) }
    {
        for entry in topic.partitions {
            match self.stops_at(state, topic.name, entry.index) {
                Some(place) => return Some(place),
                None => {}
            }
        }
        None
    }

    /// The first partition to which a request appends that is barred.
    fn stops_produce<'a, S: BatchStore>(
        &self,
        state: &BrokerState<S>,
        topics: &Array<'a, Topic<'a, ProducePartition<'a>>>,
    ) -> Option<Place>
        ensures stops { IfSome result (IsBarredAmong self.now state.now (produced_to (map
            (topic_request produce_partition produce_partition_value)
            (values (topic produce_partition) topics.now)))) }
        ensures passes { IfNone result (AreFree self.now state.now (produced_to (map
            (topic_request produce_partition produce_partition_value)
            (values (topic produce_partition) topics.now)))) }
    {
        for topic in Topics::of(topics) {
            match self.stops_topic(state, topic) {
                Some(place) => return Some(place),
                None => {}
            }
        }
        None
    }

    /// The first barred partition among those that a request may change.
    pub(crate) fn stops<S: BatchStore>(
        &self,
        state: &BrokerState<S>,
        body: &RequestBody<'_>,
    ) -> Option<Place>
        ensures stops { IfSome result (MeetsBarred self.now state.now (request_body body.now)) }
        ensures passes { IfNone result (AvoidsBarred self.now state.now (request_body body.now)) }
    {
        match what_may_change(body) {
            MayChange::Nothing | MayChange::NextId => None,
            MayChange::One(topic, partition) => self.stops_at(state, topic, partition),
            MayChange::Produced(topics) => self.stops_produce(state, topics),
        }
    }
}
