//! What a broker holds: its configuration, the partitions of its topics, and the next producer id.

ghost use Rattle.std.specs.Prelude.{◌≡◌, ◌≤◌, ◌≤ℤ◌, ◌<ℤ◌, ◌+◌, ℕ, ℤ, pos, List, [], ◌∷◌, Some, None, IfOk, IfErr, OnOk, OnErr, IfSome, IfNone, map, length};
ghost use Rattle.std.specs.List.{All};
ghost use Rattle.std.specs.Option.{option_map};
ghost use Rattle.answering.specs.Lists.{first_some};
ghost use Rattle.broker_state.specs.State.{new_state, group_topic, topic_of, partition_at};
ghost use Rattle.broker_state.specs.Places.{IsPlaceOf, IsPlace};
ghost use Rattle.broker_state.specs.Checks.{unknown, not_leader};
ghost use Rattle.broker_state.specs.Changes.{ChangesAt};
ghost use Rattle.broker_state.specs.Configs.{IsValidConfig, ConfigFault};
ghost use Rattle.broker_state.specs.ConfigValues.{config_value};
ghost use Rattle.broker_state.specs.Parts.{topic_contents};
ghost use Rattle.broker_state.specs.Producers.{GivesProducerId, with_next_id};
ghost use Rattle.broker_state.specs.Sound.{IsSound};

use crate::change::Change;
use crate::config::{Config, Role};
use crate::error::ConfigError;
use crate::judging::config_fault;
use crate::limits::{GROUP_TOPIC, MAX_PARTITIONS, MAX_TOPICS};
use crate::new_topics::new_topics;
use crate::place::Place;
use crate::restoring::EarlyProducer;
use crate::topic::{TopicLogs, topic_index};
use answering::ErrorCode;
use partition_log::PartitionLog;
use segment::BatchStore;
use std::marker::Model;

/// What a broker holds: its configuration, the partitions of its topics, and the next producer id.
#[derive(Drop)]
pub struct BrokerState<S: BatchStore> {
    config: Config<S::Alloc>,
    topics: Vec<TopicLogs<S>, S::Alloc>,
    next_producer: i64,
}

impl<S: BatchStore> Model for BrokerState<S> {
    ghost use Rattle.std.specs.Prelude.{map, FitsSigned};
    ghost use Rattle.std.specs.Int.{w64};
    ghost use Rattle.std.specs.List.{AllByRecursion};
    ghost use Rattle.answering.specs.Lists.{first_some};
    ghost use Rattle.broker_state.specs.State.{State};
    ghost use Rattle.broker_state.specs.ConfigValues.{config_value};
    ghost use Rattle.broker_state.specs.Parts.{AreTopicsOf, topic_contents};
    ghost use Rattle.broker_state.specs.Sound.{IsSoundConfig, HoldsContents};

    ghost Value = { State };

    ghost view = { λ n. record {
      config = config_value n.config;
      topics = map topic_contents n.topics.items;
      next_producer = n.next_producer;
    } };

    ghost invariant = { λ n. IsSoundConfig (config_value n.config)
        × AreTopicsOf (config_value n.config) n.topics.items
        × AllByRecursion (λ t. HoldsContents (topic_contents t)) n.topics.items
        × FitsSigned w64 n.next_producer };
}

impl<S: BatchStore> BrokerState<S> {
    /// What a new broker of this configuration holds. Every partition is empty; the group topic comes
    /// beside the topics of the configuration.
    ///
    /// # Errors
    ///
    /// The first fault of the configuration, in the order of `ConfigError`; `OutOfMemory` where it has
    /// none, and there is no memory for its topics.
    pub fn new(alloc: S::Alloc, config: Config<S::Alloc>) -> Result<BrokerState<S>, ConfigError>
        ensures valid { IfOk result (λ _. IsValidConfig (config_value config)) }
        ensures is_new { IfOk result (λ state. state ≡ new_state (config_value config)) }
        ensures is_sound { IfOk result IsSound }
        ensures refuses { IfErr result (ConfigFault (config_value config)) }
    {
        match config_fault(&config) {
            Some(fault) => return Err(fault),
            None => {}
        }
        let next_producer = config.first_producer;
        match new_topics(alloc, &config) {
            Ok(topics) => Ok(BrokerState {
                config,
                topics,
                next_producer,
            }),
            Err(_) => Err(ConfigError::OutOfMemory),
        }
    }

    /// The place of a topic's partition; none of a topic that isn't configured, or that has no such
    /// partition. It takes no memory.
    pub fn place_of(&self, topic: &[u8], partition: i32) -> Option<Place>
        ensures found { IfSome result (IsPlaceOf self.now topic.now partition) }
        ensures unknown { IfNone result (partition_at self.now topic.now partition ≡ None) }
    {
        let Some(index) = topic_index(&self.topics, topic) else {
            return None;
        };
        match self.topics[index].partition_index(partition) {
            Some(number) => Some(Place {
                topic: index,
                partition: number,
            }),
            None => None,
        }
    }

    /// The place of the partition in which groups keep their offsets. Each broker has it.
    pub fn group_place(&self) -> Place
        ensures { IsPlaceOf self.now group_topic (pos 0) result }
    {
        // Called for its contract alone: the topics are those of the configuration.
        self.know_sound();
        match self.place_of(GROUP_TOPIC, 0) {
            Some(place) => place,
            None => unreachable!(),
        }
    }

    /// The copy at a place.
    pub fn copy_at(&self, place: Place) -> &PartitionLog<S>
        requires { IsPlace self.now place }
        ensures { (name : List ℕ) (p : ℤ) → IsPlaceOf self.now name p place
            → partition_at self.now name p ≡ Some result.now }
    {
        self.topics[place.topic].partition_copy(place.partition)
    }

    /// The copy of a topic's partition; none of a topic that isn't configured, or that has no such
    /// partition. It takes no memory.
    pub fn log(&self, topic: &[u8], partition: i32) -> Option<&PartitionLog<S>>
        ensures { option_map (λ log. log.now) result
            ≡ partition_at self.now topic.now partition }
    {
        match self.place_of(topic, partition) {
            Some(place) => Some(self.copy_at(place)),
            None => None,
        }
    }

    /// The copy of a partition that the broker leads. It takes no memory.
    ///
    /// # Errors
    ///
    /// `UnknownTopicOrPartition`, or else `NotLeader`.
    pub fn led_copy(&self, topic: &[u8], partition: i32) -> Result<&PartitionLog<S>, ErrorCode>
        ensures is_there { IfOk result
            (λ log. partition_at self.now topic.now partition ≡ Some log.now) }
        ensures leads { IfOk result (λ _. not_leader self.now ≡ None) }
        ensures refuses { IfErr result (λ code.
            first_some (unknown self.now topic.now partition ∷ not_leader self.now ∷ []) ≡ Some code) }
    {
        match (self.log(topic, partition), self.role()) {
            (None, _) => Err(ErrorCode::UnknownTopicOrPartition),
            (Some(_), Role::Follower) => Err(ErrorCode::NotLeader),
            (Some(log), Role::Leader) => Ok(log),
        }
    }

    /// What a broker holds is sound: this is known behind the call, which does nothing.
    pub fn know_sound(&self)
        ensures { IsSound self.now }
    {
        // A field is read, so that what holds of all of them is known.
        let _ = &self.config;
    }

    /// What the broker is to its partitions.
    pub fn role(&self) -> Role
        ensures { result ≡ self.now.config.role }
    {
        self.config.role
    }

    /// Makes a change in the partition at a place; every other one stays as it is.
    pub fn change_at<R, C: Change<S, R>>(&mut self, place: Place, change: C) -> R
        requires is_place { IsPlace self.old place }
        ensures { (name : List ℕ) (p : ℤ) → IsPlaceOf self.old name p place
            → ChangesAt (C.changes change self.old.config.role result) self.old name p self.new }
    {
        self.topics[place.topic].update_partition(place.partition, change)
    }

    /// Gives out the next producer id; the number after it is the next one. `None` where the next one is the
    /// greatest `i64`, which is not given out; then nothing changes.
    pub fn give_producer_id(&mut self) -> Option<i64>
        ensures { GivesProducerId self.old result self.new }
    {
        let id = self.next_producer;
        match id.checked_add(1) {
            Some(next) => {
                self.next_producer = next;
                Some(id)
            }
            None => None,
        }
    }

    /// Makes an id the next one that is given out to a producer.
    ///
    /// # Errors
    ///
    /// It lies below the first producer id of the configuration; then nothing changes.
    pub fn give_ids_from(&mut self, id: i64) -> Result<(), EarlyProducer>
        ensures gives { OnOk result (self.new ≡ with_next_id self.old id) }
        ensures is_not_early { OnOk result (self.old.config.first_producer ≤ℤ id) }
        ensures refuses { OnErr result (id <ℤ self.old.config.first_producer) }
        ensures unchanged_on_error { OnErr result (self.new ≡ self.old) }
    {
        if id < self.config.first_producer {
            return Err(EarlyProducer);
        }
        self.next_producer = id;
        Ok(())
    }

    /// The producer id that was configured as the first one.
    pub fn first_producer(&self) -> i64
        ensures { result ≡ self.now.config.first_producer }
    {
        self.config.first_producer
    }

    /// The producer id that is given out next.
    pub fn next_producer(&self) -> i64
        ensures { result ≡ self.now.next_producer }
    {
        self.next_producer
    }

    /// The broker's number.
    pub fn node_id(&self) -> i32
        ensures { result ≡ self.now.config.node_id }
    {
        self.config.node_id
    }

    /// The host at which clients reach the broker.
    pub fn host(&self) -> &[u8]
        ensures { result.now ≡ self.now.config.host }
    {
        self.config.host.as_bytes()
    }

    /// The port at which clients reach the broker.
    pub fn port(&self) -> u16
        ensures { result ≡ self.now.config.port }
    {
        self.config.port
    }

    /// The topics, that of the groups last.
    #[tactic(auto, using(crate::proofs::Shapes::few_topics, crate::proofs::Shapes::few_partitions))]
    pub fn topics(&self) -> &[TopicLogs<S>]
        ensures topics { map topic_contents result.now ≡ self.now.topics }
        ensures few { length result.now ≤ MAX_TOPICS + 1 }
        ensures few_partitions { All (λ t. length t.partitions ≤ MAX_PARTITIONS) result.now }
    {
        &self.topics
    }

    /// The topic of a name.
    pub fn topic(&self, name: &[u8]) -> Option<&TopicLogs<S>>
        ensures is_there { option_map (λ t. topic_contents t.now) result
            ≡ topic_of self.now name.now }
        ensures few_partitions { IfSome result (λ t. length t.now.partitions ≤ MAX_PARTITIONS) }
    {
        match topic_index(&self.topics, name) {
            Some(index) => Some(&self.topics[index]),
            None => None,
        }
    }
}
