//! Whether a configuration is valid.

ghost use Rattle.std.specs.Prelude.{◌≡◌, [], ◌∷◌, map, bytes_eq};
ghost use Rattle.std.specs.List.{list_any};
ghost use Rattle.broker_state.specs.State.{group_topic};
ghost use Rattle.broker_state.specs.Taken.{names_taken};
ghost use Rattle.broker_state.specs.ConfigValues.{config_value, topic_config};
ghost use Rattle.broker_state.specs.Configs.{config_fault, topic_fault, topics_fault};

use crate::config::{Config, TopicConfig};
use crate::error::ConfigError;
use crate::limits::{GROUP_TOPIC, MAX_HOST_BYTES, MAX_PARTITIONS, MAX_TOPICS};
use frame_fields::is_topic_name;
use std::alloc::Allocator;

/// The first fault of a configuration.
pub(crate) fn config_fault<A: Allocator>(config: &Config<A>) -> Option<ConfigError>
    ensures { result ≡ config_fault (config_value config.now) }
{
    if config.host.len() > MAX_HOST_BYTES {
        return Some(ConfigError::BadHost);
    }
    if config.topics.len() > MAX_TOPICS {
        return Some(ConfigError::TooManyTopics);
    }
    if config.first_producer < 0 {
        return Some(ConfigError::BadFirstProducer);
    }
    topics_fault(&config.topics)
}

/// Whether a topic has this name, or the group topic.
fn has_name<A: Allocator>(topics: &[TopicConfig<A>], name: &[u8]) -> bool
    ensures { result ≡ list_any (λ t. bytes_eq name.now (topic_config t).name) topics.now }
{
    topics.iter().any(|other| name == other.name.as_bytes())
}

fn is_taken<A: Allocator>(name: &[u8], earlier: &[TopicConfig<A>]) -> bool
    ensures { result ≡ list_any (bytes_eq name.now) (names_taken (map topic_config earlier.now)) }
{
    has_name(earlier, name) || name == GROUP_TOPIC
}

/// The first fault of a topic, where others stand before it.
fn topic_fault<A: Allocator>(
    earlier: &[TopicConfig<A>],
    topic: &TopicConfig<A>,
) -> Option<ConfigError>
    ensures { result ≡ topic_fault (names_taken (map topic_config earlier.now)) (topic_config topic.now) }
{
    let name = topic.name.as_bytes();
    if !is_topic_name(name) {
        return Some(ConfigError::BadTopic);
    }
    if topic.partitions == 0 || topic.partitions as usize > MAX_PARTITIONS {
        return Some(ConfigError::BadPartitions);
    }
    if is_taken(name, earlier) {
        return Some(ConfigError::TopicTwice);
    }
    None
}

/// The first fault of the first topic that has one.
fn topics_fault<A: Allocator>(topics: &[TopicConfig<A>]) -> Option<ConfigError>
    ensures { result ≡ topics_fault (group_topic ∷ []) (map topic_config topics.now) }
{
    for i in 0..topics.len() {
        let fault = topic_fault(&topics[..i], &topics[i]);
        if fault.is_some() {
            return fault;
        }
    }
    None
}
