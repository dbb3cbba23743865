//! The topics of a new broker, in which every partition is empty.

ghost use Rattle.std.specs.Prelude.{◌≡◌, IfOk, map};
ghost use Rattle.broker_state.specs.State.{all_topics};
ghost use Rattle.broker_state.specs.ConfigValues.{config_value};
ghost use Rattle.broker_state.specs.Parts.{new_parts};

use crate::config::Config;
use crate::limits::GROUP_TOPIC;
use crate::topic::TopicLogs;
use segment::BatchStore;
use std::alloc::AllocError;

/// The topics of a configuration, and the group topic.
pub(crate) fn new_topics<S: BatchStore>(
    alloc: S::Alloc,
    config: &Config<S::Alloc>,
) -> Result<Vec<TopicLogs<S>, S::Alloc>, AllocError>
    ensures { IfOk result (λ topics. topics.items
        ≡ map (new_parts config.now.role) (all_topics (config_value config.now))) }
{
    let mut topics = Vec::new(alloc);
    for topic in &config.topics {
        topics.push(TopicLogs::new(alloc, config.role, topic.name.as_bytes(), topic.partitions)?)?;
    }
    topics.push(TopicLogs::new(alloc, config.role, GROUP_TOPIC, 1)?)?;
    Ok(topics)
}
