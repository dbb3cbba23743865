//! Topics as they stand on the command line: `TOPIC:N`.

ghost use Rattle.std.specs.Prelude.{IfOk, IfErr, OnOk, OnErr, [], ◌∷◌, map};
ghost use Rattle.broker_state.specs.ConfigValues.{topic_config};
ghost use Rattle.tcp_edge.specs.Asked.{IsConfigFault};
ghost use Rattle.tcp_edge.specs.CommandLine.{IsTopic, AddsTopic, AreTopics, HasTopics};

use crate::asked::ArgumentsFault;
use broker_state::{ConfigError, TopicConfig};
use std::alloc::{AllocError, Global};
use std::string::String;

/// Reads a topic's name and the number of its partitions, in decimal digits behind the last `:`.
///
/// # Errors
///
/// `BadTopic` where there is no `:`, and `BadPartitions` where no such number stands behind it.
fn read_topic(argument: &str) -> Result<(&str, u32), ConfigError>
    ensures reads { IfOk result (λ read. IsTopic argument.now
        (record { name = read.0.now; partitions = read.1 })) }
    ensures refuses { OnErr result (¬ HasTopics (argument.now ∷ [])) }
{
    let Some((name, digits)) = argument.rsplit_once(":") else {
        return Err(ConfigError::BadTopic);
    };
    if digits.starts_with("+") {
        return Err(ConfigError::BadPartitions);
    }
    match digits.parse::<u32>() {
        Ok(partitions) => Ok((name, partitions)),
        Err(_) => Err(ConfigError::BadPartitions),
    }
}

/// Adds a topic.
fn add_topic(
    alloc: Global,
    argument: &str,
    topics: &mut Vec<TopicConfig<Global>>,
) -> Result<(), ArgumentsFault>
    ensures adds { OnOk result (AddsTopic argument.now
        (map topic_config topics.old.items) (map topic_config topics.new.items)) }
    ensures fault { IfErr result (IsConfigFault (argument.now ∷ [])) }
{
    let (name, partitions) = match read_topic(argument) {
        Ok(read) => read,
        Err(why) => return Err(ArgumentsFault::Topic(why)),
    };
    let name = String::from_str(alloc, name)?;
    match topics.push(TopicConfig { name, partitions }) {
        Ok(()) => Ok(()),
        Err(why) => Err(ArgumentsFault::from(AllocError::from(why))),
    }
}

/// The topics of some arguments, in their order.
///
/// # Errors
///
/// That of the first argument that is no topic; out of memory.
#[tactic(auto, using(crate::proofs::TopicLists::one_topic_more))]
pub(crate) fn topics_of(
    alloc: Global,
    arguments: &[&str],
) -> Result<Vec<TopicConfig<Global>>, ArgumentsFault>
    ensures reads { IfOk result (λ topics. AreTopics (map (λ word. word.now) arguments.now)
        (map topic_config topics.items)) }
    ensures fault { IfErr result (IsConfigFault (map (λ word. word.now) arguments.now)) }
{
    let mut topics = Vec::new(alloc);
    for &argument in arguments {
        add_topic(alloc, argument, &mut topics)?;
    }
    Ok(topics)
}
