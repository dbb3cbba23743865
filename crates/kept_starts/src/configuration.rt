//! Whether a snapshot is of a broker that was set up as it is asked for now, and how it is set up.

ghost use Rattle.std.specs.Prelude.{◌≡◌, IfOk, OnOk, bytes_eq, map, nat_lt};
ghost use Rattle.std.specs.List.{list_any, position};
ghost use Rattle.broker_state.specs.ConfigValues.{config_value, topic_config};
ghost use Rattle.state_snapshots.specs.Snapshots.{role_number};
ghost use Rattle.kept_starts.specs.Growth.{HasTopicsOf, asks_more, partitions_said};

use crate::faults::{Damage, StartFault};
use crate::offsets::{Field, version_of};
use broker_state::{Config, GROUP_TOPIC, Role, TopicConfig};
use data_directory::Name;
use frame_fields::{Array, Topic, Topics};
use snapshots::{SnapshotHead, SnapshotPartition};
use state_snapshots::role_number;
use std::alloc::{AllocError, Allocator};
use std::string::String;

/// The topics of a snapshot.
type SnapshotTopics<'a> = Array<'a, Topic<'a, SnapshotPartition>>;

/// The role that a snapshot says.
pub(crate) fn role_of<A: Allocator>(
    name: Name,
    head: &SnapshotHead<'_>,
) -> Result<Role, StartFault<A>>
    ensures { IfOk result (λ role. role_number role ≡ head.now.role) }
{
    for role in [Role::Leader, Role::Follower] {
        if role_number(role) == head.role {
            return Ok(role);
        }
    }
    Err(StartFault::Damaged {
        name,
        at: Field::Role.at(version_of(head)),
        why: Damage::BadRole,
    })
}

/// How many partitions of a topic a snapshot has; none where it has no such topic.
fn partitions_in(topics: &SnapshotTopics<'_>, name: &[u8]) -> usize {
    for topic in Topics::of(topics) {
        if topic.name == name {
            return topic.partitions.len() as usize;
        }
    }
    0
}

/// How many partitions of a topic a configuration has; none where it has no such topic.
fn partitions_of<A: Allocator>(config: &Config<A>, name: &[u8]) -> usize {
    if name == GROUP_TOPIC {
        return 1;
    }
    for topic in &config.topics {
        if topic.name.as_bytes() == name {
            return topic.partitions as usize;
        }
    }
    0
}

/// Refuses a topic that has fewer partitions than a snapshot has of it.
fn check_topic<A: Allocator + Copy>(
    alloc: A,
    topics: &SnapshotTopics<'_>,
    asked: &TopicConfig<A>,
) -> Result<(), StartFault<A>> {
    let partitions = partitions_in(topics, asked.name.as_bytes());
    if partitions > asked.partitions as usize {
        let name = Vec::from_slice(alloc, asked.name.as_bytes())?;
        return Err(StartFault::OtherTopic { name, partitions });
    }
    Ok(())
}

/// Refuses a snapshot that has more of a topic than is asked for, in the order in which they are.
fn check_topics<A: Allocator + Copy>(
    alloc: A,
    config: &Config<A>,
    topics: &SnapshotTopics<'_>,
) -> Result<(), StartFault<A>> {
    for asked in &config.topics {
        check_topic(alloc, topics, asked)?;
    }
    Ok(())
}

/// Refuses a snapshot that has a topic which isn't asked for.
fn check_others<A: Allocator + Copy>(
    alloc: A,
    config: &Config<A>,
    topics: &SnapshotTopics<'_>,
) -> Result<(), StartFault<A>> {
    for topic in Topics::of(topics) {
        if partitions_of(config, topic.name) == 0 {
            let partitions = topic.partitions.len() as usize;
            let name = Vec::from_slice(alloc, topic.name)?;
            return Err(StartFault::OtherTopic { name, partitions });
        }
    }
    Ok(())
}

/// Refuses a snapshot of a broker of another role than is asked for.
fn check_role<A: Allocator>(
    name: Name,
    asked: Role,
    head: &SnapshotHead<'_>,
) -> Result<(), StartFault<A>>
    ensures { OnOk result (head.now.role ≡ role_number asked) }
{
    let role = role_of(name, head)?;
    if role != asked {
        return Err(StartFault::OtherRole(role));
    }
    Ok(())
}

/// Refuses a snapshot of a broker that isn't as is asked for, and hasn't less: the role first, then the topics that are
/// asked for, in their order, then those of the snapshot.
pub(crate) fn check_configuration<A: Allocator + Copy>(
    alloc: A,
    name: Name,
    config: &Config<A>,
    head: &SnapshotHead<'_>,
) -> Result<(), StartFault<A>>
    ensures { OnOk result (head.now.role ≡ role_number config.now.role) }
{
    check_role(name, config.role, head)?;
    check_topics(alloc, config, &head.topics)?;
    check_others(alloc, config, &head.topics)?;
    if partitions_in(&head.topics, GROUP_TOPIC) != 1 {
        return Err(bad_topics(name, version_of(head)));
    }
    Ok(())
}

/// The topics of a snapshot of this version are none that a broker can have.
pub(crate) fn bad_topics<A: Allocator>(name: Name, version: i16) -> StartFault<A> {
    StartFault::Damaged {
        name,
        at: Field::Topics.at(version),
        why: Damage::BadTopics,
    }
}

/// Which topic of these has a name, if one has it.
fn index_named<A: Allocator>(topics: &[TopicConfig<A>], name: &[u8]) -> Option<usize>
    ensures { result ≡ position (λ t. bytes_eq (topic_config t).name name.now) topics.now }
{
    topics
        .iter()
        .position(|topic| topic.name.as_bytes() == name)
}

/// How many partitions of a topic a configuration says; none where it has no such topic. That of the groups isn't among them.
#[tactic(auto, using(crate::proofs::Asked::said_there, crate::proofs::Asked::said_none))]
fn partitions_said<A: Allocator>(config: &Config<A>, name: &[u8]) -> u32
    ensures { result ≡ partitions_said (config_value config.now) name.now }
{
    match index_named(&config.topics, name) {
        Some(index) => config.topics[index].partitions,
        None => 0,
    }
}

/// Whether more partitions are asked for of some of these topics than a configuration has.
fn any_more<A: Allocator>(topics: &[TopicConfig<A>], had: &Config<A>) -> bool
    ensures { result ≡ list_any (λ t. nat_lt (partitions_said (config_value had.now)
        (topic_config t).name) (topic_config t).partitions) topics.now }
{
    topics.iter().any(|topic| partitions_said(had, topic.name.as_bytes()) < topic.partitions)
}

/// Whether more partitions are asked for of some topic than a configuration has.
#[tactic(auto, using(crate::proofs::Asked::any_asked))]
pub(crate) fn asks_more<A: Allocator>(asked: &Config<A>, had: &Config<A>) -> bool
    ensures { result ≡ asks_more (config_value asked.now) (config_value had.now) }
{
    any_more(&asked.topics, had)
}

/// A configuration like another one, with these topics and this first producer id.
fn config_like<A: Allocator + Copy>(
    asked: &Config<A>,
    topics: Vec<TopicConfig<A>, A>,
    first_producer: i64,
) -> Result<Config<A>, AllocError>
    ensures role { IfOk result (λ config. config.role ≡ asked.now.role) }
    ensures topics { IfOk result (λ config. config.topics.items ≡ topics.items) }
{
    Ok(Config {
        role: asked.role,
        node_id: asked.node_id,
        host: asked.host.clone()?,
        port: asked.port,
        topics,
        first_producer,
    })
}

/// The same topic once more.
fn topic_again<A: Allocator + Copy>(topic: &TopicConfig<A>) -> Result<TopicConfig<A>, AllocError>
    ensures { IfOk result (λ again. topic_config again ≡ topic_config topic.now) }
{
    Ok(TopicConfig {
        name: topic.name.clone()?,
        partitions: topic.partitions,
    })
}

/// The same topics once more.
#[tactic(auto, using(crate::proofs::Asked::one_again))]
fn topics_again<A: Allocator + Copy>(
    alloc: A,
    topics: &[TopicConfig<A>],
) -> Result<Vec<TopicConfig<A>, A>, AllocError>
    ensures { IfOk result (λ again. map topic_config again.items ≡ map topic_config topics.now) }
{
    let mut again = Vec::new(alloc);
    for topic in topics {
        again.push(topic_again(topic)?)?;
    }
    Ok(again)
}

/// What is asked for, with a first producer id.
pub(crate) fn asked_config<A: Allocator + Copy>(
    alloc: A,
    asked: &Config<A>,
    first_producer: i64,
) -> Result<Config<A>, AllocError>
    ensures { IfOk result (λ config. HasTopicsOf (config_value asked.now) (config_value config)) }
{
    let topics = topics_again(alloc, &asked.topics)?;
    config_like(asked, topics, first_producer)
}

/// The topics of a snapshot, but for that of the groups; none where a name is no text.
fn former_topics<A: Allocator + Copy>(
    alloc: A,
    topics: &SnapshotTopics<'_>,
) -> Result<Option<Vec<TopicConfig<A>, A>>, AllocError> {
    let mut former = Vec::new(alloc);
    for topic in Topics::of(topics) {
        if topic.name == GROUP_TOPIC {
            continue;
        }
        let Ok(name) = std::str::from_utf8(topic.name) else {
            return Ok(None);
        };
        former.push(TopicConfig {
            name: String::from_str(alloc, name)?,
            partitions: topic.partitions.len(),
        })?;
    }
    Ok(Some(former))
}

/// How many topics a snapshot has, and how many partitions they have, but for that of the groups.
pub(crate) fn counts_of(topics: &SnapshotTopics<'_>) -> (u64, u64) {
    let (mut count, mut partitions) = (0_u64, 0_u64);
    for topic in Topics::of(topics) {
        if topic.name != GROUP_TOPIC {
            count = count.saturating_add(1);
            partitions = partitions.saturating_add(u64::from(topic.partitions.len()));
        }
    }
    (count, partitions)
}

/// What a snapshot is of, of a broker without an address: nothing is asked for beside it.
pub(crate) fn own_config<A: Allocator + Copy>(
    alloc: A,
    name: Name,
    head: &SnapshotHead<'_>,
) -> Result<Config<A>, StartFault<A>> {
    let role = role_of(name, head)?;
    let Some(topics) = former_topics(alloc, &head.topics)? else {
        return Err(bad_topics(name, version_of(head)));
    };
    Ok(Config {
        role,
        node_id: 0,
        host: String::new(alloc),
        port: 0,
        topics,
        first_producer: head.first_producer,
    })
}

/// What a snapshot is of: its topics and its first producer id, and else what is asked for.
pub(crate) fn former_config<A: Allocator + Copy>(
    alloc: A,
    name: Name,
    asked: &Config<A>,
    head: &SnapshotHead<'_>,
) -> Result<Config<A>, StartFault<A>> {
    match former_topics(alloc, &head.topics)? {
        Some(topics) => Ok(config_like(asked, topics, head.first_producer)?),
        None => Err(bad_topics(name, version_of(head))),
    }
}
