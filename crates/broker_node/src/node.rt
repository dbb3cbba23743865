//! A broker, as the program holds it.

ghost use Rattle.std.specs.Prelude.{◌≡◌, IfOk, IfErr};
ghost use Rattle.std.specs.Option.{option_map};
ghost use Rattle.broker_state.specs.State.{new_state, partition_at};
ghost use Rattle.broker_state.specs.Configs.{IsValidConfig, ConfigFault};
ghost use Rattle.broker_state.specs.ConfigValues.{config_value};
ghost use Rattle.broker_state.specs.Sound.{IsSound};

use broker_state::{BrokerState, Config, ConfigError};
use partition_log::PartitionLog;
use segment::BatchStore;
use std::marker::Model;

/// A broker: its configuration, the partitions of its topics, and the next producer id.
#[derive(Drop)]
pub struct Node<S: BatchStore> {
    pub(crate) state: BrokerState<S>,
}

impl<S: BatchStore> Model for Node<S> {
    ghost use Rattle.broker_state.specs.State.{State};

    ghost Value = { State };

    ghost view = { λ n. n.state };
}

impl<S: BatchStore> Node<S> {
    /// A broker of this configuration. Every partition is empty; the group topic comes beside the
    /// topics of the configuration.
    ///
    /// # Errors
    ///
    /// The first fault of the configuration, in the order of `ConfigError`; `OutOfMemory` where it has
    /// none, and there is no memory for its topics.
    pub fn new(alloc: S::Alloc, config: Config<S::Alloc>) -> Result<Node<S>, ConfigError>
        ensures valid { IfOk result (λ _. IsValidConfig (config_value config)) }
        ensures is_new { IfOk result (λ node. node ≡ new_state (config_value config)) }
        ensures is_sound { IfOk result IsSound }
        ensures refuses { IfErr result (ConfigFault (config_value config)) }
    {
        match BrokerState::new(alloc, config) {
            Ok(state) => Ok(Node { state }),
            Err(fault) => Err(fault),
        }
    }

    /// The broker that holds this.
    pub fn from_state(state: BrokerState<S>) -> Node<S>
        ensures { result ≡ state }
    {
        Node { state }
    }

    /// What the broker holds.
    pub fn state(&self) -> &BrokerState<S>
        ensures { result.now ≡ self.now }
    {
        &self.state
    }

    /// The copy of a topic's partition; none of a topic that isn't configured, or that has no such
    /// partition. It takes no memory.
    pub fn log(&self, topic: &[u8], partition: i32) -> Option<&PartitionLog<S>>
        ensures { option_map (λ log. log.now) result
            ≡ partition_at self.now topic.now partition }
    {
        self.state.log(topic, partition)
    }
}
