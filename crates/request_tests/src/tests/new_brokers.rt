//! Why new brokers are refused whose first producer id is negative: no command line has one. `tests/rows/brokers.rows`,
//! `command_lines.rows`, `frames.rows` and `sessions.rows` have the other refusals, and the logs of a new broker.

use broker_node::{ConfigError, Node, Role};
use sample_brokers::brokers::{configured, prints};
use segment::{BatchStore, ProgramStore};
use std::test::Fail;

/// How many topics have no name that a topic may have, the first producer id, and the refusal. `configured` adds a
/// topic.
static PRODUCERS: [(u32, i64, &'static str); 4] = [
    (1, -1, "BadFirstProducer"),
    (1, i64::MIN, "BadFirstProducer"),
    (1, i64::MAX, "BadTopic"),
    (64, -1, "TooManyTopics"),
];

/// Why a broker at an empty host, with so many topics `.` and this first producer id, is refused; `None` where it isn't, or
/// memory lacks.
fn refused_producer<S: BatchStore>(
    alloc: S::Alloc,
    count: u32,
    first_producer: i64,
) -> Option<ConfigError> {
    let Ok(mut config) = configured(alloc, Role::Leader, 0, ".", count) else {
        return None;
    };
    config.first_producer = first_producer;
    match Node::<S>::new(alloc, config) {
        Ok(_) => None,
        Err(why) => Some(why),
    }
}

/// Whether a first producer id is judged behind the number of topics, and before them.
fn is_judged<S: BatchStore>(alloc: S::Alloc, row: &(u32, i64, &'static str)) -> bool {
    match refused_producer::<S>(alloc, row.0, row.1) {
        Some(why) => prints(alloc, why, row.2),
        None => false,
    }
}

#[test]
fn first_producers(rt: HostRuntime) -> Result<(), Fail> {
    for row in &PRODUCERS {
        assert!(rt;
            is_judged::<ProgramStore<_>>(rt.alloc(), row),
            "{}, {}",
            row.0,
            row.1
        );
    }
    Ok(())
}
