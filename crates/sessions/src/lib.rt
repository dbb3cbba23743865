//! Many clients of one broker: [`Sessions`] holds the broker and, of each client, the bytes that came and
//! aren't answered, and the replies that are owed and aren't sent.
//!
//! Whoever has the connections opens a session for each, visits one after the other, in any order, sends
//! each what it is owed, and closes those that are over. What a visit does, and a send, is defined by
//! `specs/Visits`; that all visits together answer one list of requests, one after the other, is a law of
//! `specs/Orders`: [`many_clients_are_one_list`].
#![tactic(auto)]

mod handler;
mod laws;
mod outbox;
mod replying;
mod session;
mod sessions;
mod visiting;
mod waiting;
mod waits;

pub use broker_node::{
    Answer, Config, ConfigError, ErrorCode, GROUP_TOPIC, MAX_FETCH_BYTES, MAX_HOST_BYTES,
    MAX_PARTITIONS, MAX_TOPICS, Node, Role, TopicConfig,
};
pub use handler::{Handler, Plainly, Unhandled};
pub use laws::many_clients_are_one_list;
pub use replying::{Next, NextError, answer_first};
pub use session::Session;
pub use sessions::Sessions;
pub use visiting::{Flushed, MOST_OWED, READ_PIECE, Seat, Then, Visit, Why};
