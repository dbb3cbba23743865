//! Brokers that listen: one that serves connections one after the other, and one that serves many at
//! once.
#![tactic(auto)]

mod accepting;
mod addresses;
mod checking;
mod connection;
mod connections;
mod ending;
mod incoming;
mod keeping;
mod marks;
mod options;
mod own_session;
mod parting;
mod progress;
mod reports;
mod rounds;
mod serving;
mod serving_sessions;
mod standard_streams;
mod starting;
mod units;
mod upkeep;

pub use checking::check_directory;
pub use connection::{Connection, Replies, Requests};
pub use options::{KeptOptions, ServeOptions, StartOptions, SyncWay};
pub use serving::listen;
pub use standard_streams::PromptStream;
pub use starting::start;
pub use subcommands::{
    Answer, Config, ConfigError, DONE, Ended, FAILED, FAULTY, GROUP_TOPIC, ImagesError, NO_MEMORY,
    Node, REFUSED, Refusal, Role, SessionError, SessionFault, TableError, TopicConfig,
    answer_frames, fail_session, line_ends_once, merge_stream, refuse_configuration, run_merge,
    run_replay, run_session, run_table, run_table_subcommand, serve,
};
