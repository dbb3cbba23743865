//! The command line of the broker. What each subcommand does with its input, and the brokers that
//! listen, stand in crates of their own and are handed on.
#![tactic(auto)]

mod addresses;
mod asked;
mod calls;
mod cleaning;
mod command_line;
mod commands;
pub mod examples;
mod keeping;
mod refusals;
mod topics;

pub use calls::{
    checked_directory, run_check, run_line, run_serve, run_start, serve_port, start_options,
};
pub use cleaning_policy::Settings;
pub use command_line::CommandLine;
pub use listeners::{
    Answer, Config, ConfigError, Connection, DONE, Ended, FAILED, FAULTY, GROUP_TOPIC, ImagesError,
    KeptOptions, NO_MEMORY, Node, PromptStream, REFUSED, Refusal, Replies, Requests, Role,
    ServeOptions, SessionError, SessionFault, StartOptions, SyncWay, TableError, TopicConfig,
    answer_frames, line_ends_once, merge_stream, run_merge, run_replay, run_session, run_table,
    run_table_subcommand, serve,
};
