//! What each subcommand does between its input and its output: the table of a topic, a session, a
//! script, a merge of two images. The command line stands in `tcp_edge`, connections in `listeners`. What these name of
//! `broker_core` is handed on.
#![tactic(auto)]

mod error;
mod image_pairs;
mod merge_fault;
mod merging;
mod replaying;
mod session;
mod status;
mod table;
mod table_subcommand;

pub use broker_core::{
    Answer, Config, ConfigError, Ended, GROUP_TOPIC, Node, Role, SessionError, TopicConfig, serve,
};
pub use error::{ImagesError, Refusal, SessionFault, TableError};
pub use merge_fault::MergeFault;
pub use merging::{merge_stream, run_merge};
pub use replaying::run_replay;
pub use session::{answer_frames, refuse_configuration, run_session};
pub use status::{DONE, FAILED, FAULTY, NO_MEMORY, REFUSED, fail_session};
pub use table::run_table;
pub use table_lines::line_ends_once;
pub use table_subcommand::run_table_subcommand;
