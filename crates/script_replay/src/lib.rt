//! Scripts of events, replayed over a cluster, over any reader and writer.
//!
//! [`replay`] reads a script, makes its events happen in a [`Cluster`](cluster::Cluster), and prints what
//! comes of each.
#![tactic(auto)]

mod error;
mod items;
mod line;
mod printing;
mod replaying;
mod script;
mod words;

pub use error::ReplayError;
pub use items::Items;
pub use line::{BadLine, Line, Producer, parse_line};
pub use replaying::replay;
