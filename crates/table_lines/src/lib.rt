//! The lines that a table is printed as, through a buffer before a sink.
//!
//! The buffer is a `Vec` of the caller's, which never grows: what it has no room for goes to the sink.
//! So writing takes no memory.
#![tactic(auto)]

mod lines;

pub use lines::{BUFFER_SIZE, line_ends_once, pass_on, put, put_line, write_lines};
