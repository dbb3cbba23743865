//! A reader and a writer that remember whether a call of them has failed.
//!
//! A session makes many reads and writes, and what it answers at its end depends on whether one of
//! them failed. A [`Source`] is a reader with a flag, and a [`Sink`] a writer with one. The flag is set by
//! the call that fails, by no other, and is never cleared. A source counts its reads too.
//!
//! # What counts as a failure
//!
//! Every error of the reader or writer, one of the kind `Interrupted` included, and a write that
//! takes 0 bytes. A read that gives 0 bytes is the end of input, and no failure. Behind 2^64 - 1 reads one
//! more fails too, and isn't made.
//!
//! ```
//! let mut source = Source::new(reader);
//! let mut sink = Sink::new(writer);
//! let mut buf = [0; 64];
//! let count = source.read(&mut buf)?;
//! sink.write_all(&buf[..count])?;
//! // all that was read is written, and neither source.failed() nor sink.failed()
//! ```
#![tactic(auto)]

mod failed;
mod filling;
mod sink;
mod source;

pub use failed::{Failed, FillError};
pub use filling::{MOST_READS, fill};
pub use sink::Sink;
pub use source::Source;
