//! How far a copy of a partition was cleaned, and what a next part of a cleaning need not look at.
#![tactic(auto)]

mod extending;
mod marks;
mod progress;

pub use extending::Room;
pub use progress::Progress;
