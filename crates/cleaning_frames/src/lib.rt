//! The frames by which a broker cleans itself: it asks itself for a cleaning as a client does, and reads the response.
//!
//! ```
//! put_clean_frame(&mut input, correlation, topic, partition, upto, tomb_before)?;
//! answer(&input, &mut output)?;
//! let Some(answer) = read_clean_reply(&output) else { .. };
//! ```
#![tactic(auto)]

mod asking;
mod asking_parts;
mod replies;
#[cfg(test)]
mod tests;

pub use asking::put_clean_frame;
pub use asking_parts::put_clean_part_frame;
pub use replies::{CLEAN_REPLY_BYTES, read_clean_reply};
pub use responses::clean::CleanAnswer;
