//! The fields that requests and responses are made of, their readers, and the frames that they stand in
//! (Kafka's documentation, "Protocol Guide").
#![tactic(auto)]

mod array;
mod error;
pub mod fields;
mod frame;
mod laws;
mod names;
mod topic;
mod topics;

pub use array::{Array, Element, array_at, nullable_array_at};
pub use error::{FieldFault, FrameError};
pub use frame::{MAX_FRAME, SIZE_BYTES, first_frame, take_frame};
pub use laws::{fields_once, frames_once, reading_is_exact};
pub use names::{MAX_TOPIC_NAME, is_topic_name};
pub use topic::{Name, Topic};
pub use topics::Topics;
