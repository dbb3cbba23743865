//! Members of consumer groups (Kafka's documentation, "Design", section "The Consumer"): who is a member, which
//! generation of a group stands, and what each member is told. A value without clock, socket or log.
//! [`examples`] works a little of it out.
#![tactic(auto)]

mod coordinator;
pub mod examples;
mod group;
mod groups;
mod ids;
mod join_reply;
mod ledger;
mod member;
mod members;
mod name_index;
mod parts;
mod protocols;
mod ready;
mod request;
mod values;
mod who;

pub use coordinator::Coordinator;
pub use join_reply::JoinReply;
pub use parts::Parts;
pub use protocols::Protocols;
pub use ready::Ready;
pub use request::JoinRequest;
pub use values::{
    GroupError, LEAST_REBALANCE, LEAST_SESSION, MEMBER_BYTES, MOST_BYTES, MOST_GENERATION,
    MOST_IDS, MOST_SESSION, MOST_TIME, PROTOCOL_BYTES, Phase, Refusal, Settings, Wait,
};
