//! Requests as a broker's clients send them, and a frame read as one of them (Kafka's documentation,
//! "Protocol Guide"). What a request is made of, and the responses, are handed on.
#![tactic(auto)]

mod api;
mod api_versions;
mod clean;
mod clean_part;
mod cover;
mod deliver;
mod export;
mod export_delta;
mod fetch;
mod find_coordinator;
mod forget_group;
mod get;
mod import;
mod import_delta;
mod init_producer_id;
mod laws;
mod list_offsets;
mod metadata;
mod offset_commit;
mod offset_fetch;
mod parsing;
mod produce;
mod trim;

pub use api::{Api, LISTED_API_COUNT};
pub use api_versions::ApiVersionsRequest;
pub use clean::CleanRequest;
pub use clean_part::CleanPartRequest;
pub use cover::CoverRequest;
pub use deliver::DeliverRequest;
pub use export::ExportRequest;
pub use export_delta::{AskedRange, ExportDeltaRequest};
pub use fetch::{FetchPartition, FetchRequest};
pub use find_coordinator::FindCoordinatorRequest;
pub use forget_group::ForgetGroupRequest;
pub use frame_fields::{
    Array, Element, FieldFault, FrameError, MAX_FRAME, MAX_TOPIC_NAME, Name, Topic, Topics,
    fields_once, frames_once, is_topic_name, take_frame,
};
pub use get::GetRequest;
pub use import::ImportRequest;
pub use import_delta::ImportDeltaRequest;
pub use init_producer_id::InitProducerIdRequest;
pub use laws::one_outcome;
pub use list_offsets::{ListOffsetsPartition, ListOffsetsRequest};
pub use metadata::MetadataRequest;
pub use offset_commit::{OffsetCommitPartition, OffsetCommitRequest};
pub use offset_fetch::{OffsetFetchPartition, OffsetFetchRequest};
pub use parsing::{Request, RequestBody, parse};
pub use produce::{ProducePartition, ProduceRequest};
pub use responses as response;
pub use responses::laws as response_laws;
pub use trim::TrimRequest;
