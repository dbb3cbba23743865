//! A frame read as a request.

ghost use Rattle.std.specs.Prelude.{◌≡◌, ◌<◌, ◌≤◌, drop, length, IfOk, IfErr, IfSome, IfNone};
ghost use Rattle.frame_fields.specs.Reading.{Gives};
ghost use Rattle.request_frames.specs.Apis.{is_unread};
ghost use Rattle.request_frames.specs.Bodies.{read_body, read_request};
ghost use Rattle.request_frames.specs.Requests.BodyValue.{api_versions};
ghost use Rattle.request_frames.specs.Requests.{fields_of, body_fields, body_value, body_of, key_of, version_of, correlation_of, IsOf, IsRequest, IsRefused};
ghost use Rattle.request_frames.specs.Views.{request_body, request_value, IsHeaderOf};

use crate::api::Api;
use crate::api_versions::{ApiVersionsRequest, api_versions_at};
use crate::clean::{CleanRequest, clean_at};
use crate::clean_part::{CleanPartRequest, clean_part_at};
use crate::cover::{CoverRequest, cover_at};
use crate::deliver::{DeliverRequest, deliver_at};
use crate::export::{ExportRequest, export_at};
use crate::export_delta::{ExportDeltaRequest, export_delta_at};
use crate::fetch::{FetchRequest, fetch_at};
use crate::find_coordinator::{FindCoordinatorRequest, find_coordinator_at};
use crate::forget_group::{ForgetGroupRequest, forget_group_at};
use crate::get::{GetRequest, get_at};
use crate::import::{ImportRequest, import_at};
use crate::import_delta::{ImportDeltaRequest, import_delta_at};
use crate::init_producer_id::{InitProducerIdRequest, init_producer_id_at};
use crate::list_offsets::{ListOffsetsRequest, list_offsets_at};
use crate::metadata::{MetadataRequest, metadata_at};
use crate::offset_commit::{OffsetCommitRequest, offset_commit_at};
use crate::offset_fetch::{OffsetFetchRequest, offset_fetch_at};
use crate::produce::{ProduceRequest, produce_at};
use crate::trim::{TrimRequest, trim_at};
use frame_fields::fields::nullable_string;
use frame_fields::{FieldFault, FrameError};

/// A request, borrowed from its frame.
#[derive(Drop)]
pub struct Request<'a> {
    /// The number that the response repeats.
    pub correlation: i32,
    /// What is asked.
    pub body: RequestBody<'a>,
}

/// What a request asks.
#[derive(Drop)]
pub enum RequestBody<'a> {
    /// Record batches are to be appended.
    Produce(ProduceRequest<'a>),
    /// Record batches are wanted.
    Fetch(FetchRequest<'a>),
    /// Offsets are looked up by time.
    ListOffsets(ListOffsetsRequest<'a>),
    /// The topics and their partitions are listed.
    Metadata(MetadataRequest<'a>),
    /// Offsets that a group has reached are to be kept.
    OffsetCommit(OffsetCommitRequest<'a>),
    /// The offsets that a group has committed are wanted.
    OffsetFetch(OffsetFetchRequest<'a>),
    /// The coordinator of a group is wanted.
    FindCoordinator(FindCoordinatorRequest<'a>),
    /// The requests that are answered are wanted, with their versions.
    ApiVersions(ApiVersionsRequest),
    /// A producer wants an id.
    InitProducerId(InitProducerIdRequest<'a>),
    /// A record batch is to be put into a copy.
    Deliver(DeliverRequest<'a>),
    /// A copy is to be compacted.
    Clean(CleanRequest<'a>),
    /// A part of a copy is to be compacted.
    CleanPart(CleanPartRequest<'a>),
    /// The image of a copy is wanted.
    Export(ExportRequest<'a>),
    /// The delta of a copy is wanted.
    ExportDelta(ExportDeltaRequest<'a>),
    /// An image is to be taken into a copy.
    Import(ImportRequest<'a>),
    /// A delta is to be taken into a copy.
    ImportDelta(ImportDeltaRequest<'a>),
    /// The value of a key is wanted.
    Get(GetRequest<'a>),
    /// The offsets that a copy has seen are wanted.
    Cover(CoverRequest<'a>),
    /// The offsets that a group has committed are to be forgotten.
    ForgetGroup(ForgetGroupRequest<'a>),
    /// The start of a copy is to be moved.
    Trim(TrimRequest<'a>),
}

/// The fixed fields that each request begins with.
#[derive(Clone, Copy)]
struct Header {
    key: i16,
    version: i16,
    correlation: i32,
}

fn header_at(frame: &[u8]) -> Option<Header>
    ensures found { IfSome result (λ h. (8 ≤ length frame.now) × IsHeaderOf frame.now h) }
    ensures none { IfNone result (length frame.now < 8) }
{
    let (first, _body) = frame.split_first_chunk::<8>()?;
    Some(Header {
        key: i16::from_be_bytes([first[0], first[1]]),
        version: i16::from_be_bytes([first[2], first[3]]),
        correlation: i32::from_be_bytes([first[4], first[5], first[6], first[7]]),
    })
}

/// Whether a frame is ApiVersions in a version that isn't read.
fn is_unread(header: Header) -> bool
    ensures { result ≡ is_unread header.key header.version }
{
    header.key == Api::ApiVersions.key() && header.version != Api::ApiVersions.version()
}

/// The ApiVersions request of which nothing but the header is read.
fn unread_request<'a>(header: Header) -> Request<'a>
    ensures { request_value result
        ≡ record { correlation = header.correlation; body = api_versions header.version } }
{
    let version = header.version;
    Request {
        correlation: header.correlation,
        body: RequestBody::ApiVersions(ApiVersionsRequest { version }),
    }
}

/// What a request asks, and the bytes after its fields.
fn body_at(api: Api, bytes: &[u8]) -> Result<(RequestBody<'_>, &[u8]), FieldFault>
    ensures { Gives (λ x. (request_body x.0, x.1.now)) result
        (read_body api bytes.now) }
{
    match api {
        Api::Produce => produce_at(bytes),
        Api::Fetch => fetch_at(bytes),
        Api::ListOffsets => list_offsets_at(bytes),
        Api::Metadata => metadata_at(bytes),
        Api::OffsetCommit => offset_commit_at(bytes),
        Api::OffsetFetch => offset_fetch_at(bytes),
        Api::FindCoordinator => find_coordinator_at(bytes),
        Api::ApiVersions => api_versions_at(bytes),
        Api::InitProducerId => init_producer_id_at(bytes),
        Api::Deliver => deliver_at(bytes),
        Api::Clean => clean_at(bytes),
        Api::CleanPart => clean_part_at(bytes),
        Api::Export => export_at(bytes),
        Api::ExportDelta => export_delta_at(bytes),
        Api::Import => import_at(bytes),
        Api::ImportDelta => import_delta_at(bytes),
        Api::Get => get_at(bytes),
        Api::Cover => cover_at(bytes),
        Api::ForgetGroup => forget_group_at(bytes),
        Api::Trim => trim_at(bytes),
    }
}

/// What a request asks behind its client id, and the bytes after its fields.
#[tactic(auto, unfolding(crate::specs::Bodies::read_request))]
fn body_after_client(api: Api, bytes: &[u8]) -> Result<(RequestBody<'_>, &[u8]), FieldFault>
    ensures { Gives (λ x. (request_body x.0, x.1.now)) result
        (read_request api bytes.now) }
{
    let (_client, rest) = nullable_string(bytes)?;
    body_at(api, rest)
}

/// The request behind a frame's header.
fn request_after<'a>(api: Api, correlation: i32, frame: &'a [u8]) -> Result<Request<'a>, FrameError>
    requires is_of_api { IsOf api frame.now }
    requires correlates { correlation ≡ correlation_of frame.now }
    ensures reads { IfOk result (λ q. IsRequest frame.now (request_value q)) }
    ensures refuses { IfErr result (λ e. IsRefused e frame.now) }
{
    let (_header, body) = frame.split_at(8);
    let (body, rest) = match body_after_client(api, body) {
        Ok(found) => found,
        Err(FieldFault::ShortBody) => return Err(FrameError::ShortBody),
        Err(FieldFault::Malformed) => return Err(FrameError::Malformed),
    };
    if rest.is_empty() {
        Ok(Request { correlation, body })
    } else {
        Err(FrameError::TrailingBytes)
    }
}

/// The request that the whole of a frame's bytes encode; the frame stands without its size field.
///
/// It takes no memory: names, records and arrays are borrowed from the frame. Unused fields may have
/// any value.
///
/// # Errors
///
/// In this order: `ShortHeader` under 8 bytes; `UnknownApi` for another api key; `BadVersion` for another
/// version of it, but never for ApiVersions, which in a version other than 0 is a request whatever follows
/// its first 8 bytes; then from the left, whichever comes first, `ShortBody` where the frame ends
/// inside a field and `Malformed` where a length or a count is below what its type allows;
/// `TrailingBytes` where bytes are left after the last field. No other.
pub fn parse(frame: &[u8]) -> Result<Request<'_>, FrameError>
    ensures reads { IfOk result (λ q. IsRequest frame.now (request_value q)) }
    ensures refuses { IfErr result (λ e. IsRefused e frame.now) }
{
    let Some(header) = header_at(frame) else {
        return Err(FrameError::ShortHeader);
    };
    if is_unread(header) {
        return Ok(unread_request(header));
    }
    let api = Api::find(header.key, header.version)?;
    request_after(api, header.correlation, frame)
}
