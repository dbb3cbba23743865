//! Metadata: the broker and its topics.

ghost use Rattle.std.specs.Prelude.{◌≡◌, ◌++◌, None, Some, map, OnOk, OnErr};
ghost use Rattle.std.specs.List.{flat_map};
ghost use Rattle.answering.specs.Writing.{Begins};
ghost use Rattle.responses.specs.Metadata.{metadata_topic_bytes};
ghost use Rattle.request_frames.specs.Metadata.{metadata_view};
ghost use Rattle.log_requests.specs.Metadata.{metadata_of_topic, metadata_at, metadata_reply};
ghost use Rattle.log_requests.specs.Metadata.Names.{metadata_names, metadata_body};

mod names;
mod topics;

use crate::metadata::names::each_once;
use crate::metadata::topics::{put_broker, put_name, put_topic};
use answering::{Body, respond_with};
use broker_state::BrokerState;
use frame_fields::{Array, Name};
use request_frames::MetadataRequest;
use responses::laws::metadata_parts;
use segment::BatchStore;
use std::alloc::{AllocError, Allocator};

/// Appends what is said of all topics.
fn put_topics<S: BatchStore, A: Allocator + Copy>(
    state: &BrokerState<S>,
    out: &mut Vec<u8, A>,
) -> Result<(), AllocError>
    ensures appends { OnOk result (out.new.items ≡ out.old.items ++ flat_map metadata_topic_bytes
        (map (metadata_of_topic state.now.config) state.now.topics)) }
    ensures begins { OnErr result (Begins out.old.items out.new.items) }
{
    for topic in state.topics() {
        put_topic(state, topic, out)?;
    }
    Ok(())
}

/// Appends what is said of each of the names.
fn put_names<S: BatchStore, A: Allocator + Copy>(
    state: &BrokerState<S>,
    names: &[&[u8]],
    out: &mut Vec<u8, A>,
) -> Result<(), AllocError>
    ensures appends { OnOk result (out.new.items ≡ out.old.items ++ flat_map metadata_topic_bytes
        (map (metadata_at state.now) (map (λ name. name.now) names.now))) }
    ensures begins { OnErr result (Begins out.old.items out.new.items) }
{
    for name in names {
        put_name(state, *name, out)?;
    }
    Ok(())
}

/// Appends what is answered where all topics are asked for.
fn put_all<S: BatchStore, A: Allocator + Copy>(
    state: &BrokerState<S>,
    out: &mut Vec<u8, A>,
) -> Result<(), AllocError>
    ensures appends { OnOk result (out.new.items ≡ out.old.items ++ metadata_body state.now None) }
    ensures begins { OnErr result (Begins out.old.items out.new.items) }
{
    // A law for the proof: the parts are the whole.
    metadata_parts();
    put_broker(state, state.topics().len() as u32, out)?;
    put_topics(state, out)
}

/// Appends what is answered to names.
fn put_asked<'a, S: BatchStore, A: Allocator + Copy>(
    state: &BrokerState<S>,
    names: &Array<'a, Name<'a>>,
    out: &mut Vec<u8, A>,
) -> Result<(), AllocError>
    ensures appends { OnOk result (out.new.items
        ≡ out.old.items ++ metadata_body state.now (Some (metadata_names names.now))) }
    ensures begins { OnErr result (Begins out.old.items out.new.items) }
{
    // A law for the proof: the parts are the whole.
    metadata_parts();
    // The set has at most as many names, so their count fits as this one does.
    let _sent = names.len();
    let set = each_once(*out.allocator(), names.duplicate())?;
    put_broker(state, set.len() as u32, out)?;
    put_names(state, set.as_slice(), out)
}

/// A Metadata request, and what it is answered from.
#[derive(Drop)]
struct Listing<'q, 'r, S: BatchStore> {
    state: &'q BrokerState<S>,
    request: &'q MetadataRequest<'r>,
}

impl<'q, 'r, S: BatchStore> Body for Listing<'q, 'r, S> {
    ghost use Rattle.std.specs.Prelude.{None};
    ghost use Rattle.request_frames.specs.Metadata.{metadata_view};
    ghost use Rattle.log_requests.specs.Metadata.Names.{metadata_body};

    ghost bytes = { λ asked. metadata_body asked.state.now (metadata_view asked.request.now) };

    ghost size = { λ asked. None };

    fn put<A: Allocator + Copy>(&self, out: &mut Vec<u8, A>) -> Result<(), AllocError> {
        match &self.request.names {
            None => put_all(self.state, out),
            Some(names) => put_asked(self.state, names, out),
        }
    }
}

/// Appends the response to a Metadata request. It changes nothing else.
///
/// # Errors
///
/// `AllocError` where there is no memory for the response; the output is then as before.
pub fn reply_to_metadata<S: BatchStore, A: Allocator + Copy>(
    state: &BrokerState<S>,
    correlation: i32,
    request: &MetadataRequest<'_>,
    out: &mut Vec<u8, A>,
) -> Result<(), AllocError>
    ensures replies { OnOk result (out.new.items ≡ out.old.items
        ++ metadata_reply state.now correlation (metadata_view request.now)) }
    ensures unchanged_on_error { OnErr result (out.new.items ≡ out.old.items) }
{
    respond_with(correlation, &Listing { state, request }, out)
}
