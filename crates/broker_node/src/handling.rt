//! One request, answered.

ghost use Rattle.std.specs.Prelude.{◌≡◌, IfOk, OnErr};
ghost use Rattle.request_frames.specs.Views.{request_body, request_value};
ghost use Rattle.broker_state.specs.Sound.{IsSound};
ghost use Rattle.broker_node.specs.Handling.{Handles};
ghost use Rattle.broker_node.specs.Answers.{answer_to};
ghost use Rattle.broker_node.specs.Exactly.{HandlesExactly, told_sufficed};

use crate::node::Node;
use answering::Memory;
use broker_state::BrokerState;
use copy_requests::{
    index_asked_key, reply_to_clean, reply_to_clean_part, reply_to_cover, reply_to_deliver,
    reply_to_export, reply_to_export_delta, reply_to_get, reply_to_import, reply_to_import_delta,
    reply_to_trim,
};
use group_requests::{
    index_asked_commits, reply_to_forget_group, reply_to_offset_commit, reply_to_offset_fetch,
};
use log_requests::{
    index_asked_times, reply_to_fetch, reply_to_list_offsets, reply_to_metadata, reply_to_produce,
};
use request_frames::{Request, RequestBody};
use segment::BatchStore;
use setup_requests::{reply_to_api_versions, reply_to_find_coordinator, reply_to_init_producer_id};
use std::alloc::{AllocError, Allocator};

/// What stands behind the output once a request was handled.
#[derive(Clone, Copy, PartialEq, Eq)]
pub enum Answer {
    /// One response frame.
    Reply,
    /// Nothing: a Produce request with acks 0 is not answered.
    Silent,
}

/// Whether a request is answered.
fn answer_to(body: &RequestBody<'_>) -> Answer
    ensures { result ≡ answer_to (request_body body.now) }
{
    match body {
        RequestBody::Produce(asked) if asked.acks == 0 => Answer::Silent,
        _ => Answer::Reply,
    }
}

/// Completes the indexes that a request is answered by, before it is answered, since a look-up borrows what
/// the broker holds. Nothing that is seen of it changes.
fn complete_indexes<S: BatchStore>(state: &mut BrokerState<S>, body: &RequestBody<'_>)
    ensures { state.new ≡ state.old }
{
    match body {
        RequestBody::ListOffsets(asked) => index_asked_times(state, asked),
        RequestBody::OffsetFetch(asked) => index_asked_commits(state, asked),
        RequestBody::Get(asked) => index_asked_key(state, asked),
        _ => {}
    }
}

/// What comes of a request that only reads: it is always told that memory sufficed.
fn only_reads(replied: Result<(), AllocError>) -> Result<Memory, AllocError>
    ensures { result ≡ told_sufficed replied }
{
    match replied {
        Ok(()) => Ok(Memory::Sufficed),
        Err(refused) => Err(refused),
    }
}

/// Does what a request asks for, appends its response, if it is answered, and tells whether memory sufficed.
#[tactic(auto, using(crate::proofs::ToldReplies::reads_fail))]
fn reply_to<S: BatchStore, A: Allocator + Copy>(
    state: &mut BrokerState<S>,
    request: &Request<'_>,
    out: &mut Vec<u8, A>,
) -> Result<Memory, AllocError>
    ensures handles { IfOk result (λ memory. HandlesExactly state.old (request_value request.now)
        out.old.items out.new.items memory state.new) }
    ensures unchanged_on_error { OnErr result
        ((state.new ≡ state.old) × (out.new.items ≡ out.old.items)) }
{
    let correlation = request.correlation;
    match &request.body {
        RequestBody::Produce(asked) => reply_to_produce(state, correlation, asked, out),
        RequestBody::Fetch(asked) => only_reads(reply_to_fetch(state, correlation, asked, out)),
        RequestBody::ListOffsets(asked) => only_reads(reply_to_list_offsets(
            state,
            correlation,
            asked,
            out,
        )),
        RequestBody::Metadata(asked) => only_reads(reply_to_metadata(
            state,
            correlation,
            asked,
            out,
        )),
        RequestBody::OffsetCommit(asked) => reply_to_offset_commit(state, correlation, asked, out),
        RequestBody::OffsetFetch(asked) => only_reads(reply_to_offset_fetch(
            state,
            correlation,
            asked,
            out,
        )),
        RequestBody::FindCoordinator(asked) => {
            only_reads(reply_to_find_coordinator(state, correlation, asked, out))
        }
        RequestBody::ApiVersions(asked) => {
            only_reads(reply_to_api_versions(correlation, asked, out))
        }
        RequestBody::InitProducerId(asked) => {
            reply_to_init_producer_id(state, correlation, asked, out)
        }
        RequestBody::Deliver(asked) => reply_to_deliver(state, correlation, asked, out),
        RequestBody::Clean(asked) => reply_to_clean(state, correlation, asked, out),
        RequestBody::CleanPart(asked) => reply_to_clean_part(state, correlation, asked, out),
        RequestBody::Export(asked) => only_reads(reply_to_export(state, correlation, asked, out)),
        RequestBody::ExportDelta(asked) => only_reads(reply_to_export_delta(
            state,
            correlation,
            asked,
            out,
        )),
        RequestBody::Import(asked) => reply_to_import(state, correlation, asked, out),
        RequestBody::ImportDelta(asked) => reply_to_import_delta(state, correlation, asked, out),
        RequestBody::Get(asked) => only_reads(reply_to_get(state, correlation, asked, out)),
        RequestBody::Cover(asked) => only_reads(reply_to_cover(state, correlation, asked, out)),
        RequestBody::ForgetGroup(asked) => reply_to_forget_group(state, correlation, asked, out),
        RequestBody::Trim(asked) => reply_to_trim(state, correlation, asked, out),
    }
}

impl<S: BatchStore> Node<S> {
    /// Handles a request: does what it asks for, and appends the response frame to the output, if the
    /// request is answered.
    ///
    /// Where an entry's work lacks memory (for a batch, a look-up, a cleaning, an image, a delta, a
    /// merge, a group's keys), its partition is as it was, its own answer is the error code of a storage
    /// error, and the request's other entries are handled.
    ///
    /// # Errors
    ///
    /// `AllocError` where there is no memory for the response. Then nothing was done, and the output
    /// is as before.
    #[tactic(auto, using(crate::proofs::ToldReplies::exactly_handled))]
    pub fn handle<A: Allocator + Copy>(
        &mut self,
        request: &Request<'_>,
        out: &mut Vec<u8, A>,
    ) -> Result<Answer, AllocError>
        ensures handles { IfOk result (λ answer. Handles self.old (request_value request.now)
            out.old.items out.new.items answer self.new) }
        ensures unchanged_on_error { OnErr result
            ((self.new ≡ self.old) × (out.new.items ≡ out.old.items)) }
        ensures is_sound { IsSound self.new }
    {
        self.handle_exactly(request, out)?;
        Ok(answer_to(&request.body))
    }

    /// Handles a request as `handle` does, and tells whether memory sufficed for it, where it may change
    /// something: then the reply and the state after are those that the state and the request make. Where it
    /// lacked for each entry, the broker is as it was; where it lacked in part, the request has several, and
    /// some of it may have been done. Of a request that only reads it is always told that memory sufficed.
    ///
    /// Of a Produce request with acks 0 it is told too, though no client sees it.
    ///
    /// # Errors
    ///
    /// `AllocError` where there is no memory for the response. Then nothing was done, and the output is as
    /// before.
    pub fn handle_exactly<A: Allocator + Copy>(
        &mut self,
        request: &Request<'_>,
        out: &mut Vec<u8, A>,
    ) -> Result<Memory, AllocError>
        ensures handles { IfOk result (λ memory. HandlesExactly self.old (request_value request.now)
            out.old.items out.new.items memory self.new) }
        ensures unchanged_on_error { OnErr result
            ((self.new ≡ self.old) × (out.new.items ≡ out.old.items)) }
        ensures is_sound { IsSound self.new }
    {
        complete_indexes(&mut self.state, &request.body);
        let replied = reply_to(&mut self.state, request, out);
        // Known for the caller, whatever is answered.
        self.state.know_sound();
        replied
    }
}
